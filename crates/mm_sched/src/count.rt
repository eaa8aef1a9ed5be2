ghost use Rattle.std.specs.Prelude.{◌≡◌, length, min};
ghost use Rattle.mm_sched.specs.ScheduleText.{entries_in};

use super::schedule::Line;

/// How many entries the lines stand for, or the greatest `u64` where there are more.
pub fn entry_count(lines: &[Line]) -> u64
    ensures { result ≡ min (length (entries_in lines.now)) u64.MAX }
{
    let mut entries = 0u64;
    for line in lines {
        entries = entries.saturating_add(u64::from(line.count));
    }
    entries
}
