//! Laws on the text of schedules.

ghost use Rattle.std.specs.Prelude.{◌≡◌, ◌≤◌, ◌⊎◌, ◌+◌, ◌^◌, ℕ, List, length};
ghost use Rattle.std.specs.List.{All};
ghost use Rattle.mm_sched.specs.declared.entry.Entry.{Entry};
ghost use Rattle.mm_sched.specs.declared.schedule.Line.{Line};
ghost use Rattle.mm_sched.specs.declared.schedule.TheConstants.{MAX_ENTRIES, FULL};
ghost use Rattle.mm_sched.specs.ScheduleText.{entries_in, IsEntry, IsSchedule, IsBadLine};
ghost use Rattle.mm_sched.specs.Spelling.{spell};

/// A text is a schedule of one list of lines, or has one bad line.
pub fn a_text_is_read_in_one_way()
    ensures one_schedule { (text : List ℕ) (ls ms : List Line) → IsSchedule text ls → IsSchedule text ms → ls ≡ ms }
    ensures one_bad_line { (text : List ℕ) (j k : ℕ) → IsBadLine text j → IsBadLine text k → j ≡ k }
    ensures not_both { (text : List ℕ) (ls : List Line) (k : ℕ) → IsSchedule text ls → ¬ (IsBadLine text k) }
    ensures one_of_them { (text : List ℕ) →
        ((ls : List Line) × IsSchedule text ls) ⊎ ((k : ℕ) × IsBadLine text k) }
{}

/// What is spelled for few enough entries is the text of a schedule, which has these entries.
pub fn what_is_spelled_is_read()
    ensures { (es : List Entry) → length es ≤ MAX_ENTRIES → All IsEntry es →
        (ls : List Line) × IsSchedule (spell es) ls × (entries_in ls ≡ es) }
{}

/// A text stands for ten million entries at most, and a line for all that a number of 32 bits counts.
pub fn a_text_has_its_limits()
    ensures entries { MAX_ENTRIES ≡ 10000000 }
    ensures of_a_line { FULL + 1 ≡ 2 ^ 32 }
{}
