//! Entries of a schedule, and those that end a run.

ghost use Rattle.std.specs.Prelude.{◌≡◌, ◌++◌, map, replicate, IfOk, OnOk};
ghost use Rattle.mm_sched.specs.ScheduleText.{entries_in};
ghost use Rattle.mm_rungraph.specs.Extension.{flush_entry};

use mm_goto::{Model, NoMemory};
use mm_sched::{Entry, Line};
use std::alloc::Global;

fn flush_entry(model: Model, t: u32, store: (u32, i32)) -> Entry
    ensures { result ≡ flush_entry model t store }
{
    match model {
        Model::Tso => Entry::Flush(t),
        Model::Pso => Entry::FlushCell(t, store.0),
    }
}

/// Adds the flushes of the stores, which thread `t` has pending.
pub fn add_flushes(
    entries: &mut Vec<Entry>,
    model: Model,
    t: u32,
    stores: &[(u32, i32)],
) -> Result<(), NoMemory>
    ensures { OnOk result (entries.new.items ≡ entries.old.items ++ map (flush_entry model t) stores.now) }
{
    for store in stores {
        entries.push(flush_entry(model, t, *store))?;
    }
    Ok(())
}

fn add_line(entries: &mut Vec<Entry>, line: Line) -> Result<(), NoMemory>
    ensures { OnOk result (entries.new.items ≡ entries.old.items ++ replicate line.count line.item) }
{
    for _ in 0..line.count {
        entries.push(line.item)?;
    }
    Ok(())
}

/// The entries that the lines stand for.
pub fn entries_in(alloc: Global, lines: &[Line]) -> Result<Vec<Entry>, NoMemory>
    ensures { IfOk result (λ entries. entries.items ≡ entries_in lines.now) }
{
    let mut entries = Vec::new(alloc);
    for line in lines {
        add_line(&mut entries, *line)?;
    }
    Ok(entries)
}
