ghost use Rattle.std.specs.Prelude.{◌≡◌, ◌+◌, ◌<◌, ◌^◌, ◌++◌, ◌∷◌, [], replicate, OnOk, IfOk, string_bytes};
ghost use Rattle.mm_sched.specs.ScheduleText.{newline, entries_in, entries_of};
ghost use Rattle.mm_sched.specs.Spelling.{last_part, text_of, spelled_lines, spell};
ghost use Rattle.mm_sched.specs.ScheduleText.{times};
ghost use Rattle.mm_sched.specs.reading.Writing.{lines_text};
ghost use Rattle.mm_sched.specs.reading.Writing.{held_line, closed, joined, filled, grown, written_some, held_some, written, held_behind};

use super::entry::Entry;
use super::schedule::{FULL, Line, Schedule};
use mm_goto::NoMemory;
use mm_goto::text::{put, put_int, put_number};
use std::alloc::Global;

/// Steps of one thread that are not written yet, fewer than fill a line.
#[derive(Clone, Copy, Debug, PartialEq, Eq)]
pub struct Held {
    pub thread: u32,
    pub steps: u32,
}

// A line without its newline.
fn put_text(alloc: Global, out: &mut String, item: Entry, count: u32) -> Result<(), NoMemory>
    ensures { OnOk result (string_bytes out.new ≡ string_bytes out.old ++ text_of item count) }
{
    match item {
        Entry::Step(thread) if count == 1 => {
            put(out, "step ")?;
            put_number(alloc, out, u64::from(thread))
        }
        Entry::Step(thread) => {
            put(out, "steps ")?;
            put_number(alloc, out, u64::from(thread))?;
            put(out, " ")?;
            put_number(alloc, out, u64::from(count))
        }
        Entry::In(thread, value) => {
            put(out, "in ")?;
            put_number(alloc, out, u64::from(thread))?;
            put(out, " ")?;
            put_int(alloc, out, value)
        }
        Entry::Flush(thread) => {
            put(out, "flush ")?;
            put_number(alloc, out, u64::from(thread))
        }
        Entry::FlushCell(thread, cell) => {
            put(out, "flush ")?;
            put_number(alloc, out, u64::from(thread))?;
            put(out, " ")?;
            put_number(alloc, out, u64::from(cell))
        }
    }
}

fn put_line(alloc: Global, out: &mut String, item: Entry, count: u32) -> Result<(), NoMemory>
    ensures { OnOk result (string_bytes out.new ≡ string_bytes out.old ++ lines_text (times item count ∷ [])) }
{
    put_text(alloc, out, item, count)?;
    put(out, "\n")
}

#[tactic(auto, using(crate::proofs::Spelled::lines_more))]
fn put_lines(alloc: Global, out: &mut String, item: Entry, count: u32) -> Result<(), NoMemory>
    ensures { OnOk result (string_bytes out.new ≡ string_bytes out.old ++ lines_text (replicate count (times item 1))) }
{
    for _written in 0..count {
        put_line(alloc, out, item, 1)?;
    }
    Ok(())
}

fn put_held(alloc: Global, out: &mut String, held: Held) -> Result<(), NoMemory>
    ensures { OnOk result (string_bytes out.new ≡ string_bytes out.old ++ lines_text (held_line held)) }
{
    if held.steps == 0 {
        Ok(())
    } else {
        put_line(alloc, out, Entry::Step(held.thread), held.steps)
    }
}

fn put_closed(alloc: Global, out: &mut String, held: Held, thread: u32) -> Result<(), NoMemory>
    ensures { OnOk result (string_bytes out.new ≡ string_bytes out.old ++ lines_text (closed held thread)) }
{
    if thread == held.thread {
        Ok(())
    } else {
        put_held(alloc, out, held)
    }
}

// What is held before steps of the thread.
fn joined(held: Held, thread: u32) -> Held
    ensures { result ≡ joined held thread }
{
    if thread == held.thread {
        held
    } else {
        Held { thread, steps: 0 }
    }
}

fn put_filled(alloc: Global, out: &mut String, held: Held, steps: u32) -> Result<(), NoMemory>
    ensures { OnOk result (string_bytes out.new ≡ string_bytes out.old ++ lines_text (filled held steps)) }
{
    if u64::from(held.steps) + u64::from(steps) < u64::from(FULL) {
        Ok(())
    } else {
        put_line(alloc, out, Entry::Step(held.thread), FULL)
    }
}

// What is held behind so many more steps.
fn grown(held: Held, steps: u32) -> Held
    requires { held.steps < FULL }
    ensures { result ≡ grown held steps }
{
    let thread = held.thread;
    let sum = u64::from(held.steps) + u64::from(steps);
    let steps = if sum < u64::from(FULL) {
        sum
    } else {
        sum - u64::from(FULL)
    };
    Held {
        thread,
        steps: steps as u32,
    }
}

// Writes what is complete with a line, and says what is held behind it.
fn put_some(alloc: Global, out: &mut String, held: Held, line: Line) -> Result<Held, NoMemory>
    requires { held.steps < FULL }
    ensures text { OnOk result (string_bytes out.new ≡ string_bytes out.old ++ lines_text (written_some held line.item line.count)) }
    ensures held { IfOk result (λ next. next ≡ held_some held line.item line.count) }
{
    match line.item {
        Entry::Step(thread) => {
            put_closed(alloc, out, held, thread)?;
            let held = joined(held, thread);
            put_filled(alloc, out, held, line.count)?;
            Ok(grown(held, line.count))
        }
        item => {
            put_held(alloc, out, held)?;
            put_lines(alloc, out, item, line.count)?;
            Ok(Held {
                thread: held.thread,
                steps: 0,
            })
        }
    }
}

fn put_next(alloc: Global, out: &mut String, held: Held, line: Line) -> Result<Held, NoMemory>
    requires { held.steps < FULL }
    ensures text { OnOk result (string_bytes out.new ≡ string_bytes out.old ++ lines_text (written held line)) }
    ensures held { IfOk result (λ next. next ≡ held_behind held line) }
    ensures few { IfOk result (λ next. next.steps < FULL) }
{
    if line.count == 0 {
        Ok(held)
    } else {
        put_some(alloc, out, held, line)
    }
}

// Writes the lines between the first and the last.
fn put_between(alloc: Global, out: &mut String, lines: &[Line]) -> Result<(), NoMemory>
    ensures { OnOk result (string_bytes out.new ≡ string_bytes out.old ++ lines_text (spelled_lines (entries_in lines.now))) }
{
    let mut held = Held {
        thread: 0,
        steps: 0,
    };
    for line in lines {
        held = put_next(alloc, out, held, *line)?;
    }
    put_held(alloc, out, held)
}

/// The text of the schedule's entries: neighbouring steps of one thread stand in one line as far as that line can count,
/// whatever lines the schedule has them in.
#[tactic(auto, using(crate::proofs::RoundTrip::spell_parts))]
pub fn write_schedule(alloc: Global, schedule: &Schedule) -> Result<String, NoMemory>
    ensures { IfOk result (λ text. string_bytes text ≡ spell (entries_of schedule.now)) }
{
    let mut out = String::new(alloc);
    put(&mut out, "schedule 1\n")?;
    put_between(alloc, &mut out, schedule.lines.items())?;
    put(&mut out, "end\n")?;
    Ok(out)
}
