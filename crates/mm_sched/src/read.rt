ghost use Rattle.std.specs.Prelude.{◌≡◌, ◌+◌, ◌<◌, ◌≤◌, ◌^◌, ◌++◌, ℕ, length, [], Some, None, Ok, IfOk, IfErr, IsSome, OnOk, OnErr, MatchOption, MatchResult};
ghost use Rattle.mm_sched.specs.declared.read.Stage.TheVariants.{First};
ghost use Rattle.std.specs.List.{list_all};
ghost use Rattle.std.specs.Char.{is_ascii_digit};
ghost use Rattle.mm_sched.specs.ScheduleText.{IsSchedule, IsFault};
ghost use Rattle.mm_sched.specs.reading.Reading.{Cut, cut, number_of, negative, positive, int_of, step_of, steps_of, in_of, flush_all_of, flush_cell_of, flush_of, form_of, line_of, counted, next, lines_of, is_ended, read_text, IsRead};

use super::entry::Entry;
use super::schedule::{Line, MAX_ENTRIES, SchedFault, Schedule};
use mm_goto::List;
use std::alloc::Global;

/// How far the whole lines of a text have come.
#[derive(Clone, Copy, Debug, PartialEq, Eq)]
pub enum Stage {
    /// The first line is to come.
    First,
    /// The lines behind the first have so many entries.
    Within(u32),
    /// The last line has come.
    Behind,
}

/// What comes of a whole line that fits.
#[derive(Clone, Copy, Debug, PartialEq, Eq)]
pub struct Passed {
    pub stage: Stage,
    pub line: Option<Line>,
}

// What stands before the first mark, and behind it.
fn cut(text: &str, mark: char) -> Option<(&str, &str)>
    requires { mark < 128 }
    ensures { MatchOption result (cut mark text.now ≡ None) (λ p. cut mark text.now ≡ Some (record { before = p.0.now; behind = p.1.now })) }
{
    text.split_once(mark)
}

fn all_digits(word: &[u8]) -> bool
    ensures { result ≡ list_all is_ascii_digit word.now }
{
    word.iter().all(|byte| byte.is_ascii_digit())
}

fn number_of(word: &str) -> Option<u32>
    ensures { result ≡ number_of word.now }
{
    let digits = word.as_bytes();
    if digits.is_empty() || !all_digits(digits) || (digits[0] == b'0' && digits.len() != 1) {
        return None;
    }
    match word.parse::<u32>() {
        Ok(number) => Some(number),
        Err(_) => None,
    }
}

// The int of that many below zero.
fn negative(number: u32) -> Option<i32>
    ensures { result ≡ negative number }
{
    if number == 0 || number > 2_147_483_648 {
        None
    } else {
        Some((-i64::from(number)) as i32)
    }
}

fn positive(number: u32) -> Option<i32>
    ensures { result ≡ positive number }
{
    if number < 2_147_483_648 {
        Some(number as i32)
    } else {
        None
    }
}

fn int_of(word: &str) -> Option<i32>
    ensures { result ≡ int_of word.now }
{
    match word.strip_prefix('-') {
        Some(digits) => negative(number_of(digits)?),
        None => positive(number_of(word)?),
    }
}

fn step_of(text: &str) -> Option<Line>
    ensures { result ≡ step_of text.now }
{
    let item = Entry::Step(number_of(text)?);
    Some(Line { item, count: 1 })
}

fn steps_of(text: &str) -> Option<Line>
    ensures { result ≡ steps_of text.now }
{
    let (thread, steps) = cut(text, ' ')?;
    let item = Entry::Step(number_of(thread)?);
    let count = number_of(steps)?;
    if count != 0 {
        Some(Line { item, count })
    } else {
        None
    }
}

fn in_of(text: &str) -> Option<Line>
    ensures { result ≡ in_of text.now }
{
    let (thread, value) = cut(text, ' ')?;
    let item = Entry::In(number_of(thread)?, int_of(value)?);
    Some(Line { item, count: 1 })
}

fn flush_all_of(text: &str) -> Option<Line>
    ensures { result ≡ flush_all_of text.now }
{
    let item = Entry::Flush(number_of(text)?);
    Some(Line { item, count: 1 })
}

fn flush_cell_of(thread: &str, cell: &str) -> Option<Line>
    ensures { result ≡ flush_cell_of (record { before = thread.now; behind = cell.now }) }
{
    let item = Entry::FlushCell(number_of(thread)?, number_of(cell)?);
    Some(Line { item, count: 1 })
}

fn flush_of(text: &str) -> Option<Line>
    ensures { result ≡ flush_of text.now }
{
    match cut(text, ' ') {
        None => flush_all_of(text),
        Some((thread, cell)) => flush_cell_of(thread, cell),
    }
}

// The line of a first word, and of the text behind it.
fn form_of(word: &str, text: &str) -> Option<Line>
    ensures { result ≡ form_of word.now text.now }
{
    match word {
        "step" => step_of(text),
        "steps" => steps_of(text),
        "in" => in_of(text),
        "flush" => flush_of(text),
        _ => None,
    }
}

// The line that a text without its newline is.
#[tactic(auto, unfolding(crate::specs::reading::Reading::line_of))]
fn line_of(text: &str) -> Option<Line>
    ensures { result ≡ line_of text.now }
{
    let (word, behind) = cut(text, ' ')?;
    form_of(word, behind)
}

// What comes of a line behind so many entries.
fn counted(entries: u32, line: Line) -> Option<Passed>
    ensures { result ≡ counted entries line }
{
    let entries = u64::from(entries) + u64::from(line.count);
    if entries <= u64::from(MAX_ENTRIES) {
        Some(Passed {
            stage: Stage::Within(entries as u32),
            line: Some(line),
        })
    } else {
        None
    }
}

// What comes of a whole line.
fn next(stage: Stage, line: &str) -> Option<Passed>
    ensures { result ≡ next stage line.now }
{
    match stage {
        Stage::First if line == "schedule 1" => Some(Passed {
            stage: Stage::Within(0),
            line: None,
        }),
        Stage::First => None,
        Stage::Within(_) if line == "end" => Some(Passed {
            stage: Stage::Behind,
            line: None,
        }),
        Stage::Within(entries) => counted(entries, line_of(line)?),
        Stage::Behind => None,
    }
}

// Whether a text may end where this is left of it.
fn is_ended(stage: Stage, left: &str) -> bool
    ensures { result ≡ is_ended stage left.now }
{
    match stage {
        Stage::Behind => left.is_empty(),
        _ => false,
    }
}

fn put(lines: &mut Vec<Line>, line: Option<Line>) -> Result<(), SchedFault>
    ensures ok { OnOk result (lines.new.items ≡ lines.old.items ++ lines_of line) }
    ensures no_memory { IfErr result (λ e. e ≡ SchedFault.NoMemory) }
    ensures kept { OnErr result (IsSome line) }
{
    if let Some(line) = line {
        lines.push(line)?;
    }
    Ok(())
}

fn read_text(alloc: Global, text: &str) -> Result<Vec<Line>, SchedFault>
    ensures { MatchResult result (λ lines. read_text First 1 text.now ≡ Ok lines.items) (IsRead (read_text First 1 text.now)) }
{
    let mut lines = Vec::new(alloc);
    let mut stage = Stage::First;
    let mut number = 1;
    let mut rest = text;
    while let Some((line, behind)) = cut(rest, '\n') {
        let Some(passed) = next(stage, line) else {
            return Err(SchedFault::BadLine(number));
        };
        put(&mut lines, passed.line)?;
        stage = passed.stage;
        number += 1;
        rest = behind;
    }
    if is_ended(stage, rest) {
        Ok(lines)
    } else {
        Err(SchedFault::BadLine(number))
    }
}

/// The schedule that the text is. A bad line is the first that does not fit, and where the text ends too early the one
/// that is missing.
pub fn read_schedule(alloc: Global, text: &str) -> Result<Schedule, SchedFault>
    ensures fits { IfOk result (λ schedule. IsSchedule text.now schedule.lines) }
    ensures fault { IfErr result (IsFault text.now) }
{
    match read_text(alloc, text) {
        Ok(lines) => Ok(Schedule {
            lines: List::new(lines),
        }),
        Err(fault) => Err(fault),
    }
}
