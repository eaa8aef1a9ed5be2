//! A file of cases.
ghost use Rattle.std.specs.Prelude.{◌≡◌, ◌↔◌, IsTrue};

use crate::case::Case;
use crate::fault::LineFault;
use crate::outside::{Answer, Call, Outside, answer_of};
use mm_run::Status;
use std::alloc::AllocError;
use std::{io, str};

#[derive(Drop)]
pub struct Counts {
    pub cases: u64,
    pub differ: u64,
}

/// Where a case begins.
#[derive(Clone, Copy)]
struct Place<'a> {
    file: &'a str,
    line: usize,
}

/// One call of `run`, and what it must give.
#[derive(Clone, Copy)]
struct Trial<'a> {
    words: &'a [String],
    input: &'a [u8],
    outside: Outside,
    status: u8,
    output: &'a [u8],
}

fn is_wanted(answer: &Answer, status: u8, output: &[u8]) -> bool
    ensures { IsTrue result ↔ ((answer.now.status ≡ status) × (answer.now.output.items ≡ output.now)) }
{
    answer.status == status && answer.output.as_slice() == output
}

/// Counts the call, and prints what it gives where that is not what it must give.
fn tell<R: Print + AllocGlobal>(
    rt: &R,
    place: Place<'_>,
    trial: Trial<'_>,
    counts: &mut Counts,
) -> io::Result<()> {
    counts.cases = counts.cases.saturating_add(1);
    let answer = answer_of(rt.alloc(), trial.words, trial.input, trial.outside)?;
    if !is_wanted(&answer, trial.status, trial.output) {
        counts.differ = counts.differ.saturating_add(1);
        let output = str::from_utf8(&answer.output).unwrap_or("no text");
        println!(rt;
            "{}:{} differs{}: {} {:?}",
            place.file, place.line, trial.outside, answer.status, output
        )?;
    }
    Ok(())
}

impl<'a> Trial<'a> {
    // The same in pieces of one byte, with this call failing.
    fn failing(self, call: Call) -> Trial<'a> {
        Trial {
            outside: Outside {
                piece: 1,
                fails: Some(call),
            },
            ..self
        }
    }
}

/// Fails each read in turn: one for each byte, one that finds the end, and one more that is never made.
fn tell_reads<R: Print + AllocGlobal>(
    rt: &R,
    place: Place<'_>,
    trial: Trial<'_>,
    counts: &mut Counts,
) -> io::Result<()> {
    let last = trial.input.len() as u64 + 1;
    for call in 1..=last {
        let failing = Trial {
            status: Status::ReadFault.number(),
            output: &[],
            ..trial.failing(Call::Read(call))
        };
        tell(rt, place, failing, counts)?;
    }
    tell(rt, place, trial.failing(Call::Read(last + 1)), counts)
}

/// Fails each write in turn: one for each byte, and one more that is never made.
fn tell_writes<R: Print + AllocGlobal>(
    rt: &R,
    place: Place<'_>,
    trial: Trial<'_>,
    counts: &mut Counts,
) -> io::Result<()> {
    let last = trial.output.len();
    for taken in 0..last {
        let failing = Trial {
            status: Status::WriteFault.number(),
            output: &trial.output[..taken],
            ..trial.failing(Call::Write(taken as u64 + 1))
        };
        tell(rt, place, failing, counts)?;
    }
    tell(
        rt,
        place,
        trial.failing(Call::Write(last as u64 + 1)),
        counts,
    )
}

fn tell_no_case(rt: &impl Print, place: Place<'_>, counts: &mut Counts) -> io::Result<()> {
    counts.cases = counts.cases.saturating_add(1);
    counts.differ = counts.differ.saturating_add(1);
    println!(rt; "{}:{} is no case", place.file, place.line)
}

fn run_case<R: Print + AllocGlobal>(
    rt: &R,
    place: Place<'_>,
    case: &Case,
    counts: &mut Counts,
) -> io::Result<()> {
    let (Some(words), Some(status)) = (&case.words, case.status) else {
        return tell_no_case(rt, place, counts);
    };
    for input in &case.inputs {
        let trial = Trial {
            words,
            input: input.bytes(),
            outside: case.outside,
            status,
            output: case.output.bytes(),
        };
        if case.each_call {
            tell_reads(rt, place, trial, counts)?;
            tell_writes(rt, place, trial, counts)?;
        } else {
            tell(rt, place, trial, counts)?;
        }
    }
    Ok(())
}

// The lines of a case, but for empty ones and notes.
fn has_case(paragraph: &str) -> bool {
    paragraph
        .lines()
        .any(|line| !line.is_empty() && !line.starts_with("#"))
}

/// Runs the cases of a file, which empty lines part, and counts them.
pub fn run_file<R: Print + AllocGlobal>(
    rt: &R,
    file: &str,
    text: &str,
    counts: &mut Counts,
) -> io::Result<()> {
    let mut line = 1usize;
    for paragraph in text.split("\n\n") {
        let place = Place { file, line };
        if has_case(paragraph) {
            match Case::read(rt.alloc(), paragraph) {
                Ok(case) => run_case(rt, place, &case, counts)?,
                Err(LineFault::NoForm) => tell_no_case(rt, place, counts)?,
                Err(LineFault::NoMemory) => return Err(AllocError.into()),
            }
        }
        line = line
            .saturating_add(paragraph.lines().count())
            .saturating_add(1);
    }
    Ok(())
}
