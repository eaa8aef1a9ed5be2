ghost use Rattle.std.specs.Prelude.{◌≡◌, ◌+◌, ◌<◌, ◌≤◌, ◌^◌, ℕ, List, length, codes, nat_eq, IfOk, string_bytes};
ghost use Rattle.std.specs.List.{starts_with};
ghost use Rattle.std.specs.Str.{chars};
ghost use Rattle.mm_goto.specs.Listing.{Listing};
ghost use Rattle.mm_goto.specs.Place.{place_after};
ghost use Rattle.mm_sched.specs.declared.entry.Rules.{Rules as RulesOf};
ghost use Rattle.mm_sched.specs.State.{initial};
ghost use Rattle.mm_sched.specs.ScheduleText.{IsFault, IsSchedule, entries_in};
ghost use Rattle.mm_run.specs.Answer.{AnswersParts, Replays};
ghost use Rattle.mm_run.specs.Lines.{bad_line, refusal_line, stuck_line, verdict_line};
ghost use Rattle.mm_run.specs.Program.{is_printed, side_for};
ghost use Rattle.mm_run.specs.reading.Sound.{CanRun};
ghost use Rattle.mm_run.specs.reading.Whole.{IsWholeMachine};

use crate::answer::{Answer, answer_fault, refused};
use crate::input::MAX_INPUT;
use crate::machine::{Machine, take_lines};
use crate::parts::split;
use crate::program::any_program;
use crate::status::Status;
use mm_buf::Buf;
use mm_goto::{NoMemory, Program};
use mm_lexer::end_of;
use mm_sc::Sc;
use mm_sched::{Line, Rules, SchedFault, read_schedule};
use mm_tree::Side;
use std::alloc::Global;

// The answer of a schedule that is a run.
fn ended(alloc: Global, verdict: Option<u32>) -> Result<Answer, NoMemory>
    ensures { IfOk result (λ answer. (answer.status ≡ Status.Done) × (string_bytes answer.output ≡ verdict_line verdict)) }
{
    let output = match verdict {
        Some(n) => format!(in alloc; "failed {n}\n")?,
        None => String::from_str(alloc, "no failure\n")?,
    };
    Ok(Answer {
        status: Status::Done,
        output,
    })
}

// The answer where the entry, counted from 1, is the first that is not enabled.
fn stuck(alloc: Global, entry: u32) -> Result<Answer, NoMemory>
    ensures { IfOk result (λ answer. (answer.status ≡ Status.Stuck) × (string_bytes answer.output ≡ stuck_line entry)) }
{
    Ok(Answer {
        status: Status::Stuck,
        output: format!(in alloc; "stuck: entry {entry}\n")?,
    })
}

// The answer where the line, counted from 1, is the first that does not fit.
fn bad_schedule(alloc: Global, line: u32) -> Result<Answer, NoMemory>
    ensures { IfOk result (λ answer. (answer.status ≡ Status.BadSchedule) × (string_bytes answer.output ≡ bad_line line)) }
{
    Ok(Answer {
        status: Status::BadSchedule,
        output: format!(in alloc; "bad schedule: line {line}\n")?,
    })
}

// What the lines of a schedule do on a machine at the start.
fn replay<M: Machine>(alloc: Global, machine: &mut M, lines: &[Line]) -> Result<Answer, NoMemory>
    requires start { M.state machine.old ≡ initial (M.program machine.old) }
    requires few { length (entries_in lines.now) + 1 < 2 ^ 32 }
    ensures { IfOk result (λ answer. (text : List ℕ) → IsSchedule text lines.now → Replays (M.rules machine.old) (M.program machine.old) text answer.status (string_bytes answer.output)) }
{
    match take_lines(machine, lines) {
        Ok(()) => ended(alloc, machine.verdict()),
        Err(taken) => stuck(alloc, taken + 1),
    }
}

// What the lines of a schedule do on the machine of the rules.
fn replay_on(
    alloc: Global,
    rules: &Rules,
    program: &Program,
    lines: &[Line],
) -> Result<Answer, NoMemory>
    requires whole { IsWholeMachine rules.now }
    requires sections { CanRun rules.now program.now }
    requires few { length (entries_in lines.now) + 1 < 2 ^ 32 }
    ensures { IfOk result (λ answer. (text : List ℕ) → IsSchedule text lines.now → Replays rules.now program.now text answer.status (string_bytes answer.output)) }
{
    match rules {
        Rules::Sc => {
            let mut machine = Sc::new(alloc, program)?;
            replay(alloc, &mut machine, lines)
        }
        Rules::Buffered(model, bound) => {
            let mut machine = Buf::new(alloc, program, *model, *bound)?;
            replay(alloc, &mut machine, lines)
        }
        Rules::Partial(_, _, _) => unreachable!(),
    }
}

// The answer where no schedule was read.
fn unread(alloc: Global, fault: SchedFault) -> Result<Answer, NoMemory>
    ensures { IfOk result (λ answer. (r : RulesOf) (p : Listing) (text : List ℕ) → IsFault text fault → Replays r p text answer.status (string_bytes answer.output)) }
{
    match fault {
        SchedFault::BadLine(line) => bad_schedule(alloc, line),
        SchedFault::NoMemory => Err(NoMemory),
    }
}

// What the text of a schedule gives.
fn replay_text(
    alloc: Global,
    rules: &Rules,
    program: &Program,
    schedule: &str,
) -> Result<Answer, NoMemory>
    requires whole { IsWholeMachine rules.now }
    requires sections { CanRun rules.now program.now }
    ensures { IfOk result (λ answer. Replays rules.now program.now schedule.now answer.status (string_bytes answer.output)) }
{
    match read_schedule(alloc, schedule) {
        Ok(schedule) => replay_on(alloc, rules, program, schedule.lines.items()),
        Err(fault) => unread(alloc, fault),
    }
}

// The answer to an input that lacks the line `%%`.
fn missing_part(alloc: Global, input: &str) -> Result<Answer, NoMemory>
    requires { length input.now ≤ MAX_INPUT }
    ensures { IfOk result (λ answer. (answer.status ≡ Status.Refused) × (string_bytes answer.output ≡ refusal_line (place_after (chars input.now)) (codes "missing part"))) }
{
    refused(alloc, end_of(input), "missing part")
}

fn begins_with(text: &str, front: &str) -> bool
    ensures { result ≡ starts_with nat_eq text.now front.now }
{
    text.as_bytes().starts_with(front.as_bytes())
}

fn is_printed(text: &str) -> bool
    ensures { result ≡ is_printed text.now }
{
    begins_with(text, "/* goto-mm 1")
}

// The side on which the text of a program is read.
fn side_for(rules: &Rules, text: &str) -> Side
    ensures { result ≡ side_for rules.now text.now }
{
    match rules {
        Rules::Sc => {
            if is_printed(text) {
                Side::Output
            } else {
                Side::Source
            }
        }
        Rules::Buffered(_, _) | Rules::Partial(_, _, _) => Side::Source,
    }
}

/// The answer of `replay` to a program and a schedule, on the machine of the rules.
pub fn answer_replay(alloc: Global, rules: &Rules, input: &str) -> Result<Answer, NoMemory>
    requires whole { IsWholeMachine rules.now }
    requires length { length input.now ≤ MAX_INPUT }
    ensures { IfOk result (λ answer. AnswersParts (side_for rules.now) (Replays rules.now) input.now answer.status (string_bytes answer.output)) }
{
    match split(input) {
        Some((program, schedule)) => match any_program(alloc, program, side_for(rules, program)) {
            Ok(program) => replay_text(alloc, rules, &program, schedule),
            Err(fault) => answer_fault(alloc, fault),
        },
        None => missing_part(alloc, input),
    }
}
