ghost use Rattle.std.specs.Prelude.{◌≡◌, codes, IfOk, string_bytes};
ghost use Rattle.mm_run.specs.Lines.{refusal_line};
ghost use Rattle.mm_run.specs.Refusal.{Tells};

use crate::program::ProgramFault;
use crate::status::Status;
use mm_goto::{At, NoMemory};
use std::alloc::Global;

/// A status, and the output that goes with it.
#[derive(Drop)]
pub struct Answer {
    pub status: Status,
    pub output: String,
}

/// The answer that a program is refused.
pub fn refused(alloc: Global, at: At, why: &str) -> Result<Answer, NoMemory>
    ensures { IfOk result (λ answer. (answer.status ≡ Status.Refused) × (string_bytes answer.output ≡ refusal_line at why.now)) }
{
    let line = at.line;
    let column = at.column;
    Ok(Answer {
        status: Status::Refused,
        output: format!(in alloc; "refused: {line}:{column} {why}\n")?,
    })
}

/// The answer to the text of a program that is refused.
pub fn answer_fault(alloc: Global, fault: ProgramFault) -> Result<Answer, NoMemory>
    ensures { IfOk result (λ answer. Tells fault answer.status (string_bytes answer.output)) }
{
    match fault {
        ProgramFault::Refused(refusal) => refused(alloc, refusal.at, &refusal.why),
        ProgramFault::NoMemory => Err(NoMemory),
    }
}

/// The answer to an input that is too long.
pub fn answer_too_long(alloc: Global) -> Result<Answer, NoMemory>
    ensures status { IfOk result (λ answer. answer.status ≡ Status.TooLong) }
    ensures output { IfOk result (λ answer. string_bytes answer.output ≡ codes "too long\n") }
{
    Ok(Answer {
        status: Status::TooLong,
        output: String::from_str(alloc, "too long\n")?,
    })
}
