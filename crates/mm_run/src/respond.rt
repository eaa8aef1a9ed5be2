ghost use Rattle.std.specs.Prelude.{◌≡◌, ◌≤◌, length, IfOk, string_bytes, IsErrOf, OnOk};
ghost use Rattle.mm_port.specs.Port.{Rose};
ghost use Rattle.mm_run.specs.Answer.{AnswersText, AnswersWhole, IsOfInput, Responds};

use crate::answer::{Answer, answer_too_long, refused};
use crate::command::Settings;
use crate::cycles::answer_cycles;
use crate::input::{Input, InputFault, MAX_INPUT, read_input};
use crate::instrument::answer_instrument;
use crate::parts::text_of;
use crate::replay::answer_replay;
use mm_goto::NoMemory;
use mm_port::Source;
use mm_sched::Rules;
use std::alloc::Global;

fn answer_text(alloc: Global, settings: Settings, input: &str) -> Result<Answer, NoMemory>
    requires { length input.now ≤ MAX_INPUT }
    ensures { IfOk result (λ answer. AnswersText settings input.now answer.status (string_bytes answer.output)) }
{
    match settings {
        Settings::Instrument(model, bound) => answer_instrument(alloc, model, bound, input),
        Settings::Cycles(model, bound) => answer_cycles(alloc, model, bound, input),
        Settings::ReplaySc => answer_replay(alloc, &Rules::Sc, input),
        Settings::Replay(model, bound) => {
            answer_replay(alloc, &Rules::Buffered(model, bound), input)
        }
    }
}

// The answer to an input.
fn answer_whole(alloc: Global, settings: Settings, input: &[u8]) -> Result<Answer, NoMemory>
    requires { length input.now ≤ MAX_INPUT }
    ensures { IfOk result (λ answer. AnswersWhole settings input.now answer.status (string_bytes answer.output)) }
{
    match text_of(input) {
        Ok(text) => answer_text(alloc, settings, text),
        Err(at) => refused(alloc, at, "not UTF-8"),
    }
}

/// The answer to what is read.
#[tactic(auto, using(crate::proofs::Answering::responds_whole, crate::proofs::Answering::responds_long, crate::proofs::Answered::of_whole))]
pub fn respond<I: Source>(
    alloc: Global,
    settings: Settings,
    input: &mut I,
) -> Result<Answer, InputFault>
    ensures responds { IfOk result (λ answer. Responds settings (I.left input.old) (I.left input.new) answer.status (string_bytes answer.output)) }
    ensures of_input { IfOk result (λ answer. IsOfInput answer.status) }
    ensures ok { OnOk result (I.faults input.new ≡ I.faults input.old) }
    ensures no_memory { IsErrOf result InputFault.NoMemory → I.faults input.new ≡ I.faults input.old }
    ensures failed { IsErrOf result InputFault.Failed → Rose (I.faults input.old) (I.faults input.new) }
{
    match read_input(alloc, input)? {
        Input::Whole(bytes) => Ok(answer_whole(alloc, settings, &bytes)?),
        Input::TooLong => Ok(answer_too_long(alloc)?),
    }
}
