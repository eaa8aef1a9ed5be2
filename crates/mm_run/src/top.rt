ghost use Rattle.std.specs.Prelude.{◌≡◌, ◌≢◌, ◌↔◌, ◌≤◌, length, map, string_bytes, IfSome};
ghost use Rattle.mm_port.specs.Port.{Rose};
ghost use Rattle.mm_run.specs.declared.command.Settings.{Settings as Command};
ghost use Rattle.mm_run.specs.Answer.{Ends, WritesNothing, IsDoneOrKept};
ghost use Rattle.mm_run.specs.Accepted.{IsAccepted};
ghost use Rattle.mm_run.specs.Settings.{AskFor};

use crate::input::{InputFault, MAX_INPUT};
use crate::output::write_output;
use crate::respond::respond;
use crate::status::Status;
use crate::words::settings;
use mm_port::{Sink, Source};
use std::alloc::Global;

/// Runs the command of the words: reads the input to its end, and writes the output.
pub fn run<I: Source, O: Sink>(
    alloc: Global,
    words: &[String],
    input: &mut I,
    output: &mut O,
) -> Status
    // The words alone decide whether they are a command, and without one nothing is read or written.
    ensures words { (result ≡ Status.Words) ↔ ((s : Command) → AskFor (map string_bytes words.now) s → ⊥) }
    ensures unread { result ≡ Status.Words → input.new ≡ input.old }
    ensures unwritten { WritesNothing result → output.new ≡ output.old }

    // The status and what is written are those for what was read.
    ensures ends { (s : Command) → AskFor (map string_bytes words.now) s →
        Ends s (I.left input.old) (I.left input.new) (O.taken output.old) (O.taken output.new) result }

    // An input that is accepted is answered to its end, but where a fault or want of memory keeps it from that.
    ensures complete { (s : Command) → AskFor (map string_bytes words.now) s → IfSome (I.left input.old) (λ text.
        IsAccepted s text → length text ≤ MAX_INPUT → IsDoneOrKept result) }

    // A fault is told only where the input or the output failed.
    ensures read_fault { result ≡ Status.ReadFault → Rose (I.faults input.old) (I.faults input.new) }
    ensures input_kept { result ≢ Status.ReadFault → I.faults input.new ≡ I.faults input.old }
    ensures write_fault { result ≡ Status.WriteFault → Rose (O.faults output.old) (O.faults output.new) }
    ensures output_kept { result ≢ Status.WriteFault → O.faults output.new ≡ O.faults output.old }
{
    let Some(settings) = settings(words) else {
        return Status::Words;
    };
    match respond(alloc, settings, input) {
        Ok(answer) => match write_output(output, answer.output.as_bytes()) {
            Ok(()) => answer.status,
            Err(_) => Status::WriteFault,
        },
        Err(InputFault::Failed) => Status::ReadFault,
        Err(InputFault::NoMemory) => Status::NoMemory,
    }
}
