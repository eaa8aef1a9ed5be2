ghost use Rattle.std.specs.Prelude.{◌≡◌, ◌<◌, ◌≤◌, OnOk, OnErr};
ghost use Rattle.std.specs.Io.KnownBytes.{Appends};
ghost use Rattle.mm_port.specs.Port.{Rose};
ghost use Rattle.mm_run.specs.Output.{AppendsPart};

use mm_port::{Failed, Sink};

/// Writes the whole text. Where a write fails, a part of it was written that lacks the end.
#[tactic(auto, using(crate::proofs::Writing::none_written, crate::proofs::Writing::more_written, crate::proofs::Writing::all_written, crate::proofs::Writing::part_written))]
pub fn write_output<O: Sink>(output: &mut O, text: &[u8]) -> Result<(), Failed>
    ensures ok { OnOk result (Appends (O.taken output.old) (O.taken output.new) text.now) }
    ensures part { OnErr result (AppendsPart (O.taken output.old) (O.taken output.new) text.now) }
    ensures later { O.faults output.old ≤ O.faults output.new }
    ensures kept { OnOk result (O.faults output.new ≡ O.faults output.old) }
    ensures failed { OnErr result (Rose (O.faults output.old) (O.faults output.new)) }
{
    let mut rest = text;
    while !rest.is_empty() {
        let count = output.write(rest)?;
        (_, rest) = rest.split_at(count);
    }
    Ok(())
}
