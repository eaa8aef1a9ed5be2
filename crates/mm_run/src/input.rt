ghost use Rattle.std.specs.Prelude.{◌≡◌, ◌+◌, ◌<◌, ◌≤◌, length, IfOk, OnOk, IsErrOf};
ghost use Rattle.mm_port.specs.Port.{Rose};
ghost use Rattle.mm_run.specs.Input.{AddsPiece, IsInput};

use mm_goto::NoMemory;
use mm_port::{Failed, Source};
use std::alloc::{AllocError, Global};

/// The most bytes that an input may have.
pub const MAX_INPUT: usize = 16_777_216;

/// How many bytes are asked for at once, at most.
const PIECE: usize = 4096;

/// An input, or that there is more than an input may have.
#[derive(Drop)]
pub enum Input {
    Whole(Vec<u8>),
    TooLong,
}

/// Why no input was read.
#[derive(Clone, Copy, Debug, PartialEq, Eq)]
pub enum InputFault {
    Failed,
    NoMemory,
}

impl From<Failed> for InputFault {
    ghost use Rattle.std.specs.Prelude.{◌≡◌};
    ghost use Rattle.mm_run.specs.declared.input.InputFault.TheVariants as fault;

    ghost from_gives = { λ _ e. e ≡ fault.Failed };

    fn from(_: Failed) -> InputFault {
        InputFault::Failed
    }
}

impl From<NoMemory> for InputFault {
    ghost use Rattle.std.specs.Prelude.{◌≡◌};
    ghost use Rattle.mm_run.specs.declared.input.InputFault.TheVariants as fault;

    ghost from_gives = { λ _ e. e ≡ fault.NoMemory };

    fn from(_: NoMemory) -> InputFault {
        InputFault::NoMemory
    }
}

impl From<AllocError> for InputFault {
    ghost use Rattle.std.specs.Prelude.{◌≡◌};
    ghost use Rattle.mm_run.specs.declared.input.InputFault.TheVariants as fault;

    ghost from_gives = { λ _ e. e ≡ fault.NoMemory };

    fn from(_: AllocError) -> InputFault {
        InputFault::NoMemory
    }
}

// Reads one piece, at most as long as `piece` is, and adds it to `bytes`.
fn read_piece<I: Source>(
    input: &mut I,
    piece: &mut [u8],
    bytes: &mut Vec<u8>,
) -> Result<usize, InputFault>
    requires { 0 < length piece.old }
    ensures read { IfOk result (AddsPiece (I.left input.old) (I.left input.new) bytes.old.items bytes.new.items (length piece.old)) }
    ensures later { I.faults input.old ≤ I.faults input.new }
    ensures ok { OnOk result (I.faults input.new ≡ I.faults input.old) }
    ensures no_memory { IsErrOf result InputFault.NoMemory → I.faults input.new ≡ I.faults input.old }
    ensures failed { IsErrOf result InputFault.Failed → Rose (I.faults input.old) (I.faults input.new) }
{
    let count = input.read(piece)?;
    bytes.extend_from_slice(&piece[..count])?;
    Ok(count)
}

/// Reads the input to its end, and no more than one byte past the greatest length.
#[tactic(auto, using(crate::proofs::Reading::consumes_none, crate::proofs::Reading::whole_at_end, crate::proofs::Reading::more_read, crate::proofs::Reading::too_long))]
pub fn read_input<I: Source>(alloc: Global, input: &mut I) -> Result<Input, InputFault>
    ensures read { IfOk result (IsInput (I.left input.old) (I.left input.new)) }
    ensures later { I.faults input.old ≤ I.faults input.new }
    ensures ok { OnOk result (I.faults input.new ≡ I.faults input.old) }
    ensures no_memory { IsErrOf result InputFault.NoMemory → I.faults input.new ≡ I.faults input.old }
    ensures failed { IsErrOf result InputFault.Failed → Rose (I.faults input.old) (I.faults input.new) }
{
    let mut bytes = Vec::new(alloc);
    let mut piece = [0u8; PIECE];
    while bytes.len() <= MAX_INPUT {
        let room = PIECE.min(MAX_INPUT + 1 - bytes.len());
        if read_piece(input, &mut piece[..room], &mut bytes)? == 0 {
            return Ok(Input::Whole(bytes));
        }
    }
    Ok(Input::TooLong)
}
