ghost use Rattle.std.specs.Prelude.{◌≡◌};
ghost use Rattle.mm_names.specs.Programs.{refusal_of};

use mm_goto::{At, NoMemory};
use mm_scope::{Fault, Rule};

/// Why a program makes no sense.
#[derive(Clone, Copy)]
pub enum NameFault {
    /// There is no `main` that gives `int` and has no parameters. The place is 1:1.
    NoMain(At),
    /// A name is declared that begins with `nondet_`, or in a source with `wm_`.
    ReservedName(At),
    /// `goto`, a label or an atomic section stands in a source.
    OutputOnly(At),
    /// The name stands already in the same scope, or the label in the same function.
    TwiceDeclared(At),
    /// The name stands for nothing there.
    UnknownName(At),
    /// The expression, the name or the statement does not fit where it stands.
    WrongType(At),
    /// A thread is started or joined where or how it may not be.
    BadThread(At),
    /// A function is called that can reach the function in which the call stands.
    Recursion(At),
    NoMemory,
}

impl From<NoMemory> for NameFault {
    ghost use Rattle.mm_names.specs.declared.refusal.NameFault.TheVariants.{NoMemory as MemoryFault};

    ghost from_gives = { λ _ e. e ≡ MemoryFault };

    fn from(_: NoMemory) -> NameFault {
        NameFault::NoMemory
    }
}

/// The refusal of a fault.
pub fn refusal_of(fault: Fault) -> NameFault
    ensures { result ≡ refusal_of fault }
{
    match fault.rule {
        Rule::ReservedName => NameFault::ReservedName(fault.at),
        Rule::OutputOnly => NameFault::OutputOnly(fault.at),
        Rule::TwiceDeclared => NameFault::TwiceDeclared(fault.at),
        Rule::UnknownName => NameFault::UnknownName(fault.at),
        Rule::WrongType => NameFault::WrongType(fault.at),
        Rule::BadThread => NameFault::BadThread(fault.at),
        Rule::Recursion => NameFault::Recursion(fault.at),
    }
}
