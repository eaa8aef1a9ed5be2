ghost use Rattle.std.specs.Prelude.{◌≡◌};
ghost use Rattle.mm_scope.specs.Faults.{rank, is_before, lesser};

use mm_goto::At;

/// The rule that is broken at a place.
#[derive(Clone, Copy)]
pub enum Rule {
    /// A name is declared that begins with `nondet_`, or in a source with `wm_`.
    ReservedName,
    /// `goto`, a label or an atomic section stands in a source.
    OutputOnly,
    /// The name stands already in the same scope.
    TwiceDeclared,
    /// The name stands for nothing there.
    UnknownName,
    /// The expression, the name or the statement does not fit where it stands.
    WrongType,
    /// A thread is started or joined where or how it may not be.
    BadThread,
    /// A function is called that can reach the function in which the call stands.
    Recursion,
}

impl Rule {
    fn rank(self) -> u8
        ensures { result ≡ rank self }
    {
        match self {
            Rule::ReservedName => 0,
            Rule::OutputOnly => 1,
            Rule::TwiceDeclared => 2,
            Rule::UnknownName => 3,
            Rule::WrongType => 4,
            Rule::BadThread => 5,
            Rule::Recursion => 6,
        }
    }
}

/// A rule that is broken, and where.
#[derive(Clone, Copy)]
pub struct Fault {
    pub rule: Rule,
    pub at: At,
}

impl Fault {
    /// Whether it is refused before the other: it stands before it, or at the same place under an earlier rule.
    #[tactic(auto, unfolding(crate::specs::Faults::is_before))]
    pub fn is_before(self, other: Fault) -> bool
        ensures { result ≡ is_before self other }
    {
        if self.at.line != other.at.line {
            self.at.line < other.at.line
        } else if self.at.column != other.at.column {
            self.at.column < other.at.column
        } else {
            self.rule.rank() < other.rule.rank()
        }
    }
}

/// The least of the faults so far, and one more.
#[tactic(auto, unfolding(crate::specs::Faults::lesser))]
pub fn lesser(least: Option<Fault>, fault: Fault) -> Option<Fault>
    ensures { result ≡ lesser least fault }
{
    match least {
        Some(least) if least.is_before(fault) => Some(least),
        _ => Some(fault),
    }
}
