ghost use Rattle.std.specs.Prelude.{◌≡◌, false};
ghost use Rattle.mm_scope.specs.Parts.{guarded, in_loop};

use mm_tree::{Gives, Side};

/// Where a statement stands.
#[derive(Clone, Copy)]
pub struct Around {
    pub side: Side,
    /// The number of its function among the items.
    pub caller: usize,
    /// What its function gives.
    pub gives: Gives,
    /// How many local names stand before its scope.
    pub from: usize,
    pub looped: bool,
    /// In the outermost block of main.
    pub outermost: bool,
}

/// Behind `if` or `else`.
pub fn guarded(around: Around) -> Around
    ensures { result ≡ guarded around }
{
    Around {
        outermost: false,
        ..around
    }
}

pub fn in_loop(around: Around) -> Around
    ensures { result ≡ in_loop around }
{
    Around {
        looped: true,
        outermost: false,
        ..around
    }
}

/// In a scope that is opened behind so many local names.
pub fn inner(around: Around, from: usize) -> Around
    ensures { result ≡ record around { from = from; outermost = false } }
{
    Around {
        from,
        outermost: false,
        ..around
    }
}
