ghost use Rattle.std.specs.Prelude.{◌≡◌, IfOk};
ghost use Rattle.mm_cycles.specs.Walks.{sites_on};

use mm_goto::NoMemory;
use sqlite_items::Boxed;
use std::alloc::Global;

/// A closed walk over sites: a store, a later access that overtakes it, and the way back to the store.
#[derive(Drop)]
pub struct Walk {
    pub store: u32,
    pub later: u32,
    pub rest: Steps,
}

/// The sites of the way back, in order, without the store at the end.
#[derive(Drop)]
pub enum Steps {
    /// On to the store.
    Back,
    /// By way of the site.
    Go(u32, Boxed<Steps>),
}

/// The steps by these sites.
pub fn steps_by(alloc: Global, path: &[u32]) -> Result<Steps, NoMemory>
    ensures { IfOk result (λ steps. sites_on steps ≡ path.now) }
{
    match path {
        [] => Ok(Steps::Back),
        [first, rest @ ..] => Ok(Steps::Go(*first, Boxed::new(alloc, steps_by(alloc, rest)?)?)),
    }
}
