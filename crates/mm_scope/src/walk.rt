ghost use Rattle.std.specs.Prelude.{◌≡◌, OnOk, take};
ghost use Rattle.mm_scope.specs.Steps.{after, declaring, declaring_where, reserved, noting, adding, is_reserved_on};

use crate::fault::Rule;
use crate::notes::Notes;
use crate::scope::Scope;
use crate::table::Meaning;
use mm_goto::{At, Ident, NoMemory};
use mm_tree::Side;

/// How far a program's text is read: the names that are declared, and what was found.
#[derive(Drop)]
pub struct Walk<'a> {
    pub scope: Scope<'a>,
    pub notes: Notes<'a>,
}

/// Whether no name that is declared may be so on this side, but for a `nondet_` function.
pub fn is_reserved(side: Side, name: &Ident) -> bool
    ensures { result ≡ is_reserved_on side name.now }
{
    let name = name.text().as_bytes();
    match side {
        Side::Source => name.starts_with(b"wm_") || name.starts_with(b"nondet_"),
        Side::Output => name.starts_with(b"nondet_"),
    }
}

impl<'a> Walk<'a> {
    /// Notes a name that is reserved.
    #[tactic(auto, unfolding(crate::specs::Steps::after, crate::specs::Steps::reserved))]
    pub fn reserve(&mut self, side: Side, at: At, name: &Ident)
        ensures { self.new ≡ after (λ names. noting (reserved side at name.now)) self.old }
    {
        if is_reserved(side, name) {
            self.notes.refuse(Rule::ReservedName, at);
        }
    }

    /// Declares a local name, where it is not taken.
    #[tactic(auto, unfolding(crate::specs::Steps::after, crate::specs::Steps::declaring_where))]
    pub fn declare_where(
        &mut self,
        taken: bool,
        at: At,
        name: &'a Ident,
        meaning: Meaning,
    ) -> Result<(), NoMemory>
        ensures { OnOk result (self.new ≡ after (declaring_where taken at name.now meaning) self.old) }
    {
        if taken {
            self.notes.refuse(Rule::TwiceDeclared, at);
        } else {
            self.scope.add(name, meaning)?;
        }
        Ok(())
    }

    /// Declares a local name.
    #[tactic(auto, unfolding(crate::specs::Steps::after, crate::specs::Steps::declaring))]
    pub fn declare(
        &mut self,
        from: usize,
        at: At,
        name: &'a Ident,
        meaning: Meaning,
    ) -> Result<(), NoMemory>
        ensures { OnOk result (self.new ≡ after (declaring from at name.now meaning) self.old) }
    {
        let taken = self.scope.is_taken(from, name);
        self.declare_where(taken, at, name, meaning)
    }

    /// Adds a local name.
    #[tactic(auto, unfolding(crate::specs::Steps::after, crate::specs::Steps::adding), using(crate::proofs::Steps::seams))]
    pub fn add(&mut self, name: &'a Ident, meaning: Meaning) -> Result<(), NoMemory>
        ensures { OnOk result (self.new ≡ after (adding name.now meaning) self.old) }
    {
        self.scope.add(name, meaning)
    }

    /// Closes a scope: the local names are those of which there were so many.
    pub fn leave(&mut self, len: usize)
        ensures { self.new ≡ record self.old { scope = record self.old.scope { locals = take len self.old.scope.locals } } }
    {
        self.scope.close(len);
    }
}
