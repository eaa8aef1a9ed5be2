ghost use Rattle.std.specs.Prelude.{◌≡◌, ◌∷◌, [], OnOk};
ghost use Rattle.mm_scope.specs.Notes.{no_notes, all_noted, refusal, a_call, a_use, an_assertion};

use crate::fault::{Fault, Rule, lesser};
use mm_goto::{At, Ident, NoMemory};
use std::alloc::Global;
use std::marker::Model;

/// A call of a function in a function, by their numbers among the items.
#[derive(Clone, Copy)]
pub struct Call {
    pub caller: usize,
    pub callee: usize,
    pub at: At,
}

/// A thread that is started or joined in the outermost block of main.
#[derive(Drop)]
pub struct ThreadUse<'a> {
    /// The thread's function, where it is started.
    pub function: Option<&'a Ident>,
    /// Whether the variable that holds the thread is a local.
    pub local: bool,
    /// The variable that holds the thread.
    pub variable: &'a Ident,
    pub at: At,
}

impl<'a> Model for ThreadUse<'a> {
    ghost use Rattle.std.specs.Option.{option_map};
    ghost use Rattle.mm_scope.specs.Notes.{Use};

    ghost Value = { Use };

    ghost view = { λ u. record { function = option_map (λ f. f.now) u.function; local = u.local; variable = u.variable.now; at = u.at } };
}

/// What was found in a program's text: the least fault, and all else in its order.
#[derive(Drop)]
pub struct Notes<'a> {
    least: Option<Fault>,
    calls: Vec<Call>,
    uses: Vec<ThreadUse<'a>>,
    asserts: u32,
}

impl<'a> Model for Notes<'a> {
    ghost use Rattle.mm_scope.specs.Notes.{Noted};

    ghost Value = { Noted };

    ghost view = { λ n. record { least = n.least; calls = n.calls.items; uses = n.uses.items; asserts = n.asserts } };
}

impl<'a> Notes<'a> {
    pub fn new(alloc: Global) -> Notes<'a>
        ensures { result ≡ no_notes }
    {
        Notes {
            least: None,
            calls: Vec::new(alloc),
            uses: Vec::new(alloc),
            asserts: 0,
        }
    }

    #[tactic(auto, unfolding(crate::specs::Notes::noted))]
    pub fn refuse(&mut self, rule: Rule, at: At)
        ensures { self.new ≡ all_noted self.old (refusal rule at ∷ []) }
    {
        self.least = lesser(self.least, Fault { rule, at });
    }

    #[tactic(auto, unfolding(crate::specs::Notes::noted))]
    pub fn add_call(&mut self, call: Call) -> Result<(), NoMemory>
        ensures { OnOk result (self.new ≡ all_noted self.old (a_call call ∷ [])) }
    {
        self.calls.push(call)?;
        Ok(())
    }

    #[tactic(auto, unfolding(crate::specs::Notes::noted))]
    pub fn add_use(&mut self, thread: ThreadUse<'a>) -> Result<(), NoMemory>
        ensures { OnOk result (self.new ≡ all_noted self.old (a_use thread.entry ∷ [])) }
    {
        self.uses.push(thread)?;
        Ok(())
    }

    #[tactic(auto, unfolding(crate::specs::Notes::noted))]
    pub fn add_assertion(&mut self)
        ensures { self.new ≡ all_noted self.old (an_assertion ∷ []) }
    {
        if self.asserts < u32::MAX {
            self.asserts += 1;
        }
    }

    /// The least fault.
    pub fn least(&self) -> Option<Fault>
        ensures { result ≡ self.now.least }
    {
        self.least
    }

    pub fn calls(&self) -> &[Call]
        ensures { result.now ≡ self.now.calls }
    {
        self.calls.as_slice()
    }

    pub fn uses(&self) -> &[ThreadUse<'a>]
        ensures { result.now ≡ self.now.uses }
    {
        self.uses.as_slice()
    }

    /// How many assertions there are, or 2^32 - 1 where there are more.
    pub fn asserts(&self) -> u32
        ensures { result ≡ self.now.asserts }
    {
        self.asserts
    }
}
