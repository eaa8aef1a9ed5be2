ghost use Rattle.std.specs.Prelude.{◌≡◌, ◌≤◌, ◌++◌, ◌∷◌, [], OnOk, IfOk, true, false, length, take};
ghost use Rattle.mm_scope.specs.Scopes.{meaning_of, is_taken, meaning_in, is_declared, with_name, named_as};

use crate::locals::Locals;
use crate::table::{Meaning, Table};
use mm_goto::{Ident, NoMemory};
use std::alloc::Global;
use std::marker::Model;

/// The names that are declared so far.
#[derive(Drop)]
pub struct Scope<'a> {
    globals: Table<'a>,
    locals: Locals<'a>,
}

impl<'a> Model for Scope<'a> {
    ghost use Rattle.mm_scope.specs.Scopes.{Names};

    ghost Value = { Names };

    ghost view = { λ s. record { globals = s.globals; locals = s.locals } };
}

impl<'a> Scope<'a> {
    /// The scope of these global names alone.
    pub fn new(alloc: Global, globals: Table<'a>) -> Scope<'a>
        ensures { result ≡ record { globals = globals.entry; locals = [] } }
    {
        Scope {
            globals,
            locals: Locals::new(alloc),
        }
    }

    /// What the name stands for, if it stands for anything.
    pub fn meaning_of(&self, name: &Ident) -> Option<Meaning>
        ensures { result ≡ meaning_of self.now name.now }
    {
        match self.locals.meaning_of(name) {
            Some(meaning) => Some(meaning),
            None => self.globals.meaning_of(name.text()),
        }
    }

    /// Declares a global. Whether it was declared already.
    pub fn declare(&mut self, name: &'a Ident, meaning: Meaning) -> Result<bool, NoMemory>
        ensures taken { IfOk result (λ taken. taken ≡ is_declared (meaning_in self.old.globals name.now)) }
        ensures same { IfOk result (λ taken. taken ≡ true → self.new ≡ self.old) }
        ensures new { IfOk result (λ taken. taken ≡ false → self.new ≡ record self.old { globals = with_name self.old.globals name.now meaning }) }
    {
        match self.globals.meaning_of(name.text()) {
            None | Some(Meaning::Ahead(_)) => {
                self.globals.set(name.text(), meaning)?;
                Ok(false)
            }
            Some(_) => Ok(true),
        }
    }

    /// Whether the name stands already in the block that was opened behind so many local names.
    pub fn is_taken(&self, from: usize, name: &Ident) -> bool
        ensures { result ≡ is_taken self.now from name.now }
    {
        self.locals.stands(from, name)
    }

    /// Adds a local name.
    pub fn add(&mut self, name: &'a Ident, meaning: Meaning) -> Result<(), NoMemory>
        ensures { OnOk result (self.new ≡ record self.old { locals = self.old.locals ++ named_as name.now meaning ∷ [] }) }
    {
        self.locals.add(name, meaning)
    }

    /// How many local names there are.
    pub fn len(&self) -> usize
        ensures { result ≡ length self.now.locals }
    {
        self.locals.len()
    }

    /// Takes the local names away that were added since there were so many.
    pub fn close(&mut self, len: usize)
        ensures { self.new ≡ record self.old { locals = take len self.old.locals } }
    {
        self.locals.close(len);
    }
}
