ghost use Rattle.std.specs.Prelude.{◌≡◌, ◌+◌, ◌++◌, ◌∷◌, IfOk, OnOk, [], length, take};
ghost use Rattle.mm_flow.specs.Scopes.{local_of, named};
ghost use Rattle.mm_flow.specs.reading.Assembling.{count, with_label, with_labels, with_locals, with_mark, with_names, with_piece, with_seen};

use crate::locals::Locals;
use crate::names::Seen;
use mm_goto::{At, Ident, Instr, NoMemory, Pure};
use std::alloc::Global;
use std::marker::Model;

/// The labels to which code leaves what it stands in: behind a loop, at its next turn and at the end of a body, and the first
/// of the labels that the body's text has.
#[derive(Clone, Copy)]
pub struct Exits {
    pub behind: u32,
    pub next: u32,
    pub home: u32,
    pub base: u32,
}

/// An instruction whose jump leads to a label.
#[derive(Drop)]
pub enum Piece {
    Do(At, Instr),
    Branch(At, Pure, u32),
    Jump(At, u32),
}

/// A thread's code as it grows, with the names that are known behind it.
#[derive(Drop)]
pub struct Assembler {
    pieces: Vec<Piece>,
    marks: Vec<u32>,
    names: Locals,
    next: u32,
    seen: Seen,
}

impl Model for Assembler {
    ghost use Rattle.mm_flow.specs.reading.Assembling.{Assembly};
    ghost use Rattle.mm_goto.specs.contracts.pure.Pure as pure;
    ghost use Rattle.std.specs.Coded.{codes};

    ghost Value = { Assembly };

    ghost coded = { Prim.hlevel (codes, pure.the_row.coded) };

    ghost view = { λ a. record { known = record { names = a.names; next = a.next; seen = a.seen }; made = record { pieces = a.pieces.items; marks = a.marks.items } } };
}

impl Assembler {
    /// No code, behind so many assertions of the text.
    pub fn new(alloc: Global, asserts: u32) -> Assembler
        ensures { result ≡ record { known = record { names = []; next = 0; seen = record { asserts = asserts; starts = 0 } }; made = record { pieces = []; marks = [] } } }
    {
        Assembler {
            pieces: Vec::new(alloc),
            marks: Vec::new(alloc),
            names: Locals::new(alloc),
            next: 0,
            seen: Seen { asserts, starts: 0 },
        }
    }

    /// The next fresh local.
    pub fn next(&self) -> u32
        ensures { result ≡ self.now.known.next }
    {
        self.next
    }

    /// How many pieces there are.
    pub fn len(&self) -> usize
        ensures { result ≡ count self.now }
    {
        self.pieces.len()
    }

    /// What stands before.
    pub fn seen(&self) -> Seen
        ensures { result ≡ self.now.known.seen }
    {
        self.seen
    }

    /// The local of a name: the innermost where there are several.
    pub fn local(&self, x: &Ident) -> Option<u32>
        ensures { result ≡ local_of self.now.known.names x.now }
    {
        self.names.local(x)
    }

    /// How many locals have names.
    pub fn depth(&self) -> usize
        ensures { result ≡ length self.now.known.names }
    {
        self.names.len()
    }

    /// One more piece.
    pub fn put(&mut self, piece: Piece) -> Result<(), NoMemory>
        ensures code { OnOk result (self.new ≡ with_piece piece self.old) }
        ensures count { OnOk result (count self.new ≡ count self.old + 1) }
    {
        self.pieces.push(piece)?;
        Ok(())
    }

    /// A fresh label.
    pub fn label(&mut self) -> Result<u32, NoMemory>
        ensures label { IfOk result (λ l. l ≡ length self.old.made.marks) }
        ensures code { OnOk result (self.new ≡ with_label self.old) }
    {
        let Ok(label) = u32::try_from(self.marks.len()) else {
            return Err(NoMemory);
        };
        self.marks.push(0)?;
        Ok(label)
    }

    /// A fresh label for each name.
    pub fn reserve(&mut self, names: &[Ident]) -> Result<(), NoMemory>
        ensures code { OnOk result (self.new ≡ with_labels names.now self.old) }
    {
        for _name in names {
            self.label()?;
        }
        Ok(())
    }

    /// The label stands here.
    pub fn mark(&mut self, label: u32) -> Result<(), NoMemory>
        ensures code { OnOk result (self.new ≡ with_mark label self.old) }
    {
        let Ok(place) = u32::try_from(self.pieces.len()) else {
            return Err(NoMemory);
        };
        let label = label as usize;
        if label < self.marks.len() {
            self.marks[label] = place;
        }
        Ok(())
    }

    /// A fresh local.
    pub fn fresh(&mut self) -> Result<u32, NoMemory>
        ensures local { IfOk result (λ l. l ≡ self.old.known.next) }
        ensures code { OnOk result (self.new ≡ with_locals 1 self.old) }
    {
        let local = self.next;
        match local.checked_add(1) {
            Some(next) => {
                self.next = next;
                Ok(local)
            }
            None => Err(NoMemory),
        }
    }

    /// So many fresh locals.
    pub fn skip(&mut self, count: usize) -> Result<(), NoMemory>
        ensures code { OnOk result (self.new ≡ with_locals count self.old) }
    {
        let Ok(count) = u32::try_from(count) else {
            return Err(NoMemory);
        };
        match self.next.checked_add(count) {
            Some(next) => {
                self.next = next;
                Ok(())
            }
            None => Err(NoMemory),
        }
    }

    /// The name of a local.
    pub fn bind(&mut self, alloc: Global, name: &Ident, local: u32) -> Result<(), NoMemory>
        ensures code { OnOk result (self.new ≡ with_names (self.old.known.names ++ named name.now local ∷ []) self.old) }
    {
        self.names.push(alloc, name, local)
    }

    /// The names that were known before, so many, alone are known.
    pub fn leave(&mut self, depth: usize)
        ensures code { self.new ≡ with_names (take depth self.old.known.names) self.old }
    {
        self.names.truncate(depth);
    }

    /// One more assertion of the text stands before.
    pub fn pass_assertion(&mut self) -> Result<(), NoMemory>
        ensures code { OnOk result (self.new ≡ with_seen (record { asserts = self.old.known.seen.asserts + 1; starts = self.old.known.seen.starts }) self.old) }
    {
        match self.seen.asserts.checked_add(1) {
            Some(asserts) => {
                self.seen.asserts = asserts;
                Ok(())
            }
            None => Err(NoMemory),
        }
    }

    /// One more create stands before: the number of its thread.
    pub fn pass_create(&mut self) -> Result<u32, NoMemory>
        ensures thread { IfOk result (λ u. u ≡ self.old.known.seen.starts + 1) }
        ensures code { OnOk result (self.new ≡ with_seen (record { asserts = self.old.known.seen.asserts; starts = self.old.known.seen.starts + 1 }) self.old) }
    {
        match self.seen.starts.checked_add(1) {
            Some(starts) => {
                self.seen.starts = starts;
                Ok(starts)
            }
            None => Err(NoMemory),
        }
    }

    /// A body with names of its own begins, behind so many assertions. The names that were known are kept in their place.
    pub fn enter(&mut self, names: &mut Locals, asserts: u32)
        ensures names { names.new ≡ self.old.known.names }
        ensures code { self.new ≡ with_seen (record { asserts = asserts; starts = 0 }) (with_names names.old self.old) }
    {
        std::mem::swap(&mut self.names, names);
        self.seen = Seen { asserts, starts: 0 };
    }

    /// The body has ended: what was known before it is known again.
    pub fn resume(&mut self, names: &mut Locals, seen: Seen)
        ensures code { self.new ≡ with_seen seen (with_names names.old self.old) }
    {
        std::mem::swap(&mut self.names, names);
        self.seen = seen;
    }

    /// The pieces, and the places of the labels.
    pub fn into_parts(self) -> (Vec<Piece>, Vec<u32>)
        ensures pieces { result.0.items ≡ self.made.pieces }
        ensures marks { result.1.items ≡ self.made.marks }
    {
        (self.pieces, self.marks)
    }
}
