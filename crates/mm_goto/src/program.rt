ghost use Rattle.std.specs.Prelude.{◌≡◌};

use crate::ident::{At, Ident};
use crate::list::List;
use crate::pure::Pure;
use std::marker::Model;

/// What an instruction reads or writes.
#[derive(Debug, Drop)]
pub enum Target {
    /// A cell, by its number.
    Cell(u32),
    /// An element of the `len` cells from `first` on.
    Elem { first: u32, len: u32, index: Pure },
    /// The cell whose address is the value.
    Deref(Pure),
}

/// An instruction of a thread. Locals, cells, mutexes, threads and places in the code are given by their numbers.
#[derive(Debug, Drop)]
pub enum Instr {
    /// The local becomes the value.
    Set(u32, Pure),
    /// The local becomes what the cell has.
    Load(u32, Target),
    /// The cell is written.
    Store(Target, Pure),
    /// The local becomes a value from outside.
    Input(u32),
    /// Goes to the place.
    Jump(u32),
    /// Goes to the place where the value is 0, else on.
    Branch(Pure, u32),
    /// Fails with the number where the value is 0.
    Assert(Pure, u32),
    /// Is enabled where the value is not 0.
    Assume(Pure),
    Fence,
    Lock(u32),
    Unlock(u32),
    /// The local becomes what the cell has, to which the value is added, in one step.
    Add(u32, Target, Pure),
    /// Where the cell has the first value it becomes the second and the local 1, else the local becomes 0.
    Cas(u32, Target, Pure, Pure),
    Start(u32),
    Join(u32),
    AtomBegin,
    AtomEnd,
    /// The thread has ended.
    End,
}

/// A shared variable of one value.
#[derive(Debug, Drop)]
pub struct Cell {
    pub name: Ident,
    /// Its index where it is an element of an array.
    pub index: Option<u32>,
    /// Whether it holds an address.
    pub pointer: bool,
    /// Its value at the start: a number or an address.
    pub init: Pure,
}

/// A thread: how many locals it has, its instructions, and the place in the text from which each comes.
#[derive(Debug, Drop)]
pub struct Thread {
    pub locals: u32,
    pub code: List<Instr>,
    pub places: List<At>,
}

/// A program whose numbers are in range. Its thread 0 is main, which starts the others.
#[derive(Debug, Drop)]
pub struct Program {
    cells: List<Cell>,
    mutexes: List<Ident>,
    threads: List<Thread>,
}

impl Model for Program {
    ghost use Rattle.mm_goto.specs.Listing.{Listing};
    ghost use Rattle.mm_goto.specs.contracts.pure.Pure as pure;
    ghost use Rattle.std.specs.Coded.{codes};

    ghost Value = { Listing };

    ghost coded = { Prim.hlevel (codes, pure.the_row.coded) };

    ghost view = { λ p. record { cells = p.cells; mutexes = p.mutexes; threads = p.threads } };

    ghost use Rattle.mm_goto.specs.Valid.{IsValid};

    ghost invariant = { λ p. IsValid (record { cells = p.cells; mutexes = p.mutexes; threads = p.threads }) };
}

impl Program {
    ghost use Rattle.mm_goto.specs.Valid.{IsValid};

    /// The program of these cells, mutexes and threads.
    pub fn new(cells: Vec<Cell>, mutexes: Vec<Ident>, threads: Vec<Thread>) -> Program
        requires { IsValid (record { cells = cells.items; mutexes = mutexes.items; threads = threads.items }) }
        ensures { result ≡ record { cells = cells.items; mutexes = mutexes.items; threads = threads.items } }
    {
        Program {
            cells: List::new(cells),
            mutexes: List::new(mutexes),
            threads: List::new(threads),
        }
    }

    /// The cells, by their numbers.
    pub fn cells(&self) -> &[Cell]
        ensures { result.now ≡ self.now.cells }
    {
        self.cells.items()
    }

    /// The names of the mutexes, by their numbers.
    pub fn mutexes(&self) -> &[Ident]
        ensures { result.now ≡ self.now.mutexes }
    {
        self.mutexes.items()
    }

    /// The threads, by their numbers.
    pub fn threads(&self) -> &[Thread]
        ensures threads { result.now ≡ self.now.threads }
        ensures valid { IsValid self.now }
    {
        self.threads.items()
    }
}
