ghost use Rattle.std.specs.Prelude.{◌≡◌, ◌<◌, length, IfOk};
ghost use Rattle.mm_sched.specs.State.{initial, frame_of};
ghost use Rattle.mm_sched.specs.Event.{next};
ghost use Rattle.mm_sched.specs.Running.{Follows};
ghost use Rattle.mm_sched.specs.Sections.{HasNoSection};
ghost use Rattle.mm_part.specs.Partly.{rules_for};

use crate::flags::copy_flags;
use mm_goto::{NoMemory, Program, Shape};
use mm_sched::{Entry, Interpreter, Rules, Stuck};
use std::alloc::Global;

/// A program as it runs where the stores that a shape buffers are made pending, and each other store writes memory at once. Threads
/// are given by their numbers, and main is 0.
#[derive(Debug, Drop)]
pub struct Part<'a> {
    program: &'a Program,
    rules: Rules,
    machine: Interpreter,
}

impl<'a> std::marker::Model for Part<'a> {
    ghost use Rattle.std.specs.Prelude.{◌≤◌, ◌<◌, ◌^◌, length};
    ghost use Rattle.mm_goto.specs.contracts.pure.Pure as pure;
    ghost use Rattle.std.specs.Coded.{codes};
    ghost use Rattle.mm_part.specs.Partly.{Partly};

    ghost Value = { Partly };

    ghost coded = { Prim.hlevel (codes, pure.the_row.coded) };

    ghost view = { λ b. record { program = b.program.now; rules = b.rules; state = b.machine.state } };

    ghost use Rattle.mm_sched.specs.Invariant.{Fits, room_of};

    ghost invariant = { λ b. record {
      fits : Fits b.rules b.program.now b.machine.state;
      room : room_of b.rules (length b.program.now.cells) ≤ b.machine.room;
      few : b.machine.room < 2 ^ 32;
    } };
}

impl<'a> Part<'a> {
    /// The program at its start: main alone is started, and nothing is pending. All the memory is taken here: room for
    /// the bound of pending stores of each thread under TSO, and for the bound of each cell of each thread under PSO.
    pub fn new(alloc: Global, program: &'a Program, shape: &Shape) -> Result<Part<'a>, NoMemory>
        requires { HasNoSection program.now }
        ensures program { IfOk result (λ part. part.program ≡ program.now) }
        ensures rules { IfOk result (λ part. part.rules ≡ rules_for shape.now) }
        ensures state { IfOk result (λ part. part.state ≡ initial program.now) }
    {
        let set = copy_flags(alloc, &shape.buffered)?;
        let rules = Rules::Partial(shape.model, shape.bound, set);
        let machine = Interpreter::new(alloc, &rules, program)?;
        Ok(Part {
            program,
            rules,
            machine,
        })
    }

    /// Takes the entry: a `Step` of a thread, the value that its `Input` takes, or a flush by the form that the model has.
    pub fn step(&mut self, entry: Entry) -> Result<(), Stuck>
        ensures program { self.new.program ≡ self.old.program }
        ensures rules { self.new.rules ≡ self.old.rules }

        // On an `Ok` the state is the next one. On an `Err` there is no next state, and the state stays.
        ensures step { Follows (next self.old.rules self.old.program self.old.state entry) self.old.state result self.new.state }
    {
        self.machine.step(&self.rules, self.program, entry)
    }

    /// The number of the assertion that failed, if one did.
    pub fn verdict(&self) -> Option<u32>
        ensures { result ≡ self.now.state.verdict }
    {
        self.machine.verdict()
    }

    /// Where the thread is: the number of its next instruction.
    pub fn place(&self, t: u32) -> u32
        requires { t < length self.now.program.threads }
        ensures { result ≡ (frame_of self.now.state t).place }
    {
        self.machine.place(t)
    }

    /// What the thread's locals have.
    pub fn locals(&self, t: u32) -> &[i32]
        requires { t < length self.now.program.threads }
        ensures { result.now ≡ (frame_of self.now.state t).locals }
    {
        self.machine.locals(t)
    }
}
