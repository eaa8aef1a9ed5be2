ghost use Rattle.std.specs.Prelude.{◌≡◌, ◌<◌, length, IfOk};
ghost use Rattle.mm_sched.specs.State.{initial, frame_of, pending_of};
ghost use Rattle.mm_sched.specs.Event.{next};
ghost use Rattle.mm_sched.specs.Running.{Follows};
ghost use Rattle.mm_sched.specs.Sections.{HasNoSection};
ghost use Rattle.mm_buf.specs.Buffering.{rules_of};

use mm_goto::{Bound, Model, NoMemory, Program};
use mm_sched::{Entry, Interpreter, Rules, Stuck};
use std::alloc::Global;

/// A program as it runs with store buffers. Threads are given by their numbers, and main is 0.
#[derive(Debug, Drop)]
pub struct Buf<'a> {
    program: &'a Program,
    model: Model,
    bound: Bound,
    machine: Interpreter,
}

impl<'a> std::marker::Model for Buf<'a> {
    ghost use Rattle.std.specs.Prelude.{◌≤◌, ◌<◌, ◌^◌, length};
    ghost use Rattle.mm_goto.specs.contracts.pure.Pure as pure;
    ghost use Rattle.std.specs.Coded.{codes};
    ghost use Rattle.mm_buf.specs.Buffering.{Buffering};

    ghost Value = { Buffering };

    ghost coded = { Prim.hlevel (codes, pure.the_row.coded) };

    ghost view = { λ b. record { program = b.program.now; model = b.model; bound = b.bound; state = b.machine.state } };

    ghost use Rattle.mm_sched.specs.Invariant.{Fits, room_of};
    ghost use Rattle.mm_sched.specs.declared.entry.Rules.TheVariants as rules;

    ghost invariant = { λ b. record {
      fits : Fits (rules.Buffered b.model b.bound) b.program.now b.machine.state;
      room : room_of (rules.Buffered b.model b.bound) (length b.program.now.cells) ≤ b.machine.room;
      few : b.machine.room < 2 ^ 32;
    } };
}

impl Buf<'_> {
    /// The program at its start: main alone is started, and nothing is pending. All the memory is taken here: room for
    /// the bound of pending stores of each thread under TSO, and for the bound of each cell of each thread under PSO.
    pub fn new(
        alloc: Global,
        program: &Program,
        model: Model,
        bound: Bound,
    ) -> Result<Buf<'_>, NoMemory>
        requires { HasNoSection program.now }
        ensures program { IfOk result (λ buf. buf.program ≡ program.now) }
        ensures model { IfOk result (λ buf. buf.model ≡ model) }
        ensures bound { IfOk result (λ buf. buf.bound ≡ bound) }
        ensures state { IfOk result (λ buf. buf.state ≡ initial program.now) }
    {
        let machine = Interpreter::new(alloc, &Rules::Buffered(model, bound), program)?;
        Ok(Buf {
            program,
            model,
            bound,
            machine,
        })
    }

    /// Takes the entry: a `Step` of a thread, the value that its `Input` takes, or a flush by the form that the model has.
    pub fn step(&mut self, entry: Entry) -> Result<(), Stuck>
        ensures program { self.new.program ≡ self.old.program }
        ensures model { self.new.model ≡ self.old.model }
        ensures bound { self.new.bound ≡ self.old.bound }

        // On an `Ok` the state is the next one. On an `Err` there is no next state, and the state stays.
        ensures step { Follows (next (rules_of self.old) self.old.program self.old.state entry) self.old.state result self.new.state }
    {
        let rules = Rules::Buffered(self.model, self.bound);
        self.machine.step(&rules, self.program, entry)
    }

    /// The number of the assertion that failed, if one did.
    pub fn verdict(&self) -> Option<u32>
        ensures { result ≡ self.now.state.verdict }
    {
        self.machine.verdict()
    }

    /// Where the thread is: the number of its next instruction.
    pub fn place(&self, t: u32) -> u32
        requires { t < length self.now.program.threads }
        ensures { result ≡ (frame_of self.now.state t).place }
    {
        self.machine.place(t)
    }

    /// What the thread's locals have.
    pub fn locals(&self, t: u32) -> &[i32]
        requires { t < length self.now.program.threads }
        ensures { result.now ≡ (frame_of self.now.state t).locals }
    {
        self.machine.locals(t)
    }

    /// How many stores of the thread are pending.
    pub fn pending(&self, t: u32) -> u32
        requires { t < length self.now.program.threads }
        ensures { result ≡ length (pending_of self.now.state t) }
    {
        self.machine.pending(t).len() as u32
    }
}
