ghost use Rattle.std.specs.Prelude.{◌≡◌, ◌<◌, length, IfOk};
ghost use Rattle.mm_sched.specs.State.{initial, frame_of};
ghost use Rattle.mm_sched.specs.Event.{next};
ghost use Rattle.mm_sched.specs.Running.{Follows};

use mm_goto::{NoMemory, Program};
use mm_sched::{Entry, Interpreter, Rules, Stuck};
use std::alloc::Global;
use std::marker::Model;

/// A program as it runs under sequential consistency. Threads are given by their numbers, and main is 0.
#[derive(Debug, Drop)]
pub struct Sc<'a> {
    program: &'a Program,
    machine: Interpreter,
}

impl<'a> Model for Sc<'a> {
    ghost use Rattle.mm_sched.specs.Running.{Running};
    ghost use Rattle.mm_goto.specs.contracts.pure.Pure as pure;
    ghost use Rattle.std.specs.Coded.{codes};

    ghost Value = { Running };

    ghost coded = { Prim.hlevel (codes, pure.the_row.coded) };

    ghost view = { λ sc. record { program = sc.program.now; state = sc.machine.state } };

    ghost use Rattle.mm_sched.specs.Invariant.{Fits};
    ghost use Rattle.mm_sched.specs.declared.entry.Rules.TheVariants as rules;

    ghost invariant = { λ sc. Fits rules.Sc sc.program.now sc.machine.state };
}

impl Sc<'_> {
    /// The program at its start: main alone is started. All the memory is taken here.
    pub fn new(alloc: Global, program: &Program) -> Result<Sc<'_>, NoMemory>
        ensures program { IfOk result (λ sc. sc.program ≡ program.now) }
        ensures state { IfOk result (λ sc. sc.state ≡ initial program.now) }
    {
        let machine = Interpreter::new(alloc, &Rules::Sc, program)?;
        Ok(Sc { program, machine })
    }

    /// Takes the entry, which is a `Step` of a thread or the value that its `Input` takes.
    pub fn step(&mut self, entry: Entry) -> Result<(), Stuck>
        ensures program { self.new.program ≡ self.old.program }

        // On an `Ok` the state is the next one. On an `Err` there is no next state, and the state stays.
        ensures step { Follows (next Rules.Sc self.old.program self.old.state entry) self.old.state result self.new.state }
    {
        self.machine.step(&Rules::Sc, self.program, entry)
    }

    /// The number of the assertion that failed, if one did.
    pub fn verdict(&self) -> Option<u32>
        ensures { result ≡ self.now.state.verdict }
    {
        self.machine.verdict()
    }

    /// Where the thread is: the number of its next instruction.
    pub fn place(&self, t: u32) -> u32
        requires { t < length self.now.program.threads }
        ensures { result ≡ (frame_of self.now.state t).place }
    {
        self.machine.place(t)
    }

    /// What the thread's locals have.
    pub fn locals(&self, t: u32) -> &[i32]
        requires { t < length self.now.program.threads }
        ensures { result.now ≡ (frame_of self.now.state t).locals }
    {
        self.machine.locals(t)
    }
}
