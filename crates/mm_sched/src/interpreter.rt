//! The stepping machine.

mod apply;
mod event;

ghost use Rattle.std.specs.Prelude.{◌≡◌, ◌<◌, ◌≤◌, ◌++◌, [], All, None, false, length, map, ◌^◌, IfOk, OnOk, MatchOption};
ghost use Rattle.mm_goto.specs.Locals.{local_bound};
ghost use Rattle.mm_goto.specs.Value.{value_of};
ghost use Rattle.mm_sched.specs.State.{initial, all_at_start, at_start, frame_of, pending_of};
ghost use Rattle.mm_sched.specs.Event.{next, event, after};
ghost use Rattle.mm_sched.specs.Invariant.{Fits, room_of};
ghost use Rattle.mm_sched.specs.Running.{Follows};

use crate::entry::{Entry, Event, Rules, Stuck};
use crate::frame::Frame;
use crate::rules::room_of;
use crate::waiting::Waiting;
use mm_goto::{Cell, Ident, NoMemory, Program, Thread, eval};
use std::alloc::Global;
use std::marker::Model;

/// A state that is changed in place, with room for a number of pending stores of each thread.
#[derive(Debug, Drop)]
pub struct Interpreter {
    memory: Vec<i32>,
    owners: Vec<Option<u32>>,
    section: Option<u32>,
    verdict: Option<u32>,
    threads: Vec<Frame>,
    pending: Waiting,
}

impl Model for Interpreter {
    ghost use Rattle.mm_sched.specs.Running.{Roomy};

    ghost Value = { Roomy };

    ghost view = { λ m. record { state = record { memory = m.memory.items; owners = m.owners.items; section = m.section; verdict = m.verdict; threads = m.threads.items; pending = m.pending.lists }; room = m.pending.room } };
}

impl Interpreter {
    /// The machine at the start of the program, with all the room that its pending stores need under the rules.
    #[tactic(auto, unfolding(crate::specs::State::initial))]
    pub fn new(alloc: Global, rules: &Rules, program: &Program) -> Result<Interpreter, NoMemory>
        ensures state { IfOk result (λ m. m.state ≡ initial program.now) }
        ensures room { IfOk result (λ m. m.room ≡ room_of rules.now (length program.now.cells)) }
        ensures few { IfOk result (λ m. m.room < 2 ^ 32) }
        ensures fits { IfOk result (λ m. Fits rules.now program.now m.state) }
    {
        let threads = program.threads();
        let room = room_of(rules, program.cells().len());
        Ok(Interpreter {
            memory: memory_at_start(alloc, program.cells())?,
            owners: owners_at_start(alloc, program.mutexes())?,
            section: None,
            verdict: None,
            threads: all_at_start(alloc, threads)?,
            pending: Waiting::new(alloc, threads, room)?,
        })
    }

    /// The number of the assertion that failed.
    pub fn verdict(&self) -> Option<u32>
        ensures { result ≡ self.now.state.verdict }
    {
        self.verdict
    }

    /// Where the thread is in its code.
    pub fn place(&self, t: u32) -> u32
        requires { t < length self.now.state.threads }
        ensures { result ≡ (frame_of self.now.state t).place }
    {
        self.threads[t as usize].place()
    }

    /// What the thread's locals have.
    pub fn locals(&self, t: u32) -> &[i32]
        requires { t < length self.now.state.threads }
        ensures { result.now ≡ (frame_of self.now.state t).locals }
    {
        self.threads[t as usize].locals()
    }

    /// The pending stores of the thread, the oldest first.
    pub fn pending(&self, t: u32) -> &[(u32, i32)]
        ensures { result.now ≡ pending_of self.now.state t }
    {
        self.pending.of(t)
    }

    /// Takes the entry, and says what happens by it. On a `None` it is not enabled, and the machine stays.
    pub fn take(&mut self, rules: &Rules, program: &Program, entry: Entry) -> Option<Event>
        requires fits { Fits rules.now program.now self.old.state }
        requires room { room_of rules.now (length program.now.cells) ≤ self.old.room }
        ensures room { self.new.room ≡ self.old.room }
        ensures fits { Fits rules.now program.now self.new.state }
        ensures event { result ≡ event rules.now program.now self.old.state entry }
        ensures state { MatchOption result (self.new.state ≡ self.old.state) (λ e. self.new.state ≡ after self.old.state e) }
    {
        let event = self.event(rules, program, entry)?;
        self.apply(event);
        Some(event)
    }

    /// Takes the entry. On an `Err` it is not enabled.
    pub fn step(&mut self, rules: &Rules, program: &Program, entry: Entry) -> Result<(), Stuck>
        requires fits { Fits rules.now program.now self.old.state }
        requires room { room_of rules.now (length program.now.cells) ≤ self.old.room }
        ensures room { self.new.room ≡ self.old.room }
        ensures fits { Fits rules.now program.now self.new.state }
        ensures step { Follows (next rules.now program.now self.old.state entry) self.old.state result self.new.state }
    {
        match self.take(rules, program, entry) {
            Some(_) => Ok(()),
            None => Err(Stuck),
        }
    }
}

/// The start value of each cell.
fn memory_at_start(alloc: Global, cells: &[Cell]) -> Result<Vec<i32>, NoMemory>
    requires { All (λ cell. local_bound cell.init ≤ 0) cells.now }
    ensures { IfOk result (λ memory. memory.items ≡ map (λ cell. value_of cell.init []) cells.now) }
{
    let mut memory = Vec::with_capacity(alloc, cells.len())?;
    for cell in cells {
        memory.push(eval(&cell.init, &[]))?;
    }
    Ok(memory)
}

/// Each mutex is free.
fn owners_at_start(alloc: Global, mutexes: &[Ident]) -> Result<Vec<Option<u32>>, NoMemory>
    ensures { IfOk result (λ owners. owners.items ≡ map (λ name. None) mutexes.now) }
{
    let mut owners = Vec::with_capacity(alloc, mutexes.len())?;
    for _ in mutexes {
        owners.push(None)?;
    }
    Ok(owners)
}

/// Main alone is started.
fn all_at_start(alloc: Global, threads: &[Thread]) -> Result<Vec<Frame>, NoMemory>
    ensures { IfOk result (λ frames. frames.items ≡ all_at_start threads.now) }
{
    match threads {
        [] => Ok(Vec::new(alloc)),
        [main, others @ ..] => {
            let mut frames = Vec::with_capacity(alloc, threads.len())?;
            frames.push(Frame::at_start(alloc, true, main)?)?;
            add_at_start(alloc, &mut frames, others)?;
            Ok(frames)
        }
    }
}

/// The threads that are not started yet.
fn add_at_start(alloc: Global, frames: &mut Vec<Frame>, others: &[Thread]) -> Result<(), NoMemory>
    ensures { OnOk result (frames.new.items ≡ frames.old.items ++ map (at_start false) others.now) }
{
    for thread in others {
        frames.push(Frame::at_start(alloc, false, thread)?)?;
    }
    Ok(())
}
