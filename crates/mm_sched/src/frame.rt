//! Where a thread is.

ghost use Rattle.std.specs.Prelude.{◌≡◌, ◌+◌, ◌^◌, ◌<◌, ℕ, length, true, IfOk};
ghost use Rattle.mm_sched.specs.State.{at_start};
ghost use Rattle.mm_sched.specs.Event.{on, assigned, framed};
ghost use Rattle.mm_sched.specs.Invariant.{IsLocalWithin};

use crate::entry::Act;
use mm_goto::{NoMemory, Thread};
use std::alloc::Global;
use std::marker::Model;

/// Where a thread is in its code, what its locals have, and whether it is started and has ended.
#[derive(Debug, Drop)]
pub struct Frame {
    place: u32,
    locals: Vec<i32>,
    started: bool,
    ended: bool,
}

impl Model for Frame {
    ghost use Rattle.mm_sched.specs.State as state;

    ghost Value = { state.Frame };

    ghost view = { λ f. record { place = f.place; locals = f.locals.items; started = f.started; ended = f.ended } };
}

impl Frame {
    /// A thread before its first instruction, each local 0.
    pub fn at_start(alloc: Global, started: bool, thread: &Thread) -> Result<Frame, NoMemory>
        ensures { IfOk result (λ f. f ≡ at_start started thread.now) }
    {
        let locals = vec![in alloc; 0; thread.locals as usize]?;
        Ok(Frame {
            place: 0,
            locals,
            started,
            ended: false,
        })
    }

    pub fn place(&self) -> u32
        ensures { result ≡ self.now.place }
    {
        self.place
    }

    pub fn locals(&self) -> &[i32]
        ensures { result.now ≡ self.now.locals }
    {
        self.locals.as_slice()
    }

    pub fn is_started(&self) -> bool
        ensures { result ≡ self.now.started }
    {
        self.started
    }

    pub fn has_ended(&self) -> bool
        ensures { result ≡ self.now.ended }
    {
        self.ended
    }

    /// The thread is started.
    pub fn start(&mut self)
        ensures { self.new ≡ record self.old { started = true } }
    {
        self.started = true;
    }

    fn on(&mut self)
        requires { self.old.place + 1 < 2 ^ 32 }
        ensures { self.new ≡ on self.old }
    {
        self.place += 1;
    }

    fn assigned(&mut self, l: u32, v: i32)
        requires place { self.old.place + 1 < 2 ^ 32 }
        requires local { l < length self.old.locals }
        ensures { self.new ≡ assigned self.old l v }
    {
        self.locals[l as usize] = v;
        self.place += 1;
    }

    /// The thread's own part of an act.
    pub fn framed(&mut self, act: Act)
        requires place { self.old.place + 1 < 2 ^ 32 }
        requires local { IsLocalWithin (length self.old.locals) act }
        ensures { self.new ≡ framed self.old act }
    {
        match act {
            Act::Goes(k) => self.place = k,
            Act::Assigns(l, v) => self.assigned(l, v),
            Act::Fails(_) => self.on(),
            Act::Ends => self.ended = true,
            Act::Loads(l, _, v) => self.assigned(l, v),
            Act::Pushes(_, _) => self.on(),
            Act::Puts(_, _) => self.on(),
            Act::Fences => self.on(),
            Act::Takes(_) => self.on(),
            Act::Gives(_) => self.on(),
            Act::Updates(l, v, _, _) => self.assigned(l, v),
            Act::Misses(l, _) => self.assigned(l, 0),
            Act::Starts(_) => self.on(),
            Act::Joins(_) => self.on(),
            Act::Enters => self.on(),
            Act::Leaves => self.on(),
        }
    }
}
