//! What an event changes.

ghost use Rattle.std.specs.Prelude.{◌≡◌};
ghost use Rattle.mm_sched.specs.Event.{done, acted, flushed, after};
ghost use Rattle.mm_sched.specs.Invariant.{CanDo, CanHappen};

use crate::entry::{Act, Event};
use crate::interpreter::Interpreter;

impl Interpreter {
    /// What the act of thread `t` changes beside its own frame.
    fn done(&mut self, t: u32, act: Act)
        requires { CanDo self.old t act }
        ensures { self.new ≡ record self.old { state = done self.old.state t act } }
    {
        match act {
            Act::Goes(_) => {}
            Act::Assigns(_, _) => {}
            Act::Fails(n) => self.verdict = Some(n),
            Act::Ends => {}
            Act::Loads(_, _, _) => {}
            Act::Pushes(c, v) => self.pending.push(t, c, v),
            Act::Puts(c, v) => self.memory[c as usize] = v,
            Act::Fences => {}
            Act::Takes(m) => self.owners[m as usize] = Some(t),
            Act::Gives(m) => self.owners[m as usize] = None,
            Act::Updates(_, _, c, w) => self.memory[c as usize] = w,
            Act::Misses(_, _) => {}
            Act::Starts(u) => self.threads[u as usize].start(),
            Act::Joins(_) => {}
            Act::Enters => self.section = Some(t),
            Act::Leaves => self.section = None,
        }
    }

    #[tactic(auto, using(crate::proofs::Possibly::doing), unfolding(crate::specs::Event::acted))]
    fn acted(&mut self, t: u32, act: Act)
        requires { CanDo self.old t act }
        ensures { self.new ≡ record self.old { state = acted self.old.state t act } }
    {
        self.done(t, act);
        self.threads[t as usize].framed(act);
    }

    #[tactic(auto, unfolding(crate::specs::Event::flushed))]
    fn flushed(&mut self, t: u32, c: u32, v: i32)
        requires { CanHappen self.old (Event.Flushes t c v) }
        ensures { self.new ≡ record self.old { state = flushed self.old.state t c v } }
    {
        self.memory[c as usize] = v;
        self.pending.remove(t, c);
    }

    /// The event happens.
    pub(super) fn apply(&mut self, event: Event)
        requires { CanHappen self.old event }
        ensures { self.new ≡ record self.old { state = after self.old.state event } }
    {
        match event {
            Event::Does(t, act) => self.acted(t, act),
            Event::Flushes(t, c, v) => self.flushed(t, c, v),
        }
    }
}
