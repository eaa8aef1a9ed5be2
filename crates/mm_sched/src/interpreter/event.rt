//! What happens by an entry: a machine is read, and not changed.

ghost use Rattle.std.specs.Prelude.{◌≡◌, ◌+◌, ◌^◌, ◌<◌, ◌≤◌, length, slice_get, pos, not, Some, option_and_then, if◌then◌else◌, IfSome};
ghost use Rattle.std.specs.Int.{w32, int_wrapping_add};
ghost use Rattle.mm_goto.specs.Value.{value_of, is_zero};
ghost use Rattle.mm_sched.specs.Guarded.{guarded};
ghost use Rattle.std.specs.Option.{option_copied};
ghost use Rattle.mm_goto.specs.Locals.{local_bound};
ghost use Rattle.mm_sched.specs.State.{pending_of, at_cell};
ghost use Rattle.mm_sched.specs.Buffer.{is_empty, seen, store_of};
ghost use Rattle.mm_sched.specs.Event.{element, pointee, cell_of, is_owner, is_open_to, may_step, fetched, drained, stored, locked, unlocked, begun, joined, is_same, act, input, does, flushes, event};
ghost use Rattle.mm_sched.specs.Invariant.{Fits, IsTargetWithin, IsWithin};

use crate::entry::{Act, Entry, Event, How, Rules};
use crate::frame::Frame;
use crate::interpreter::Interpreter;
use crate::rules::{flush_of, newest, store_of};
use mm_goto::{Instr, Program, Pure, Target, eval};

fn element(index: i32, first: u32, len: u32) -> Option<u32>
    requires { first + len < 2 ^ 32 }
    ensures { result ≡ element index first len }
{
    if index >= 0 && index.cast_unsigned() < len {
        Some(first + index.cast_unsigned())
    } else {
        None
    }
}

fn pointee(address: i32, cells: usize) -> Option<u32>
    ensures { result ≡ pointee address cells }
{
    if address > 0 && address.cast_unsigned() as usize <= cells {
        Some(address.cast_unsigned() - 1)
    } else {
        None
    }
}

/// The cell of a target.
#[tactic(auto, using(crate::proofs::Possibly::target_within))]
fn cell_of(cells: usize, locals: &[i32], target: &Target) -> Option<u32>
    requires cells { cells < 2 ^ 32 }
    requires within { IsTargetWithin cells (length locals.now) target.now }
    ensures cell { result ≡ cell_of cells locals.now target.now }
    ensures within { IfSome result (λ c. c < cells) }
{
    match target {
        Target::Cell(c) => Some(*c),
        Target::Elem { first, len, index } => element(eval(index, locals), *first, *len),
        Target::Deref(e) => pointee(eval(e, locals), cells),
    }
}

fn is_owner(t: u32, owner: Option<u32>) -> bool
    ensures { result ≡ is_owner t owner }
{
    match owner {
        Some(u) => u == t,
        None => false,
    }
}

fn is_open_to(t: u32, owner: Option<u32>) -> bool
    ensures { result ≡ is_open_to t owner }
{
    match owner {
        Some(u) => u == t,
        None => true,
    }
}

fn stored(how: How, c: u32, v: i32) -> Option<Act>
    ensures { result ≡ stored how c v }
{
    match how {
        How::Delayed => Some(Act::Pushes(c, v)),
        How::AtOnce => Some(Act::Puts(c, v)),
        How::NotEnabled => None,
    }
}

/// The act, where the test holds.
fn guarded(test: bool, act: Act) -> Option<Act>
    ensures { result ≡ guarded test (Some act) }
{
    if test { Some(act) } else { None }
}

fn locked(owner: Option<Option<u32>>, m: u32) -> Option<Act>
    ensures { result ≡ locked owner m }
{
    guarded(owner?.is_none(), Act::Takes(m))
}

fn unlocked(owner: Option<Option<u32>>, t: u32, m: u32) -> Option<Act>
    ensures { result ≡ unlocked owner t m }
{
    guarded(is_owner(t, owner?), Act::Gives(m))
}

fn begun(other: Option<&Frame>, u: u32) -> Option<Act>
    ensures { result ≡ begun (option_copied other.entry) u }
{
    guarded(!other?.is_started(), Act::Starts(u))
}

/// What a `Branch` to place `k` does.
fn branched(frame: &Frame, e: &Pure, k: u32) -> Act
    requires place { frame.now.place + 1 < 2 ^ 32 }
    requires value { local_bound e.now ≤ length frame.now.locals }
    ensures { result ≡ Act.Goes (if is_zero (value_of e.now frame.now.locals) then k else frame.now.place + 1) }
{
    if eval(e, frame.locals()) == 0 {
        Act::Goes(k)
    } else {
        Act::Goes(frame.place() + 1)
    }
}

/// What an `Assert` of number `n` does.
fn asserted(frame: &Frame, e: &Pure, n: u32) -> Act
    requires place { frame.now.place + 1 < 2 ^ 32 }
    requires value { local_bound e.now ≤ length frame.now.locals }
    ensures { result ≡ (if is_zero (value_of e.now frame.now.locals) then Act.Fails n else Act.Goes (frame.now.place + 1)) }
{
    if eval(e, frame.locals()) == 0 {
        Act::Fails(n)
    } else {
        Act::Goes(frame.place() + 1)
    }
}

/// What an `Assume` does, where it is enabled.
fn assumed(frame: &Frame, e: &Pure) -> Option<Act>
    requires place { frame.now.place + 1 < 2 ^ 32 }
    requires value { local_bound e.now ≤ length frame.now.locals }
    ensures { result ≡ guarded (not (is_zero (value_of e.now frame.now.locals))) (Some (Act.Goes (frame.now.place + 1))) }
{
    guarded(eval(e, frame.locals()) != 0, Act::Goes(frame.place() + 1))
}

/// What a thread does by an `Input` that takes the value.
fn input(instr: &Instr, v: i32) -> Option<Act>
    ensures { result ≡ input instr.now v }
{
    match instr {
        Instr::Set(_, _) => None,
        Instr::Load(_, _) => None,
        Instr::Store(_, _) => None,
        Instr::Input(l) => Some(Act::Assigns(*l, v)),
        Instr::Jump(_) => None,
        Instr::Branch(_, _) => None,
        Instr::Assert(_, _) => None,
        Instr::Assume(_) => None,
        Instr::Fence => None,
        Instr::Lock(_) => None,
        Instr::Unlock(_) => None,
        Instr::Add(_, _, _) => None,
        Instr::Cas(_, _, _, _) => None,
        Instr::Start(_) => None,
        Instr::Join(_) => None,
        Instr::AtomBegin => None,
        Instr::AtomEnd => None,
        Instr::End => None,
    }
}

/// The instruction of thread `t` at place `k`.
fn fetched(program: &Program, t: u32, k: u32) -> Option<&Instr>
    ensures { option_copied result ≡ fetched program.now t k }
{
    match program.threads().get(t as usize) {
        Some(thread) => thread.code.items().get(k as usize),
        None => None,
    }
}

impl Interpreter {
    fn is_empty(&self, t: u32) -> bool
        ensures { result ≡ is_empty (pending_of self.now.state t) }
    {
        self.pending(t).is_empty()
    }

    fn at_cell(&self, c: u32) -> i32
        requires { c < length self.now.state.memory }
        ensures { result ≡ at_cell self.now.state c }
    {
        self.memory[c as usize]
    }

    /// What thread `t` reads at cell `c`.
    fn seen(&self, t: u32, c: u32) -> i32
        requires { c < length self.now.state.memory }
        ensures { result ≡ seen self.now.state t c }
    {
        match newest(self.pending(t), c) {
            Some(value) => value,
            None => self.at_cell(c),
        }
    }

    fn may_step(&self, t: u32, frame: &Frame) -> bool
        ensures { result ≡ may_step self.now.state t frame.now }
    {
        frame.is_started()
            && !frame.has_ended()
            && self.verdict.is_none()
            && is_open_to(t, self.section)
    }

    /// The act, where thread `t` has nothing pending.
    fn drained(&self, t: u32, act: Option<Act>) -> Option<Act>
        ensures { result ≡ drained self.now.state t act }
    {
        if self.is_empty(t) { act } else { None }
    }

    fn load(&self, t: u32, frame: &Frame, l: u32, target: &Target) -> Option<Act>
        requires cells { length self.now.state.memory < 2 ^ 32 }
        requires within { IsTargetWithin (length self.now.state.memory) (length frame.now.locals) target.now }
        ensures { result ≡ option_and_then (λ c. Some (Act.Loads l c (seen self.now.state t c))) (cell_of (length self.now.state.memory) frame.now.locals target.now) }
    {
        let c = cell_of(self.memory.len(), frame.locals(), target)?;
        Some(Act::Loads(l, c, self.seen(t, c)))
    }

    fn store(&self, rules: &Rules, t: u32, frame: &Frame, target: &Target, e: &Pure) -> Option<Act>
        requires cells { length self.now.state.memory < 2 ^ 32 }
        requires target { IsTargetWithin (length self.now.state.memory) (length frame.now.locals) target.now }
        requires value { local_bound e.now ≤ length frame.now.locals }
        ensures { result ≡ option_and_then (λ c. stored (store_of rules.now t frame.now.place (pending_of self.now.state t) c) c (value_of e.now frame.now.locals)) (cell_of (length self.now.state.memory) frame.now.locals target.now) }
    {
        let c = cell_of(self.memory.len(), frame.locals(), target)?;
        let how = store_of(rules, t, frame.place(), self.pending(t), c);
        stored(how, c, eval(e, frame.locals()))
    }

    fn add(&self, frame: &Frame, l: u32, target: &Target, e: &Pure) -> Option<Act>
        requires cells { length self.now.state.memory < 2 ^ 32 }
        requires target { IsTargetWithin (length self.now.state.memory) (length frame.now.locals) target.now }
        requires value { local_bound e.now ≤ length frame.now.locals }
        ensures { result ≡ option_and_then (λ c. Some (Act.Updates l (at_cell self.now.state c) c (int_wrapping_add w32 (at_cell self.now.state c) (value_of e.now frame.now.locals)))) (cell_of (length self.now.state.memory) frame.now.locals target.now) }
    {
        let c = cell_of(self.memory.len(), frame.locals(), target)?;
        let old = self.at_cell(c);
        let sum = old.wrapping_add(eval(e, frame.locals()));
        Some(Act::Updates(l, old, c, sum))
    }

    fn cas(&self, frame: &Frame, l: u32, target: &Target, e: &Pure, g: &Pure) -> Option<Act>
        requires cells { length self.now.state.memory < 2 ^ 32 }
        requires target { IsTargetWithin (length self.now.state.memory) (length frame.now.locals) target.now }
        requires value { local_bound e.now ≤ length frame.now.locals }
        requires new { local_bound g.now ≤ length frame.now.locals }
        ensures { result ≡ option_and_then (λ c. Some (if is_same (at_cell self.now.state c) (value_of e.now frame.now.locals) then Act.Updates l (pos 1) c (value_of g.now frame.now.locals) else Act.Misses l c)) (cell_of (length self.now.state.memory) frame.now.locals target.now) }
    {
        let c = cell_of(self.memory.len(), frame.locals(), target)?;
        if self.at_cell(c) == eval(e, frame.locals()) {
            Some(Act::Updates(l, 1, c, eval(g, frame.locals())))
        } else {
            Some(Act::Misses(l, c))
        }
    }

    /// What thread `t` does by the instruction.
    #[tactic(auto, unfolding(crate::specs::Event::act))]
    fn act(&self, rules: &Rules, t: u32, frame: &Frame, instr: &Instr) -> Option<Act>
        requires cells { length self.now.state.memory < 2 ^ 32 }
        requires place { frame.now.place + 1 < 2 ^ 32 }
        requires within { IsWithin (length self.now.state.memory) (length frame.now.locals) instr.now }
        ensures { result ≡ act rules.now self.now.state t frame.now instr.now }
    {
        match instr {
            Instr::Set(l, e) => Some(Act::Assigns(*l, eval(e, frame.locals()))),
            Instr::Load(l, target) => self.load(t, frame, *l, target),
            Instr::Store(target, e) => self.store(rules, t, frame, target, e),
            Instr::Input(_) => None,
            Instr::Jump(k) => Some(Act::Goes(*k)),
            Instr::Branch(e, k) => Some(branched(frame, e, *k)),
            Instr::Assert(e, n) => Some(asserted(frame, e, *n)),
            Instr::Assume(e) => assumed(frame, e),
            Instr::Fence => self.drained(t, Some(Act::Fences)),
            Instr::Lock(m) => self.drained(t, locked(self.owner(*m), *m)),
            Instr::Unlock(m) => self.drained(t, unlocked(self.owner(*m), t, *m)),
            Instr::Add(l, target, e) => self.drained(t, self.add(frame, *l, target, e)),
            Instr::Cas(l, target, e, g) => self.drained(t, self.cas(frame, *l, target, e, g)),
            Instr::Start(u) => self.drained(t, begun(self.threads.get(*u as usize), *u)),
            Instr::Join(u) => self.drained(t, self.joined(*u)),
            Instr::AtomBegin => guarded(self.section.is_none(), Act::Enters),
            Instr::AtomEnd => guarded(is_owner(t, self.section), Act::Leaves),
            Instr::End => Some(Act::Ends),
        }
    }

    /// The thread that has the mutex.
    fn owner(&self, m: u32) -> Option<Option<u32>>
        ensures { result ≡ slice_get self.now.state.owners m }
    {
        self.owners.get(m as usize).copied()
    }

    fn joined(&self, u: u32) -> Option<Act>
        ensures { result ≡ joined (slice_get self.now.state.threads u) (is_empty (pending_of self.now.state u)) u }
    {
        match self.threads.get(u as usize) {
            Some(g) => guarded(g.has_ended() && self.is_empty(u), Act::Joins(u)),
            None => None,
        }
    }

    /// What happens by a `Step` of thread `t`, which is at this instruction.
    fn does_at(
        &self,
        rules: &Rules,
        program: &Program,
        t: u32,
        frame: &Frame,
        instr: &Instr,
    ) -> Option<Event>
        requires fits { Fits rules.now program.now self.now.state }
        requires frame { slice_get self.now.state.threads t ≡ Some frame.now }
        requires instr { fetched program.now t frame.now.place ≡ Some instr.now }
        ensures { result ≡ does program.now self.now.state t (act rules.now self.now.state t) }
    {
        if !self.may_step(t, frame) {
            return None;
        }
        let act = self.act(rules, t, frame, instr)?;
        Some(Event::Does(t, act))
    }

    /// What happens by a `Step` of thread `t`.
    fn does_step(&self, rules: &Rules, program: &Program, t: u32) -> Option<Event>
        requires { Fits rules.now program.now self.now.state }
        ensures { result ≡ does program.now self.now.state t (act rules.now self.now.state t) }
    {
        let frame = self.threads.get(t as usize)?;
        let instr = fetched(program, t, frame.place())?;
        self.does_at(rules, program, t, frame, instr)
    }

    /// What happens where thread `t` takes the value.
    #[tactic(auto, unfolding(crate::specs::Event::event))]
    fn does_input(&self, program: &Program, t: u32, v: i32) -> Option<Event>
        ensures { (r : Rules) → result ≡ event r program.now self.now.state (Entry.In t v) }
    {
        let frame = self.threads.get(t as usize)?;
        let instr = fetched(program, t, frame.place())?;
        if !self.may_step(t, frame) {
            return None;
        }
        let act = input(instr, v)?;
        Some(Event::Does(t, act))
    }

    /// The flush that the entry asks of thread `t`.
    fn flushes(&self, rules: &Rules, t: u32, entry: Entry) -> Option<Event>
        ensures { result ≡ flushes rules.now self.now.state t entry }
    {
        let (c, v) = flush_of(rules, entry, self.pending(t))?;
        Some(Event::Flushes(t, c, v))
    }

    /// What happens by the entry, where it is enabled.
    #[tactic(auto, unfolding(crate::specs::Event::event))]
    pub(super) fn event(&self, rules: &Rules, program: &Program, entry: Entry) -> Option<Event>
        requires { Fits rules.now program.now self.now.state }
        ensures { result ≡ event rules.now program.now self.now.state entry }
    {
        match entry {
            Entry::Step(t) => self.does_step(rules, program, t),
            Entry::In(t, v) => self.does_input(program, t, v),
            Entry::Flush(t) => self.flushes(rules, t, entry),
            Entry::FlushCell(t, _) => self.flushes(rules, t, entry),
        }
    }
}
