//! What the steps of a run have to do with: threads, queues of pending stores, cells and mutexes, by their numbers.

ghost use Rattle.std.specs.Prelude.{◌≡◌, ◌<◌, ◌^◌, IfSome, true};
ghost use Rattle.mm_runkeys.specs.Keys.{deed, runs, drains, flushes, settles, starts, joins, joins_by, takes, gives, key, queue, pushes, pops, limit, own, makes, ends_up, loads, own_by, writes, reads_by, only_reads_by};
ghost use Rattle.mm_runkeys.specs.reading.Marks.{Below};

use mm_goto::{Bound, Model};
use mm_sched::{Act, Event};

/// A model, how many cells and threads a program has, and how many stores may be pending: by these the queues are numbered.
#[derive(Drop)]
pub struct Layout {
    pub model: Model,
    pub cells: u32,
    pub threads: u32,
    pub bound: Bound,
}

pub fn runs(e: Event) -> Option<usize>
    ensures { result ≡ runs e }
{
    match e {
        Event::Does(t, _) => Some(t as usize),
        Event::Flushes(_, _, _) => None,
    }
}

fn is_drained(act: Act) -> bool
    ensures { result ≡ (deed act).drained }
{
    match act {
        Act::Fences => true,
        Act::Takes(_) => true,
        Act::Gives(_) => true,
        Act::Updates(_, _, _, _) => true,
        Act::Misses(_, _) => true,
        Act::Starts(_) => true,
        Act::Joins(_) => true,
        _ => false,
    }
}

pub fn drains(e: Event) -> Option<usize>
    ensures { result ≡ drains e }
{
    match e {
        Event::Does(t, act) => {
            if is_drained(act) {
                Some(t as usize)
            } else {
                None
            }
        }
        Event::Flushes(_, _, _) => None,
    }
}

pub fn flushes(e: Event) -> Option<usize>
    ensures { result ≡ flushes e }
{
    match e {
        Event::Flushes(t, _, _) => Some(t as usize),
        Event::Does(_, _) => None,
    }
}

pub fn settles(e: Event) -> Option<usize>
    ensures { result ≡ settles e }
{
    match e {
        Event::Does(t, Act::Ends) => Some(t as usize),
        Event::Does(_, _) => None,
        Event::Flushes(t, _, _) => Some(t as usize),
    }
}

pub fn starts(e: Event) -> Option<usize>
    ensures { result ≡ starts e }
{
    match e {
        Event::Does(_, Act::Starts(u)) => Some(u as usize),
        _ => None,
    }
}

pub fn joins(layout: &Layout, e: Event) -> Option<usize>
    requires { Below (2 ^ 32) (joins layout.now e) }
    ensures { result ≡ joins layout.now e }
{
    match e {
        Event::Does(t, Act::Joins(u)) => Some(t as usize * layout.threads as usize + u as usize),
        _ => None,
    }
}

pub fn joins_by(first: bool, e: Event) -> Option<usize>
    ensures { result ≡ joins_by first e }
{
    match e {
        Event::Does(_, Act::Joins(u)) => { if first { Some(u as usize) } else { None } }
        _ => None,
    }
}

pub fn takes(e: Event) -> Option<usize>
    ensures { result ≡ takes e }
{
    match e {
        Event::Does(_, Act::Takes(m)) => Some(m as usize),
        _ => None,
    }
}

pub fn gives(e: Event) -> Option<usize>
    ensures { result ≡ gives e }
{
    match e {
        Event::Does(_, Act::Gives(m)) => Some(m as usize),
        _ => None,
    }
}

fn key(model: Model, c: u32) -> u32
    ensures { result ≡ key model c }
{
    match model {
        Model::Tso => 0,
        Model::Pso => c,
    }
}

fn queue(layout: &Layout, t: u32, c: u32) -> usize
    requires { queue layout.now t c < 2 ^ 32 }
    ensures { result ≡ queue layout.now t c }
{
    t as usize * layout.cells as usize + key(layout.model, c) as usize
}

fn own(layout: &Layout, t: u32, c: u32) -> usize
    requires { own layout.now t c < 2 ^ 32 }
    ensures { result ≡ own layout.now t c }
{
    t as usize * layout.cells as usize + c as usize
}

pub fn pushes(layout: &Layout, e: Event) -> Option<usize>
    requires { Below (2 ^ 32) (pushes layout.now e) }
    ensures { result ≡ pushes layout.now e }
{
    match e {
        Event::Does(t, Act::Pushes(c, _)) => Some(queue(layout, t, c)),
        _ => None,
    }
}

pub fn pops(layout: &Layout, e: Event) -> Option<usize>
    requires { Below (2 ^ 32) (pops layout.now e) }
    ensures { result ≡ pops layout.now e }
{
    match e {
        Event::Flushes(t, c, _) => Some(queue(layout, t, c)),
        _ => None,
    }
}

pub fn makes(layout: &Layout, e: Event) -> Option<usize>
    requires { Below (2 ^ 32) (makes layout.now e) }
    ensures { result ≡ makes layout.now e }
{
    match e {
        Event::Does(t, Act::Pushes(c, _)) => Some(own(layout, t, c)),
        _ => None,
    }
}

pub fn ends_up(layout: &Layout, e: Event) -> Option<usize>
    requires { Below (2 ^ 32) (ends_up layout.now e) }
    ensures { result ≡ ends_up layout.now e }
{
    match e {
        Event::Flushes(t, c, _) => Some(own(layout, t, c)),
        _ => None,
    }
}

/// How many stores may be pending in a queue of the event's thread.
pub fn limit(layout: &Layout, e: Event) -> usize
    ensures { result ≡ limit layout.now e }
{
    match e {
        Event::Does(t, _) => layout.bound.of(t) as usize,
        Event::Flushes(t, _, _) => layout.bound.of(t) as usize,
    }
}

/// The thread and the cell that a load is of.
pub fn loads(layout: &Layout, e: Event) -> Option<usize>
    requires { Below (2 ^ 32) (loads layout.now e) }
    ensures { result ≡ loads layout.now e }
{
    match e {
        Event::Does(t, Act::Loads(_, c, _)) => Some(own(layout, t, c)),
        _ => None,
    }
}

pub fn writes(e: Event) -> Option<usize>
    ensures { result ≡ writes e }
{
    match e {
        Event::Does(_, Act::Puts(c, _)) => Some(c as usize),
        Event::Does(_, Act::Updates(_, _, c, _)) => Some(c as usize),
        Event::Does(_, _) => None,
        Event::Flushes(_, c, _) => Some(c as usize),
    }
}

pub fn reads_by(owns: bool, e: Event) -> Option<usize>
    ensures { result ≡ reads_by owns e }
{
    if owns {
        return None;
    }
    match e {
        Event::Does(_, Act::Loads(_, cell, _)) => Some(cell as usize),
        Event::Does(_, Act::Updates(_, _, cell, _)) => Some(cell as usize),
        Event::Does(_, Act::Misses(_, cell)) => Some(cell as usize),
        _ => None,
    }
}

pub fn only_reads_by(owns: bool, e: Event) -> Option<usize>
    ensures { result ≡ only_reads_by owns e }
{
    if owns {
        return None;
    }
    match e {
        Event::Does(_, Act::Loads(_, cell, _)) => Some(cell as usize),
        Event::Does(_, Act::Misses(_, cell)) => Some(cell as usize),
        _ => None,
    }
}
