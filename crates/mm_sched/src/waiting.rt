//! Pending stores.

ghost use Rattle.std.specs.Prelude.{◌≡◌, ◌<◌, ◌++◌, [], ◌∷◌, ℕ, length, map, slice_index_or, slice_set, vec_capacity, IfOk};
ghost use Rattle.mm_sched.specs.Buffer.{without};

use crate::rules::position_of;
use mm_goto::{NoMemory, Thread};
use std::alloc::Global;
use std::marker::Model;

/// The pending stores of each thread, the oldest first, with room for so many of each.
#[derive(Debug, Drop)]
pub struct Waiting {
    lists: Vec<Vec<(u32, i32)>>,
    room: usize,
}

impl Model for Waiting {
    ghost use Rattle.std.specs.Prelude.{◌≤◌, map, All, vec_capacity};
    ghost use Rattle.mm_sched.specs.Running.{Queues};

    ghost Value = { Queues };

    ghost view = { λ w. record { lists = map (λ v. v.items) w.lists.items; room = w.room } };

    ghost invariant = { λ w. All (λ v. w.room ≤ vec_capacity v) w.lists.items };
}

impl Waiting {
    /// Nothing is pending.
    pub fn new(alloc: Global, threads: &[Thread], room: usize) -> Result<Waiting, NoMemory>
        ensures { IfOk result (λ w. w ≡ record { lists = map (λ thread. []) threads.now; room = room }) }
    {
        let mut lists = Vec::with_capacity(alloc, threads.len())?;
        for _ in threads {
            lists.push(Vec::with_capacity(alloc, room)?)?;
        }
        Ok(Waiting { lists, room })
    }

    /// The pending stores of thread `t`.
    pub fn of(&self, t: u32) -> &[(u32, i32)]
        ensures { result.now ≡ slice_index_or self.now.lists t [] }
    {
        match self.lists.get(t as usize) {
            Some(list) => list.as_slice(),
            None => &[],
        }
    }

    /// Thread `t` has one more store pending.
    pub fn push(&mut self, t: u32, c: u32, v: i32)
        requires thread { t < length self.old.lists }
        requires room { length (slice_index_or self.old.lists t []) < self.old.room }
        ensures { self.new ≡ record self.old { lists = slice_set self.old.lists t (slice_index_or self.old.lists t [] ++ (c, v) ∷ []) } }
    {
        self.lists[t as usize].push_reserved((c, v));
    }

    /// Thread `t` has its oldest store to cell `c` pending no longer.
    pub fn remove(&mut self, t: u32, c: u32)
        requires { t < length self.old.lists }
        ensures { self.new ≡ record self.old { lists = slice_set self.old.lists t (without (slice_index_or self.old.lists t []) c) } }
    {
        remove_oldest(&mut self.lists[t as usize], c);
    }
}

/// Removes the oldest store to cell `c`, if there is one.
fn remove_oldest(pending: &mut Vec<(u32, i32)>, c: u32)
    ensures items { pending.new.items ≡ without pending.old.items c }
    ensures capacity { vec_capacity pending.new ≡ vec_capacity pending.old }
{
    if let Some(i) = position_of(pending.as_slice(), c) {
        pending.remove(i);
    }
}
