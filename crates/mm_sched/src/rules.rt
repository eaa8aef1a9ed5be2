//! How the rules of a machine treat pending stores.

ghost use Rattle.std.specs.Prelude.{◌≡◌, ◌^◌, ◌<◌, ◌≤◌, length, find, position, option_map};
ghost use Rattle.mm_sched.specs.Buffer.{is_to, newest, part, is_in, pends, writes, store_of, flush_under, flush_of};
ghost use Rattle.mm_sched.specs.Invariant.{room_under, room_of};

use crate::entry::{Entry, How, Rules};
use mm_goto::{Bound, List, Model};

/// The value of the newest pending store to cell `c`.
pub fn newest(pending: &[(u32, i32)], c: u32) -> Option<i32>
    ensures { result ≡ newest pending.now c }
{
    pending
        .iter()
        .rev()
        .find(|store| store.0 == c)
        .map(|store| store.1)
}

/// How many pending stores count for cell `c`.
#[tactic(auto, using(crate::proofs::Parts::parts))]
fn part_len(model: Model, pending: &[(u32, i32)], c: u32) -> usize
    ensures { result ≡ length (part model pending.now c) }
{
    match model {
        Model::Tso => pending.len(),
        Model::Pso => pending.iter().filter(|store| store.0 == c).count(),
    }
}

fn is_in(set: &List<List<bool>>, t: u32, k: u32) -> bool
    ensures { result ≡ is_in set.now t k }
{
    match set.items().get(t as usize) {
        Some(row) => match row.items().get(k as usize) {
            Some(is_named) => *is_named,
            None => false,
        },
        None => false,
    }
}

fn pends(model: Model, room: u32, pending: &[(u32, i32)], c: u32) -> How
    ensures { result ≡ pends model room pending.now c }
{
    if part_len(model, pending, c) < room as usize {
        How::Delayed
    } else {
        How::NotEnabled
    }
}

fn writes(model: Model, pending: &[(u32, i32)], c: u32) -> How
    ensures { result ≡ writes model pending.now c }
{
    if part_len(model, pending, c) == 0 {
        How::AtOnce
    } else {
        How::NotEnabled
    }
}

/// How the store of thread `t` at place `k` to cell `c` acts where these are pending.
pub fn store_of(rules: &Rules, t: u32, k: u32, pending: &[(u32, i32)], c: u32) -> How
    ensures { result ≡ store_of rules.now t k pending.now c }
{
    match rules {
        Rules::Sc => How::AtOnce,
        Rules::Buffered(model, bound) => pends(*model, bound.of(t), pending, c),
        Rules::Partial(model, bound, set) => {
            if is_in(set, t, k) {
                pends(*model, bound.of(t), pending, c)
            } else {
                writes(*model, pending, c)
            }
        }
    }
}

/// Where the oldest pending store to cell `c` is.
pub fn position_of(pending: &[(u32, i32)], c: u32) -> Option<usize>
    ensures { result ≡ position (is_to c) pending.now }
{
    pending.iter().position(|store| store.0 == c)
}

/// The value of the oldest pending store to cell `c`.
fn oldest(pending: &[(u32, i32)], c: u32) -> Option<i32>
    ensures { result ≡ option_map (λ store. store.1) (find (is_to c) pending.now) }
{
    pending
        .iter()
        .find(|store| store.0 == c)
        .map(|store| store.1)
}

#[tactic(auto, using(crate::proofs::Removing::oldest_found))]
fn flush_under(model: Model, entry: Entry, pending: &[(u32, i32)]) -> Option<(u32, i32)>
    ensures { result ≡ flush_under model entry pending.now }
{
    match (model, entry) {
        (_, Entry::Step(_)) => None,
        (_, Entry::In(_, _)) => None,
        (Model::Tso, Entry::Flush(_)) => pending.first().copied(),
        (Model::Pso, Entry::Flush(_)) => None,
        (Model::Tso, Entry::FlushCell(_, _)) => None,
        (Model::Pso, Entry::FlushCell(_, c)) => match oldest(pending, c) {
            Some(v) => Some((c, v)),
            None => None,
        },
    }
}

/// The pending store that the entry moves to memory.
pub fn flush_of(rules: &Rules, entry: Entry, pending: &[(u32, i32)]) -> Option<(u32, i32)>
    ensures { result ≡ flush_of rules.now entry pending.now }
{
    match rules {
        Rules::Sc => None,
        Rules::Buffered(model, _) => flush_under(*model, entry, pending),
        Rules::Partial(model, _, _) => flush_under(*model, entry, pending),
    }
}

/// How many stores of any thread may be pending: the bound, for each cell under PSO.
fn room_under(model: Model, bound: Bound, cells: usize) -> usize
    requires { cells ≤ 65536 }
    ensures room { result ≡ room_under model bound cells }
    ensures few { result < 2 ^ 32 }
{
    let bound = bound.get() as usize;
    match model {
        Model::Tso => bound,
        Model::Pso => bound * cells,
    }
}

/// How many stores of any thread may be pending in a program of so many cells.
pub fn room_of(rules: &Rules, cells: usize) -> usize
    requires { cells ≤ 65536 }
    ensures room { result ≡ room_of rules.now cells }
    ensures few { result < 2 ^ 32 }
{
    match rules {
        Rules::Sc => 0,
        Rules::Buffered(model, bound) => room_under(*model, *bound, cells),
        Rules::Partial(model, bound, _) => room_under(*model, *bound, cells),
    }
}
