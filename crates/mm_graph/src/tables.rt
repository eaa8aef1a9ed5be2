ghost use Rattle.std.specs.Prelude.{◌≡◌, ◌↔◌, ◌⊎◌, ℕ, ◌<◌, ◌≤◌, length, true, IfOk, IsTrue, All};
ghost use Rattle.mm_goto.specs.Sites.{Is, is_site, FlowsBy};
ghost use Rattle.mm_goto.specs.Valid.{code_of};
ghost use Rattle.mm_bits.specs.Related.{Related};
ghost use Rattle.mm_graph.specs.reading.Accesses.{AreMet, AreOrdered};
ghost use Rattle.mm_graph.specs.reading.Marks.{Marked, passes_where};
ghost use Rattle.mm_graph.specs.reading.Tables.{OnBoth, IsMarkedIn, FlowsIn};

use crate::access::Access;
use crate::flow::reach;
use crate::order::{are_met, are_ordered};
use mm_bits::Bits;
use mm_goto::{NoMemory, Program, Spot};
use std::alloc::Global;

/// Relates `a` to `b` if told so.
fn relate(table: &mut Bits, a: u32, b: u32, so: bool)
    requires a { a < table.old.side }
    requires b { b < table.old.side }
    ensures size { table.new.side ≡ table.old.side }
    ensures put { (x y : ℕ) → Related table.new x y ↔ (Related table.old x y ⊎ (IsTrue so × ((x ≡ a) × (y ≡ b)))) }
{
    if so {
        table.set(a, b);
    }
}

fn are_met_at(accesses: &[Access], a: u32, b: u32) -> bool
    ensures { IsTrue result ↔ OnBoth AreMet accesses.now a b }
{
    match accesses.get(a as usize) {
        Some(x) => match accesses.get(b as usize) {
            Some(y) => are_met(x, y),
            None => false,
        },
        None => false,
    }
}

fn are_ordered_at(accesses: &[Access], a: u32, b: u32) -> bool
    ensures { IsTrue result ↔ OnBoth AreOrdered accesses.now a b }
{
    match accesses.get(a as usize) {
        Some(x) => match accesses.get(b as usize) {
            Some(y) => are_ordered(x, y),
            None => false,
        },
        None => false,
    }
}

/// Relates access `a` to each with which it communicates.
fn meet_row(accesses: &[Access], a: u32, table: &mut Bits)
    requires a { a < length accesses.now }
    requires size { table.old.side ≡ length accesses.now }
    ensures size { table.new.side ≡ table.old.side }
    ensures row { (x y : ℕ) → Related table.new x y ↔ (Related table.old x y ⊎ ((x ≡ a) × OnBoth AreMet accesses.now x y)) }
{
    'columns: for b in 0..table.side {
        let met = are_met_at(accesses, a, b);
        relate(table, a, b, met);
    }
}

/// Which accesses communicate.
pub fn meetings(alloc: Global, accesses: &[Access]) -> Result<Bits, NoMemory>
    requires { length accesses.now ≤ 1024 }
    ensures size { IfOk result (λ table. table.side ≡ length accesses.now) }
    ensures all { IfOk result (λ table. (x y : ℕ) → Related table x y ↔ OnBoth AreMet accesses.now x y) }
{
    let mut table = Bits::new(alloc, accesses.len() as u32)?;
    'rows: for a in 0..accesses.len() as u32 {
        meet_row(accesses, a, &mut table);
    }
    Ok(table)
}

/// Relates access `a` to each that is ordered behind it.
fn order_row(accesses: &[Access], a: u32, table: &mut Bits)
    requires a { a < length accesses.now }
    requires size { table.old.side ≡ length accesses.now }
    ensures size { table.new.side ≡ table.old.side }
    ensures row { (x y : ℕ) → Related table.new x y ↔ (Related table.old x y ⊎ ((x ≡ a) × OnBoth AreOrdered accesses.now x y)) }
{
    'columns: for b in 0..table.side {
        let ordered = are_ordered_at(accesses, a, b);
        relate(table, a, b, ordered);
    }
}

/// Which accesses a mutex, a start or a wait for an end orders.
pub fn orders(alloc: Global, accesses: &[Access]) -> Result<Bits, NoMemory>
    requires { length accesses.now ≤ 1024 }
    ensures size { IfOk result (λ table. table.side ≡ length accesses.now) }
    ensures all { IfOk result (λ table. (x y : ℕ) → Related table x y ↔ OnBoth AreOrdered accesses.now x y) }
{
    let mut table = Bits::new(alloc, accesses.len() as u32)?;
    'rows: for a in 0..accesses.len() as u32 {
        order_row(accesses, a, &mut table);
    }
    Ok(table)
}

/// Whether the place is marked.
fn is_marked(seen: &[bool], k: u32) -> bool
    ensures { IsTrue result ↔ Marked seen.now k }
{
    (k as usize) < seen.len() && seen[k as usize]
}

fn is_marked_at(spots: &[Spot], a: u32, b: u32, seen: &[bool]) -> bool
    ensures { IsTrue result ↔ OnBoth (IsMarkedIn seen.now) spots.now a b }
{
    match spots.get(a as usize) {
        Some(x) => match spots.get(b as usize) {
            Some(y) => y.thread == x.thread && is_marked(seen, y.index),
            None => false,
        },
        None => false,
    }
}

/// Relates spot `a` to each of its thread that is marked.
fn flow_row(spots: &[Spot], a: u32, seen: &[bool], table: &mut Bits)
    requires a { a < length spots.now }
    requires size { table.old.side ≡ length spots.now }
    ensures size { table.new.side ≡ table.old.side }
    ensures row { (x y : ℕ) → Related table.new x y ↔ (Related table.old x y ⊎ ((x ≡ a) × OnBoth (IsMarkedIn seen.now) spots.now x y)) }
{
    'columns: for b in 0..table.side {
        let marked = is_marked_at(spots, a, b, seen);
        relate(table, a, b, marked);
    }
}

/// To which places of its thread control may flow from the spot.
fn reach_from(
    alloc: Global,
    program: &Program,
    spot: Spot,
    all: bool,
) -> Result<Vec<bool>, NoMemory>
    requires { Is program.now spot (λ it. is_site it ≡ true) }
    ensures { IfOk result (λ seen. (k : ℕ) → k < length (code_of program.now spot.thread) → Marked seen.items k ↔ FlowsBy (passes_where all) (code_of program.now spot.thread) spot.index k) }
{
    reach(
        alloc,
        program.threads()[spot.thread as usize].code.items(),
        spot.index,
        all,
    )
}

/// Between which spots of one thread control may flow, by way of any instruction or of those alone that do not wait for pending
/// stores.
pub fn flows(alloc: Global, program: &Program, spots: &[Spot], all: bool) -> Result<Bits, NoMemory>
    requires few { length spots.now ≤ 1024 }
    requires sites { All (λ s. Is program.now s (λ it. is_site it ≡ true)) spots.now }
    ensures size { IfOk result (λ table. table.side ≡ length spots.now) }
    ensures all { IfOk result (λ table. (x y : ℕ) → Related table x y ↔ OnBoth (FlowsIn program.now (passes_where all)) spots.now x y) }
{
    let mut table = Bits::new(alloc, spots.len() as u32)?;
    'rows: for a in 0..spots.len() as u32 {
        let seen = reach_from(alloc, program, spots[a as usize], all)?;
        flow_row(spots, a, seen.as_slice(), &mut table);
    }
    Ok(table)
}

/// Adds what the other relates.
pub fn join(into: &mut Bits, other: &Bits)
    requires { other.now.side ≡ into.old.side }
    ensures size { into.new.side ≡ into.old.side }
    ensures all { (x y : ℕ) → Related into.new x y ↔ (Related into.old x y ⊎ Related other.now x y) }
{
    'rows: for a in 0..into.side {
        join_row(into, other, a);
    }
}

fn join_row(into: &mut Bits, other: &Bits, a: u32)
    requires size { other.now.side ≡ into.old.side }
    requires a { a < into.old.side }
    ensures size { into.new.side ≡ into.old.side }
    ensures row { (x y : ℕ) → Related into.new x y ↔ (Related into.old x y ⊎ ((x ≡ a) × Related other.now x y)) }
{
    'columns: for b in 0..into.side {
        let related = other.get(a, b);
        relate(into, a, b, related);
    }
}
