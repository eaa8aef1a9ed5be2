ghost use Rattle.std.specs.Prelude.{◌≡◌, ◌↔◌, ◌⊎◌, ℕ, ◌<◌, ◌≤◌, ◌+◌, ◌^◌, true, false, length, IfOk, IsTrue};
ghost use Rattle.mm_goto.specs.Flow.{GoesTo, IsSuccessor};
ghost use Rattle.mm_goto.specs.Sites.{drains, FlowsBy, PassesAt};
ghost use Rattle.mm_graph.specs.reading.Marks.{Marked, passes_where};

use mm_goto::{Instr, NoMemory};
use std::alloc::Global;

/// Whether the instruction waits until nothing of its thread is pending.
fn drains(it: &Instr) -> bool
    ensures { result ≡ drains it.now }
{
    matches!(
        it,
        Instr::Fence
            | Instr::Lock(_)
            | Instr::Unlock(_)
            | Instr::Start(_)
            | Instr::Join(_)
            | Instr::Add(..)
            | Instr::Cas(..)
    )
}

/// Marks the place if the code has it. Whether it was new.
fn mark(seen: &mut [bool], k: u32) -> bool
    ensures marked { (m : ℕ) → Marked seen.new m ↔ (Marked seen.old m ⊎ ((m < length seen.old) × (m ≡ k))) }
    ensures stays { result ≡ false → (m : ℕ) → Marked seen.new m → Marked seen.old m }
    ensures grows { result ≡ true → (m : ℕ) × (m < length seen.old) × Marked seen.new m × ¬ (Marked seen.old m) }
{
    let k = k as usize;
    if k < seen.len() && !seen[k] {
        seen[k] = true;
        true
    } else {
        false
    }
}

/// Marks where the instruction at place `j` leads. Whether any of it was new.
fn mark_after(seen: &mut [bool], j: u32, it: &Instr) -> bool
    requires { j + 1 < 2 ^ 32 }
    ensures marked { (m : ℕ) → Marked seen.new m ↔ (Marked seen.old m ⊎ ((m < length seen.old) × GoesTo j it.now m)) }
    ensures stays { result ≡ false → (m : ℕ) → Marked seen.new m → Marked seen.old m }
    ensures grows { result ≡ true → (m : ℕ) × (m < length seen.old) × Marked seen.new m × ¬ (Marked seen.old m) }
{
    match it {
        Instr::End => false,
        Instr::Jump(k) => mark(seen, *k),
        Instr::Branch(_, k) => {
            let first = mark(seen, *k);
            let second = mark_next(seen, j);
            first || second
        }
        _ => mark_next(seen, j),
    }
}

fn mark_next(seen: &mut [bool], j: u32) -> bool
    requires { j + 1 < 2 ^ 32 }
    ensures marked { (m : ℕ) → Marked seen.new m ↔ (Marked seen.old m ⊎ ((m < length seen.old) × (m ≡ j + 1))) }
    ensures stays { result ≡ false → (m : ℕ) → Marked seen.new m → Marked seen.old m }
    ensures grows { result ≡ true → (m : ℕ) × (m < length seen.old) × Marked seen.new m × ¬ (Marked seen.old m) }
{
    mark(seen, j + 1)
}

/// Marks where control may go on from place `j`, if it is marked. Whether any of it was new.
fn visit(code: &[Instr], seen: &mut [bool], j: u32, all: bool) -> bool
    requires few { length code.now < 2 ^ 32 }
    requires places { length seen.old ≡ length code.now }
    requires place { j < length code.now }
    ensures marked { (m : ℕ) → Marked seen.new m ↔ (Marked seen.old m ⊎ ((m < length code.now) × Marked seen.old j × PassesAt (passes_where all) code.now j × IsSuccessor code.now j m)) }
    ensures stays { result ≡ false → (m : ℕ) → Marked seen.new m → Marked seen.old m }
    ensures grows { result ≡ true → (m : ℕ) × (m < length code.now) × Marked seen.new m × ¬ (Marked seen.old m) }
{
    let it = &code[j as usize];
    if seen[j as usize] && passes(it, all) {
        mark_after(seen, j, it)
    } else {
        false
    }
}

fn passes(it: &Instr, all: bool) -> bool
    ensures { result ≡ passes_where all it.now }
{
    all || !drains(it)
}

/// Marks what one step leads to from what is marked. Whether any of it was new.
fn sweep(code: &[Instr], seen: &mut [bool], from: u32, all: bool) -> bool
    requires few { length code.now < 2 ^ 32 }
    requires places { length seen.old ≡ length code.now }
    requires sound { (m : ℕ) → Marked seen.old m → FlowsBy (passes_where all) code.now from m }
    ensures sound { (m : ℕ) → Marked seen.new m → FlowsBy (passes_where all) code.now from m }
    ensures keeps { (m : ℕ) → Marked seen.old m → Marked seen.new m }
    ensures closed { result ≡ false → (j m : ℕ) → Marked seen.new j → PassesAt (passes_where all) code.now j → IsSuccessor code.now j m → m < length code.now → Marked seen.new m }
    ensures grows { result ≡ true → (m : ℕ) × (m < length code.now) × Marked seen.new m × ¬ (Marked seen.old m) }
{
    let mut grew = false;
    'places: for j in 0..code.len() as u32 {
        if visit(code, seen, j, all) {
            grew = true;
        }
    }
    grew
}

/// Marks all that flow leads to, by sweeps.
fn settle(code: &[Instr], seen: &mut [bool], from: u32, all: bool)
    requires few { length code.now < 2 ^ 32 }
    requires places { length seen.old ≡ length code.now }
    requires sound { (m : ℕ) → Marked seen.old m → FlowsBy (passes_where all) code.now from m }
    requires first { (m : ℕ) → IsSuccessor code.now from m → m < length code.now → Marked seen.old m }
    ensures { (k : ℕ) → k < length code.now → Marked seen.new k ↔ FlowsBy (passes_where all) code.now from k }
{
    'sweeps: while sweep(code, seen, from, all) {}
}

/// To which places control may go from a place, in one step or more, by way of any instruction or of those alone that do not
/// wait for pending stores.
pub fn reach(alloc: Global, code: &[Instr], from: u32, all: bool) -> Result<Vec<bool>, NoMemory>
    requires few { length code.now < 2 ^ 32 }
    requires from { from < length code.now }
    ensures places { IfOk result (λ seen. length seen.items ≡ length code.now) }
    ensures flows { IfOk result (λ seen. (k : ℕ) → k < length code.now → Marked seen.items k ↔ FlowsBy (passes_where all) code.now from k) }
{
    let mut seen = vec![in alloc; false; code.len()]?;
    fill(code, seen.as_mut_slice(), from, all);
    Ok(seen)
}

fn fill(code: &[Instr], seen: &mut [bool], from: u32, all: bool)
    requires few { length code.now < 2 ^ 32 }
    requires from { from < length code.now }
    requires places { length seen.old ≡ length code.now }
    requires none { (m : ℕ) → ¬ (Marked seen.old m) }
    ensures { (k : ℕ) → k < length code.now → Marked seen.new k ↔ FlowsBy (passes_where all) code.now from k }
{
    mark_after(seen, from, &code[from as usize]);
    settle(code, seen, from, all);
}
