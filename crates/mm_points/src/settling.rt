ghost use Rattle.std.specs.Prelude.{◌≡◌, ◌↔◌, ◌⊎◌, ℕ, ◌<◌, ◌≤◌, ◌+◌, ◌^◌, false, length, IfOk, IfSome, OnOk, All, Some, slice_get};
ghost use Rattle.mm_points.specs.Sets.{Has, Linked};
ghost use Rattle.mm_points.specs.reading.Rules.{Holds, holder, Gives, IsPointer, IsIn, Grows};

use crate::cell_set::CellSet;
use crate::gathering::{gather, is_pointer, value_of};
use crate::rules::Rule;
use mm_goto::NoMemory;
use std::alloc::Global;

/// The set gets the cells. Whether any was new.
fn join_value(sets: &mut [CellSet], into: u32, value: &[u32]) -> Result<bool, NoMemory>
    requires { into < length sets.old }
    ensures given { OnOk result ((a b : ℕ) → Linked sets.new a b ↔ (Linked sets.old a b ⊎ ((a ≡ into) × Has value.now b))) }
    ensures grows { IfOk result (λ grew. Grows sets.old sets.new grew) }
{
    sets[into as usize].join(value)
}

/// The cell gets the cells if it holds an address. Whether any was new.
fn join_at(sets: &mut [CellSet], pointers: &[bool], k: u32, value: &[u32]) -> Result<bool, NoMemory>
    requires { length pointers.now ≤ length sets.old }
    ensures given { OnOk result ((a b : ℕ) → Linked sets.new a b ↔ (Linked sets.old a b ⊎ ((a ≡ k) × IsPointer pointers.now k × Has value.now b))) }
    ensures grows { IfOk result (λ grew. Grows sets.old sets.new grew) }
{
    if is_pointer(pointers, k) {
        join_value(sets, k, value)
    } else {
        Ok(false)
    }
}

/// The pointers among the names get the cells. Whether any was new.
fn join_pointed(
    sets: &mut [CellSet],
    pointers: &[bool],
    names: &[u32],
    value: &[u32],
) -> Result<bool, NoMemory>
    requires { length pointers.now ≤ length sets.old }
    ensures given { OnOk result ((a b : ℕ) → Linked sets.new a b ↔ (Linked sets.old a b ⊎ ((i : ℕ) × (k : ℕ) × (slice_get names.now i ≡ Some k) × ((a ≡ k) × IsPointer pointers.now k × Has value.now b)))) }
    ensures grows { IfOk result (λ grew. Grows sets.old sets.new grew) }
{
    let mut grew = false;
    'names: for i in 0..names.len() {
        let more = join_at(sets, pointers, names[i], value)?;
        grew |= more;
    }
    Ok(grew)
}

/// Adds what the rule gives. Whether any of it was new.
fn apply(
    alloc: Global,
    sets: &mut [CellSet],
    pointers: &[bool],
    rule: &Rule,
) -> Result<bool, NoMemory>
    requires pointers { length pointers.now ≤ length sets.old }
    requires few { length sets.old < 2 ^ 32 }
    requires fits { IsIn (length sets.old) rule.now }
    ensures given { OnOk result ((a b : ℕ) → Linked sets.new a b ↔ (Linked sets.old a b ⊎ Gives pointers.now (Linked sets.old) rule.now a b)) }
    ensures grows { IfOk result (λ grew. Grows sets.old sets.new grew) }
{
    match rule {
        Rule::Nothing => Ok(false),
        Rule::Set(into, aim) => {
            let value = value_of(alloc, sets, aim)?;
            join_value(sets, *into, value.items())
        }
        Rule::Load(into, aim) => {
            let names = value_of(alloc, sets, aim)?;
            let value = gather(alloc, sets, pointers, names.items())?;
            join_value(sets, *into, value.items())
        }
        Rule::Store(target, aim) => {
            let names = value_of(alloc, sets, target)?;
            let value = value_of(alloc, sets, aim)?;
            join_pointed(sets, pointers, names.items(), value.items())
        }
    }
}

/// Applies each rule once. Whether anything was new.
fn sweep(
    alloc: Global,
    sets: &mut [CellSet],
    pointers: &[bool],
    rules: &[Rule],
) -> Result<bool, NoMemory>
    requires pointers { length pointers.now ≤ length sets.old }
    requires few { length sets.old < 2 ^ 32 }
    requires fits { All (IsIn (length sets.old)) rules.now }
    requires sound { (a b : ℕ) → Linked sets.old a b → Holds rules.now pointers.now (holder a) b }
    ensures size { OnOk result (length sets.new ≡ length sets.old) }
    ensures sound { OnOk result ((a b : ℕ) → Linked sets.new a b → Holds rules.now pointers.now (holder a) b) }
    ensures closed { IfOk result (λ grew. grew ≡ false → (i a b : ℕ) → IfSome (slice_get rules.now i) (λ it. Gives pointers.now (Linked sets.new) it a b → Linked sets.new a b)) }
{
    let mut grew = false;
    'each: for i in 0..rules.len() {
        let more = apply(alloc, sets, pointers, &rules[i])?;
        grew |= more;
    }
    Ok(grew)
}

/// Makes the least sets that meet the rules, from empty ones, by sweeps until one gives nothing new.
fn settle(
    alloc: Global,
    sets: &mut [CellSet],
    pointers: &[bool],
    rules: &[Rule],
) -> Result<(), NoMemory>
    requires pointers { length pointers.now ≤ length sets.old }
    requires few { length sets.old < 2 ^ 32 }
    requires fits { All (IsIn (length sets.old)) rules.now }
    requires none { (a b : ℕ) → ¬ (Linked sets.old a b) }
    ensures least { OnOk result ((a b : ℕ) → Linked sets.new a b ↔ Holds rules.now pointers.now (holder a) b) }
    ensures size { OnOk result (length sets.new ≡ length sets.old) }
{
    'sweeps: for _ in 0..u64::MAX {
        if !sweep(alloc, sets, pointers, rules)? {
            return Ok(());
        }
    }
    Err(NoMemory)
}

/// As many empty sets.
fn no_sets(alloc: Global, holders: usize) -> Result<Vec<CellSet>, NoMemory>
    ensures size { IfOk result (λ sets. length sets.items ≡ holders) }
    ensures none { IfOk result (λ sets. (a b : ℕ) → ¬ (Linked sets.items a b)) }
{
    let mut sets = Vec::new(alloc);
    'holders: for _ in 0..holders {
        sets.push(CellSet::empty(alloc))?;
    }
    Ok(sets)
}

/// The least sets that meet the rules, for so many holders, of which the first are the cells.
pub fn solve(
    alloc: Global,
    holders: usize,
    pointers: &[bool],
    rules: &[Rule],
) -> Result<Vec<CellSet>, NoMemory>
    requires pointers { length pointers.now ≤ holders }
    requires few { holders < 2 ^ 32 }
    requires fits { All (IsIn holders) rules.now }
    ensures size { IfOk result (λ sets. length sets.items ≡ holders) }
    ensures least { IfOk result (λ sets. (a b : ℕ) → Linked sets.items a b ↔ Holds rules.now pointers.now (holder a) b) }
{
    let mut sets = no_sets(alloc, holders)?;
    settle(alloc, sets.as_mut_slice(), pointers, rules)?;
    Ok(sets)
}
