//! Which calls are recursive.
ghost use Rattle.std.specs.Prelude.{◌≡◌, ◌<◌, ◌≤◌, ◌+◌, IfOk, Contains, length, slice_index_or, sum_by, true, false};
ghost use Rattle.mm_scope.specs.Faults.{fault};
ghost use Rattle.mm_scope.specs.declared.fault.Rule.TheVariants.{Recursion};
ghost use Rattle.mm_names.specs.Calls.{Reaches, IsRecursion};
ghost use Rattle.mm_names.specs.Least.{IsLeastOf, IsBelow};
ghost use Rattle.mm_names.specs.reading.Marks.{AreAmong, unmarked, AreReached, IsClosed, AreClosed, IsMarkedBy, Descends, AllDescend, is_behind};

use mm_goto::NoMemory;
use mm_scope::{Call, Fault, Rule, lesser};
use std::alloc::Global;

// Marks the callee where the caller alone is marked.
fn mark(call: Call, marks: &mut [bool]) -> bool
    requires caller { call.caller < length marks.old }
    requires callee { call.callee < length marks.old }
    ensures yes { result ≡ true → IsMarkedBy call marks.old marks.new }
    ensures same { result ≡ false → marks.new ≡ marks.old }
    ensures closed { result ≡ false → IsClosed marks.new call }
{
    if marks[call.caller] && !marks[call.callee] {
        marks[call.callee] = true;
        true
    } else {
        false
    }
}

// Marks what is called from what is marked. Whether there was something to mark.
fn spread(calls: &[Call], from: usize, marks: &mut [bool]) -> bool
    requires range { AreAmong (length marks.old) calls.now }
    requires reached { AreReached calls.now from marks.old }
    ensures reached { AreReached calls.now from marks.new }
    ensures start { slice_index_or marks.old from false ≡ true → slice_index_or marks.new from false ≡ true }
    ensures more { result ≡ true → sum_by unmarked marks.new < sum_by unmarked marks.old }
    ensures closed { result ≡ false → AreClosed marks.new calls.now }
{
    let mut changed = false;
    for call in calls {
        if mark(*call, marks) {
            changed = true;
        }
    }
    changed
}

/// Whether one function can reach another through calls.
#[tactic(auto, using(crate::proofs::Marking::in_search))]
fn reaches(
    alloc: Global,
    calls: &[Call],
    functions: usize,
    from: usize,
    to: usize,
) -> Result<bool, NoMemory>
    requires range { AreAmong functions calls.now }
    requires from { from < functions }
    requires to { to < functions }
    ensures yes { IfOk result (λ is. is ≡ true → Reaches calls.now from to) }
    ensures no { IfOk result (λ is. is ≡ false → Reaches calls.now from to → ⊥) }
{
    let mut marks = vec![in alloc; false; functions]?;
    marks[from] = true;
    while spread(calls, from, marks.as_mut_slice()) {}
    Ok(marks[to])
}

// A number above both.
fn past(functions: usize, number: usize) -> Result<usize, NoMemory>
    ensures above { IfOk result (λ n. number < n) }
    ensures no_less { IfOk result (λ n. functions ≤ n) }
{
    if number < functions {
        Ok(functions)
    } else {
        match number.checked_add(1) {
            Some(next) => Ok(next),
            None => Err(NoMemory),
        }
    }
}

// A number above those of all functions that call or are called.
fn count_functions(calls: &[Call]) -> Result<usize, NoMemory>
    ensures { IfOk result (λ n. AreAmong n calls.now) }
{
    let mut functions = 0;
    for call in calls {
        functions = past(past(functions, call.caller)?, call.callee)?;
    }
    Ok(functions)
}

// Raises the rank of the caller above that of the callee. Whether it was not above it.
fn raise(call: Call, ranks: &mut [usize]) -> bool
    requires caller { call.caller < length ranks.old }
    requires callee { call.callee < length ranks.old }
    ensures { length ranks.new ≡ length ranks.old }
{
    let least = ranks[call.callee].saturating_add(1);
    let low = ranks[call.caller] < least;
    if low {
        ranks[call.caller] = least;
    }
    low
}

fn raise_all(calls: &[Call], ranks: &mut [usize]) -> bool
    requires { AreAmong (length ranks.old) calls.now }
    ensures { length ranks.new ≡ length ranks.old }
{
    let mut changed = false;
    for call in calls {
        if raise(*call, ranks) {
            changed = true;
        }
    }
    changed
}

// Ranks of functions. Where no function reaches itself each is above those that it calls, else the ranks below
// the number of functions are so.
fn rank(alloc: Global, calls: &[Call], functions: usize) -> Result<Vec<usize>, NoMemory>
    requires { AreAmong functions calls.now }
    ensures { IfOk result (λ ranks. length ranks.items ≡ functions) }
{
    let mut ranks = vec![in alloc; 0usize; functions]?;
    for _ in 0..functions {
        if !raise_all(calls, ranks.as_mut_slice()) {
            break;
        }
    }
    Ok(ranks)
}

fn descends(limit: usize, ranks: &[usize], call: Call) -> bool
    requires caller { call.caller < length ranks.now }
    requires callee { call.callee < length ranks.now }
    ensures { result ≡ true → Descends limit ranks.now call }
{
    limit <= ranks[call.caller] || ranks[call.callee] < ranks[call.caller]
}

// Whether the ranks below the limit are above those of the functions that are called.
fn all_descend(limit: usize, ranks: &[usize], calls: &[Call]) -> bool
    requires { AreAmong (length ranks.now) calls.now }
    ensures { result ≡ true → AllDescend limit ranks.now calls.now }
{
    for call in calls {
        if !descends(limit, ranks, *call) {
            return false;
        }
    }
    true
}

// A limit below which the ranks are so.
fn limit_of(ranks: &[usize], calls: &[Call]) -> usize
    requires { AreAmong (length ranks.now) calls.now }
    ensures { AllDescend result ranks.now calls.now }
{
    if all_descend(ranks.len(), ranks, calls) {
        ranks.len()
    } else {
        0
    }
}

fn fault_of(call: Call) -> Fault
    ensures { result ≡ fault Recursion call.at }
{
    Fault {
        rule: Rule::Recursion,
        at: call.at,
    }
}

// Whether the call stands behind the least that was found.
fn is_behind(least: Option<Fault>, call: Call) -> bool
    ensures { result ≡ is_behind least call }
{
    match least {
        Some(least) => least.is_before(fault_of(call)),
        None => false,
    }
}

// Whether the call is recursive, where its rank does not tell that it is not.
fn is_recursive(
    alloc: Global,
    calls: &[Call],
    limit: usize,
    ranks: &[usize],
    call: Call,
) -> Result<bool, NoMemory>
    requires range { AreAmong (length ranks.now) calls.now }
    requires descend { AllDescend limit ranks.now calls.now }
    requires caller { call.caller < length ranks.now }
    requires callee { call.callee < length ranks.now }
    ensures yes { IfOk result (λ is. is ≡ true → Reaches calls.now call.callee call.caller) }
    ensures no { IfOk result (λ is. is ≡ false → Reaches calls.now call.callee call.caller → Contains calls.now call → ⊥) }
{
    if ranks[call.callee] < limit {
        Ok(false)
    } else {
        reaches(alloc, calls, ranks.len(), call.callee, call.caller)
    }
}

// The least fault of a recursive call.
fn search(
    alloc: Global,
    calls: &[Call],
    limit: usize,
    ranks: &[usize],
) -> Result<Option<Fault>, NoMemory>
    requires range { AreAmong (length ranks.now) calls.now }
    requires descend { AllDescend limit ranks.now calls.now }
    ensures { IfOk result (λ least. IsLeastOf (IsBelow (IsRecursion calls.now) (length calls.now)) least) }
{
    let mut least = None;
    for call in calls {
        if !is_behind(least, *call) {
            if is_recursive(alloc, calls, limit, ranks, *call)? {
                least = lesser(least, fault_of(*call));
            }
        }
    }
    Ok(least)
}

/// The least fault of a call whose function can reach the one in which it stands.
pub fn least_recursion(alloc: Global, calls: &[Call]) -> Result<Option<Fault>, NoMemory>
    ensures { IfOk result (λ least. IsLeastOf (IsBelow (IsRecursion calls.now) (length calls.now)) least) }
{
    let functions = count_functions(calls)?;
    let ranks = rank(alloc, calls, functions)?;
    let ranks = ranks.as_slice();
    search(alloc, calls, limit_of(ranks, calls), ranks)
}
