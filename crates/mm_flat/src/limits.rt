//! The limits of what is flattened.
ghost use Rattle.std.specs.Prelude.{◌≡◌, ◌≤◌, ◌+◌, ◌∷◌, ◌++◌, [], false, get_or, length, map, min, nat_lt, IfOk, OnOk};
ghost use Rattle.mm_flow.specs.Programs.{cell_count, globals_in, globals_of, has_more_locals, most_calls, most_cells, most_instructions, most_locals, most_mutexes, most_threads, nests_too_deep};
ghost use Rattle.mm_flow.specs.Text.{calls, calls_in};
ghost use Rattle.mm_flat.specs.reading.Nesting.{callee, callees, called_by, deep_after, deep_of, graph, has_deep, not_empty};
ghost use Rattle.mm_flat.specs.reading.Refusal.{passed_before, passed_behind};

use crate::gather::{body_of, cells_in, globals_of};
use mm_flow::fault::Limit;
use mm_flow::mentions::{Mention, mentions};
use mm_flow::tables::{Functions, Tables};
use mm_goto::limits::{MAX_CELLS, MAX_INSTRUCTIONS, MAX_LOCALS, MAX_MUTEXES, MAX_THREADS};
use mm_goto::{Ident, List, NoMemory, Thread};
use mm_tree::{Item, Side, Stmt};
use std::alloc::Global;

/// The most calls that nest.
const MAX_NESTED_CALLS: u32 = 64;
/// The most instructions of all threads of a source.
const MAX_SOURCE_INSTRUCTIONS: usize = 16_384;
/// The most locals of one thread of a source.
const MAX_SOURCE_LOCALS: u32 = 4_096;

/// The most calls that nest.
#[tactic(auto, unfolding(mm_flow::specs::Programs::most_calls))]
pub fn most_calls() -> u32
    ensures { result ≡ most_calls }
{
    MAX_NESTED_CALLS
}

/// The most instructions of all threads.
pub fn most_instructions(side: Side) -> usize
    ensures { result ≡ most_instructions side }
{
    match side {
        Side::Source => MAX_SOURCE_INSTRUCTIONS,
        Side::Output => MAX_INSTRUCTIONS,
    }
}

/// The most locals of one thread.
fn most_locals(side: Side) -> u32
    ensures { result ≡ most_locals side }
{
    match side {
        Side::Source => MAX_SOURCE_LOCALS,
        Side::Output => MAX_LOCALS,
    }
}

/// Whether a thread has more locals than so many.
fn has_more_locals(most: u32, threads: &[Thread]) -> bool
    ensures { result ≡ has_more_locals most threads.now }
{
    threads.iter().any(|t| most < t.locals)
}

/// Whether there are more cells than there may be.
fn has_more_cells(items: &[Item]) -> bool
    ensures { result ≡ nat_lt most_cells (cell_count (globals_in items.now)) }
{
    let mut count: usize = 0;
    for item in items {
        count = more_cells_of(count, item);
    }
    MAX_CELLS < count
}

/// So many cells and those of the item, as far as one more than there may be.
fn more_cells_of(count: usize, item: &Item) -> usize
    requires { count ≤ 65537 }
    ensures { result ≡ min (count + cell_count (globals_of item.now)) 65537 }
{
    match globals_of(item) {
        Some(globals) => more_cells(count, globals),
        None => count,
    }
}

/// So many cells and those of the globals, as far as one more than there may be.
fn more_cells(count: usize, globals: &[mm_tree::Global]) -> usize
    requires { count ≤ 65537 }
    ensures { result ≡ min (count + cell_count globals.now) 65537 }
{
    let mut count = count;
    for global in globals {
        count = (count + cells_in(global) as usize).min(MAX_CELLS + 1);
    }
    count
}

/// The item of a function.
fn callee(items: &Functions<'_>, f: &Ident) -> Option<usize>
    ensures { result ≡ callee items.now f.now }
{
    items.place_of(f.text())
}

fn add_callee(
    out: &mut Vec<usize>,
    items: &Functions<'_>,
    mention: &Mention,
) -> Result<(), NoMemory>
    ensures { OnOk result (out.new.items ≡ out.old.items ++ callees items.now (calls (mention.now ∷ []))) }
{
    match mention {
        Mention::Call(f) => {
            if let Some(i) = callee(items, f) {
                out.push(i)?;
            }
            Ok(())
        }
        Mention::Assertion | Mention::Create(_) | Mention::Label(_) => Ok(()),
    }
}

/// The items of the functions that a body calls.
fn callees(alloc: Global, items: &Functions<'_>, body: &[Stmt]) -> Result<Vec<usize>, NoMemory>
    ensures { IfOk result (λ out. out.items ≡ callees items.now (calls_in body.now)) }
{
    let mentions = mentions(alloc, body)?;
    let mut out = Vec::new(alloc);
    for mention in &mentions {
        add_callee(&mut out, items, mention)?;
    }
    Ok(out)
}

fn graph(alloc: Global, items: &Functions<'_>) -> Result<Vec<List<usize>>, NoMemory>
    ensures { IfOk result (λ out. out.items ≡ graph items.now) }
{
    let mut out = Vec::new(alloc);
    for item in items.items() {
        let called = called_by(alloc, items, item)?;
        out.push(List::new(called))?;
    }
    Ok(out)
}

fn called_by(alloc: Global, items: &Functions<'_>, item: &Item) -> Result<Vec<usize>, NoMemory>
    ensures { IfOk result (λ out. out.items ≡ called_by items.now item.now) }
{
    match body_of(item) {
        Some(body) => callees(alloc, items, body),
        None => Ok(Vec::new(alloc)),
    }
}

fn not_empty(called: &List<usize>) -> bool
    ensures { result ≡ not_empty called.now }
{
    match called.items() {
        [] => false,
        [_, ..] => true,
    }
}

fn deep_first(alloc: Global, graph: &[List<usize>]) -> Result<Vec<bool>, NoMemory>
    ensures { IfOk result (λ out. out.items ≡ deep_after graph.now 0) }
{
    let mut out = Vec::new(alloc);
    for called in graph {
        out.push(not_empty(called))?;
    }
    Ok(out)
}

fn is_deep(deep: &[bool], i: usize) -> bool
    ensures { result ≡ get_or deep.now i false }
{
    deep.get(i).copied().unwrap_or(false)
}

fn has_deep(deep: &[bool], called: &[usize]) -> bool
    ensures { result ≡ has_deep deep.now called.now }
{
    called.iter().any(|i| is_deep(deep, *i))
}

fn deep_next(alloc: Global, graph: &[List<usize>], deep: &[bool]) -> Result<Vec<bool>, NoMemory>
    ensures { IfOk result (λ out. out.items ≡ map (has_deep deep.now) graph.now) }
{
    let mut out = Vec::new(alloc);
    for called in graph {
        out.push(has_deep(deep, called.items()))?;
    }
    Ok(out)
}

fn deep_after(alloc: Global, graph: &[List<usize>], count: u32) -> Result<Vec<bool>, NoMemory>
    ensures { IfOk result (λ out. out.items ≡ deep_after graph.now count) }
{
    let mut deep = deep_first(alloc, graph)?;
    for i in 0..count {
        let _round = i;
        deep = deep_next(alloc, graph, &deep)?;
    }
    Ok(deep)
}

fn deep_of(items: &Functions<'_>, deep: &[bool], f: &Ident) -> bool
    ensures { result ≡ deep_of deep.now (callee items.now f.now) }
{
    match callee(items, f) {
        Some(i) => is_deep(deep, i),
        None => false,
    }
}

/// Whether calls nest too deep in one of the functions.
#[tactic(auto, using(crate::proofs::Nests::nests_is))]
fn nests_too_deep(
    alloc: Global,
    items: &Functions<'_>,
    functions: &[Ident],
) -> Result<bool, NoMemory>
    ensures { IfOk result (λ b. b ≡ nests_too_deep items.now functions.now) }
{
    let graph = graph(alloc, items)?;
    let deep = deep_after(alloc, &graph, most_calls())?;
    for f in functions {
        if deep_of(items, &deep, f) {
            return Ok(true);
        }
    }
    Ok(false)
}

fn has_more_threads(parts: &Tables<'_>) -> bool
    ensures { result ≡ nat_lt most_threads (1 + length parts.now.starts) }
{
    MAX_THREADS <= parts.starts().len()
}

fn has_more_mutexes(parts: &Tables<'_>) -> bool
    ensures { result ≡ nat_lt most_mutexes (length parts.now.mutexes) }
{
    MAX_MUTEXES < parts.mutexes()
}

/// The first limit that the text passes, before any code is made.
pub fn passed_before(
    alloc: Global,
    items: &Functions<'_>,
    parts: &Tables<'_>,
    functions: &[Ident],
) -> Result<Option<Limit>, NoMemory>
    ensures { IfOk result (λ l. l ≡ passed_before items.now parts.now functions.now) }
{
    if has_more_threads(parts) {
        return Ok(Some(Limit::Threads));
    }
    if nests_too_deep(alloc, items, functions)? {
        return Ok(Some(Limit::NestedCalls));
    }
    Ok(None)
}

/// The first limit that is passed behind the instructions.
pub fn passed_behind(
    side: Side,
    items: &[Item],
    parts: &Tables<'_>,
    threads: &[Thread],
) -> Option<Limit>
    ensures { result ≡ passed_behind side items.now parts.now threads.now }
{
    if has_more_locals(most_locals(side), threads) {
        return Some(Limit::Locals);
    }
    if has_more_mutexes(parts) {
        return Some(Limit::Mutexes);
    }
    if has_more_cells(items) {
        return Some(Limit::Cells);
    }
    None
}
