//! The edges from a load of a thread's own pending store to what next overwrites that.

ghost use Rattle.std.specs.Prelude.{◌≡◌, ◌++◌, IfOk, OnOk};
ghost use Rattle.mm_runkeys.specs.reading.Behind.{has_kind, got, AreNext, noted, behind, behind_one};

use crate::graph::{EdgeKind, RunEdge};
use mm_goto::NoMemory;
use std::alloc::Global;

fn has_kind(issue: bool, kind: EdgeKind) -> bool
    ensures { result ≡ has_kind issue kind }
{
    match (issue, kind) {
        (true, EdgeKind::Issue) => true,
        (false, EdgeKind::Coherence) => true,
        _ => false,
    }
}

#[tactic(auto, using(crate::proofs::Successors::set_past))]
fn note(xs: &mut Vec<Option<u32>>, issue: bool, edge: RunEdge)
    ensures { xs.new.items ≡ noted xs.old.items issue edge }
{
    if has_kind(issue, edge.kind) && (edge.from as usize) < xs.len() {
        xs[edge.from as usize] = Some(edge.to);
    }
}

/// Where each of so many steps leads by edges of the kind.
#[tactic(auto, using(crate::proofs::Successors::next_none))]
pub fn nexts(
    alloc: Global,
    edges: &[RunEdge],
    issue: bool,
    nodes: usize,
) -> Result<Vec<Option<u32>>, NoMemory>
    ensures { IfOk result (λ xs. AreNext edges.now issue nodes xs.items) }
{
    let mut xs = vec![in alloc; None; nodes]?;
    for edge in edges {
        note(&mut xs, issue, *edge);
    }
    Ok(xs)
}

fn got(xs: &[Option<u32>], a: u32) -> Option<u32>
    ensures { result ≡ got xs.now a }
{
    match xs.get(a as usize) {
        Some(x) => *x,
        None => None,
    }
}

fn behind_one(
    edges: &mut Vec<RunEdge>,
    flushes: &[Option<u32>],
    nexts: &[Option<u32>],
    taken: RunEdge,
) -> Result<(), NoMemory>
    ensures { OnOk result (edges.new.items ≡ edges.old.items ++ behind_one flushes.now nexts.now taken) }
{
    if let Some(f) = got(flushes, taken.from) {
        if let Some(b) = got(nexts, f) {
            edges.push(RunEdge {
                from: taken.to,
                to: b,
                kind: EdgeKind::FromRead,
            })?;
        }
    }
    Ok(())
}

/// Writes the edges of each of the loads.
pub fn add_behind(
    edges: &mut Vec<RunEdge>,
    flushes: &[Option<u32>],
    nexts: &[Option<u32>],
    taken: &[RunEdge],
) -> Result<(), NoMemory>
    ensures { OnOk result (edges.new.items ≡ edges.old.items ++ behind flushes.now nexts.now taken.now) }
{
    for t in taken {
        behind_one(edges, flushes, nexts, *t)?;
    }
    Ok(())
}
