//! The text of a run graph: how many edges it has of each kind, and a line for each node with the edges that lead to it.

use mm_rungraph::{EdgeKind, RunEdge, RunGraph, RunNode};
use mm_sched::Entry;
use std::alloc::Global;
use std::io;

const KINDS: [EdgeKind; 11] = [
    EdgeKind::Program,
    EdgeKind::Issue,
    EdgeKind::Fifo,
    EdgeKind::Reads,
    EdgeKind::Coherence,
    EdgeKind::FromRead,
    EdgeKind::Drain,
    EdgeKind::Mutex,
    EdgeKind::Start,
    EdgeKind::Join,
    EdgeKind::Room,
];

fn kind_name(kind: EdgeKind) -> &'static str {
    match kind {
        EdgeKind::Program => "program",
        EdgeKind::Issue => "issue",
        EdgeKind::Fifo => "fifo",
        EdgeKind::Reads => "reads",
        EdgeKind::Coherence => "coherence",
        EdgeKind::FromRead => "fromread",
        EdgeKind::Drain => "drain",
        EdgeKind::Mutex => "mutex",
        EdgeKind::Start => "start",
        EdgeKind::Join => "join",
        EdgeKind::Room => "room",
    }
}

/// From where edges of the kind lead to the step, in order.
fn sources(alloc: Global, edges: &[RunEdge], kind: EdgeKind, to: u32) -> io::Result<Vec<u32>> {
    let mut from = Vec::new(alloc);
    for edge in edges {
        if edge.kind == kind && edge.to == to {
            from.push(edge.from)?;
        }
    }
    from.sort_unstable();
    Ok(from)
}

fn show_node(rt: &impl Print, node: RunNode) -> io::Result<()> {
    match node {
        RunNode::Run(t, i) => print!(rt; "run {t} {i}"),
        RunNode::Flush(t, i) => print!(rt; "flush {t} {i}"),
    }
}

fn show_entry(rt: &impl Print, entry: Entry) -> io::Result<()> {
    match entry {
        Entry::Step(t) => print!(rt; " by step {t}"),
        Entry::In(t, v) => print!(rt; " by in {t} {v}"),
        Entry::Flush(t) => print!(rt; " by flush {t}"),
        Entry::FlushCell(t, c) => print!(rt; " by flush {t} {c}"),
    }
}

/// What stands before an edge or a count.
fn mark(first: bool) -> &'static str {
    if first { ":" } else { "," }
}

fn show_edges<R: Print + AllocGlobal>(rt: &R, edges: &[RunEdge], to: u32) -> io::Result<()> {
    let mut first = true;
    for kind in KINDS {
        for from in sources(rt.alloc(), edges, kind, to)? {
            print!(rt; "{} {} {from}", mark(first), kind_name(kind))?;
            first = false;
        }
    }
    println!(rt; "")
}

fn show_nodes<R: Print + AllocGlobal>(rt: &R, graph: &RunGraph) -> io::Result<()> {
    let entries = graph.entries.items();
    for (k, node) in (0..u32::MAX).zip(graph.nodes.items()) {
        print!(rt; "{k} ")?;
        show_node(rt, *node)?;
        if let Some(entry) = entries.get(k as usize) {
            show_entry(rt, *entry)?;
        }
        show_edges(rt, graph.edges.items(), k)?;
    }
    Ok(())
}

fn count(edges: &[RunEdge], kind: EdgeKind) -> usize {
    edges.iter().filter(|edge| edge.kind == kind).count()
}

/// Prints how many nodes and edges there are, and how many of each kind.
fn show_counts(rt: &impl Print, graph: &RunGraph) -> io::Result<()> {
    let edges = graph.edges.items();
    print!(rt;
        "{} nodes, {} edges",
        graph.nodes.items().len(),
        edges.len()
    )?;
    let mut first = true;
    for kind in KINDS {
        let n = count(edges, kind);
        if n > 0 {
            print!(rt; "{} {n} {}", mark(first), kind_name(kind))?;
            first = false;
        }
    }
    println!(rt; "")
}

/// Prints the graph, its nodes only where this is asked.
pub fn show_graph<R: Print + AllocGlobal>(rt: &R, graph: &RunGraph, whole: bool) -> io::Result<()> {
    println!(rt; "failed {}", graph.verdict)?;
    show_counts(rt, graph)?;
    if whole {
        show_nodes(rt, graph)?;
    }
    Ok(())
}
