//! What is known behind some steps of a run.

ghost use Rattle.std.specs.Prelude.{◌≡◌, ◌+◌, ◌<◌, ◌^◌, ◌++◌, OnOk, IfOk, Some, true, ◌*◌, option_to_list};
ghost use Rattle.mm_runkeys.specs.reading.Tables.{linked, asked_row};
ghost use Rattle.mm_runkeys.specs.Keys.{own_by};
ghost use Rattle.mm_runkeys.specs.reading.Behind.{Given};
ghost use Rattle.mm_runkeys.specs.reading.Marks.{has_pending, owns, is_first_join, oldest, found, issued, room_for, flush_of, node_of, all_kinds, links, marked, InRange, AreSmall, start};

use crate::behind::{add_behind, nexts};
use crate::graph::{EdgeKind, RunEdge, RunNode};
use crate::keys;
use crate::keys::Layout;
use crate::since::{Since, link_all};
use mm_goto::NoMemory;
use mm_sched::Event;
use std::alloc::Global;
use std::marker::Model;

fn flush_of(node: RunNode) -> RunNode
    ensures { result ≡ flush_of node }
{
    match node {
        RunNode::Run(t, i) => RunNode::Flush(t, i),
        RunNode::Flush(t, i) => RunNode::Flush(t, i),
    }
}

/// What is known behind some steps of a run: for each key the steps that later ones may wait for, and the edges so far.
#[derive(Drop)]
pub struct Marks {
    count: u32,
    ran: Since,
    left: Since,
    written: Since,
    read: Since,
    flushed: Since,
    settled: Since,
    given: Since,
    started: Since,
    executed: Since,
    joined: Since,
    pushed: Since,
    popped: Since,
    made: Since,
    ended: Since,
    newest: Since,
    nodes: Vec<RunNode>,
    edges: Vec<RunEdge>,
    taken: Vec<RunEdge>,
}

impl Model for Marks {
    ghost use Rattle.mm_runkeys.specs.reading.Marks as marks;

    ghost Value = { marks.Marks };

    ghost view = { λ m. record { count = m.count; ran = m.ran; left = m.left; written = m.written; read = m.read; flushed = m.flushed; settled = m.settled; given = m.given; started = m.started; executed = m.executed; joined = m.joined; pushed = m.pushed; popped = m.popped; made = m.made; ended = m.ended; newest = m.newest; nodes = m.nodes.items; edges = m.edges.items; taken = m.taken.items } };
}

impl Marks {
    /// Nothing has happened.
    pub fn new(alloc: Global, layout: &Layout, mutexes: usize) -> Result<Marks, NoMemory>
        requires queues { layout.now.threads * layout.now.cells < 2 ^ 32 }
        requires joins { layout.now.threads * layout.now.threads < 2 ^ 32 }
        ensures { IfOk result (λ m. m ≡ start layout.now mutexes) }
    {
        let threads = layout.threads as usize;
        let cells = layout.cells as usize;
        let queues = threads * cells;
        let joins = threads * threads;
        Ok(Marks {
            count: 0,
            ran: Since::new(alloc, threads)?,
            left: Since::new(alloc, queues)?,
            written: Since::new(alloc, cells)?,
            read: Since::new(alloc, cells)?,
            flushed: Since::new(alloc, threads)?,
            settled: Since::new(alloc, threads)?,
            given: Since::new(alloc, mutexes)?,
            started: Since::new(alloc, threads)?,
            executed: Since::new(alloc, threads)?,
            joined: Since::new(alloc, joins)?,
            pushed: Since::new(alloc, queues)?,
            popped: Since::new(alloc, queues)?,
            made: Since::new(alloc, queues)?,
            ended: Since::new(alloc, queues)?,
            newest: Since::new(alloc, queues)?,
            nodes: Vec::new(alloc),
            edges: Vec::new(alloc),
            taken: Vec::new(alloc),
        })
    }

    fn owns(&self, layout: &Layout, e: Event) -> bool
        requires range { InRange layout.now self.now e }
        requires small { AreSmall self.now }
        ensures { result ≡ owns layout.now self.now e }
    {
        match keys::loads(layout, e) {
            Some(key) => self.ended.count(key) < self.made.count(key),
            None => false,
        }
    }

    fn is_first_join(&self, layout: &Layout, e: Event) -> bool
        requires range { InRange layout.now self.now e }
        requires small { AreSmall self.now }
        ensures { result ≡ is_first_join layout.now self.now e }
    {
        match keys::joins(layout, e) {
            Some(key) => self.joined.count(key) == 0,
            None => true,
        }
    }

    fn link_issue(&mut self, layout: &Layout, e: Event) -> Result<(), NoMemory>
        requires range { InRange layout.now self.old e }
        requires small { AreSmall self.old }
        ensures { OnOk result (self.new ≡ record self.old { edges = linked self.old.edges EdgeKind.Issue (found layout.now self.old e EdgeKind.Issue) self.old.count }) }
    {
        if let Some(key) = keys::pops(layout, e) {
            if let Some(a) = self.pushed.nth(key, self.popped.count(key)) {
                self.edges.push(RunEdge {
                    from: a,
                    to: self.count,
                    kind: EdgeKind::Issue,
                })?;
            }
        }
        Ok(())
    }

    fn link_room(&mut self, layout: &Layout, e: Event) -> Result<(), NoMemory>
        requires range { InRange layout.now self.old e }
        requires small { AreSmall self.old }
        ensures { OnOk result (self.new ≡ record self.old { edges = linked self.old.edges EdgeKind.Room (found layout.now self.old e EdgeKind.Room) self.old.count }) }
    {
        if let Some(key) = keys::pushes(layout, e) {
            let stores = self.pushed.count(key);
            let most = keys::limit(layout, e);
            if stores >= most {
                if let Some(a) = self.popped.nth(key, stores - most) {
                    self.edges.push(RunEdge {
                        from: a,
                        to: self.count,
                        kind: EdgeKind::Room,
                    })?;
                }
            }
        }
        Ok(())
    }

    /// Writes the edges that end at the event.
    fn link(
        &mut self,
        layout: &Layout,
        e: Event,
        own_load: bool,
        first_join: bool,
    ) -> Result<(), NoMemory>
        requires range { InRange layout.now self.old e }
        requires small { AreSmall self.old }
        requires owns { own_load ≡ owns layout.now self.old e }
        requires first { first_join ≡ is_first_join layout.now self.old e }
        ensures { OnOk result (self.new ≡ record self.old { edges = links all_kinds (found layout.now self.old e) self.old.count self.old.edges }) }
    {
        let n = self.count;
        self.ran
            .link(&mut self.edges, EdgeKind::Program, keys::runs(e), n)?;
        self.link_issue(layout, e)?;
        self.left
            .link(&mut self.edges, EdgeKind::Fifo, keys::pops(layout, e), n)?;
        self.written.link(
            &mut self.edges,
            EdgeKind::Reads,
            keys::reads_by(own_load, e),
            n,
        )?;
        self.written
            .link(&mut self.edges, EdgeKind::Coherence, keys::writes(e), n)?;
        self.read
            .link(&mut self.edges, EdgeKind::FromRead, keys::writes(e), n)?;
        self.flushed
            .link(&mut self.edges, EdgeKind::Drain, keys::drains(e), n)?;
        self.given
            .link(&mut self.edges, EdgeKind::Mutex, keys::takes(e), n)?;
        self.started
            .link(&mut self.edges, EdgeKind::Start, keys::runs(e), n)?;
        self.settled.link(
            &mut self.edges,
            EdgeKind::Join,
            keys::joins_by(first_join, e),
            n,
        )?;
        self.link_room(layout, e)
    }

    /// Notes the load, where it takes its thread's own pending store.
    fn link_taken(&mut self, layout: &Layout, e: Event, own_load: bool) -> Result<(), NoMemory>
        requires range { InRange layout.now self.old e }
        requires small { AreSmall self.old }
        requires owns { own_load ≡ owns layout.now self.old e }
        ensures { OnOk result (self.new ≡ record self.old { taken = linked self.old.taken EdgeKind.FromRead (asked_row self.old.newest (own_by layout.now (owns layout.now self.old e) e)) self.old.count }) }
    {
        if own_load {
            self.newest.link(
                &mut self.taken,
                EdgeKind::FromRead,
                keys::loads(layout, e),
                self.count,
            )?;
        }
        Ok(())
    }

    /// The node that the event is.
    fn node(&self, layout: &Layout, e: Event) -> Option<RunNode>
        requires range { InRange layout.now self.now e }
        requires small { AreSmall self.now }
        requires count { self.now.count < 2 ^ 32 }
        ensures { result ≡ node_of layout.now self.now e }
    {
        match e {
            Event::Does(t, _) => Some(RunNode::Run(t, self.executed.count(t as usize) as u32)),
            Event::Flushes(_, _, _) => {
                let key = keys::pops(layout, e)?;
                let store = self.pushed.nth(key, self.popped.count(key))?;
                let node = self.nodes.get(store as usize)?;
                Some(flush_of(*node))
            }
        }
    }

    /// Notes the node that the event is.
    fn add_node(&mut self, layout: &Layout, e: Event) -> Result<(), NoMemory>
        requires range { InRange layout.now self.old e }
        requires small { AreSmall self.old }
        requires count { self.old.count < 2 ^ 32 }
        ensures { OnOk result (self.new ≡ record self.old { nodes = self.old.nodes ++ option_to_list (node_of layout.now self.old e) }) }
    {
        if let Some(node) = self.node(layout, e) {
            self.nodes.push(node)?;
        }
        Ok(())
    }

    /// Marks the event, which has the number `n`.
    fn mark(&mut self, layout: &Layout, e: Event, own_load: bool) -> Result<(), NoMemory>
        requires range { InRange layout.now self.old e }
        requires small { AreSmall self.old }
        requires owns { own_load ≡ owns layout.now self.old e }
        ensures { OnOk result (self.new ≡ record (marked layout.now self.old e) { count = self.old.count; nodes = self.old.nodes; edges = self.old.edges; taken = self.old.taken }) }
    {
        let n = self.count;
        self.ran.step(keys::runs(e), keys::runs(e), n)?;
        self.left
            .step(keys::pops(layout, e), keys::pops(layout, e), n)?;
        self.written.step(keys::writes(e), keys::writes(e), n)?;
        self.read
            .step(keys::writes(e), keys::only_reads_by(own_load, e), n)?;
        self.flushed.step(keys::drains(e), keys::flushes(e), n)?;
        self.settled.step(keys::drains(e), keys::settles(e), n)?;
        self.given.step(keys::takes(e), keys::gives(e), n)?;
        self.started.step(keys::runs(e), keys::starts(e), n)?;
        self.executed.step(None, keys::runs(e), n)?;
        self.joined.step(None, keys::joins(layout, e), n)?;
        self.pushed.step(None, keys::pushes(layout, e), n)?;
        self.popped.step(None, keys::pops(layout, e), n)?;
        self.made.step(None, keys::makes(layout, e), n)?;
        self.ended.step(None, keys::ends_up(layout, e), n)?;
        self.newest
            .step(keys::makes(layout, e), keys::makes(layout, e), n)
    }

    /// The nodes and all edges, those behind a store of a thread's own too.
    pub fn given(self, alloc: Global) -> Result<(Vec<RunNode>, Vec<RunEdge>), NoMemory>
        ensures { IfOk result (λ it. Given self it.0.items it.1.items) }
    {
        let Marks {
            count,
            nodes,
            mut edges,
            taken,
            ..
        } = self;
        let flushes = nexts(alloc, edges.as_slice(), true, count as usize)?;
        let writes = nexts(alloc, edges.as_slice(), false, count as usize)?;
        add_behind(
            &mut edges,
            flushes.as_slice(),
            writes.as_slice(),
            taken.as_slice(),
        )?;
        Ok((nodes, edges))
    }

    /// The event happens.
    pub fn step(&mut self, layout: &Layout, e: Event) -> Result<(), NoMemory>
        requires range { InRange layout.now self.old e }
        requires small { AreSmall self.old }
        requires count { self.old.count + 1 < 2 ^ 32 }
        ensures { OnOk result (self.new ≡ marked layout.now self.old e) }
    {
        let owns = self.owns(layout, e);
        let first = self.is_first_join(layout, e);
        self.link(layout, e, owns, first)?;
        self.link_taken(layout, e, owns)?;
        self.add_node(layout, e)?;
        self.mark(layout, e, owns)?;
        self.count += 1;
        Ok(())
    }
}
