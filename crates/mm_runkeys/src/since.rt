//! Steps of a run by keys.

ghost use Rattle.std.specs.Prelude.{◌≡◌, ◌+◌, ◌<◌, ◌++◌, ◌∷◌, [], length, replicate, IfOk, IfSome, OnOk, slice_get};
ghost use Rattle.mm_runkeys.specs.reading.Tables.{row, asked_row, erased_rows, marked_rows, stepped, linked};

use crate::graph::{EdgeKind, RunEdge};
use mm_goto::NoMemory;
use std::alloc::Global;
use std::marker::Model;

/// For each key the steps that are marked with it and that nothing has erased, the oldest first.
#[derive(Drop)]
pub struct Since {
    rows: Vec<Vec<u32>>,
}

impl Model for Since {
    ghost use Rattle.std.specs.Prelude.{List, ℕ, map};

    ghost Value = { List (List ℕ) };

    ghost view = { λ s. map (λ v. v.items) s.rows.items };
}

impl Since {
    /// Nothing is marked, and the keys are below `keys`.
    pub fn new(alloc: Global, keys: usize) -> Result<Since, NoMemory>
        ensures { IfOk result (λ s. s ≡ replicate keys []) }
    {
        let mut rows = Vec::with_capacity(alloc, keys)?;
        for _ in 0..keys {
            rows.push(Vec::new(alloc))?;
        }
        Ok(Since { rows })
    }

    /// How many steps are marked with the key.
    pub fn count(&self, key: usize) -> usize
        requires { key < length self.now }
        ensures { result ≡ length (row self.now key) }
    {
        self.rows[key].len()
    }

    /// The step that is marked with the key as number `i`.
    pub fn nth(&self, key: usize, i: usize) -> Option<u32>
        requires { key < length self.now }
        ensures { result ≡ slice_get (row self.now key) i }
    {
        self.rows[key].get(i).copied()
    }

    /// The steps that are marked with the key.
    fn row(&self, key: usize) -> &[u32]
        requires { key < length self.now }
        ensures { result.now ≡ row self.now key }
    {
        self.rows[key].as_slice()
    }

    fn erase(&mut self, key: usize)
        requires { key < length self.old }
        ensures { self.new ≡ erased_rows self.old (Some key) }
    {
        self.rows[key].clear();
    }

    fn mark(&mut self, key: usize, n: u32) -> Result<(), NoMemory>
        requires { key < length self.old }
        ensures { OnOk result (self.new ≡ marked_rows self.old (Some key) n) }
    {
        self.rows[key].push(n)?;
        Ok(())
    }

    /// Step `n` erases the one key, and then is marked with the other.
    pub fn step(
        &mut self,
        erased: Option<usize>,
        marked: Option<usize>,
        n: u32,
    ) -> Result<(), NoMemory>
        requires erased { IfSome erased (λ x. x < length self.old) }
        requires marked { IfSome marked (λ x. x < length self.old) }
        ensures { OnOk result (self.new ≡ stepped self.old erased marked n) }
    {
        if let Some(key) = erased {
            self.erase(key);
        }
        if let Some(key) = marked {
            self.mark(key, n)?;
        }
        Ok(())
    }

    /// Writes edges to step `n` from each step that is marked with the key.
    pub fn link(
        &self,
        edges: &mut Vec<RunEdge>,
        kind: EdgeKind,
        asked: Option<usize>,
        n: u32,
    ) -> Result<(), NoMemory>
        requires { IfSome asked (λ x. x < length self.now) }
        ensures { OnOk result (edges.new.items ≡ linked edges.old.items kind (asked_row self.now asked) n) }
    {
        if let Some(key) = asked {
            link_all(edges, kind, self.row(key), n)?;
        }
        Ok(())
    }
}

pub fn link_all(
    edges: &mut Vec<RunEdge>,
    kind: EdgeKind,
    from: &[u32],
    n: u32,
) -> Result<(), NoMemory>
    ensures { OnOk result (edges.new.items ≡ linked edges.old.items kind from.now n) }
{
    for a in from {
        edges.push(RunEdge {
            from: *a,
            to: n,
            kind,
        })?;
    }
    Ok(())
}
