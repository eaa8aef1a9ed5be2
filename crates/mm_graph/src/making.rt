ghost use Rattle.std.specs.Prelude.{◌≡◌, ◌↔◌, ◌⊎◌, ◌<◌, ◌≤◌, ◌^◌, ℕ, length, IfOk, IfErr, OnOk, IsSome, true, All, Some, slice_get};
ghost use Rattle.std.specs.Option.{option_copied};
ghost use Rattle.std.specs.List.{Contains};
ghost use Rattle.mm_goto.specs.declared.program.Instr.{Instr};
ghost use Rattle.mm_goto.specs.PointsTo.{instr_at};
ghost use Rattle.mm_goto.specs.Sites.{sites, is_site, Is};
ghost use Rattle.mm_bits.specs.Related.{Related};
ghost use Rattle.mm_bits.specs.Words.{Has};
ghost use Rattle.mm_points.specs.Cells.{ArePointsOf, IsListed, cells_at};
ghost use Rattle.mm_graph.specs.Graphs.{IsGraphOf, IsSmall};
ghost use Rattle.mm_graph.specs.Refusals.{IsRefused};
ghost use Rattle.mm_graph.specs.Sites.{IsSiteOf, IsOfKind, subject_of};
ghost use Rattle.mm_graph.specs.reading.Accesses.{IsAccessOf, IsLast, IsFirst, StartsAt, JoinsAt};
ghost use Rattle.mm_graph.specs.reading.Tables.{AreOf, place_at};

use crate::access::{Access, kind_of, numbers_of, subject_of};
use crate::event_graph::Graph;
use crate::fault::GraphFault;
use crate::places::sites_of;
use crate::site::{Site, SiteKind};
use crate::tables::{flows, join, meetings, orders};
use crate::turns::{first_join, last_start};
use mm_bits::Bits;
use mm_goto::{At, Instr, List, NoMemory, Program, Spot};
use mm_points::PointsTo;
use std::alloc::Global;

/// The most sites that a graph may have.
const MAX_SITES: usize = 1_024;
/// The most cells of a program that may have a graph.
const MAX_GRAPH_CELLS: usize = 256;

/// A list of the same numbers.
fn copied(alloc: Global, cells: &[u32]) -> Result<List<u32>, NoMemory>
    ensures { IfOk result (λ copy. copy ≡ cells.now) }
{
    let mut copy = Vec::new(alloc);
    'cells: for cell in cells {
        copy.push(*cell)?;
    }
    Ok(List::new(copy))
}

/// The kind of the instruction, which is a site.
fn site_kind(it: &Instr) -> SiteKind
    requires { is_site it.now ≡ true }
    ensures { IsOfKind result it.now }
{
    match kind_of(it) {
        Some(kind) => kind,
        None => unreachable!(),
    }
}

/// The instruction at the spot.
fn fetched(program: &Program, spot: Spot) -> Option<&Instr>
    ensures { option_copied result ≡ instr_at program.now spot.thread spot.index }
{
    match program.threads().get(spot.thread as usize) {
        Some(thread) => thread.code.items().get(spot.index as usize),
        None => None,
    }
}

/// The place in the text from which the instruction at the spot comes.
fn place_at(program: &Program, spot: Spot) -> Option<At>
    ensures place { result ≡ place_at program.now spot.thread spot.index }
    ensures placed { (it : Instr) → instr_at program.now spot.thread spot.index ≡ Some it → IsSome result }
{
    match program.threads().get(spot.thread as usize) {
        Some(thread) => thread.places.items().get(spot.index as usize).copied(),
        None => None,
    }
}

/// The site at the spot, where the instruction stands.
fn site_of(
    alloc: Global,
    points: &PointsTo,
    spot: Spot,
    it: &Instr,
    at: At,
) -> Result<Site, NoMemory>
    requires listed { IsListed points.now spot.thread spot.index }
    requires site { is_site it.now ≡ true }
    ensures place { IfOk result (λ s. (s.thread ≡ spot.thread) × (s.index ≡ spot.index) × (s.at ≡ at)) }
    ensures kind { IfOk result (λ s. IsOfKind s.kind it.now × (s.subject ≡ subject_of it.now)) }
    ensures cells { IfOk result (λ s. s.cells ≡ cells_at points.now spot.thread spot.index) }
{
    Ok(Site {
        thread: spot.thread,
        index: spot.index,
        at,
        kind: site_kind(it),
        subject: subject_of(it),
        cells: copied(alloc, points.cells(spot.thread, spot.index))?,
    })
}

/// The site at the spot.
fn site_at(
    alloc: Global,
    program: &Program,
    points: &PointsTo,
    spot: Spot,
) -> Result<Site, NoMemory>
    requires points { ArePointsOf program.now points.now }
    requires site { Is program.now spot (λ it. is_site it ≡ true) }
    ensures { IfOk result (IsSiteOf program.now spot) }
{
    match fetched(program, spot) {
        Some(it) => match place_at(program, spot) {
            Some(at) => site_of(alloc, points, spot, it, at),
            None => unreachable!(),
        },
        None => unreachable!(),
    }
}

/// What decides how the site at the spot is related to others, where main has the code and the instruction stands.
fn access_of(main: &[Instr], points: &PointsTo, spot: Spot, it: &Instr) -> Access
    requires short { length main.now < 2 ^ 32 }
    requires listed { IsListed points.now spot.thread spot.index }
    requires cells { (k c : ℕ) → slice_get (cells_at points.now spot.thread spot.index) k ≡ Some c → c < 1024 }
    requires site { is_site it.now ≡ true }
    ensures place { (result.thread ≡ spot.thread) × (result.index ≡ spot.index) }
    ensures kind { IsOfKind result.kind it.now × (result.subject ≡ subject_of it.now) }
    ensures start { IsLast (StartsAt main.now spot.thread) (length main.now) result.start }
    ensures join { IsFirst (JoinsAt main.now spot.thread) (length main.now) result.join }
    ensures cells { (c : ℕ) → Has result.cells.words c ↔ Contains (cells_at points.now spot.thread spot.index) c }
{
    Access {
        thread: spot.thread,
        index: spot.index,
        kind: site_kind(it),
        subject: subject_of(it),
        start: last_start(main, spot.thread),
        join: first_join(main, spot.thread),
        cells: numbers_of(points.cells(spot.thread, spot.index)),
    }
}

/// What decides how the site at the spot is related to others.
fn access_at(program: &Program, points: &PointsTo, spot: Spot) -> Access
    requires points { ArePointsOf program.now points.now }
    requires cells { length program.now.cells ≤ 256 }
    requires site { Is program.now spot (λ it. is_site it ≡ true) }
    ensures { IsAccessOf program.now spot result }
{
    match fetched(program, spot) {
        Some(it) => access_of(program.threads()[0].code.items(), points, spot, it),
        None => unreachable!(),
    }
}

/// The sites at the spots.
fn sites_at(
    alloc: Global,
    program: &Program,
    points: &PointsTo,
    spots: &[Spot],
) -> Result<Vec<Site>, NoMemory>
    requires points { ArePointsOf program.now points.now }
    requires sites { All (λ s. Is program.now s (λ it. is_site it ≡ true)) spots.now }
    ensures { IfOk result (λ found. AreOf (IsSiteOf program.now) spots.now found.items) }
{
    let mut found = Vec::new(alloc);
    'spots: for k in 0..spots.len() {
        let site = site_at(alloc, program, points, spots[k])?;
        found.push(site)?;
    }
    Ok(found)
}

/// What decides how the sites at the spots are related.
fn accesses_of(
    alloc: Global,
    program: &Program,
    points: &PointsTo,
    spots: &[Spot],
) -> Result<Vec<Access>, NoMemory>
    requires points { ArePointsOf program.now points.now }
    requires cells { length program.now.cells ≤ 256 }
    requires sites { All (λ s. Is program.now s (λ it. is_site it ≡ true)) spots.now }
    ensures { IfOk result (λ found. AreOf (IsAccessOf program.now) spots.now found.items) }
{
    let mut found = Vec::new(alloc);
    'spots: for k in 0..spots.len() {
        let access = access_at(program, points, spots[k]);
        found.push(access)?;
    }
    Ok(found)
}

/// What any of the three tables relates.
fn edges_of(alloc: Global, po: &Bits, com: &Bits, ord: &Bits) -> Result<Bits, NoMemory>
    requires com { com.now.side ≡ po.now.side }
    requires ord { ord.now.side ≡ po.now.side }
    ensures size { IfOk result (λ edges. edges.side ≡ po.now.side) }
    ensures all { IfOk result (λ edges. (x y : ℕ) → Related edges x y ↔ (Related po.now x y ⊎ Related com.now x y ⊎ Related ord.now x y)) }
{
    let mut edges = Bits::new(alloc, po.side)?;
    join(&mut edges, po);
    join(&mut edges, com);
    join(&mut edges, ord);
    Ok(edges)
}

/// The graph of a program of these sites.
fn made(
    alloc: Global,
    program: &Program,
    points: &PointsTo,
    spots: &[Spot],
) -> Result<Graph, NoMemory>
    requires points { ArePointsOf program.now points.now }
    requires spots { spots.now ≡ sites program.now }
    requires few { length spots.now ≤ 1024 }
    requires cells { length program.now.cells ≤ 256 }
    ensures { IfOk result (IsGraphOf program.now) }
{
    let sites = sites_at(alloc, program, points, spots)?;
    let accesses = accesses_of(alloc, program, points, spots)?;
    let po = flows(alloc, program, spots, true)?;
    let undrained = flows(alloc, program, spots, false)?;
    let com = meetings(alloc, accesses.as_slice())?;
    let ord = orders(alloc, accesses.as_slice())?;
    let edges = edges_of(alloc, &po, &com, &ord)?;
    let back = edges.turned(alloc)?;
    Ok(Graph {
        sites: List::new(sites),
        po,
        undrained,
        com,
        ord,
        edges,
        back,
    })
}

/// The sites of a program that has a graph.
fn few_sites(alloc: Global, program: &Program) -> Result<Vec<Spot>, GraphFault>
    ensures sites { IfOk result (λ spots. spots.items ≡ sites program.now) }
    ensures small { OnOk result (IsSmall program.now) }
    ensures refused { IfErr result (IsRefused program.now) }
{
    let spots = sites_of(alloc, program.threads())?;
    if spots.len() > MAX_SITES {
        return Err(GraphFault::TooManySites);
    }
    if program.cells().len() > MAX_GRAPH_CELLS {
        return Err(GraphFault::TooManyCells);
    }
    Ok(spots)
}

/// Whether the program has a graph, before its points-to sets are made. It is refused as by `graph`.
pub fn has_graph(alloc: Global, program: &Program) -> Result<(), GraphFault>
    ensures small { OnOk result (IsSmall program.now) }
    ensures refused { IfErr result (IsRefused program.now) }
{
    few_sites(alloc, program)?;
    Ok(())
}

/// The graph of the program, over its points-to sets. A program of more than 1,024 sites is refused by `TooManySites`, and else one
/// of more than 256 cells by `TooManyCells`.
pub fn graph(alloc: Global, program: &Program, points: &PointsTo) -> Result<Graph, GraphFault>
    requires { ArePointsOf program.now points.now }
    ensures graph { IfOk result (IsGraphOf program.now) }
    ensures refused { IfErr result (IsRefused program.now) }
{
    let spots = few_sites(alloc, program)?;
    Ok(made(alloc, program, points, spots.as_slice())?)
}
