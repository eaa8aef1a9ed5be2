ghost use Rattle.std.specs.Prelude.{◌≡◌, ◌↔◌, ℕ, IsTrue};
ghost use Rattle.mm_bits.specs.Words.{Has};
ghost use Rattle.mm_graph.specs.reading.Accesses.{is_before, is_behind, are_in_turn, must_before, accesses, writes, handles_mutex, AreMet, AreOfMutex, AreOrdered};

use crate::access::Access;
use crate::site::SiteKind;
use mm_bits::Numbers;

fn is_before(i: u32, place: Option<u32>) -> bool
    ensures { result ≡ is_before i place }
{
    match place {
        Some(k) => i < k,
        None => false,
    }
}

fn is_behind(place: Option<u32>, i: u32) -> bool
    ensures { result ≡ is_behind place i }
{
    match place {
        Some(j) => j < i,
        None => false,
    }
}

fn are_in_turn(join: Option<u32>, start: Option<u32>) -> bool
    ensures { result ≡ are_in_turn join start }
{
    match join {
        Some(j) => is_before(j, start),
        None => false,
    }
}

/// Whether the first is over before the second begins, in every run.
fn must_before(x: &Access, y: &Access) -> bool
    ensures { result ≡ must_before x.now y.now }
{
    (x.thread == 0 && is_before(x.index, y.start))
        || ((y.thread == 0 && is_behind(x.join, y.index)) || are_in_turn(x.join, y.start))
}

fn accesses(kind: SiteKind) -> bool
    ensures { result ≡ accesses kind }
{
    match kind {
        SiteKind::Load | SiteKind::Store | SiteKind::Update => true,
        SiteKind::Lock | SiteKind::Unlock | SiteKind::Start | SiteKind::Join => false,
    }
}

fn writes(kind: SiteKind) -> bool
    ensures { result ≡ writes kind }
{
    match kind {
        SiteKind::Store | SiteKind::Update => true,
        SiteKind::Load | SiteKind::Lock | SiteKind::Unlock | SiteKind::Start | SiteKind::Join =>
            false,
    }
}

fn handles_mutex(kind: SiteKind) -> bool
    ensures { result ≡ handles_mutex kind }
{
    match kind {
        SiteKind::Lock | SiteKind::Unlock => true,
        SiteKind::Load | SiteKind::Store | SiteKind::Update | SiteKind::Start | SiteKind::Join =>
            false,
    }
}

/// Whether the sets have a number in common.
fn meet(a: &Numbers, b: &Numbers) -> bool
    ensures { IsTrue result ↔ ((c : ℕ) × Has a.now.words c × Has b.now.words c) }
{
    a.first_common(b).is_some()
}

/// Whether the two may access one cell, in two threads, one of them to write it, so that the second may follow the first.
pub fn are_met(x: &Access, y: &Access) -> bool
    ensures { IsTrue result ↔ AreMet x.now y.now }
{
    accesses(x.kind)
        && accesses(y.kind)
        && x.thread != y.thread
        && (writes(x.kind) || writes(y.kind))
        && !must_before(y, x)
        && meet(&x.cells, &y.cells)
}

/// Whether the two handle one mutex, in two threads, so that the second may follow the first.
fn are_of_mutex(x: &Access, y: &Access) -> bool
    ensures { IsTrue result ↔ AreOfMutex x.now y.now }
{
    handles_mutex(x.kind)
        && handles_mutex(y.kind)
        && x.subject == y.subject
        && x.thread != y.thread
        && !must_before(y, x)
}

/// Whether a mutex, a start or a wait for an end orders the two.
pub fn are_ordered(x: &Access, y: &Access) -> bool
    ensures { IsTrue result ↔ AreOrdered x.now y.now }
{
    are_of_mutex(x, y)
        || (x.kind == SiteKind::Start && x.subject == y.thread)
        || (y.kind == SiteKind::Join && y.subject == x.thread)
}
