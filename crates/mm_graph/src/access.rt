ghost use Rattle.std.specs.Prelude.{◌≡◌, ◌↔◌, ℕ, ◌<◌, IfSome, IsSome, Some, slice_get, true};
ghost use Rattle.mm_goto.specs.Sites.{is_site};
ghost use Rattle.std.specs.List.{Contains};
ghost use Rattle.mm_bits.specs.Words.{Has};
ghost use Rattle.mm_graph.specs.Sites.{IsOfKind, subject_of};

use crate::site::SiteKind;
use mm_bits::Numbers;
use mm_goto::Instr;

/// What decides how a site is related to others: where it stands, what it does, the mutex or thread that it is about, the last
/// place of main at which its thread is started and the first at which main waits for it, and its cells.
#[derive(Clone, Copy)]
pub struct Access {
    pub thread: u32,
    pub index: u32,
    pub kind: SiteKind,
    pub subject: u32,
    pub start: Option<u32>,
    pub join: Option<u32>,
    pub cells: Numbers,
}

/// What a site at the instruction does. Where there is none it is no site.
pub fn kind_of(it: &Instr) -> Option<SiteKind>
    ensures kind { IfSome result (λ kind. IsOfKind kind it.now) }
    ensures site { is_site it.now ≡ true → IsSome result }
{
    match it {
        Instr::Load(..) => Some(SiteKind::Load),
        Instr::Store(..) => Some(SiteKind::Store),
        Instr::Add(..) => Some(SiteKind::Update),
        Instr::Cas(..) => Some(SiteKind::Update),
        Instr::Lock(_) => Some(SiteKind::Lock),
        Instr::Unlock(_) => Some(SiteKind::Unlock),
        Instr::Start(_) => Some(SiteKind::Start),
        Instr::Join(_) => Some(SiteKind::Join),
        _ => None,
    }
}

/// The mutex or thread that the instruction is about, else 0.
pub fn subject_of(it: &Instr) -> u32
    ensures { result ≡ subject_of it.now }
{
    match it {
        Instr::Lock(m) => *m,
        Instr::Unlock(m) => *m,
        Instr::Start(u) => *u,
        Instr::Join(u) => *u,
        _ => 0,
    }
}

/// The set of the cells.
pub fn numbers_of(cells: &[u32]) -> Numbers
    requires { (k c : ℕ) → slice_get cells.now k ≡ Some c → c < 1024 }
    ensures { (c : ℕ) → Has result.words c ↔ Contains cells.now c }
{
    let mut found = Numbers::empty();
    'cells: for k in 0..cells.len() {
        found.add(cells[k]);
    }
    found
}
