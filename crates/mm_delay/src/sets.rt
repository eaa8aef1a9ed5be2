ghost use Rattle.std.specs.Prelude.{◌≡◌, ◌↔◌, ◌⊎◌, ℕ, ◌<◌, ◌≤◌, length, IsTrue, IsSomeAnd, Some, slice_get};
ghost use Rattle.std.specs.List.{Contains};
ghost use Rattle.mm_bits.specs.Words.{Has};
ghost use Rattle.mm_delay.specs.Plans.{noted};
ghost use Rattle.mm_delay.specs.reading.Sets.{OfSome, AllSmall, AreSmall};

use mm_bits::Numbers;
use mm_goto::Note;
use mm_graph::Site;

/// Adds the number if told so.
fn add_if(so: bool, n: u32, into: &mut Numbers)
    requires { n < 1024 }
    ensures { (m : ℕ) → Has into.new.words m ↔ (Has into.old.words m ⊎ (IsTrue so × (m ≡ n))) }
{
    if so {
        into.add(n);
    }
}

/// Adds the cells if told so.
fn add_cells(so: bool, cells: &[u32], into: &mut Numbers)
    requires { AllSmall cells.now }
    ensures { (c : ℕ) → Has into.new.words c ↔ (Has into.old.words c ⊎ (IsTrue so × Contains cells.now c)) }
{
    'cells: for k in 0..cells.len() {
        add_if(so, cells[k], into);
    }
}

/// The sites of the notes.
pub fn noted(notes: &[Note]) -> Numbers
    requires { AllSmall (noted notes.now) }
    ensures { (s : ℕ) → Has result.words s ↔ Contains (noted notes.now) s }
{
    let mut found = Numbers::empty();
    'notes: for k in 0..notes.len() {
        found.add(notes[k].site);
    }
    found
}

/// The threads of the sites that the set has.
pub fn threads_of(sites: &[Site], set: &Numbers) -> Numbers
    requires { AreSmall sites.now }
    ensures { (t : ℕ) → Has result.words t ↔ OfSome sites.now set.now.words (λ x. x.thread ≡ t) }
{
    let mut found = Numbers::empty();
    'sites: for s in 0..sites.len() as u32 {
        add_if(set.has(s), sites[s as usize].thread, &mut found);
    }
    found
}

/// The cells of the sites that the set has.
pub fn cells_of(sites: &[Site], set: &Numbers) -> Numbers
    requires { AreSmall sites.now }
    ensures { (c : ℕ) → Has result.words c ↔ OfSome sites.now set.now.words (λ x. Contains x.cells c) }
{
    let mut found = Numbers::empty();
    'sites: for s in 0..sites.len() as u32 {
        add_cells(set.has(s), sites[s as usize].cells.items(), &mut found);
    }
    found
}

/// Whether the set has one of the cells.
fn meets(cells: &[u32], set: &Numbers) -> bool
    requires { AllSmall cells.now }
    ensures { IsTrue result ↔ ((c : ℕ) × Contains cells.now c × Has set.now.words c) }
{
    'cells: for k in 0..cells.len() {
        if set.has(cells[k]) {
            return true;
        }
    }
    false
}

/// The sites that may access a cell of the set.
pub fn sites_at(sites: &[Site], cells: &Numbers) -> Numbers
    requires { AreSmall sites.now }
    ensures { (s : ℕ) → Has result.words s ↔ IsSomeAnd (slice_get sites.now s) (λ x. (c : ℕ) × Contains x.cells c × Has cells.now.words c) }
{
    let mut found = Numbers::empty();
    'sites: for s in 0..sites.len() as u32 {
        let so = meets(sites[s as usize].cells.items(), cells);
        add_if(so, s, &mut found);
    }
    found
}
