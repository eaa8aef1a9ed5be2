ghost use Rattle.std.specs.Prelude.{◌≡◌, ◌↔◌, ◌⊎◌, ℕ, ◌<◌, ◌≤◌, ◌^◌, length, IsTrue, IfOk, Some, slice_get, slice_index_or, []};
ghost use Rattle.mm_bits.specs.Words.{Has};
ghost use Rattle.mm_goto.specs.declared.program.Thread.{Thread};
ghost use Rattle.mm_delay.specs.reading.Sets.{Raised, StandsIn, AreFlagsOf};

use mm_bits::Numbers;
use mm_goto::{List, NoMemory, Thread};
use mm_graph::Site;
use std::alloc::Global;

/// Raises the flag if told so, and the row has it.
fn raise(so: bool, k: u32, row: &mut [bool])
    ensures size { length row.new ≡ length row.old }
    ensures raised { (m : ℕ) → Raised row.new m ↔ (Raised row.old m ⊎ (IsTrue so × (m < length row.old) × (m ≡ k))) }
{
    let k = k as usize;
    if so && k < row.len() {
        row[k] = true;
    }
}

/// Whether the set has the site, and it is of the thread.
fn is_of(site: &Site, s: u32, set: &Numbers, t: u32) -> bool
    requires { s < 1024 }
    ensures { IsTrue result ↔ (Has set.now.words s × (site.now.thread ≡ t)) }
{
    set.has(s) && site.thread == t
}

/// Raises the flags of the thread's sites that the set has.
fn raise_row(sites: &[Site], set: &Numbers, t: u32, row: &mut [bool])
    requires { length sites.now ≤ 1024 }
    ensures size { length row.new ≡ length row.old }
    ensures raised { (k : ℕ) → Raised row.new k ↔ (Raised row.old k ⊎ ((k < length row.old) × StandsIn sites.now set.now.words t k)) }
{
    'sites: for s in 0..sites.len() as u32 {
        let so = is_of(&sites[s as usize], s, set, t);
        raise(so, sites[s as usize].index, row);
    }
}

/// The flags of one thread.
fn row_of(
    alloc: Global,
    sites: &[Site],
    set: &Numbers,
    t: u32,
    size: usize,
) -> Result<Vec<bool>, NoMemory>
    requires { length sites.now ≤ 1024 }
    ensures { IfOk result (λ row. AreFlagsOf sites.now set.now.words t size row.items) }
{
    let mut row = vec![in alloc; false; size]?;
    raise_row(sites, set, t, row.as_mut_slice());
    Ok(row)
}

/// For each instruction of each thread, whether it is a site of the set.
pub fn flags(
    alloc: Global,
    threads: &[Thread],
    sites: &[Site],
    set: &Numbers,
) -> Result<Vec<List<bool>>, NoMemory>
    requires few { length sites.now ≤ 1024 }
    requires threads { length threads.now < 2 ^ 32 }
    ensures size { IfOk result (λ rows. length rows.items ≡ length threads.now) }
    ensures each { IfOk result (λ rows. (t : ℕ) (thread : Thread) → slice_get threads.now t ≡ Some thread → AreFlagsOf sites.now set.now.words t (length thread.code) (slice_index_or rows.items t [])) }
{
    let mut rows = Vec::new(alloc);
    'threads: for t in 0..threads.len() {
        let row = row_of(alloc, sites, set, t as u32, threads[t].code.items().len())?;
        rows.push(List::new(row))?;
    }
    Ok(rows)
}
