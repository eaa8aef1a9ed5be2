ghost use Rattle.std.specs.Prelude.{◌≡◌, ℕ, ◌+◌, ◌<◌, ◌^◌, ◌++◌, length, IfOk, OnOk, All};
ghost use Rattle.mm_goto.specs.Sites.{is_site, sites_from, sites_of, sites};

use mm_goto::{Instr, NoMemory, Spot, Thread};
use std::alloc::Global;

fn is_site(it: &Instr) -> bool
    ensures { result ≡ is_site it.now }
{
    matches!(
        it,
        Instr::Load(..)
            | Instr::Store(..)
            | Instr::Add(..)
            | Instr::Cas(..)
            | Instr::Lock(_)
            | Instr::Unlock(_)
            | Instr::Start(_)
            | Instr::Join(_)
    )
}

fn put_sites(t: u32, code: &[Instr], out: &mut Vec<Spot>) -> Result<(), NoMemory>
    requires { length code.now < 2 ^ 32 }
    ensures { OnOk result (out.new.items ≡ out.old.items ++ sites_from t 0 code.now) }
{
    'places: for k in 0..code.len() {
        if is_site(&code[k]) {
            out.push(Spot {
                thread: t,
                index: k as u32,
            })?;
        }
    }
    Ok(())
}

/// The sites of the threads.
pub fn sites_of(alloc: Global, threads: &[Thread]) -> Result<Vec<Spot>, NoMemory>
    requires few { length threads.now < 2 ^ 32 }
    requires short { All (λ t. length t.code < 2 ^ 32) threads.now }
    ensures { IfOk result (λ spots. spots.items ≡ sites_of 0 threads.now) }
{
    let mut out = Vec::new(alloc);
    'threads: for t in 0..threads.len() {
        put_sites(t as u32, threads[t].code.items(), &mut out)?;
    }
    Ok(out)
}
