ghost use Rattle.std.specs.Prelude.{◌≡◌, ℕ, ◌+◌, ◌*◌, ◌<◌, ◌≤◌, ◌^◌, ◌++◌, ◌∷◌, [], List, map, length, drop, IfOk, OnOk, IfSome, All};
ghost use Rattle.mm_goto.specs.Checks.{written_local};
ghost use Rattle.mm_points.specs.reading.Ruled.{aim_of, aim_to, rule_of, starts_from, codes_from, pointers_of, WritesBelow};

use crate::aims::{constant_of, element_row, put_locals, put_rows};
use crate::rules::{Aim, Rule};
use mm_goto::{Cell, Instr, List, NoMemory, Pure, Row, Target, Thread};
use std::alloc::Global;

pub fn aim_of(alloc: Global, base: u32, e: &Pure) -> Result<Aim, NoMemory>
    ensures { IfOk result (λ aim. aim ≡ aim_of base e.now) }
{
    let mut rows = Vec::new(alloc);
    put_rows(e, &mut rows)?;
    let mut locals = Vec::new(alloc);
    put_locals(e, &mut locals)?;
    Ok(Aim {
        base,
        rows: List::new(rows),
        locals: List::new(locals),
    })
}

fn aim_at(alloc: Global, base: u32, row: Row) -> Result<Aim, NoMemory>
    ensures { IfOk result (λ aim. aim ≡ record { base = base; rows = row ∷ []; locals = [] }) }
{
    let mut rows = Vec::new(alloc);
    rows.push(row)?;
    Ok(Aim {
        base,
        rows: List::new(rows),
        locals: List::new(Vec::new(alloc)),
    })
}

pub fn aim_to(alloc: Global, base: u32, to: &Target) -> Result<Aim, NoMemory>
    ensures { IfOk result (λ aim. aim ≡ aim_to base to.now) }
{
    match to {
        Target::Cell(c) => aim_at(alloc, base, Row { first: *c, len: 1 }),
        Target::Elem { first, len, index } => {
            if *len > u32::MAX - *first {
                return Err(NoMemory);
            }
            aim_at(alloc, base, element_row(*first, *len, constant_of(index)))
        }
        Target::Deref(e) => aim_of(alloc, base, e),
    }
}

fn rule_of(alloc: Global, base: u32, it: &Instr) -> Result<Rule, NoMemory>
    requires { IfSome (written_local it.now) (λ l. base + l < 2 ^ 32) }
    ensures { IfOk result (λ rule. rule ≡ rule_of base it.now) }
{
    match it {
        Instr::Set(l, e) => Ok(Rule::Set(base + *l, aim_of(alloc, base, e)?)),
        Instr::Load(l, to) => Ok(Rule::Load(base + *l, aim_to(alloc, base, to)?)),
        Instr::Store(to, e) => Ok(Rule::Store(aim_to(alloc, base, to)?, aim_of(alloc, base, e)?)),
        _ => Ok(Rule::Nothing),
    }
}

fn put_code(alloc: Global, base: u32, code: &[Instr], out: &mut Vec<Rule>) -> Result<(), NoMemory>
    requires { All (λ it. IfSome (written_local it) (λ l. base + l < 2 ^ 32)) code.now }
    ensures { OnOk result (out.new.items ≡ out.old.items ++ map (rule_of base) code.now) }
{
    'code: for it in code {
        out.push(rule_of(alloc, base, it)?)?;
    }
    Ok(())
}

/// Writes the rules of the start values.
pub fn put_starts(
    alloc: Global,
    base: u32,
    cells: &[Cell],
    out: &mut Vec<Rule>,
) -> Result<(), NoMemory>
    requires { length cells.now < 2 ^ 32 }
    ensures { OnOk result (out.new.items ≡ out.old.items ++ starts_from base 0 cells.now) }
{
    'cells: for k in 0..cells.len() {
        out.push(Rule::Set(k as u32, aim_of(alloc, base, &cells[k].init)?))?;
    }
    Ok(())
}

/// Writes the rules of the threads, of which none has more locals than the step.
pub fn put_threads(
    alloc: Global,
    base: u32,
    step: u32,
    threads: &[Thread],
    out: &mut Vec<Rule>,
) -> Result<(), NoMemory>
    requires few { base + length threads.now * step < 2 ^ 32 }
    requires below { All (WritesBelow step) threads.now }
    ensures { OnOk result (out.new.items ≡ out.old.items ++ codes_from base step threads.now) }
{
    let mut here = base;
    'threads: for t in 0..threads.len() {
        put_code(alloc, here, threads[t].code.items(), out)?;
        here += step;
    }
    Ok(())
}

/// Which cells hold addresses.
pub fn pointers_of(alloc: Global, cells: &[Cell]) -> Result<Vec<bool>, NoMemory>
    ensures { IfOk result (λ pointers. pointers.items ≡ pointers_of cells.now) }
{
    let mut pointers = Vec::new(alloc);
    'cells: for cell in cells {
        pointers.push(cell.pointer)?;
    }
    Ok(pointers)
}

/// The most locals that a thread has.
pub fn most_locals(threads: &[Thread]) -> u32
    requires { All (λ t. t.locals ≤ 524288) threads.now }
    ensures most { All (λ t. t.locals ≤ result) threads.now }
    ensures few { result ≤ 524288 }
{
    let mut most = 0;
    'threads: for thread in threads {
        if most < thread.locals {
            most = thread.locals;
        }
    }
    most
}
