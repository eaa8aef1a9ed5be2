ghost use Rattle.std.specs.Prelude.{◌≡◌, ◌↔◌, ◌⊎◌, ℕ, ◌<◌, ◌+◌};
ghost use Rattle.mm_bits.specs.Words.{Has};
ghost use Rattle.mm_goto.specs.Checks.{target_exprs};
ghost use Rattle.mm_goto.specs.PointsTo.{IsInRow, aims_of, element_row};
ghost use Rattle.mm_goto.specs.Shapes.{TakesAddress, IsAddressed};
ghost use Rattle.mm_goto.specs.Sourcelike.{exprs_of};
ghost use Rattle.mm_goto.specs.declared.row.Row.{Row};
ghost use Rattle.mm_delay.specs.reading.Addressed.{InExprs, InCode, InThreads, InStarts, AreBelow};

use mm_bits::Numbers;
use mm_goto::{Cell, Instr, Program, Pure, Row, Target, Thread};

/// Adds the cells of the row.
fn add_row(row: Row, into: &mut Numbers)
    ensures { (c : ℕ) → Has into.new.words c ↔ (Has into.old.words c ⊎ (IsInRow row c × (c < 1024))) }
{
    let past = row.first.saturating_add(row.len).min(1024);
    'cells: for c in row.first..past {
        into.add(c);
    }
}

/// The number that the expression is, if it is one.
fn constant_of(e: &Pure) -> Option<i32>
    ensures { result ≡ (aims_of e.now).constant }
{
    match e {
        Pure::Const(k) => Some(*k),
        _ => None,
    }
}

/// Adds the cells of an array's element.
fn add_element(first: u32, len: u32, index: Option<i32>, into: &mut Numbers)
    ensures { (c : ℕ) → Has into.new.words c ↔ (Has into.old.words c ⊎ (IsInRow (element_row first len index) c × (c < 1024))) }
{
    match index {
        Some(k) if 0 <= k && (k as u32) < len => add_row(
            Row {
                first: first.saturating_add(k as u32),
                len: 1,
            },
            into,
        ),
        _ => add_row(Row { first, len }, into),
    }
}

/// Adds the cells whose addresses stand in the expression.
fn add_expr(e: &Pure, into: &mut Numbers)
    ensures { (c : ℕ) → Has into.new.words c ↔ (Has into.old.words c ⊎ (TakesAddress c e.now × (c < 1024))) }
{
    match e {
        Pure::Const(_) => {}
        Pure::Local(_) => {}
        Pure::Addr(c) => add_row(Row { first: *c, len: 1 }, into),
        Pure::AddrElem { first, len, index } => {
            add_element(*first, *len, constant_of(index.get()), into);
            add_expr(index.get(), into);
        }
        Pure::Un(_, x) => add_expr(x.get(), into),
        Pure::Bin(_, x, y) => {
            add_expr(x.get(), into);
            add_expr(y.get(), into);
        }
        Pure::Cond(x, y, z) => {
            add_expr(x.get(), into);
            add_expr(y.get(), into);
            add_expr(z.get(), into);
        }
    }
}

/// Adds the cells whose addresses stand in the target.
fn add_target(to: &Target, into: &mut Numbers)
    ensures { (c : ℕ) → Has into.new.words c ↔ (Has into.old.words c ⊎ (InExprs (target_exprs to.now) c × (c < 1024))) }
{
    match to {
        Target::Cell(_) => {}
        Target::Elem { index, .. } => add_expr(index, into),
        Target::Deref(e) => add_expr(e, into),
    }
}

/// Adds the cells whose addresses stand in the instruction.
fn add_instr(it: &Instr, into: &mut Numbers)
    ensures { (c : ℕ) → Has into.new.words c ↔ (Has into.old.words c ⊎ (InExprs (exprs_of it.now) c × (c < 1024))) }
{
    match it {
        Instr::Load(_, t) => add_target(t, into),
        Instr::Store(t, e) => {
            add_target(t, into);
            add_expr(e, into);
        }
        Instr::Add(_, t, e) => {
            add_target(t, into);
            add_expr(e, into);
        }
        Instr::Cas(_, t, e, f) => {
            add_target(t, into);
            add_expr(e, into);
            add_expr(f, into);
        }
        Instr::Set(_, e) => add_expr(e, into),
        Instr::Branch(e, _) => add_expr(e, into),
        Instr::Assert(e, _) => add_expr(e, into),
        Instr::Assume(e) => add_expr(e, into),
        Instr::Input(_) => {}
        Instr::Jump(_) => {}
        Instr::Fence => {}
        Instr::Lock(_) => {}
        Instr::Unlock(_) => {}
        Instr::Start(_) => {}
        Instr::Join(_) => {}
        Instr::AtomBegin => {}
        Instr::AtomEnd => {}
        Instr::End => {}
    }
}

/// Adds the cells whose addresses stand in the code.
fn add_code(code: &[Instr], into: &mut Numbers)
    ensures { (c : ℕ) → Has into.new.words c ↔ (Has into.old.words c ⊎ (InCode code.now c × (c < 1024))) }
{
    'code: for k in 0..code.len() {
        add_instr(&code[k], into);
    }
}

/// Adds the cells whose addresses stand in the threads.
fn add_threads(threads: &[Thread], into: &mut Numbers)
    ensures { (c : ℕ) → Has into.new.words c ↔ (Has into.old.words c ⊎ (InThreads threads.now c × (c < 1024))) }
{
    'threads: for t in 0..threads.len() {
        add_code(threads[t].code.items(), into);
    }
}

/// Adds the cells whose addresses stand in the start values.
fn add_starts(cells: &[Cell], into: &mut Numbers)
    ensures { (c : ℕ) → Has into.new.words c ↔ (Has into.old.words c ⊎ (InStarts cells.now c × (c < 1024))) }
{
    'cells: for k in 0..cells.len() {
        add_expr(&cells[k].init, into);
    }
}

/// The cells whose addresses stand in the program.
pub fn addressed(program: &Program) -> Numbers
    requires { AreBelow (IsAddressed program.now) }
    ensures { (c : ℕ) → Has result.words c ↔ IsAddressed program.now c }
{
    let mut found = Numbers::empty();
    add_threads(program.threads(), &mut found);
    add_starts(program.cells(), &mut found);
    found
}
