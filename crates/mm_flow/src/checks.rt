//! Single instructions: checks, loads, sets and branches.
ghost use Rattle.std.specs.Prelude.{◌≡◌, ◌+◌, length, IfOk, OnOk};
ghost use Rattle.mm_goto.specs.declared.program.Instr.TheVariants as instr;
ghost use Rattle.mm_goto.specs.declared.program.Target.TheVariants as target;
ghost use Rattle.mm_goto.specs.Checks.{is_in_range, is_not_zero};
ghost use Rattle.mm_goto.specs.Parts.{is_division};
ghost use Rattle.mm_goto.specs.Terms.{constant, the_local};
ghost use Rattle.mm_flow.specs.declared.assembler.Piece.TheVariants as piece;
ghost use Rattle.mm_flow.specs.Expressions.{division_check};
ghost use Rattle.mm_flow.specs.Words.{element};
ghost use Rattle.mm_flow.specs.reading.Assembling.{count, with_flow, with_label, with_locals, with_mark, with_piece};

use crate::assembler::{Assembler, Piece};
use crate::context::Context;
use crate::words::{constant, copy, element, in_range, not_zero, the_local};
use mm_goto::{At, Binary, Instr, NoMemory, Pure, Target};
use sqlite_items::Boxed;
use std::alloc::Global;

pub fn is_division(op: Binary) -> bool
    ensures { result ≡ is_division op }
{
    matches!(op, Binary::Div | Binary::Rem)
}

/// The check of an index.
pub fn check_index(
    alloc: Global,
    code: &mut Assembler,
    at: At,
    len: u32,
    index: &Pure,
) -> Result<(), NoMemory>
    ensures code { OnOk result (code.new ≡ with_piece (piece.Do at (instr.Assert (is_in_range index.now len) 0)) code.old) }
{
    let test = in_range(alloc, index, len)?;
    code.put(Piece::Do(at, Instr::Assert(test.into_inner(), 0)))
}

/// The check that a value is not 0.
pub fn check_value(alloc: Global, code: &mut Assembler, at: At, e: &Pure) -> Result<(), NoMemory>
    ensures code { OnOk result (code.new ≡ with_piece (piece.Do at (instr.Assert (is_not_zero e.now) 0)) code.old) }
{
    let e = copy(alloc, e)?;
    let test = not_zero(alloc, e)?;
    code.put(Piece::Do(at, Instr::Assert(test.into_inner(), 0)))
}

/// The check before a division.
pub fn check_division(
    alloc: Global,
    context: &Context<'_>,
    code: &mut Assembler,
    op: Binary,
    at: At,
    divisor: &Pure,
) -> Result<(), NoMemory>
    ensures code { OnOk result (code.new ≡ with_flow context.now (division_check op at divisor.now) code.old) }
{
    if is_division(op) {
        check_value(alloc, code, at, divisor)
    } else {
        Ok(())
    }
}

/// Reads a cell into a fresh local.
pub fn load_cell(
    alloc: Global,
    code: &mut Assembler,
    at: At,
    cell: u32,
) -> Result<Boxed<Pure>, NoMemory>
    ensures pure { IfOk result (λ p. p ≡ the_local code.old.known.next) }
    ensures code { OnOk result (code.new ≡ with_piece (piece.Do at (instr.Load code.old.known.next (target.Cell cell))) (with_locals 1 code.old)) }
{
    let t = code.fresh()?;
    code.put(Piece::Do(at, Instr::Load(t, Target::Cell(cell))))?;
    the_local(alloc, t)
}

/// Checks an index and reads its element into a fresh local.
pub fn load_element(
    alloc: Global,
    code: &mut Assembler,
    at: At,
    first: u32,
    len: u32,
    index: Boxed<Pure>,
) -> Result<Boxed<Pure>, NoMemory>
    ensures pure { IfOk result (λ p. p ≡ the_local code.old.known.next) }
    ensures code { OnOk result (code.new ≡ with_piece (piece.Do at (instr.Load code.old.known.next (target.Elem first len index))) (with_locals 1 (with_piece (piece.Do at (instr.Assert (is_in_range index len) 0)) code.old))) }
{
    check_index(alloc, code, at, len, index.get())?;
    let t = code.fresh()?;
    let index = index.into_inner();
    let target = Target::Elem { first, len, index };
    code.put(Piece::Do(at, Instr::Load(t, target)))?;
    the_local(alloc, t)
}

/// Checks a pointer and reads what is behind it into a fresh local.
pub fn load_behind(
    alloc: Global,
    code: &mut Assembler,
    at: At,
    pointer: Boxed<Pure>,
) -> Result<Boxed<Pure>, NoMemory>
    ensures pure { IfOk result (λ p. p ≡ the_local code.old.known.next) }
    ensures code { OnOk result (code.new ≡ with_piece (piece.Do at (instr.Load code.old.known.next (target.Deref pointer))) (with_locals 1 (with_piece (piece.Do at (instr.Assert (is_not_zero pointer) 0)) code.old))) }
{
    check_value(alloc, code, at, pointer.get())?;
    let t = code.fresh()?;
    code.put(Piece::Do(at, Instr::Load(t, Target::Deref(pointer.into_inner()))))?;
    the_local(alloc, t)
}

/// Checks an index and gives the address of its element.
pub fn element_at(
    alloc: Global,
    code: &mut Assembler,
    at: At,
    first: u32,
    len: u32,
    i: Boxed<Pure>,
) -> Result<Boxed<Pure>, NoMemory>
    ensures pure { IfOk result (λ p. p ≡ element first len i) }
    ensures code { OnOk result (code.new ≡ with_piece (piece.Do at (instr.Assert (is_in_range i len) 0)) code.old) }
{
    check_index(alloc, code, at, len, i.get())?;
    element(alloc, first, len, i)
}

/// Sets a local.
pub fn set(code: &mut Assembler, at: At, l: u32, e: Boxed<Pure>) -> Result<(), NoMemory>
    ensures code { OnOk result (code.new ≡ with_piece (piece.Do at (instr.Set l e)) code.old) }
    ensures count { OnOk result (count code.new ≡ count code.old + 1) }
{
    code.put(Piece::Do(at, Instr::Set(l, e.into_inner())))
}

/// Goes to a fresh label where the value is 0.
pub fn branch(code: &mut Assembler, at: At, test: Boxed<Pure>) -> Result<u32, NoMemory>
    ensures end { IfOk result (λ l. l ≡ length code.old.made.marks) }
    ensures code { OnOk result (code.new ≡ with_piece (piece.Branch at test (length code.old.made.marks)) (with_label code.old)) }
    ensures count { OnOk result (count code.new ≡ count code.old + 1) }
{
    let end = code.label()?;
    code.put(Piece::Branch(at, test.into_inner(), end))?;
    Ok(end)
}

/// What stands before the second operand of `&&` or `||`: sets the local, and goes to a fresh label where the test is 0.
pub fn begin_short(
    alloc: Global,
    code: &mut Assembler,
    at: At,
    t: u32,
    start: i32,
    test: Boxed<Pure>,
) -> Result<u32, NoMemory>
    ensures end { IfOk result (λ l. l ≡ length code.old.made.marks) }
    ensures code { OnOk result (code.new ≡ with_piece (piece.Branch at test (length code.old.made.marks)) (with_label (with_piece (piece.Do at (instr.Set t (constant start))) code.old))) }
{
    let start = constant(alloc, start)?;
    set(code, at, t, start)?;
    branch(code, at, test)
}

/// What stands behind it: sets the local by whether the operand is not 0, and the label.
pub fn end_short(
    alloc: Global,
    code: &mut Assembler,
    at: At,
    t: u32,
    end: u32,
    e: Boxed<Pure>,
) -> Result<Boxed<Pure>, NoMemory>
    ensures pure { IfOk result (λ p. p ≡ the_local t) }
    ensures code { OnOk result (code.new ≡ with_mark end (with_piece (piece.Do at (instr.Set t (is_not_zero e))) code.old)) }
{
    let test = not_zero(alloc, e)?;
    set(code, at, t, test)?;
    code.mark(end)?;
    the_local(alloc, t)
}

/// Goes to the first of two fresh labels where the value is 0.
pub fn begin_choice(code: &mut Assembler, at: At, test: Boxed<Pure>) -> Result<(u32, u32), NoMemory>
    ensures other { IfOk result (λ l. l.0 ≡ length code.old.made.marks) }
    ensures end { IfOk result (λ l. l.1 ≡ length code.old.made.marks + 1) }
    ensures code { OnOk result (code.new ≡ with_piece (piece.Branch at test (length code.old.made.marks)) (with_label (with_label code.old))) }
    ensures count { OnOk result (count code.new ≡ count code.old + 1) }
{
    let other = code.label()?;
    let end = code.label()?;
    code.put(Piece::Branch(at, test.into_inner(), other))?;
    Ok((other, end))
}

/// What stands between the two arms of a choice.
pub fn between(code: &mut Assembler, at: At, other: u32, end: u32) -> Result<(), NoMemory>
    ensures code { OnOk result (code.new ≡ with_mark other (with_piece (piece.Jump at end) code.old)) }
    ensures count { OnOk result (count code.new ≡ count code.old + 1) }
{
    code.put(Piece::Jump(at, end))?;
    code.mark(other)
}
