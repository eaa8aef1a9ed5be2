//! An instruction with its label.
ghost use Rattle.std.specs.Prelude.{◌≡◌, if◌then◌else◌, IfOk};
ghost use Rattle.mm_templates.specs.Names as names;
ghost use Rattle.mm_templates.specs.Instructions as specs;

use crate::buffered::with_buffers;
use crate::names::label_name;
use crate::plain::{alone, plain};
use mm_goto::{Instr, NoMemory, Program, Shape, Target};
use mm_tree::Stmt;
use mm_words::{empty, labelled};
use std::alloc::Global;

fn is_pointed(target: &Target) -> bool
    ensures { result ≡ specs.is_pointed target.now }
{
    match target {
        Target::Cell(_) => false,
        Target::Elem { .. } => false,
        Target::Deref(_) => true,
    }
}

// Whether the instruction's target is what a pointer reaches.
fn reaches_by_pointer(it: &Instr) -> bool
    ensures { result ≡ specs.reaches_by_pointer it.now }
{
    match it {
        Instr::Load(_, target) => is_pointed(target),
        Instr::Store(target, _) => is_pointed(target),
        Instr::Add(_, target, _) => is_pointed(target),
        Instr::Cas(_, target, ..) => is_pointed(target),
        Instr::Set(..)
        | Instr::Input(..)
        | Instr::Jump(..)
        | Instr::Branch(..)
        | Instr::Assert(..)
        | Instr::Assume(..)
        | Instr::Fence
        | Instr::Lock(..)
        | Instr::Unlock(..)
        | Instr::Start(..)
        | Instr::Join(..)
        | Instr::AtomBegin
        | Instr::AtomEnd
        | Instr::End => false,
    }
}

fn unlabelled(
    alloc: Global,
    program: &Program,
    shape: &Shape,
    has_buffers: bool,
    t: u32,
    i: u32,
    it: &Instr,
) -> Result<Vec<Stmt>, NoMemory>
    ensures { IfOk result (λ stmts. stmts.items ≡ (if has_buffers then specs.with_buffers program.now shape.now t i it.now else specs.plain program.now shape.now it.now)) }
{
    if has_buffers {
        with_buffers(alloc, program, shape, t, i, it)
    } else {
        plain(alloc, program, shape, it)
    }
}

/// The statements of the instruction at place `i` of thread `t`, the first with its label. `has_buffers` tells whether some store of
/// the program is buffered, `has_address` whether an address stands anywhere in it.
pub fn woven_instr(
    alloc: Global,
    program: &Program,
    shape: &Shape,
    has_buffers: bool,
    has_address: bool,
    t: u32,
    i: u32,
    it: &Instr,
) -> Result<Vec<Stmt>, NoMemory>
    ensures { IfOk result (λ stmts. stmts.items ≡ specs.woven_instr program.now shape.now has_buffers has_address t i it.now) }
{
    let label = label_name(alloc, i)?;
    if reaches_by_pointer(it) && !has_address {
        labelled(alloc, label.text(), alone(alloc, empty(alloc)?)?)
    } else {
        labelled(
            alloc,
            label.text(),
            unlabelled(alloc, program, shape, has_buffers, t, i, it)?,
        )
    }
}
