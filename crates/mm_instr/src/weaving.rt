//! The woven program, item by item.
ghost use Rattle.std.specs.Prelude.{◌≡◌, ◌≤◌, ◌++◌, ◌∷◌, [], length, if◌then◌else◌, IfOk, OnOk};
ghost use Rattle.mm_helpers.specs.Helpers as helpers;
ghost use Rattle.mm_instr.specs.Woven as specs;

use crate::asked::{has_address, has_buffers};
use crate::functions::put_functions;
use crate::items::{put_handles, put_mutexes};
use crate::variables::{put_memory, put_variables};
use mm_goto::{List, NoMemory, Program, Shape};
use mm_helpers::{arrays, helpers};
use mm_templates::append;
use mm_tree::{Item, Tree};
use mm_words::{add, input_item};
use std::alloc::Global;

// The arrays of pending stores, where a store is buffered.
fn put_arrays(
    alloc: Global,
    program: &Program,
    shape: &Shape,
    buffers: bool,
    out: &mut Vec<Item>,
) -> Result<(), NoMemory>
    requires { length program.now.cells ≤ 256 }
    ensures { OnOk result (out.new.items ≡ out.old.items ++ (if buffers then helpers.arrays shape.now.model (specs.sizes program.now shape.now) else [])) }
{
    if buffers {
        let threads = program.threads().len() as u32;
        let cells = program.cells().len() as u32;
        append(
            out,
            arrays(alloc, threads, cells, shape.model, shape.bound)?,
        )?;
    }
    Ok(())
}

// The functions that keep them, where a store is buffered.
fn put_helpers(
    alloc: Global,
    program: &Program,
    shape: &Shape,
    buffers: bool,
    out: &mut Vec<Item>,
) -> Result<(), NoMemory>
    requires { length program.now.cells ≤ 256 }
    ensures { OnOk result (out.new.items ≡ out.old.items ++ (if buffers then helpers.helpers shape.now.model (specs.sizes program.now shape.now) else [])) }
{
    if buffers {
        let threads = program.threads().len() as u32;
        let cells = program.cells().len() as u32;
        append(
            out,
            helpers(alloc, threads, cells, shape.model, shape.bound)?,
        )?;
    }
    Ok(())
}

/// The woven program of a program and a shape, with the place 1:1 everywhere.
#[tactic(auto, unfolding(crate::specs::Woven::woven))]
pub fn instrument(alloc: Global, program: &Program, shape: &Shape) -> Result<Tree, NoMemory>
    requires { length program.now.cells ≤ 256 }
    ensures { IfOk result (λ tree. tree ≡ specs.woven program.now shape.now) }
{
    let threads = program.threads().len() as u32;
    let buffers = has_buffers(shape);
    let addresses = has_address(program);
    let mut items = Vec::new(alloc);
    add(&mut items, input_item(alloc, "nondet_wm")?)?;
    put_variables(alloc, shape.moved.items(), program.cells(), &mut items)?;
    put_memory(alloc, program, shape, buffers, &mut items)?;
    put_arrays(alloc, program, shape, buffers, &mut items)?;
    put_mutexes(alloc, program.mutexes(), &mut items)?;
    put_handles(alloc, threads, &mut items)?;
    put_helpers(alloc, program, shape, buffers, &mut items)?;
    put_functions(alloc, program, shape, buffers, addresses, &mut items)?;
    Ok(Tree {
        items: List::new(items),
    })
}
