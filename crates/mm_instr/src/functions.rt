//! The functions of the threads.
ghost use Rattle.std.specs.Prelude.{◌≡◌, ◌+◌, ◌++◌, ◌∷◌, [], map, codes, IfOk, OnOk};
ghost use Rattle.std.specs.List.{range_with_len};
ghost use Rattle.mm_words.specs.Words.{declare, thread, int};
ghost use Rattle.mm_templates.specs.Names as names;
ghost use Rattle.mm_instr.specs.Woven as specs;

use crate::asked::next;
use mm_goto::{Instr, NoMemory, Program, Shape, Thread};
use mm_templates::{append, local_name, thread_name, woven_instr};
use mm_tree::{Gives, Item, Stmt};
use mm_words::{add, declaration, function_item, thread_item};
use sqlite_items::Boxed;
use std::alloc::Global;

// The declaration of a local.
fn local_declaration(alloc: Global, l: u32) -> Result<Boxed<Stmt>, NoMemory>
    ensures { IfOk result (λ s. s ≡ declare (names.local_name l)) }
{
    let name = local_name(alloc, l)?;
    declaration(alloc, name.text())
}

// The declarations of all locals.
fn declarations(alloc: Global, locals: u32) -> Result<Vec<Stmt>, NoMemory>
    ensures { IfOk result (λ stmts. stmts.items ≡ map (λ l. declare (names.local_name l)) (range_with_len 0 locals)) }
{
    let mut stmts = Vec::new(alloc);
    for l in 0..locals {
        add(&mut stmts, local_declaration(alloc, l)?)?;
    }
    Ok(stmts)
}

// The code of a thread, behind what stands in `out`.
fn put_code(
    alloc: Global,
    program: &Program,
    shape: &Shape,
    buffers: bool,
    addresses: bool,
    t: u32,
    code: &[Instr],
    out: &mut Vec<Stmt>,
) -> Result<(), NoMemory>
    ensures { OnOk result (out.new.items ≡ out.old.items ++ specs.woven_code program.now shape.now buffers addresses t 0 code.now) }
{
    let mut i = 0;
    let mut rest = code;
    while let [it, behind @ ..] = rest {
        append(
            out,
            woven_instr(alloc, program, shape, buffers, addresses, t, i, it)?,
        )?;
        i = next(i)?;
        rest = behind;
    }
    Ok(())
}

// The declarations of a thread's locals, and its code.
fn woven_body(
    alloc: Global,
    program: &Program,
    shape: &Shape,
    buffers: bool,
    addresses: bool,
    t: u32,
    thread: &Thread,
) -> Result<Vec<Stmt>, NoMemory>
    ensures { IfOk result (λ stmts. stmts.items ≡ specs.woven_body program.now shape.now buffers addresses t thread.now) }
{
    let mut stmts = declarations(alloc, thread.locals)?;
    put_code(
        alloc,
        program,
        shape,
        buffers,
        addresses,
        t,
        thread.code.items(),
        &mut stmts,
    )?;
    Ok(stmts)
}

// The function of a thread.
#[tactic(auto, unfolding(crate::specs::Woven::thread_item))]
fn thread_function(
    alloc: Global,
    program: &Program,
    shape: &Shape,
    buffers: bool,
    addresses: bool,
    u: u32,
    it: &Thread,
) -> Result<Boxed<Item>, NoMemory>
    ensures { IfOk result (λ item. item ≡ specs.thread_item program.now shape.now buffers addresses u it.now) }
{
    let name = thread_name(alloc, u)?;
    let body = woven_body(alloc, program, shape, buffers, addresses, u, it)?;
    thread_item(alloc, name.text(), "wm_arg", body)
}

// The function main.
fn main_function(
    alloc: Global,
    program: &Program,
    shape: &Shape,
    buffers: bool,
    addresses: bool,
    main: &Thread,
) -> Result<Boxed<Item>, NoMemory>
    ensures { IfOk result (λ item. item ≡ int (codes "main") [] (specs.woven_body program.now shape.now buffers addresses 0 main.now)) }
{
    let body = woven_body(alloc, program, shape, buffers, addresses, 0, main)?;
    function_item(alloc, Gives::Int, "main", Vec::new(alloc), body)
}

// The functions of the other threads.
fn put_threads(
    alloc: Global,
    program: &Program,
    shape: &Shape,
    buffers: bool,
    addresses: bool,
    threads: &[Thread],
    out: &mut Vec<Item>,
) -> Result<(), NoMemory>
    ensures { OnOk result (out.new.items ≡ out.old.items ++ specs.thread_items program.now shape.now buffers addresses 1 threads.now) }
{
    let mut u = 1;
    let mut rest = threads;
    while let [it, behind @ ..] = rest {
        add(
            out,
            thread_function(alloc, program, shape, buffers, addresses, u, it)?,
        )?;
        u = next(u)?;
        rest = behind;
    }
    Ok(())
}

/// The functions of the threads, main's at the end.
pub fn put_functions(
    alloc: Global,
    program: &Program,
    shape: &Shape,
    buffers: bool,
    addresses: bool,
    out: &mut Vec<Item>,
) -> Result<(), NoMemory>
    ensures { OnOk result (out.new.items ≡ out.old.items ++ specs.functions program.now shape.now buffers addresses program.now.threads) }
{
    match program.threads() {
        [] => Ok(()),
        [main, others @ ..] => {
            put_threads(alloc, program, shape, buffers, addresses, others, out)?;
            add(
                out,
                main_function(alloc, program, shape, buffers, addresses, main)?,
            )
        }
    }
}
