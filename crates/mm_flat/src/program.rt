//! The goto program of a tree.
ghost use Rattle.std.specs.Prelude.{◌≡◌, ◌+◌, ◌<◌, ◌≤◌, ◌∷◌, ◌++◌, [], Some, None, length, map, IfErr, IfOk, OnOk};
ghost use Rattle.mm_goto.specs.Valid.{IsValid};
ghost use Rattle.mm_flow.specs.Flow.{size};
ghost use Rattle.mm_flow.specs.Programs.{flow_of, limit_passed, named_function, program_of, size_in, thread_code, thread_of, threads_in, threads_of};
ghost use Rattle.mm_flow.specs.reading.Assembling.{WhenFull};
ghost use Rattle.mm_flat.specs.reading.Refusal.{WhenTooMany, passed_behind, passed_within};
ghost use Rattle.mm_flat.specs.reading.Threading.{body_made, listing};

use crate::cells::cells_of;
use crate::gather::{mutexes_in, parts_of, place_in};
use crate::limits::{most_calls, most_instructions, passed_before, passed_behind};
use crate::settle::settled_thread;
use mm_flat_stmt::{Function, function_of, stmts};
use mm_flow::assembler::{Assembler, Exits, Piece};
use mm_flow::context::Context;
use mm_flow::fault::{FlatFault, Limit, Stop};
use mm_flow::mentions::labels_in;
use mm_flow::names::Parts;
use mm_flow::tables::{Functions, Labels, Tables};
use mm_goto::{Ident, Instr, NoMemory, Program, Thread};
use mm_tree::{Side, Tree};
use std::alloc::Global;

/// How deep the functions that make the code may call each other.
const ROOM: u32 = 10_000;

/// The function of the first thread.
const MAIN: &str = "main";

/// The code of a thread's body, which may have so many instructions.
fn body(
    alloc: Global,
    parts: &Tables<'_>,
    items: &Functions<'_>,
    limit: usize,
    function: &Function<'_>,
) -> Result<Assembler, Stop>
    ensures code { IfOk result (λ code. code ≡ body_made parts.now items.now function.now) }
    ensures full { IfErr result (λ e. WhenFull e (limit < size (thread_code parts.now items.now function.now).flow)) }
{
    let mut code = Assembler::new(alloc, function.asserts);
    let home = code.label()?;
    let Some(base) = home.checked_add(1) else {
        return Err(Stop::NoMemory);
    };
    let own = labels_in(alloc, function.body)?;
    code.reserve(&own)?;
    let labels = Labels::new(alloc, &own)?;
    let context = Context {
        parts,
        items,
        labels: &labels,
        exits: Exits {
            behind: 0,
            next: 0,
            home,
            base,
        },
        ret: None,
        calls: most_calls(),
        limit,
    };
    stmts(alloc, &context, &mut code, ROOM, function.body)?;
    code.mark(home)?;
    Ok(code)
}

/// The function of a name, and one without statements where there is none: such a name is refused before.
fn named_function<'a>(parts: &Tables<'_>, items: &Functions<'a>, f: &Ident) -> Function<'a>
    ensures { result ≡ named_function parts.now items.now f.now }
{
    match function_of(items, parts.asserts(), f) {
        Some(function) => function,
        None => Function {
            params: &[],
            body: &[],
            asserts: 0,
        },
    }
}

/// The thread of a function, which may have so many instructions.
fn thread(
    alloc: Global,
    parts: &Tables<'_>,
    items: &Functions<'_>,
    limit: usize,
    f: &Ident,
) -> Result<Thread, Stop>
    ensures thread { IfOk result (λ t. t ≡ thread_of parts.now items.now f.now) }
    ensures size { IfOk result (λ t. length t.code ≡ size (flow_of parts.now items.now f.now)) }
    ensures room { OnOk result (size (flow_of parts.now items.now f.now) ≤ limit) }
    ensures full { IfErr result (λ e. WhenFull e (limit < size (flow_of parts.now items.now f.now))) }
{
    let function = named_function(parts, items, f);
    let mut code = body(alloc, parts, items, limit, &function)?;
    code.put(Piece::Do(place_in(items.items(), f.text()), Instr::End))?;
    if limit < code.len() {
        return Err(Stop::Full);
    }
    Ok(settled_thread(alloc, code)?)
}

/// The threads of the functions, which may have so many instructions.
fn threads(
    alloc: Global,
    parts: &Tables<'_>,
    items: &Functions<'_>,
    limit: usize,
    functions: &[Ident],
) -> Result<Vec<Thread>, Stop>
    ensures threads { IfOk result (λ ts. ts.items ≡ map (thread_of parts.now items.now) functions.now) }
    ensures room { OnOk result (size_in parts.now items.now functions.now ≤ limit) }
    ensures full { IfErr result (λ e. WhenFull e (limit < size_in parts.now items.now functions.now)) }
{
    let mut out = Vec::new(alloc);
    let mut left = limit;
    for f in functions {
        let thread = thread(alloc, parts, items, left, f)?;
        left -= thread.code.items().len();
        push(&mut out, thread)?;
    }
    Ok(out)
}

/// One more thread.
fn push(threads: &mut Vec<Thread>, thread: Thread) -> Result<(), NoMemory>
    ensures { OnOk result (threads.new.items ≡ threads.old.items ++ thread ∷ []) }
{
    threads.push(thread)?;
    Ok(())
}

/// The functions of the threads, by their numbers.
fn threads_in(alloc: Global, parts: &Parts) -> Result<Vec<Ident>, NoMemory>
    ensures { IfOk result (λ out. out.items ≡ threads_in parts.now) }
{
    let mut out = Vec::new(alloc);
    out.push(Ident::copy_of(alloc, MAIN)?)?;
    for start in parts.starts.items() {
        out.push(Ident::copy_of(alloc, start.function.text())?)?;
    }
    Ok(out)
}

/// The program of the threads, where no limit is passed behind their instructions.
fn within_limits(
    alloc: Global,
    parts: &Tables<'_>,
    items: &Functions<'_>,
    side: Side,
    threads: Vec<Thread>,
) -> Result<Program, FlatFault>
    requires valid { passed_behind side items.now parts.now threads.items ≡ None → IsValid (listing parts.now items.now threads.items) }
    ensures program { IfOk result (λ p. p ≡ listing parts.now items.now threads.items) }
    ensures within { OnOk result (passed_behind side items.now parts.now threads.items ≡ None) }
    ensures too_many { IfErr result (λ e. WhenTooMany e (λ l. passed_behind side items.now parts.now threads.items ≡ Some l)) }
{
    if let Some(limit) = passed_behind(side, items.items(), parts, &threads) {
        return Err(FlatFault::TooMany(limit));
    }
    let cells = cells_of(alloc, parts, items.items())?;
    let mutexes = mutexes_in(alloc, items.items())?;
    Ok(Program::new(cells, mutexes, threads))
}

/// The program of the threads of the functions, where no limit is passed from their instructions on.
fn within_instructions(
    alloc: Global,
    parts: &Tables<'_>,
    items: &Functions<'_>,
    side: Side,
    functions: &[Ident],
) -> Result<Program, FlatFault>
    requires valid { passed_within side items.now parts.now functions.now (map (thread_of parts.now items.now) functions.now) ≡ None → IsValid (listing parts.now items.now (map (thread_of parts.now items.now) functions.now)) }
    ensures program { IfOk result (λ p. p ≡ listing parts.now items.now (map (thread_of parts.now items.now) functions.now)) }
    ensures within { OnOk result (passed_within side items.now parts.now functions.now (map (thread_of parts.now items.now) functions.now) ≡ None) }
    ensures too_many { IfErr result (λ e. WhenTooMany e (λ l. passed_within side items.now parts.now functions.now (map (thread_of parts.now items.now) functions.now) ≡ Some l)) }
{
    match threads(alloc, parts, items, most_instructions(side), functions) {
        Ok(threads) => within_limits(alloc, parts, items, side, threads),
        Err(Stop::Full) => Err(FlatFault::TooMany(Limit::Instructions)),
        Err(Stop::NoMemory) => Err(FlatFault::NoMemory),
    }
}

/// The goto program of a checked text, which is valid where it passes no limit (`mm_sourcelike`). `TooMany` comes exactly where a
/// limit is passed, with the first in the order of the limits.
pub fn flatten(alloc: Global, tree: &Tree, side: Side) -> Result<Program, FlatFault>
    requires valid { limit_passed side tree.now ≡ None → IsValid (program_of side tree.now) }
    ensures program { IfOk result (λ p. p ≡ program_of side tree.now) }
    ensures within { OnOk result (limit_passed side tree.now ≡ None) }
    ensures too_many { IfErr result (λ e. WhenTooMany e (λ l. limit_passed side tree.now ≡ Some l)) }
{
    let items = tree.items.items();
    let parts = parts_of(alloc, items, side)?;
    let functions = threads_in(alloc, &parts)?;
    let tables = Tables::new(alloc, &parts)?;
    let places = Functions::new(alloc, items)?;
    match passed_before(alloc, &places, &tables, &functions)? {
        Some(limit) => Err(FlatFault::TooMany(limit)),
        None => within_instructions(alloc, &tables, &places, side, &functions),
    }
}
