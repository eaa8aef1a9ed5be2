//! What the check of a text gives: its globals, mutexes, creates, and the numbers of its assertions.
ghost use Rattle.std.specs.Prelude.{◌≡◌, ◌+◌, ◌∷◌, ◌++◌, [], map, IfNone, IfOk, IfSome, OnOk};
ghost use Rattle.mm_tree.specs.declared.expr.Word.{Word};
ghost use Rattle.mm_flow.specs.Programs.{GlobalList, asserts_before, body_in, body_of, capped, cells_in, globals_in, globals_of, mutexes_in, mutexes_of, parts_of, place_in, place_of, spots};
ghost use Rattle.mm_flow.specs.Text.{asserts_in, creates, creates_in, is_assertion};

use mm_flat_stmt::is_function;
use mm_flow::mentions::{Mention, mentions};
use mm_flow::names::{Parts, Spot, Started};
use mm_goto::{At, Ident, List, NoMemory};
use mm_tree::{Item, Side, Stmt};
use std::alloc::Global;

/// How many cells a global has.
pub fn cells_in(global: &mm_tree::Global) -> u32
    ensures { result ≡ cells_in global.now }
{
    match global.len {
        Some(len) => u32::try_from(len).unwrap_or(0),
        None => 1,
    }
}

fn capped_sum(a: u32, b: u32) -> u32
    ensures { result ≡ capped (a + b) }
{
    a.saturating_add(b)
}

fn add_spots(
    alloc: Global,
    out: &mut Vec<Spot>,
    first: u32,
    globals: &[mm_tree::Global],
) -> Result<u32, NoMemory>
    ensures { (rest : GlobalList) → IfOk result (λ next. out.old.items ++ spots (globals.now ++ rest) first ≡ out.new.items ++ spots rest next) }
{
    let mut next = first;
    for global in globals {
        let name = Ident::copy_of(alloc, global.name.text())?;
        let len = cells_in(global);
        out.push(Spot {
            name,
            first: next,
            len,
        })?;
        next = capped_sum(next, len);
    }
    Ok(next)
}

/// The globals of an item.
pub fn globals_of<'a>(item: &'a Item) -> Option<&'a [mm_tree::Global]>
    ensures some { IfSome result (λ gs. gs.now ≡ globals_of item.now) }
    ensures none { IfNone result (globals_of item.now ≡ []) }
{
    match item {
        Item::Globals(globals) => Some(globals.items()),
        Item::Mutexes(_) | Item::Threads(_) | Item::InputDecl(_, _) | Item::Function { .. } => None,
    }
}

fn add_spots_of(
    alloc: Global,
    out: &mut Vec<Spot>,
    first: u32,
    item: &Item,
) -> Result<u32, NoMemory>
    ensures { (rest : GlobalList) → IfOk result (λ next. out.old.items ++ spots (globals_of item.now ++ rest) first ≡ out.new.items ++ spots rest next) }
{
    match globals_of(item) {
        Some(globals) => add_spots(alloc, out, first, globals),
        None => Ok(first),
    }
}

fn spots_in(alloc: Global, items: &[Item]) -> Result<Vec<Spot>, NoMemory>
    ensures { IfOk result (λ out. out.items ≡ spots (globals_in items.now) 0) }
{
    let mut out = Vec::new(alloc);
    let mut next = 0;
    for item in items {
        next = add_spots_of(alloc, &mut out, next, item)?;
    }
    Ok(out)
}

fn add_mutexes(alloc: Global, out: &mut Vec<Ident>, item: &Item) -> Result<(), NoMemory>
    ensures { OnOk result (out.new.items ≡ out.old.items ++ mutexes_of item.now) }
{
    match item {
        Item::Mutexes(words) => add_names(alloc, out, words.items()),
        Item::Globals(_) | Item::Threads(_) | Item::InputDecl(_, _) | Item::Function { .. } => Ok(
            (),
        ),
    }
}

fn add_names(alloc: Global, out: &mut Vec<Ident>, words: &[mm_tree::Word]) -> Result<(), NoMemory>
    ensures { OnOk result (out.new.items ≡ out.old.items ++ map (λ (w : Word). w.name) words.now) }
{
    for word in words {
        out.push(Ident::copy_of(alloc, word.name.text())?)?;
    }
    Ok(())
}

/// The mutexes of a text.
pub fn mutexes_in(alloc: Global, items: &[Item]) -> Result<Vec<Ident>, NoMemory>
    ensures { IfOk result (λ out. out.items ≡ mutexes_in items.now) }
{
    let mut out = Vec::new(alloc);
    for item in items {
        add_mutexes(alloc, &mut out, item)?;
    }
    Ok(out)
}

fn is_assertion(mention: &Mention) -> bool
    ensures { result ≡ is_assertion mention.now }
{
    match mention {
        Mention::Assertion => true,
        Mention::Create(_) | Mention::Label(_) | Mention::Call(_) => false,
    }
}

/// The body of an item that is a function.
pub fn body_of<'a>(item: &'a Item) -> Option<&'a [Stmt]>
    ensures some { IfSome result (λ ss. ss.now ≡ body_of item.now) }
    ensures none { IfNone result (body_of item.now ≡ []) }
{
    match item {
        Item::Function { body, .. } => Some(body.items()),
        Item::Globals(_) | Item::Mutexes(_) | Item::Threads(_) | Item::InputDecl(_, _) => None,
    }
}

fn asserts_in(alloc: Global, item: &Item) -> Result<u32, NoMemory>
    ensures { IfOk result (λ n. n ≡ asserts_in (body_of item.now)) }
{
    match body_of(item) {
        Some(body) => {
            let mentions = mentions(alloc, body)?;
            let count = mentions.iter().filter(|m| is_assertion(m)).count();
            match u32::try_from(count) {
                Ok(count) => Ok(count),
                Err(_) => Err(NoMemory),
            }
        }
        None => Ok(0),
    }
}

fn asserts_before(alloc: Global, items: &[Item]) -> Result<Vec<u32>, NoMemory>
    ensures { IfOk result (λ out. out.items ≡ asserts_before items.now 0) }
{
    let mut out = Vec::new(alloc);
    let mut before: u32 = 0;
    for item in items {
        out.push(before)?;
        let count = asserts_in(alloc, item)?;
        match before.checked_add(count) {
            Some(next) => before = next,
            None => return Err(NoMemory),
        }
    }
    Ok(out)
}

/// The body of the function of a name.
pub fn body_in<'a>(items: &'a [Item], f: &str) -> Option<&'a [Stmt]>
    ensures { IfSome result (λ ss. ss.now ≡ body_in items.now f.now) }
{
    for item in items {
        if is_function(item, f) {
            return body_of(item);
        }
    }
    None
}

fn place_of(item: &Item) -> At
    ensures { result ≡ place_of item.now }
{
    match item {
        Item::Function { at, .. } => *at,
        Item::InputDecl(at, _) => *at,
        Item::Globals(_) | Item::Mutexes(_) | Item::Threads(_) => At::start(),
    }
}

/// Where the name of a function stands.
pub fn place_in(items: &[Item], f: &str) -> At
    ensures { result ≡ place_in items.now f.now }
{
    for item in items {
        if is_function(item, f) {
            return place_of(item);
        }
    }
    At::start()
}

fn create(alloc: Global, out: &mut Vec<Started>, mention: &Mention) -> Result<(), NoMemory>
    ensures { OnOk result (out.new.items ≡ out.old.items ++ creates (mention.now ∷ [])) }
{
    match mention {
        Mention::Create(start) => {
            let variable = Ident::copy_of(alloc, start.variable.text())?;
            let function = Ident::copy_of(alloc, start.function.text())?;
            out.push(Started { variable, function })?;
            Ok(())
        }
        Mention::Assertion | Mention::Label(_) | Mention::Call(_) => Ok(()),
    }
}

fn creates_in(alloc: Global, body: &[Stmt]) -> Result<Vec<Started>, NoMemory>
    ensures { IfOk result (λ out. out.items ≡ creates_in body.now) }
{
    let mentions = mentions(alloc, body)?;
    let mut out = Vec::new(alloc);
    for mention in &mentions {
        create(alloc, &mut out, mention)?;
    }
    Ok(out)
}

/// What the statements of a text speak of.
pub fn parts_of(alloc: Global, items: &[Item], side: Side) -> Result<Parts, NoMemory>
    ensures { IfOk result (λ parts. parts ≡ parts_of side items.now) }
{
    let Some(body) = body_in(items, "main") else {
        return Err(NoMemory);
    };
    let spots = spots_in(alloc, items)?;
    let mutexes = mutexes_in(alloc, items)?;
    let starts = creates_in(alloc, body)?;
    let asserts = asserts_before(alloc, items)?;
    Ok(Parts {
        side,
        spots: List::new(spots),
        mutexes: List::new(mutexes),
        starts: List::new(starts),
        asserts: List::new(asserts),
    })
}
