ghost use Rattle.std.specs.Prelude.{◌≡◌, ◌++◌, OnOk, map, codes, string_bytes};
ghost use Rattle.mm_parse_expr.specs.declared.symbol.Keyword.TheVariants as keyword;
ghost use Rattle.mm_print.specs.Pieces.{text, keyword_text, commas};
ghost use Rattle.mm_print.specs.Items.{length_pieces, init_pieces, global_pieces, mutex_pieces, gives_pieces, param_word, param_pieces, params_pieces, item_pieces, items_pieces};

use crate::lists::{Listed, put_listed};
use crate::parts::{put_before, put_star};
use crate::statements::{put_block, put_declared};
use crate::words::keyword_text;
use mm_goto::NoMemory;
use mm_goto::text::{put, put_int};
use mm_parse_expr::Keyword;
use mm_tree::{Expr, Gives, Item, Param, Word};
use std::alloc::Global;

#[tactic(auto, using(crate::proofs::Texts::text_append))]
fn put_length(alloc: Global, out: &mut String, len: Option<i32>) -> Result<(), NoMemory>
    ensures { OnOk result (string_bytes out.new ≡ string_bytes out.old ++ text (length_pieces len)) }
{
    match len {
        None => Ok(()),
        Some(n) => {
            put(out, "[")?;
            put_int(alloc, out, n)?;
            put(out, "]")
        }
    }
}

// The start values of a variable, or of an array that has so many elements.
#[tactic(auto, using(crate::proofs::Texts::text_append))]
fn put_init(
    alloc: Global,
    out: &mut String,
    len: Option<i32>,
    init: &[Expr],
) -> Result<(), NoMemory>
    ensures { OnOk result (string_bytes out.new ≡ string_bytes out.old ++ text (init_pieces len init.now)) }
{
    match (len, init) {
        (_, []) => Ok(()),
        (None, _) => {
            put(out, " = ")?;
            put_listed(alloc, out, init)
        }
        (Some(_), _) => {
            put(out, " = {")?;
            put_listed(alloc, out, init)?;
            put(out, "}")
        }
    }
}

impl Listed for mm_tree::Global {
    ghost pieces = { global_pieces };

    #[tactic(auto, using(crate::proofs::Texts::text_append))]
    fn put_part(&self, alloc: Global, out: &mut String) -> Result<(), NoMemory> {
        put_star(out, self.pointer)?;
        put(out, self.name.text())?;
        put_length(alloc, out, self.len)?;
        put_init(alloc, out, self.len, self.init.items())
    }
}

fn put_mutex(out: &mut String, mutex: &Word) -> Result<(), NoMemory>
    ensures { OnOk result (string_bytes out.new ≡ string_bytes out.old ++ text (mutex_pieces mutex.now)) }
{
    put(out, mutex.name.text())?;
    put(out, " = ")?;
    put(out, keyword_text(Keyword::MutexInitializer))
}

fn put_mutexes(out: &mut String, mutexes: &[Word]) -> Result<(), NoMemory>
    ensures { OnOk result (string_bytes out.new ≡ string_bytes out.old ++ text (commas (map mutex_pieces mutexes.now))) }
{
    let mut rest = mutexes;
    while let [mutex, behind @ ..] = rest {
        put_mutex(out, mutex)?;
        if !behind.is_empty() {
            put(out, ", ")?;
        }
        rest = behind;
    }
    Ok(())
}

fn param_word(gives: Gives) -> Keyword
    ensures { result ≡ param_word gives }
{
    match gives {
        Gives::Int => Keyword::Int,
        Gives::Pointer => Keyword::Int,
        Gives::Nothing => Keyword::Int,
        Gives::Thread => Keyword::Void,
    }
}

#[tactic(auto, using(crate::proofs::Texts::text_append))]
fn put_param(out: &mut String, gives: Gives, param: &Param) -> Result<(), NoMemory>
    ensures { OnOk result (string_bytes out.new ≡ string_bytes out.old ++ text (param_pieces gives param.now)) }
{
    put_before(out, param_word(gives))?;
    put_star(out, param.pointer)?;
    put(out, param.name.name.text())
}

fn put_params(out: &mut String, gives: Gives, params: &[Param]) -> Result<(), NoMemory>
    ensures { OnOk result (string_bytes out.new ≡ string_bytes out.old ++ text (commas (map (param_pieces gives) params.now))) }
{
    let mut rest = params;
    while let [param, behind @ ..] = rest {
        put_param(out, gives, param)?;
        if !behind.is_empty() {
            put(out, ", ")?;
        }
        rest = behind;
    }
    Ok(())
}

// The parameters, or the word that says that there are none.
fn put_params_of(out: &mut String, gives: Gives, params: &[Param]) -> Result<(), NoMemory>
    ensures { OnOk result (string_bytes out.new ≡ string_bytes out.old ++ text (params_pieces gives params.now)) }
{
    match params {
        [] => put(out, keyword_text(Keyword::Void)),
        _ => put_params(out, gives, params),
    }
}

fn put_gives(out: &mut String, gives: Gives) -> Result<(), NoMemory>
    ensures { OnOk result (string_bytes out.new ≡ string_bytes out.old ++ text (gives_pieces gives)) }
{
    match gives {
        Gives::Int => put_before(out, Keyword::Int),
        Gives::Pointer => {
            put_before(out, Keyword::Int)?;
            put(out, "*")
        }
        Gives::Nothing => put_before(out, Keyword::Void),
        Gives::Thread => {
            put_before(out, Keyword::Void)?;
            put(out, "*")
        }
    }
}

fn put_input(out: &mut String, name: &str) -> Result<(), NoMemory>
    ensures { OnOk result (string_bytes out.new ≡ string_bytes out.old ++ (keyword_text keyword.Int ++ (codes " " ++ (name.now ++ codes "();")))) }
{
    put_before(out, Keyword::Int)?;
    put(out, name)?;
    put(out, "();")
}

#[tactic(auto, using(crate::proofs::Texts::text_append))]
fn put_item(alloc: Global, out: &mut String, item: &Item) -> Result<(), NoMemory>
    ensures { OnOk result (string_bytes out.new ≡ string_bytes out.old ++ text (item_pieces item.now)) }
{
    match item {
        Item::Globals(globals) => {
            put_declared(alloc, out, Keyword::Int, globals.items())?;
            put(out, ";")
        }
        Item::Mutexes(mutexes) => {
            put_before(out, Keyword::Mutex)?;
            put_mutexes(out, mutexes.items())?;
            put(out, ";")
        }
        Item::Threads(threads) => {
            put_declared(alloc, out, Keyword::Thread, threads.items())?;
            put(out, ";")
        }
        Item::InputDecl(_, name) => put_input(out, name.text()),
        Item::Function {
            at: _,
            gives,
            name,
            params,
            body,
        } => {
            put_gives(out, *gives)?;
            put(out, name.text())?;
            put(out, "(")?;
            put_params_of(out, *gives, params.items())?;
            put(out, ") ")?;
            put_block(alloc, out, 0, body.items())
        }
    }
}

/// Writes the items, each of which ends its line.
#[tactic(auto, using(crate::proofs::Texts::text_append))]
pub fn put_items(alloc: Global, out: &mut String, items: &[Item]) -> Result<(), NoMemory>
    ensures { OnOk result (string_bytes out.new ≡ string_bytes out.old ++ text (items_pieces items.now)) }
{
    for item in items {
        put_item(alloc, out, item)?;
        put(out, "\n")?;
    }
    Ok(())
}
