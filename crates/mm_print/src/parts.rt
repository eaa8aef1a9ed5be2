ghost use Rattle.std.specs.Prelude.{◌≡◌, ◌++◌, OnOk, [], ◌∷◌, map, codes, string_bytes};
ghost use Rattle.std.specs.Fmt.{decimal};
ghost use Rattle.mm_parse_expr.specs.declared.symbol.Keyword.TheVariants as keyword;
ghost use Rattle.mm_parse_expr.specs.declared.symbol.Symbol.TheVariants as symbol;
ghost use Rattle.mm_print.specs.Pieces.{Piece, text, keyword_text, spaced, commas, called};
ghost use Rattle.mm_print.specs.Expressions.{expr_pieces, address};
ghost use Rattle.mm_print.specs.Statements.{left_pieces, value_pieces, star, set_to, local_pieces, name_pieces, tested, assertion, returned, zero_argument};

use crate::expressions::{put_expr, put_operand, put_subscript};
use crate::lists::{Listed, put_listed};
use crate::words::{keyword_text, operator_text};
use mm_goto::text::{put, put_number};
use mm_goto::{Binary, Ident, NoMemory};
use mm_parse_expr::Keyword;
use mm_tree::{Expr, LeftNode, Local, Value, Word};
use sqlite_items::Boxed;
use std::alloc::Global;

impl Listed for Expr {
    ghost pieces = { expr_pieces };

    fn put_part(&self, alloc: Global, out: &mut String) -> Result<(), NoMemory> {
        put_expr(alloc, out, self)
    }
}

impl Listed for Word {
    ghost pieces = { name_pieces };

    fn put_part(&self, _alloc: Global, out: &mut String) -> Result<(), NoMemory> {
        put(out, self.name.text())
    }
}

impl Listed for Local {
    ghost pieces = { local_pieces };

    #[tactic(auto, using(crate::proofs::Texts::text_append))]
    fn put_part(&self, alloc: Global, out: &mut String) -> Result<(), NoMemory> {
        put_star(out, self.pointer)?;
        put(out, self.name.text())?;
        match &self.value {
            None => Ok(()),
            Some(value) => put_set_to(alloc, out, value.get()),
        }
    }
}

/// Writes the mark of a pointer.
pub fn put_star(out: &mut String, pointer: bool) -> Result<(), NoMemory>
    ensures { OnOk result (string_bytes out.new ≡ string_bytes out.old ++ text (star pointer)) }
{
    if pointer { put(out, "*") } else { Ok(()) }
}

/// Writes a word, and a blank behind it.
pub fn put_before(out: &mut String, word: Keyword) -> Result<(), NoMemory>
    ensures { OnOk result (string_bytes out.new ≡ string_bytes out.old ++ (keyword_text word ++ codes " ")) }
{
    put(out, keyword_text(word))?;
    put(out, " ")
}

/// Writes a word that is called, and the parenthesis that opens its arguments.
fn put_open(out: &mut String, word: Keyword) -> Result<(), NoMemory>
    ensures { OnOk result (string_bytes out.new ≡ string_bytes out.old ++ (keyword_text word ++ codes "(")) }
{
    put(out, keyword_text(word))?;
    put(out, "(")
}

#[tactic(auto, using(crate::proofs::Texts::text_append))]
fn put_set_to(alloc: Global, out: &mut String, value: &Value) -> Result<(), NoMemory>
    ensures { OnOk result (string_bytes out.new ≡ string_bytes out.old ++ text (spaced symbol.Assign (value_pieces value.now))) }
{
    put(out, " = ")?;
    put_value(alloc, out, value)
}

#[tactic(auto, using(crate::proofs::Texts::text_append))]
fn put_call(alloc: Global, out: &mut String, name: &str, args: &[Expr]) -> Result<(), NoMemory>
    ensures { OnOk result (string_bytes out.new ≡ string_bytes out.old ++ text (called (Piece.name name.now) (commas (map expr_pieces args.now)))) }
{
    put(out, name)?;
    put(out, "(")?;
    put_listed(alloc, out, args)?;
    put(out, ")")
}

// Two expressions with a comma between them.
#[tactic(auto, using(crate::proofs::Texts::text_append))]
fn put_pair(alloc: Global, out: &mut String, first: &Expr, second: &Expr) -> Result<(), NoMemory>
    ensures { OnOk result (string_bytes out.new ≡ string_bytes out.old ++ text (commas (expr_pieces first.now ∷ expr_pieces second.now ∷ []))) }
{
    put_expr(alloc, out, first)?;
    put(out, ", ")?;
    put_expr(alloc, out, second)
}

#[tactic(auto, using(crate::proofs::Texts::text_append))]
fn put_fetch_add(alloc: Global, out: &mut String, pointer: &Expr, e: &Expr) -> Result<(), NoMemory>
    ensures { OnOk result (string_bytes out.new ≡ string_bytes out.old ++ text (called (Piece.word keyword.FetchAndAdd) (commas (map expr_pieces (pointer.now ∷ e.now ∷ []))))) }
{
    put_open(out, Keyword::FetchAndAdd)?;
    put_pair(alloc, out, pointer, e)?;
    put(out, ")")
}

#[tactic(auto, using(crate::proofs::Texts::text_append))]
fn put_compare_swap(
    alloc: Global,
    out: &mut String,
    pointer: &Expr,
    old: &Expr,
    new: &Expr,
) -> Result<(), NoMemory>
    ensures { OnOk result (string_bytes out.new ≡ string_bytes out.old ++ text (called (Piece.word keyword.CompareAndSwap) (commas (map expr_pieces (pointer.now ∷ old.now ∷ new.now ∷ []))))) }
{
    put_open(out, Keyword::CompareAndSwap)?;
    put_expr(alloc, out, pointer)?;
    put(out, ", ")?;
    put_pair(alloc, out, old, new)?;
    put(out, ")")
}

/// Writes what may be assigned.
pub fn put_value(alloc: Global, out: &mut String, value: &Value) -> Result<(), NoMemory>
    ensures { OnOk result (string_bytes out.new ≡ string_bytes out.old ++ text (value_pieces value.now)) }
{
    match value {
        Value::Plain(e) => put_expr(alloc, out, e.get()),
        Value::Call(_, x, args) => put_call(alloc, out, x.text(), args.items()),
        Value::FetchAdd(_, pointer, e) => put_fetch_add(alloc, out, pointer.get(), e.get()),
        Value::CompareSwap(_, pointer, old, new) => {
            put_compare_swap(alloc, out, pointer.get(), old.get(), new.get())
        }
    }
}

#[tactic(auto, using(crate::proofs::Texts::text_append))]
fn put_left(alloc: Global, out: &mut String, left: &LeftNode) -> Result<(), NoMemory>
    ensures { OnOk result (string_bytes out.new ≡ string_bytes out.old ++ text (left_pieces left.now)) }
{
    match left {
        LeftNode::Name(x) => put(out, x.text()),
        LeftNode::Index(x, index) => {
            put(out, x.text())?;
            put_subscript(alloc, out, index.get())
        }
        LeftNode::Deref(pointer) => {
            put(out, "*")?;
            put_operand(alloc, out, pointer.get())
        }
    }
}

/// Writes an assignment.
#[tactic(auto, using(crate::proofs::Texts::text_append))]
pub fn put_assign(
    alloc: Global,
    out: &mut String,
    left: &LeftNode,
    value: &Value,
) -> Result<(), NoMemory>
    ensures { OnOk result (string_bytes out.new ≡ string_bytes out.old ++ text (left_pieces left.now ++ spaced symbol.Assign (value_pieces value.now))) }
{
    put_left(alloc, out, left)?;
    put_set_to(alloc, out, value)
}

/// Writes an assignment with an operator in front of its `=`.
#[tactic(auto, using(crate::proofs::Texts::text_append))]
pub fn put_update(
    alloc: Global,
    out: &mut String,
    left: &LeftNode,
    op: Binary,
    e: &Expr,
) -> Result<(), NoMemory>
    ensures { OnOk result (string_bytes out.new ≡ string_bytes out.old ++ text (left_pieces left.now ++ spaced (symbol.Update op) (expr_pieces e.now))) }
{
    put_left(alloc, out, left)?;
    put(out, " ")?;
    put(out, operator_text(op))?;
    put(out, "= ")?;
    put_expr(alloc, out, e)
}

/// Writes a condition behind its word.
#[tactic(auto, using(crate::proofs::Texts::text_append))]
pub fn put_tested(
    alloc: Global,
    out: &mut String,
    word: Keyword,
    test: &Expr,
) -> Result<(), NoMemory>
    ensures { OnOk result (string_bytes out.new ≡ string_bytes out.old ++ text (tested word test.now)) }
{
    put_before(out, word)?;
    put(out, "(")?;
    put_expr(alloc, out, test)?;
    put(out, ")")
}

/// Writes a `return`, with what it gives.
#[tactic(auto, using(crate::proofs::Texts::text_append))]
pub fn put_return(
    alloc: Global,
    out: &mut String,
    value: &Option<Boxed<Value>>,
) -> Result<(), NoMemory>
    ensures { OnOk result (string_bytes out.new ≡ string_bytes out.old ++ text (returned value.now)) }
{
    match value {
        None => put(out, keyword_text(Keyword::Return)),
        Some(value) => {
            put_before(out, Keyword::Return)?;
            put_value(alloc, out, value.get())
        }
    }
}

/// Writes an assertion, with its text where it has one.
#[tactic(auto, using(crate::proofs::Texts::text_append))]
pub fn put_assert(
    alloc: Global,
    out: &mut String,
    test: &Expr,
    name: &Option<Ident>,
) -> Result<(), NoMemory>
    ensures { OnOk result (string_bytes out.new ≡ string_bytes out.old ++ text (assertion test.now name.now)) }
{
    match name {
        None => {
            put_open(out, Keyword::Assert)?;
            put_expr(alloc, out, test)?;
            put(out, ")")
        }
        Some(name) => {
            put_open(out, Keyword::ProverAssert)?;
            put_expr(alloc, out, test)?;
            put(out, ", \"")?;
            put(out, name.text())?;
            put(out, "\")")
        }
    }
}

/// Writes an assumption.
#[tactic(auto, using(crate::proofs::Texts::text_append))]
pub fn put_assume(alloc: Global, out: &mut String, test: &Expr) -> Result<(), NoMemory>
    ensures { OnOk result (string_bytes out.new ≡ string_bytes out.old ++ text (called (Piece.word keyword.Assume) (expr_pieces test.now))) }
{
    put_open(out, Keyword::Assume)?;
    put_expr(alloc, out, test)?;
    put(out, ")")
}

/// Writes a word that is called without arguments.
pub fn put_bare(out: &mut String, word: Keyword) -> Result<(), NoMemory>
    ensures { OnOk result (string_bytes out.new ≡ string_bytes out.old ++ text (called (Piece.word word) [])) }
{
    put_open(out, word)?;
    put(out, ")")
}

// A word that is called, with the address of a variable as its first argument.
fn put_called_on(out: &mut String, word: Keyword, name: &str) -> Result<(), NoMemory>
    ensures { OnOk result (string_bytes out.new ≡ string_bytes out.old ++ (keyword_text word ++ (codes "(&" ++ name.now))) }
{
    put_open(out, word)?;
    put(out, "&")?;
    put(out, name)
}

/// Writes a word that is called with the address of a mutex.
pub fn put_mutex_call(out: &mut String, word: Keyword, name: &str) -> Result<(), NoMemory>
    ensures { OnOk result (string_bytes out.new ≡ string_bytes out.old ++ text (called (Piece.word word) (address name.now))) }
{
    put_called_on(out, word, name)?;
    put(out, ")")
}

// A further argument that is not used.
fn put_zero(alloc: Global, out: &mut String) -> Result<(), NoMemory>
    ensures { OnOk result (string_bytes out.new ≡ string_bytes out.old ++ (codes ", " ++ decimal 0)) }
{
    put(out, ", ")?;
    put_number(alloc, out, 0)
}

/// Writes the start of a thread.
pub fn put_start(
    alloc: Global,
    out: &mut String,
    thread: &Word,
    function: &Word,
) -> Result<(), NoMemory>
    ensures { OnOk result (string_bytes out.new ≡ string_bytes out.old ++ text (called (Piece.word keyword.Create) (commas (address thread.now.name ∷ zero_argument ∷ name_pieces function.now ∷ zero_argument ∷ [])))) }
{
    put_called_on(out, Keyword::Create, thread.name.text())?;
    put_zero(alloc, out)?;
    put(out, ", ")?;
    put(out, function.name.text())?;
    put_zero(alloc, out)?;
    put(out, ")")
}

/// Writes the wait for a thread.
pub fn put_join(alloc: Global, out: &mut String, thread: &Word) -> Result<(), NoMemory>
    ensures { OnOk result (string_bytes out.new ≡ string_bytes out.old ++ text (called (Piece.word keyword.Join) (commas (name_pieces thread.now ∷ zero_argument ∷ [])))) }
{
    put_open(out, Keyword::Join)?;
    put(out, thread.name.text())?;
    put_zero(alloc, out)?;
    put(out, ")")
}
