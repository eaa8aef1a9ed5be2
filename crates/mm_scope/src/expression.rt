ghost use Rattle.std.specs.Prelude.{◌≡◌};
ghost use Rattle.mm_scope.specs.Notes.{all_noted};
ghost use Rattle.mm_scope.specs.Expressions.{kind_of, named, judged_expr, judged_node};

use crate::fault::Rule;
use crate::notes::Notes;
use crate::operand::{Kind, Operand, address, binary, choice, deref, element, unary};
use crate::scope::Scope;
use crate::table::Meaning;
use mm_goto::{At, Ident};
use mm_tree::{Expr, Node};

/// What a name has to stand for.
#[derive(Clone, Copy)]
pub enum Sort {
    /// A variable that has a value.
    Variable,
    /// A variable that has an address.
    Shared,
    Array,
}

fn kind_of(sort: Sort, meaning: Meaning) -> Option<Kind>
    ensures { result ≡ kind_of sort meaning }
{
    match (sort, meaning) {
        (Sort::Variable, Meaning::Shared) => Some(Kind::Int),
        (Sort::Variable, Meaning::Int) => Some(Kind::Int),
        (Sort::Variable, Meaning::Pointer) => Some(Kind::Pointer),
        (Sort::Shared, Meaning::Shared) => Some(Kind::Int),
        (Sort::Array, Meaning::Array(_)) => Some(Kind::Int),
        _ => None,
    }
}

#[tactic(auto, unfolding(crate::specs::Expressions::named))]
pub fn named(sort: Sort, scope: &Scope<'_>, at: At, name: &Ident, notes: &mut Notes<'_>) -> Operand
    ensures operand { result ≡ (named sort scope.now at name.now).operand }
    ensures notes { notes.new ≡ all_noted notes.old (named sort scope.now at name.now).notes }
{
    let kind = match scope.meaning_of(name) {
        None | Some(Meaning::Unready) => {
            notes.refuse(Rule::UnknownName, at);
            None
        }
        Some(meaning) => {
            let kind = kind_of(sort, meaning);
            if kind.is_none() {
                notes.refuse(Rule::WrongType, at);
            }
            kind
        }
    };
    Operand {
        at,
        zero: false,
        kind,
    }
}

/// What is known of an expression. What is wrong in it is noted.
#[cycle(expression)]
pub fn check_expression(scope: &Scope<'_>, expr: &Expr, notes: &mut Notes<'_>) -> Operand
    ensures operand { result ≡ (judged_expr scope.now expr.now).operand }
    ensures notes { notes.new ≡ all_noted notes.old (judged_expr scope.now expr.now).notes }
{
    check_node(scope, expr.at, &expr.node, notes)
}

#[cycle(expression)]
fn check_node(scope: &Scope<'_>, at: At, node: &Node, notes: &mut Notes<'_>) -> Operand
    ensures operand { result ≡ (judged_node scope.now node.now at).operand }
    ensures notes { notes.new ≡ all_noted notes.old (judged_node scope.now node.now at).notes }
{
    match node {
        Node::Number(n) => Operand {
            at,
            zero: *n == 0,
            kind: Some(Kind::Int),
        },
        Node::Null => Operand {
            at,
            zero: false,
            kind: Some(Kind::Pointer),
        },
        Node::Name(name) => named(Sort::Variable, scope, at, name, notes),
        Node::Index(name, index) => {
            let array = named(Sort::Array, scope, at, name, notes);
            let index = check_expression(scope, index.get(), notes);
            element(at, Kind::Int, array, index, notes)
        }
        Node::Deref(e) => {
            let e = check_expression(scope, e.get(), notes);
            deref(at, e, notes)
        }
        Node::AddrName(word) => {
            let shared = named(Sort::Shared, scope, word.at, &word.name, notes);
            address(at, shared)
        }
        Node::AddrIndex(word, index) => {
            let array = named(Sort::Array, scope, word.at, &word.name, notes);
            let index = check_expression(scope, index.get(), notes);
            element(at, Kind::Pointer, array, index, notes)
        }
        Node::Un(op, e) => {
            let e = check_expression(scope, e.get(), notes);
            unary(at, *op, e, notes)
        }
        Node::Bin(op, a, b) => {
            let a = check_expression(scope, a.get(), notes);
            let b = check_expression(scope, b.get(), notes);
            binary(at, *op, a, b, notes)
        }
        Node::Cond(test, a, b) => {
            let test = check_expression(scope, test.get(), notes);
            let a = check_expression(scope, a.get(), notes);
            let b = check_expression(scope, b.get(), notes);
            choice(at, test, a, b, notes)
        }
    }
}
