ghost use Rattle.std.specs.Prelude.{◌≡◌, ◌∷◌, []};
ghost use Rattle.std.specs.List.{list_all};
ghost use Rattle.std.specs.Char.{is_ascii_digit};
ghost use Rattle.mm_scope.specs.Notes.{all_noted};
ghost use Rattle.mm_scope.specs.Steps.{after};
ghost use Rattle.mm_scope.specs.Parts.{is_numeral, is_assertion_text, text_fits, refusal_unless, asserted};

use crate::expression::check_expression;
use crate::fault::Rule;
use crate::notes::Notes;
use crate::walk::Walk;
use mm_goto::{At, Ident};
use mm_tree::{Expr, Side};

fn all_digits(word: &[u8]) -> bool
    ensures { result ≡ list_all is_ascii_digit word.now }
{
    word.iter().all(|byte| byte.is_ascii_digit())
}

fn is_numeral(word: &str) -> bool
    ensures { result ≡ is_numeral word.now }
{
    let digits = word.as_bytes();
    if digits.is_empty() || !all_digits(digits) || (digits[0] == b'0' && digits.len() != 1) {
        return false;
    }
    match word.parse::<u32>() {
        Ok(_) => true,
        Err(_) => false,
    }
}

fn is_assertion_text(text: &Ident) -> bool
    ensures { result ≡ is_assertion_text text.now }
{
    match text.text().strip_prefix("assertion ") {
        Some(number) => is_numeral(number),
        None => false,
    }
}

fn text_fits(side: Side, text: &Option<Ident>) -> bool
    ensures { result ≡ text_fits side text.now }
{
    match side {
        Side::Source => true,
        Side::Output => match text {
            Some(text) => is_assertion_text(text),
            None => false,
        },
    }
}

fn refuse_unless(fits: bool, at: At, notes: &mut Notes<'_>)
    ensures { notes.new ≡ all_noted notes.old (refusal_unless fits at) }
{
    if !fits {
        notes.refuse(Rule::WrongType, at);
    }
}

#[tactic(auto, unfolding(crate::specs::Steps::after, crate::specs::Parts::asserted))]
pub fn note_assertion(walk: &mut Walk<'_>, side: Side, at: At, e: &Expr, text: &Option<Ident>)
    ensures { walk.new ≡ after (asserted side at e.now text.now) walk.old }
{
    check_expression(&walk.scope, e, &mut walk.notes);
    refuse_unless(text_fits(side, text), at, &mut walk.notes);
    walk.notes.add_assertion();
}
