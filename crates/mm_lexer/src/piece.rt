//! What stands in front of a text: a separator, a token, or none of them.
ghost use Rattle.std.specs.Prelude.{◌≡◌, ◌≤◌, ◌<◌, ◌+◌, ◌^◌, pos, true, length, IfSome};
ghost use Rattle.std.specs.Char.{digit_value};
ghost use Rattle.std.specs.Option.{SomeIff};
ghost use Rattle.std.specs.Str.{chars};
ghost use Rattle.mm_lexer.specs.declared.class.Class.TheVariants.{Digit};
ghost use Rattle.mm_lexer.specs.Class.{is_in, radix};
ghost use Rattle.mm_lexer.specs.Marks.{is_triple, is_double, takes_equal, is_pair, is_single, mark_len};
ghost use Rattle.mm_lexer.specs.Piece.{base_of, lead_len, digits_len, is_whole, value_of, number_in, number, quoted, mark_of, closing, comment_of, line_comment, comment, is_include, hash, piece_at};

use crate::class::{Base, Class, is_in, is_name_char, is_name_start, is_space, radix};
use crate::front::{begins_with, first, run, skip, split};
use crate::token::TokenKind;

/// What stands in front of a text, with how many characters it has.
#[derive(Clone, Copy, Debug, PartialEq, Eq)]
pub enum Piece {
    /// Nothing: the text has ended.
    End,
    /// What separates tokens.
    Gap(usize),
    Token(TokenKind, usize),
    /// No token.
    Bad,
    /// A number above 2,147,483,647.
    TooLarge,
}

fn base_of(text: &str) -> Base
    ensures { result ≡ base_of (chars text.now) }
{
    let second = first(skip(text, 1));
    if first(text) == '0' {
        if second == 'x' || second == 'X' {
            Base::Hexadecimal
        } else {
            Base::Octal
        }
    } else {
        Base::Decimal
    }
}

fn lead_len(base: Base) -> usize
    ensures len { result ≡ lead_len base }
    ensures most { result ≤ 2 }
{
    match base {
        Base::Octal | Base::Decimal => 0,
        Base::Hexadecimal => 2,
    }
}

fn digits_len(base: Base, digits: &str) -> usize
    ensures len { result ≡ digits_len base (chars digits.now) }
    ensures within { result ≤ length digits.now }
{
    run(Class::Digit(base), digits)
}

fn is_whole(base: Base, digits: &str) -> bool
    ensures { result ≡ is_whole base (chars digits.now) }
{
    let len = digits_len(base, digits);
    0 < len && !is_name_char(first(skip(digits, len)))
}

fn is_triple(c: char, d: char, e: char) -> bool
    ensures { result ≡ is_triple c d e }
{
    (c == '<' || c == '>') && c == d && e == '='
}

fn is_double(c: char, d: char) -> bool
    ensures { result ≡ is_double c d }
{
    matches!(c, '+' | '-' | '&' | '|' | '=' | '<' | '>') && c == d
}

fn takes_equal(c: char) -> bool
    ensures { result ≡ takes_equal c }
{
    matches!(
        c,
        '+' | '-' | '*' | '/' | '%' | '&' | '|' | '^' | '!' | '<' | '>'
    )
}

fn is_pair(c: char, d: char) -> bool
    ensures { result ≡ is_pair c d }
{
    is_double(c, d) || (takes_equal(c) && d == '=') || (c == '-' && d == '>')
}

fn is_single(c: char) -> bool
    ensures { result ≡ is_single c }
{
    matches!(
        c,
        '+' | '-'
            | '*'
            | '/'
            | '%'
            | '&'
            | '|'
            | '^'
            | '~'
            | '!'
            | '<'
            | '>'
            | '='
            | '?'
            | ':'
            | ';'
            | ','
            | '('
            | ')'
            | '['
            | ']'
            | '{'
            | '}'
            | '.'
    )
}

#[tactic(auto, unfolding(crate::specs::Marks::mark_len))]
fn mark_len(text: &str) -> usize
    ensures { result ≡ mark_len (chars text.now) }
{
    let (c, d) = (first(text), first(skip(text, 1)));
    if is_triple(c, d, first(skip(text, 2))) {
        3
    } else if is_pair(c, d) {
        2
    } else if is_single(c) {
        1
    } else {
        0
    }
}

fn mark_of(len: usize) -> Piece
    ensures { result ≡ mark_of len }
{
    if len == 0 {
        Piece::Bad
    } else {
        Piece::Token(TokenKind::Mark, len)
    }
}

/// What the digits write, where it is at most 2,147,483,647.
fn value_of(base: Base, digits: &str) -> Option<i32>
    ensures { SomeIff result (value_of base (chars digits.now) ≤ 2147483647) (pos (value_of base (chars digits.now))) }
{
    let mut value: u64 = 0;
    let mut rest = digits;
    while let Some((c, behind)) = split(rest) {
        if !is_in(Class::Digit(base), c) {
            break;
        }
        value = value * radix(base) as u64 + digit_of(base, c) as u64;
        if value > 2_147_483_647 {
            return None;
        }
        rest = behind;
    }
    Some(value as i32)
}

/// The value of a digit.
fn digit_of(base: Base, c: char) -> u32
    requires { is_in (Digit base) c ≡ true }
    ensures value { result ≡ digit_value c }
    ensures small { result < radix base }
{
    c.to_digit(radix(base)).unwrap()
}

fn number_in(base: Base, digits: &str) -> Piece
    ensures { result ≡ number_in base (chars digits.now) }
{
    if !is_whole(base, digits) {
        return Piece::Bad;
    }
    match value_of(base, digits) {
        Some(value) => Piece::Token(
            TokenKind::Number(value),
            lead_len(base) + digits_len(base, digits),
        ),
        None => Piece::TooLarge,
    }
}

#[tactic(auto, unfolding(crate::specs::Piece::number))]
fn number(text: &str) -> Piece
    ensures { result ≡ number (chars text.now) }
{
    let base = base_of(text);
    number_in(base, skip(text, lead_len(base)))
}

#[tactic(auto, unfolding(crate::specs::Piece::quoted))]
fn quoted(behind: &str) -> Piece
    ensures { result ≡ quoted (chars behind.now) }
{
    let len = run(Class::Quoted, behind);
    if len <= 200 && first(skip(behind, len)) == '"' {
        Piece::Token(TokenKind::Text, len + 2)
    } else {
        Piece::Bad
    }
}

fn closing(text: &str) -> Option<usize>
    ensures len { result ≡ closing (chars text.now) }
    ensures within { IfSome result (λ len. len ≤ length text.now + 1) }
{
    let mut rest = text;
    let mut len = 0;
    while let Some((c, behind)) = split(rest) {
        if c == '*' && first(behind) == '/' {
            return Some(len + 2);
        }
        len += 1;
        rest = behind;
    }
    None
}

fn comment_of(closing: Option<usize>) -> Piece
    requires { IfSome closing (λ len. len + 2 < 2 ^ 64) }
    ensures { result ≡ comment_of closing }
{
    match closing {
        None => Piece::Bad,
        Some(len) => Piece::Gap(len + 2),
    }
}

#[tactic(auto, unfolding(crate::specs::Piece::line_comment))]
fn line_comment(behind: &str) -> Piece
    ensures { result ≡ line_comment (chars behind.now) }
{
    Piece::Gap(1 + run(Class::Line, behind))
}

#[tactic(auto, unfolding(crate::specs::Piece::comment))]
fn comment(behind: &str) -> Piece
    ensures { result ≡ comment (chars behind.now) }
{
    comment_of(closing(skip(behind, 1)))
}

fn is_include(behind: &str) -> bool
    ensures { result ≡ is_include (chars behind.now) }
{
    begins_with(skip(behind, run(Class::Blank, behind)), b"include")
}

#[tactic(auto, unfolding(crate::specs::Piece::hash))]
fn hash(is_head: bool, behind: &str) -> Piece
    ensures { result ≡ hash is_head (chars behind.now) }
{
    if is_head && is_include(behind) {
        Piece::Gap(1 + run(Class::Line, behind))
    } else {
        Piece::Bad
    }
}

/// What stands in front of a text, where its line has had only blanks and tabs so far, or more.
#[tactic(auto, unfolding(crate::specs::Piece::piece_at))]
pub fn piece_at(is_head: bool, text: &str) -> Piece
    ensures { result ≡ piece_at is_head (chars text.now) }
{
    let Some((c, behind)) = split(text) else {
        return Piece::End;
    };
    match c {
        _ if is_space(c) => Piece::Gap(1),
        _ if is_name_start(c) => Piece::Token(TokenKind::Name, 1 + run(Class::Name, behind)),
        '0'..='9' => number(text),
        '"' => quoted(behind),
        '/' if first(behind) == '/' => line_comment(behind),
        '/' if first(behind) == '*' => comment(behind),
        '#' => hash(is_head, behind),
        _ => mark_of(mark_len(text)),
    }
}
