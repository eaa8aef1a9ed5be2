ghost use Rattle.std.specs.Prelude.{◌≡◌, ◌≤◌};
ghost use Rattle.mm_goto.specs.Names.{is_name_start, is_name_char};
ghost use Rattle.mm_lexer.specs.Class.{is_blank, is_space, is_text_char, radix, is_in};

use unicode_ident::{is_xid_continue, is_xid_start};

/// The base of a number.
#[derive(Clone, Copy, Debug, PartialEq, Eq)]
pub enum Base {
    Octal,
    Decimal,
    Hexadecimal,
}

/// A class of characters.
#[derive(Clone, Copy, Debug, PartialEq, Eq)]
pub enum Class {
    /// Blanks and tabs.
    Blank,
    /// All but the newline.
    Line,
    /// What a name goes on with.
    Name,
    /// What may stand in a text.
    Quoted,
    Digit(Base),
}

pub fn is_blank(c: char) -> bool
    ensures { result ≡ is_blank c }
{
    c == ' ' || c == '\t'
}

pub fn is_space(c: char) -> bool
    ensures { result ≡ is_space c }
{
    is_blank(c) || c == '\r' || c == '\n'
}

pub fn is_name_start(c: char) -> bool
    ensures { result ≡ is_name_start c }
{
    c == '_' || is_xid_start(c)
}

pub fn is_name_char(c: char) -> bool
    ensures { result ≡ is_name_char c }
{
    c == '_' || is_xid_continue(c)
}

fn is_text_char(c: char) -> bool
    ensures { result ≡ is_text_char c }
{
    ' ' <= c && c <= '~' && c != '"' && c != '\\'
}

pub fn radix(base: Base) -> u32
    ensures value { result ≡ radix base }
    ensures least { 2 ≤ result }
    ensures most { result ≤ 16 }
{
    match base {
        Base::Octal => 8,
        Base::Decimal => 10,
        Base::Hexadecimal => 16,
    }
}

/// Whether a character is of the class.
pub fn is_in(class: Class, c: char) -> bool
    ensures { result ≡ is_in class c }
{
    match class {
        Class::Blank => is_blank(c),
        Class::Line => c != '\n',
        Class::Name => is_name_char(c),
        Class::Quoted => is_text_char(c),
        Class::Digit(base) => c.is_digit(radix(base)),
    }
}
