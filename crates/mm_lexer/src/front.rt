//! The first characters of a text.
ghost use Rattle.std.specs.Prelude.{◌≡◌, ◌<◌, ◌≤◌, ◌+◌, [], ◌∷◌, length, drop, slice_index, nat_eq, MatchOption};
ghost use Rattle.std.specs.Char.{len_utf8};
ghost use Rattle.std.specs.Str.{chars};
ghost use Rattle.std.specs.List.{prefix_len, starts_with};
ghost use Rattle.mm_goto.specs.Names.{is_name};
ghost use Rattle.mm_lexer.specs.Class.{is_in};

use crate::class::{Class, is_in, is_name_char, is_name_start};

/// The first character and what stands behind it.
pub fn split(text: &str) -> Option<(char, &str)>
    ensures cases { MatchOption result (chars text.now ≡ []) (λ r. chars text.now ≡ r.0 ∷ chars r.1.now) }
    ensures shorter { MatchOption result (length text.now ≡ 0) (λ r. length text.now ≡ len_utf8 r.0 + length r.1.now) }
{
    let mut characters = text.chars();
    match characters.next() {
        Some(c) => Some((c, characters.as_str())),
        None => None,
    }
}

/// The first character, or 0 where there is none.
pub fn first(text: &str) -> char
    ensures { result ≡ slice_index (chars text.now) 0 }
{
    match split(text) {
        Some((c, _)) => c,
        None => '\0',
    }
}

/// The text behind its first characters.
pub fn skip(text: &str, count: usize) -> &str
    ensures { chars result.now ≡ drop count (chars text.now) }
{
    let mut rest = text;
    let mut left = count;
    while let Some((_, behind)) = split(rest) {
        if left == 0 {
            return rest;
        }
        rest = behind;
        left -= 1;
    }
    rest
}

/// How many characters in front of the text are of the class.
pub fn run(class: Class, text: &str) -> usize
    ensures len { result ≡ prefix_len (is_in class) (chars text.now) }
    ensures within { result ≤ length text.now }
{
    text.chars().take_while(|c| is_in(class, *c)).count()
}

/// Whether the text begins with the characters of a word.
pub fn begins_with(text: &str, word: &[u8]) -> bool
    ensures { result ≡ starts_with nat_eq (chars text.now) word.entry.now }
{
    let mut rest = text;
    let mut word = word;
    while let [byte, bytes @ ..] = word {
        match split(rest) {
            Some((c, behind)) if c as u32 == *byte as u32 => rest = behind,
            _ => return false,
        }
        word = bytes;
    }
    true
}

/// Whether the text has the form of a name: `_` or a character that may start an identifier, and behind it `_` or
/// characters that may continue one, by Unicode's UAX 31.
pub fn is_name(text: &str) -> bool
    ensures { result ≡ is_name (chars text.now) }
{
    let Some((start, behind)) = split(text) else {
        return false;
    };
    if !is_name_start(start) {
        return false;
    }
    let mut rest = behind;
    while let Some((c, others)) = split(rest) {
        if !is_name_char(c) {
            return false;
        }
        rest = others;
    }
    true
}
