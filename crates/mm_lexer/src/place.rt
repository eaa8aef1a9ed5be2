ghost use Rattle.std.specs.Prelude.{◌≡◌, ◌+◌, ◌≤◌, length, take, drop};
ghost use Rattle.std.specs.Char.{len_utf8};
ghost use Rattle.std.specs.Str.{chars};
ghost use Rattle.mm_lexer.specs.Place.{start, past, past_all, end_of, HasRoom};

use crate::class::is_blank;
use crate::front::split;
use mm_goto::At;

/// How far a text has been read.
#[derive(Clone, Copy, Debug, PartialEq, Eq)]
pub struct Place {
    /// How many bytes stand before it.
    pub offset: u32,
    pub at: At,
    /// Whether its line has had only blanks and tabs so far.
    pub is_head: bool,
}

/// Where a text begins.
pub fn start() -> Place
    ensures { result ≡ start }
{
    Place {
        offset: 0,
        at: At::start(),
        is_head: true,
    }
}

/// The place behind a character.
#[tactic(auto, unfolding(crate::specs::Place::past))]
fn past(place: Place, c: char) -> Place
    requires { HasRoom place (len_utf8 c) }
    ensures place { result ≡ past place c }
    ensures offset { result.offset ≡ place.offset + len_utf8 c }
    ensures line { result.at.line ≤ result.offset + 1 }
    ensures column { result.at.column ≤ result.offset + 1 }
{
    Place {
        offset: place.offset + c.len_utf8() as u32,
        at: place.at.past(c),
        is_head: c == '\n' || (place.is_head && is_blank(c)),
    }
}

/// The place behind the next characters of a text, and the text behind them.
pub fn after(place: Place, text: &str, count: usize) -> (Place, &str)
    requires { HasRoom place (length text.now) }
    ensures place { result.0 ≡ past_all place (take count (chars text.now)) }
    ensures rest { chars result.1.now ≡ drop count (chars text.now) }
    ensures room { HasRoom result.0 (length result.1.now) }
{
    let mut place = place;
    let mut rest = text;
    let mut left = count;
    while let Some((c, behind)) = split(rest) {
        if left == 0 {
            return (place, rest);
        }
        place = past(place, c);
        rest = behind;
        left -= 1;
    }
    (place, rest)
}

/// One behind the last character of a text.
pub fn end_of(text: &str) -> At
    requires { length text.now ≤ 16777216 }
    ensures { result ≡ end_of text.now }
{
    let (end, _) = after(start(), text, text.len());
    end.at
}
