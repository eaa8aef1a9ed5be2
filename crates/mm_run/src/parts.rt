ghost use Rattle.std.specs.Prelude.{◌≡◌, ◌≤◌, length, MatchOption, MatchResult, IsUtf8};
ghost use Rattle.std.specs.Str.{chars};
ghost use Rattle.mm_goto.specs.Place.{place_after};
ghost use Rattle.mm_run.specs.Parts.{IsNotUtf8, IsSplit, LacksPart};

use crate::input::MAX_INPUT;
use mm_goto::At;
use mm_lexer::end_of;

// The place behind bytes that are a text.
fn place_behind(front: &[u8]) -> At
    requires text { IsUtf8 front.now }
    requires length { length front.now ≤ MAX_INPUT }
    ensures { result ≡ place_after (chars front.now) }
{
    match str::from_utf8(front) {
        Ok(text) => end_of(text),
        Err(_) => unreachable!(),
    }
}

/// The input as a text, or the place of its first byte that begins no character.
pub fn text_of(input: &[u8]) -> Result<&str, At>
    requires { length input.now ≤ MAX_INPUT }
    ensures { MatchResult result (λ text. (text.now ≡ input.now) × IsUtf8 input.now) (IsNotUtf8 input.now) }
{
    match str::from_utf8(input) {
        Ok(text) => Ok(text),
        Err(fault) => Err(place_behind(&input[..fault.valid_up_to()])),
    }
}

/// The program and the schedule, which the first line `%%` parts.
pub fn split(text: &str) -> Option<(&str, &str)>
    ensures { MatchOption result (LacksPart text.now) (λ parts. IsSplit text.now parts.0.now parts.1.now) }
{
    if let Some(schedule) = text.strip_prefix("%%\n") {
        return Some(("", schedule));
    }
    match text.split_once("\n%%\n") {
        Some((program, schedule)) => Some((&text[..program.len() + 1], schedule)),
        None => None,
    }
}
