//! Lists with commas.
ghost use Rattle.std.specs.Prelude.{◌≡◌, ◌∷◌, MatchOption};
ghost use Rattle.mm_reading.specs.Gives.{Gives};
ghost use Rattle.mm_reading.specs.Parsing.{Parsed, Fault, after, pure};
ghost use Rattle.mm_grammar.specs.reading.StatementReading as spec;

use mm_goto::List;
use mm_parse_expr::{Symbol, Terminal};
use mm_reading::Refused;
use std::alloc::Global;

/// What stands between the commas of a list.
pub trait Part {
    ghost use Rattle.std.specs.Prelude.{ℕ};
    ghost use Rattle.mm_parse_expr.specs.reading.ExprReading.{Reader};

    type Value: Drop;

    ghost item: { ℕ → Reader Self.Value };

    /// One of them. It wants memory where `depth` is 0, and `bound` is above the number of tokens.
    fn read<'a>(
        alloc: Global,
        bound: usize,
        depth: u32,
        ts: &'a [Terminal<'a>],
    ) -> Result<(Self::Value, &'a [Terminal<'a>]), Refused>
        ensures { Gives result (item bound ts.now) };
}

/// What stands behind a comma, where one stands next.
#[tactic(auto, unfolding(mm_grammar::specs::reading::StatementReading::comma, mm_reading::specs::Parsing::token, mm_reading::specs::Parsing::peek, mm_reading::specs::Parsing::skip, mm_reading::specs::Parsing::pure, mm_reading::specs::Parsing::fail))]
fn behind_comma<'a>(ts: &'a [Terminal<'a>]) -> Option<&'a [Terminal<'a>]>
    ensures { MatchOption result (spec.comma ts.now ≡ Fault ts.now) (λ rest. spec.comma ts.now ≡ Parsed tt rest.now) }
{
    match ts {
        [
            Terminal {
                symbol: Symbol::Comma,
                ..
            },
            rest @ ..,
        ] => Some(rest),
        _ => None,
    }
}

/// The same tokens. A loop that reads goes on with these: what a reader gives back may live shorter than what it read,
/// and this lives as long.
pub fn onwards<'a>(ts: &'a [Terminal<'a>]) -> &'a [Terminal<'a>]
    ensures { result.now ≡ ts.now }
{
    ts
}

/// The first of a list, which was read, and those behind it.
pub fn read_others<'a, P: Part>(
    alloc: Global,
    bound: usize,
    depth: u32,
    first: P::Value,
    ts: &'a [Terminal<'a>],
) -> Result<(List<P::Value>, &'a [Terminal<'a>]), Refused>
    ensures { Gives result (after (spec.others P.item bound ts.now) (λ xs. pure (first ∷ xs))) }
{
    let mut parts = Vec::new(alloc);
    parts.push(first)?;
    let mut left = bound;
    let mut rest = ts;
    while let Some(behind) = behind_comma(rest) {
        if left == 0 {
            return Ok((List::new(parts), rest));
        }
        left -= 1;
        let (part, others) = P::read(alloc, left, depth, behind)?;
        parts.push(part)?;
        rest = onwards(others);
    }
    parts.shrink_to_fit();
    Ok((List::new(parts), rest))
}

/// A list of one or more.
#[tactic(auto, unfolding(mm_grammar::specs::reading::StatementReading::list))]
pub fn read_list<'a, P: Part>(
    alloc: Global,
    bound: usize,
    depth: u32,
    ts: &'a [Terminal<'a>],
) -> Result<(List<P::Value>, &'a [Terminal<'a>]), Refused>
    ensures { Gives result (spec.list P.item bound ts.now) }
{
    let (first, rest) = P::read(alloc, bound, depth, ts)?;
    read_others::<P>(alloc, bound, depth, first, rest)
}
