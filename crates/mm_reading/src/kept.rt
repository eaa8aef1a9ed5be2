ghost use Rattle.mm_reading.specs.Keeping.{Keeps, Pairs};

use crate::refused::Refused;

// Where nothing is read next, what was read before is dropped here, and not in each reader.

/// What was read before, beside what is read next.
pub fn keep<V: Drop, R: Drop>(before: V, next: Result<R, Refused>) -> Result<(V, R), Refused>
    ensures { Keeps before next result }
{
    match next {
        Ok(next) => Ok((before, next)),
        Err(refused) => Err(refused),
    }
}

/// What was read before, beside the value that is read next, and the tokens behind that.
pub fn pair<'a, V: Drop, R: Drop, T>(
    before: V,
    next: Result<(R, &'a [T]), Refused>,
) -> Result<((V, R), &'a [T]), Refused>
    ensures { Pairs before next.entry result }
{
    match next {
        Ok((value, rest)) => Ok(((before, value), rest)),
        Err(refused) => Err(refused),
    }
}
