//! The numbers of labels, assertions, mutexes and threads.
ghost use Rattle.std.specs.Prelude.{◌≡◌, ◌+◌, drop, if◌then◌else◌, Some, IfOk};
ghost use Rattle.std.specs.Str.{bytes_eq};
ghost use Rattle.std.specs.List.{fold};
ghost use Rattle.mm_flow.specs.Scopes.{index_of, thread_in};
ghost use Rattle.mm_flow.specs.Statements.{assert_number, digit_step, or_0, stated};
ghost use Rattle.mm_flow.specs.reading.Emission.{label_of};

use mm_flow::context::Context;
use mm_flow::names::Started;
use mm_flow::tables::Tables;
use mm_goto::{Ident, NoMemory};
use mm_tree::{Side, Word};

/// The label of a name, and none where the body's text has no such label: such a name is refused before.
pub fn label_of(context: &Context<'_>, x: &Ident) -> Result<Option<u32>, NoMemory>
    ensures { IfOk result (λ l. l ≡ label_of context.now.labels context.now.exits x.now) }
{
    let Some(i) = context.labels.place_of(x) else {
        return Ok(None);
    };
    let Ok(i) = u32::try_from(i) else {
        return Err(NoMemory);
    };
    match context.exits.base.checked_add(i) {
        Some(label) => Ok(Some(label)),
        None => Err(NoMemory),
    }
}

/// The number behind `assertion ` in a text.
fn stated(text: &Option<Ident>) -> Result<u32, NoMemory>
    ensures { IfOk result (λ n. n ≡ stated text.now) }
{
    match text {
        Some(text) => number_in(text),
        None => Ok(0),
    }
}

fn number_in(text: &Ident) -> Result<u32, NoMemory>
    ensures { IfOk result (λ n. n ≡ fold digit_step 0 (drop 10 text.now)) }
{
    let bytes = text.text().as_bytes();
    if bytes.len() < 10 {
        return Ok(0);
    }
    digits(&bytes[10..])
}

fn digits(bytes: &[u8]) -> Result<u32, NoMemory>
    ensures { IfOk result (λ n. n ≡ fold digit_step 0 bytes.now) }
{
    let mut number: u32 = 0;
    for byte in bytes {
        number = digit(number, *byte)?;
    }
    Ok(number)
}

fn digit(number: u32, byte: u8) -> Result<u32, NoMemory>
    ensures { IfOk result (λ n. n ≡ digit_step number byte) }
{
    let (Some(tens), Some(units)) = (number.checked_mul(10), byte.checked_sub(48)) else {
        return Err(NoMemory);
    };
    match tens.checked_add(u32::from(units)) {
        Some(number) => Ok(number),
        None => Err(NoMemory),
    }
}

/// The number of an assertion, before which so many stand in the text.
pub fn assert_number(side: Side, before: u32, text: &Option<Ident>) -> Result<u32, NoMemory>
    ensures { IfOk result (λ n. n ≡ assert_number side before text.now) }
{
    match side {
        Side::Source => before.checked_add(1).ok_or(NoMemory),
        Side::Output => stated(text),
    }
}

/// The number of a mutex, and 0 where there is no such mutex: such a name is refused before.
pub fn mutex(parts: &Tables<'_>, x: &Word) -> Result<u32, NoMemory>
    ensures { IfOk result (λ m. m ≡ or_0 (index_of parts.now.mutexes x.now.name)) }
{
    match parts.mutex(&x.name) {
        Some(m) => match u32::try_from(m) {
            Ok(m) => Ok(m),
            Err(_) => Err(NoMemory),
        },
        None => Ok(0),
    }
}

/// The number of the thread that was started last with the variable, among the first creates, and 0 where there is none: such a
/// join is refused before. There are at most 15 creates: that more than 16 threads are started is refused before.
pub fn thread_in(starts: &[Started], count: u32, x: &Ident) -> Result<u32, NoMemory>
    ensures { IfOk result (λ u. u ≡ or_0 (thread_in starts.now count x.now)) }
{
    let mut found: Option<u32> = None;
    let mut number: u32 = 1;
    for start in starts {
        if number > count {
            break;
        }
        found = latest(found, &start.variable, x, number);
        match number.checked_add(1) {
            Some(next) => number = next,
            None => return Err(NoMemory),
        }
    }
    match found {
        Some(u) => Ok(u),
        None => Ok(0),
    }
}

fn latest(found: Option<u32>, variable: &Ident, x: &Ident, number: u32) -> Option<u32>
    ensures { result ≡ (if bytes_eq variable.now x.now then Some number else found) }
{
    if variable.text() == x.text() {
        Some(number)
    } else {
        found
    }
}
