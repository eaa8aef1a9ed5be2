//! What is written behind a text.
ghost use Rattle.std.specs.Prelude.{◌≡◌, ◌++◌, OnOk, string_bytes};
ghost use Rattle.std.specs.Fmt.{decimal, signed_decimal};

use crate::ident::NoMemory;
use std::alloc::Global;

/// Writes a text.
pub fn put(out: &mut String, text: &str) -> Result<(), NoMemory>
    ensures { OnOk result (string_bytes out.new ≡ string_bytes out.old ++ text.now) }
{
    out.push_str(text)?;
    Ok(())
}

/// Writes a number in decimal, without a sign.
pub fn put_number(alloc: Global, out: &mut String, n: u64) -> Result<(), NoMemory>
    ensures { OnOk result (string_bytes out.new ≡ string_bytes out.old ++ decimal n) }
{
    let text = n.to_string(alloc)?;
    put(out, &text)
}

/// Writes an int in decimal, with a `-` before one below 0.
pub fn put_int(alloc: Global, out: &mut String, n: i32) -> Result<(), NoMemory>
    ensures { OnOk result (string_bytes out.new ≡ string_bytes out.old ++ signed_decimal n) }
{
    let text = n.to_string(alloc)?;
    put(out, &text)
}
