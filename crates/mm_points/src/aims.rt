ghost use Rattle.std.specs.Prelude.{◌≡◌, ℕ, ◌+◌, ◌<◌, ◌^◌, ◌++◌, ◌∷◌, [], IfOk, OnOk};
ghost use Rattle.mm_goto.specs.PointsTo.{aims_of, element_row};

use mm_goto::{NoMemory, Pure, Row};

/// The number that the expression is, if it is one.
pub fn constant_of(e: &Pure) -> Option<i32>
    ensures { result ≡ (aims_of e.now).constant }
{
    match e {
        Pure::Const(k) => Some(*k),
        _ => None,
    }
}

/// The cells of an array's element.
pub fn element_row(first: u32, len: u32, index: Option<i32>) -> Row
    requires { first + len < 2 ^ 32 }
    ensures { result ≡ element_row first len index }
{
    match index {
        Some(k) if 0 <= k && (k as u32) < len => Row {
            first: first + k as u32,
            len: 1,
        },
        _ => Row { first, len },
    }
}

/// Writes the rows whose addresses stand in the expression.
pub fn put_rows(e: &Pure, out: &mut Vec<Row>) -> Result<(), NoMemory>
    ensures { OnOk result (out.new.items ≡ out.old.items ++ (aims_of e.now).rows) }
{
    match e {
        Pure::Const(_) => {}
        Pure::Local(_) => {}
        Pure::Addr(c) => out.push(Row { first: *c, len: 1 })?,
        Pure::AddrElem { first, len, index } => {
            if *len > u32::MAX - *first {
                return Err(NoMemory);
            }
            out.push(element_row(*first, *len, constant_of(index.get())))?;
            put_rows(index.get(), out)?;
        }
        Pure::Un(_, x) => put_rows(x.get(), out)?,
        Pure::Bin(_, x, y) => {
            put_rows(x.get(), out)?;
            put_rows(y.get(), out)?;
        }
        Pure::Cond(x, y, z) => {
            put_rows(x.get(), out)?;
            put_rows(y.get(), out)?;
            put_rows(z.get(), out)?;
        }
    }
    Ok(())
}

/// Writes the locals that stand in the expression.
pub fn put_locals(e: &Pure, out: &mut Vec<u32>) -> Result<(), NoMemory>
    ensures { OnOk result (out.new.items ≡ out.old.items ++ (aims_of e.now).locals) }
{
    match e {
        Pure::Const(_) => {}
        Pure::Local(l) => out.push(*l)?,
        Pure::Addr(_) => {}
        Pure::AddrElem { index, .. } => put_locals(index.get(), out)?,
        Pure::Un(_, x) => put_locals(x.get(), out)?,
        Pure::Bin(_, x, y) => {
            put_locals(x.get(), out)?;
            put_locals(y.get(), out)?;
        }
        Pure::Cond(x, y, z) => {
            put_locals(x.get(), out)?;
            put_locals(y.get(), out)?;
            put_locals(z.get(), out)?;
        }
    }
    Ok(())
}
