ghost use Rattle.std.specs.Prelude.{◌≡◌, ◌≤◌, length};
ghost use Rattle.mm_goto.specs.Value.{value_of, unary_value, binary_value, truth, address};
ghost use Rattle.mm_goto.specs.Locals.{local_bound};

use crate::pure::{Binary, Pure, Unary};

fn truth(test: bool) -> i32
    ensures { result ≡ truth test }
{
    if test { 1 } else { 0 }
}

fn unary_value(op: Unary, x: i32) -> i32
    ensures { result ≡ unary_value op x }
{
    match op {
        Unary::Neg => x.wrapping_neg(),
        Unary::Plus => x,
        Unary::Not => truth(x == 0),
        Unary::Flip => !x,
    }
}

fn binary_value(op: Binary, x: i32, y: i32) -> i32
    ensures { result ≡ binary_value op x y }
{
    match op {
        Binary::Add => x.wrapping_add(y),
        Binary::Sub => x.wrapping_sub(y),
        Binary::Mul => x.wrapping_mul(y),
        Binary::Div => { if y == 0 { 0 } else { x.wrapping_div(y) } }
        Binary::Rem => { if y == 0 { 0 } else { x.wrapping_rem(y) } }
        Binary::Shl => x.wrapping_shl(y.cast_unsigned()),
        Binary::Shr => x.wrapping_shr(y.cast_unsigned()),
        Binary::Lt => truth(x < y),
        Binary::Le => truth(x <= y),
        Binary::Gt => truth(x > y),
        Binary::Ge => truth(x >= y),
        Binary::Eq => truth(x == y),
        Binary::Ne => truth(x != y),
        Binary::And => x & y,
        Binary::Xor => x ^ y,
        Binary::Or => x | y,
        Binary::Land => truth(x != 0 && y != 0),
        Binary::Lor => truth(x != 0 || y != 0),
    }
}

fn address(cell: u32) -> i32
    ensures { result ≡ address cell }
{
    cell.wrapping_add(1).cast_signed()
}

/// The value of an expression where the locals have these values. A division by zero gives 0.
#[tactic(auto, unfolding(crate::specs::Value::value_of))]
pub fn eval(e: &Pure, locals: &[i32]) -> i32
    requires { local_bound e.now ≤ length locals.now }
    ensures { result ≡ value_of e.now locals.now }
{
    match e {
        Pure::Const(c) => *c,
        Pure::Local(l) => locals[*l as usize],
        Pure::Addr(c) => address(*c),
        Pure::AddrElem {
            first,
            len: _,
            index,
        } => address(*first).wrapping_add(eval(index.get(), locals)),
        Pure::Un(op, x) => unary_value(*op, eval(x.get(), locals)),
        Pure::Bin(op, x, y) => binary_value(*op, eval(x.get(), locals), eval(y.get(), locals)),
        Pure::Cond(c, x, y) => {
            if eval(c.get(), locals) == 0 {
                eval(y.get(), locals)
            } else {
                eval(x.get(), locals)
            }
        }
    }
}
