ghost use Rattle.std.specs.Prelude.{◌≡◌, ◌↔◌, ℕ, ◌<◌, ◌^◌, Some, slice_get, length, IsTrue};
ghost use Rattle.mm_goto.specs.declared.program.Instr.TheVariants as instr;
ghost use Rattle.mm_goto.specs.Valid.{is_start, is_join};
ghost use Rattle.mm_graph.specs.reading.Accesses.{IsLast, IsFirst, StartsAt, JoinsAt};

use mm_goto::Instr;

/// The last place at which the thread is started.
pub fn last_start(code: &[Instr], u: u32) -> Option<u32>
    requires { length code.now < 2 ^ 32 }
    ensures { IsLast (StartsAt code.now u) (length code.now) result }
{
    let mut last = None;
    'code: for k in 0..code.len() as u32 {
        if is_start(&code[k as usize], u) {
            last = Some(k);
        }
    }
    last
}

fn is_start(it: &Instr, u: u32) -> bool
    ensures { result ≡ is_start u it.now }
{
    match it {
        Instr::Start(v) => *v == u,
        _ => false,
    }
}

/// The first place at which the thread is waited for.
pub fn first_join(code: &[Instr], u: u32) -> Option<u32>
    requires { length code.now < 2 ^ 32 }
    ensures { IsFirst (JoinsAt code.now u) (length code.now) result }
{
    'code: for k in 0..code.len() as u32 {
        if is_join(&code[k as usize], u) {
            return Some(k);
        }
    }
    None
}

fn is_join(it: &Instr, u: u32) -> bool
    ensures { result ≡ is_join u it.now }
{
    match it {
        Instr::Join(v) => *v == u,
        _ => false,
    }
}
