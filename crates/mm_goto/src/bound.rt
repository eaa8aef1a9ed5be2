ghost use Rattle.std.specs.Prelude.{◌≡◌, ◌≤◌, ◌↔◌, IsSome, IfSome};
ghost use Rattle.mm_goto.specs.Bounds.{uniform, bound_of, greatest};

use std::marker::Model;

/// How many stores of a thread may be pending: in all under TSO, for each cell under PSO. It is 1 to 8.
#[derive(Clone, Copy, Debug, PartialEq, Eq)]
pub struct Bound {
    number: u32,
}

impl Model for Bound {
    ghost use Rattle.std.specs.Prelude.{◌≤◌};
    ghost use Rattle.mm_goto.specs.Bounds.{Bounding};

    ghost Value = { Bounding };

    ghost view = { λ bound. bound.number };

    ghost invariant = { λ bound. (1 ≤ bound.number) × (bound.number ≤ 8) };

    ghost inverse = { λ n. record { number = n } };
}

impl Bound {
    /// The bound of this number, where it is 1 to 8.
    pub fn new(n: u32) -> Option<Bound>
        ensures within { IsSome result ↔ ((1 ≤ n) × (n ≤ 8)) }
        ensures number { IfSome result (λ bound. bound ≡ uniform n) }
    {
        if 1 <= n && n <= 8 {
            Some(Bound { number: n })
        } else {
            None
        }
    }

    /// The greatest number that holds for a thread.
    pub fn get(self) -> u32
        ensures number { result ≡ greatest self }
        ensures at_least { 1 ≤ result }
        ensures at_most { result ≤ 8 }
    {
        self.number
    }

    /// The number that holds for the thread `t`, which is `get` for every thread.
    pub fn of(self, t: u32) -> u32
        ensures number { result ≡ bound_of self t }
        ensures at_least { 1 ≤ result }
        ensures at_most { result ≤ 8 }
    {
        self.number
    }
}
