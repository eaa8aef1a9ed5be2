ghost use Rattle.std.specs.Prelude.{◌≡◌};
ghost use Rattle.mm_flow.specs.reading.Assembling.{inside};

use crate::assembler::Exits;
use crate::tables::{Functions, Labels, Tables};
use std::marker::Model;

/// What code stands in.
#[derive(Drop)]
pub struct Context<'a> {
    pub parts: &'a Tables<'a>,
    pub items: &'a Functions<'a>,
    /// The labels of the body's text.
    pub labels: &'a Labels<'a>,
    pub exits: Exits,
    /// The local for what the function returns.
    pub ret: Option<u32>,
    /// How deep calls may still nest.
    pub calls: u32,
    /// How many instructions there may be.
    pub limit: usize,
}

impl<'a> Model for Context<'a> {
    ghost use Rattle.mm_flow.specs.reading.Assembling as assembling;
    ghost use Rattle.mm_tree.specs.contracts.expr.Expr as expr;
    ghost use Rattle.mm_tree.specs.contracts.stmt.Stmt as stmt;
    ghost use Rattle.std.specs.Coded.{codes};

    ghost Value = { assembling.Context };

    ghost coded = { Prim.hlevel (codes, expr.the_row.coded, stmt.the_row.coded) };

    ghost view = { λ x. record { parts = x.parts.now; items = x.items.now; labels = x.labels.now; exits = x.exits; ret = x.ret; calls = x.calls; limit = x.limit } };
}

impl<'a> Context<'a> {
    /// What stands in a loop, with the labels behind it and at its next turn.
    pub fn inside(&self, behind: u32, next: u32) -> Context<'a>
        ensures { result ≡ inside self.now behind next }
    {
        Context {
            parts: self.parts,
            items: self.items,
            labels: self.labels,
            exits: Exits {
                behind,
                next,
                home: self.exits.home,
                base: self.exits.base,
            },
            ret: self.ret,
            calls: self.calls,
            limit: self.limit,
        }
    }
}
