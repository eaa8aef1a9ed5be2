ghost use Rattle.std.specs.Prelude.{◌≡◌, ◌↔◌, ◌<◌, length, IsTrue};
ghost use Rattle.mm_graph.specs.Graphs.{PoIn, UndrainedIn, ComIn, OrdIn};

use crate::event_graph::Graph;
use crate::site::Site;

impl Graph {
    /// The sites, by their numbers.
    pub fn sites(&self) -> &[Site]
        ensures { result.now ≡ self.now.sites }
    {
        self.sites.items()
    }

    /// Program order: a path of control leads from site `a` to site `b`. Both are numbers of sites, here and below.
    pub fn po(&self, a: u32, b: u32) -> bool
        requires a { a < length self.now.sites }
        requires b { b < length self.now.sites }
        ensures { IsTrue result ↔ PoIn self.now a b }
    {
        self.po.get(a, b)
    }

    /// A path of control leads from `a` to `b` on which a store may stay pending.
    pub fn undrained(&self, a: u32, b: u32) -> bool
        requires a { a < length self.now.sites }
        requires b { b < length self.now.sites }
        ensures { IsTrue result ↔ UndrainedIn self.now a b }
    {
        self.undrained.get(a, b)
    }

    /// Two threads may access one cell, one of them to write it, and `b` may follow `a`.
    pub fn com(&self, a: u32, b: u32) -> bool
        requires a { a < length self.now.sites }
        requires b { b < length self.now.sites }
        ensures { IsTrue result ↔ ComIn self.now a b }
    {
        self.com.get(a, b)
    }

    /// Order by a mutex, by a thread's start, or by the wait for its end.
    pub fn ord(&self, a: u32, b: u32) -> bool
        requires a { a < length self.now.sites }
        requires b { b < length self.now.sites }
        ensures { IsTrue result ↔ OrdIn self.now a b }
    {
        self.ord.get(a, b)
    }
}
