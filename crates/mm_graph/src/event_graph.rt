ghost use Rattle.std.specs.Prelude.{◌≡◌, length};
ghost use Rattle.mm_bits.specs.Table.{AreTurned};
ghost use Rattle.mm_graph.specs.reading.Turned.{linked_prop};

use crate::site::Site;
use mm_bits::Bits;
use mm_goto::List;

/// The sites of a program in order of thread and place, and for each two of them, by their numbers, what leads from one to the
/// other. `edges` has what any of program order, communication and order has, and `back` the same from right to left.
#[derive(Drop)]
pub struct Graph {
    pub sites: List<Site>,
    pub po: Bits,
    pub undrained: Bits,
    pub com: Bits,
    pub ord: Bits,
    pub edges: Bits,
    pub back: Bits,
    ghost po_size: { po.side ≡ length sites },
    ghost undrained_size: { undrained.side ≡ length sites },
    ghost com_size: { com.side ≡ length sites },
    ghost ord_size: { ord.side ≡ length sites },
    ghost edges_size: { edges.side ≡ length sites },
    ghost back_size: { back.side ≡ length sites },
    ghost turned: { AreTurned edges.rows.items back.rows.items } by { Prim.hlevel linked_prop },
}
