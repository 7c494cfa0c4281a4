// How many lists and turns there are.
ghost use Rattle.std.specs.Prelude.{◌+◌, ◌*◌, ◌≡◌, ◌↔◌, length, IsTrue};
ghost use Rattle.xn_model.specs.Lists.{total};
ghost use Rattle.xn_draw.specs.Flaws.{HasLengths};

use xn_graph::Graph;
use xn_kinds::Orders;

/// Whether there is one list for each edge, and two turns for each segment.
pub fn has_lengths(graph: &Graph, orders: &Orders, next: &[u32]) -> bool
    ensures { IsTrue result ↔ HasLengths graph.now orders.now next.now }
{
    orders.len() == graph.edges() as usize && is_turns(orders, next.len())
}

// Whether there are two turns for each segment: they are taken away, list by list.
fn is_turns(orders: &Orders, turns: usize) -> bool
    ensures { IsTrue result ↔ (turns ≡ 2 * (length orders.now + total length orders.now)) }
{
    let mut left = turns;
    for i in 0..orders.len() {
        let entries = orders.at(i).len();
        if left / 2 <= entries {
            return false;
        }
        left -= 2 * (entries + 1);
    }
    left == 0
}
