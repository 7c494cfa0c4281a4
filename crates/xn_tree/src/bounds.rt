ghost use Rattle.std.specs.Prelude.{◌≡◌, ◌<◌, ◌≤◌, ◌^◌, All, length};
ghost use Rattle.xn_kinds.specs.Bound.{IsBound, PartsFit, row_at};
ghost use Rattle.xn_tree.specs.Given.{state_of};
ghost use Rattle.xn_tree.specs.Leaf.{IsRowOf};

use crate::crossings::crosses_least;
use crate::leaves::Leaf;
use crate::states::Given;
use crate::turns::turns_least;
use xn_graph::Graph;
use xn_kinds::Row;

/// The bound of a leaf: the least of d * (sum of all x) - (sum over the parts of m * (value - 1)) over the box of the state.
///
/// A part is the number of a row and its multiplier m. A pair that isn't decided, and the order of two edges that aren't both
/// placed, takes whichever of 0 and 1 gives less. It takes no memory. The time is that of the pairs of the graph times the
/// parts, and for each two neighbours in the lists of the rows that of the parts before it.
pub fn bound(graph: &Graph, given: &Given, rows: &[Row], parts: &[(u32, u64)], d: u64) -> i128
    requires graph { given.now.graph ≡ graph.now }
    requires d { (1 ≤ d) × (d < 2 ^ 63) }
    requires few { length parts.now ≤ 2 ^ 20 }
    requires parts { PartsFit (length rows.now) parts.now }
    requires rows { All (λ p. IsRowOf graph.now (row_at rows.now p.0)) parts.now }
    ensures { IsBound graph.now rows.now (state_of given.now) d parts.now result }
{
    prove!(graph.edges() <= 1_000);
    let leaf = Leaf {
        graph,
        given,
        rows,
        parts,
        d,
    };
    crosses_least(&leaf) + turns_least(&leaf)
}
