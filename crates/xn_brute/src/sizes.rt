// Whether a leaf is small enough for the sum of its rows to fit.
ghost use Rattle.std.specs.Prelude.{◌<◌, ◌↔◌, All, IsTrue};
ghost use Rattle.xn_brute.specs.Leaf.{AreEdges, IsSmall, IsSmallRow};

use crate::leaves::Leaf;
use crate::orders::are_short;
use xn_graph::Graph;
use xn_kinds::Row;

/// Whether a leaf has at most 1,000 parts, each with a row of at most 1,000 edges of the graph and lists as short.
pub fn is_small(leaf: &Leaf) -> bool
    ensures { IsTrue result ↔ IsSmall leaf.now }
{
    leaf.parts.len() <= 1000
        && are_rows(leaf.parts, leaf.rows.len())
        && are_small_rows(leaf.graph, leaf.rows)
}

// Whether each part has one of so many rows.
fn are_rows(parts: &[(u32, u64)], rows: usize) -> bool
    ensures { IsTrue result ↔ All (λ p. p.0 < rows) parts.now }
{
    for (number, _) in parts {
        if *number as usize >= rows {
            return false;
        }
    }
    true
}

// Whether each row is small.
fn are_small_rows(graph: &Graph, rows: &[Row]) -> bool
    ensures { IsTrue result ↔ All (IsSmallRow graph.now) rows.now }
{
    for row in rows {
        if !is_small_row(graph, row) {
            return false;
        }
    }
    true
}

// Whether a row has at most 1,000 edges of the graph, and lists as short.
fn is_small_row(graph: &Graph, row: &Row) -> bool
    ensures { IsTrue result ↔ IsSmallRow graph.now row.now }
{
    let edges = row.edges.as_slice();
    edges.len() <= 1000 && are_edges(graph, edges) && are_short(&row.orders)
}

// Whether these are edges of the graph.
fn are_edges(graph: &Graph, edges: &[u32]) -> bool
    ensures { IsTrue result ↔ AreEdges graph.now edges.now }
{
    for e in edges {
        if *e >= graph.edges() {
            return false;
        }
    }
    true
}
