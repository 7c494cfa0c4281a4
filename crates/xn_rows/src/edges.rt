// The edges of a row: whether they rise in range.
ghost use Rattle.std.specs.Prelude.{◌<◌, ◌↔◌, length, IsTrue, MatchOption};
ghost use Rattle.xn_orders.specs.Entries.{IsFirstOf, NoneOf};
ghost use Rattle.xn_rows.specs.Holding.{IsWrongEdge};

/// The first listed edge that isn't below the count or isn't above the one before it.
pub fn wrong_edge(count: u32, edges: &[u32]) -> Option<u32>
    ensures { let Wrong = IsWrongEdge count edges.now in
        MatchOption result (NoneOf edges.now Wrong) (IsFirstOf edges.now Wrong) }
{
    for (i, e) in edges.iter().enumerate() {
        if is_wrong_edge(count, edges, i) {
            return Some(*e);
        }
    }
    None
}

// Whether the edge at a place isn't below the count or isn't above the one before it.
fn is_wrong_edge(count: u32, edges: &[u32], i: usize) -> bool
    requires { i < length edges.now }
    ensures { IsTrue result ↔ IsWrongEdge count edges.now i }
{
    edges[i] >= count || (i > 0 && edges[i - 1] >= edges[i])
}
