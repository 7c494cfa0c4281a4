// Nodes without darts.
ghost use Rattle.std.specs.Prelude.{◌≡◌, ◌^◌, ◌≤◌, count_by};
ghost use Rattle.std.specs.List.{range_with_len};
ghost use Rattle.xn_model.specs.Map.{is_lone};
ghost use Rattle.xn_model.specs.Permutation.{count_below};

use crate::anchored::Anchored;

/// The number of nodes without darts. It takes no memory.
pub fn lone_count(web: &Anchored) -> u64
    ensures lone { result ≡ count_below web.now.nodes (is_lone web.now.ends) }
    ensures few { result ≤ 2 ^ 30 }
{
    lone_among(web) as u64
}

// The number of nodes without darts, along the list of the nodes.
fn lone_among(web: &Anchored) -> usize
    ensures lone { result ≡ count_by (is_lone web.now.ends) (range_with_len 0 web.now.nodes) }
    ensures few { result ≤ 2 ^ 30 }
{
    (0..web.nodes()).filter(|v| is_lone(web, *v)).count()
}

// Whether a node has no darts.
fn is_lone(web: &Anchored, v: u32) -> bool
    ensures { result ≡ is_lone web.now.ends v }
{
    web.dart_of(v).is_none()
}
