// The edge blocks of a graph.
ghost use Rattle.std.specs.Prelude.{◌≡◌, ◌+◌, ◌^◌, ◌<◌, ◌≤◌, All, IfOk, length};
ghost use Rattle.indexmap.specs.IndexMap.{index_map_len, values};
ghost use Rattle.xn_graph.specs.Limits.{HasNodes, IsEdge};
ghost use Rattle.xn_gml.specs.declared.token.Key.TheVariants.{Edge};
ghost use Rattle.xn_gml.specs.EdgeView.{edges_kept};
ghost use Rattle.xn_gml.specs.Lists.{lists_of};
ghost use Rattle.xn_gml.specs.Meaning.{known, number_of, nodes_of, with_edge, with_block, edges_from, no_edges};
ghost use Rattle.xn_gml.specs.Reading.{Gives};

use crate::blocks::{integer_at, values_of};
use crate::errors::GmlErr;
use crate::lists::next_list;
use crate::pair::Pair;
use crate::stream::Tokens;
use crate::token::{Key, Token};
use indexmap::IndexMap;
use std::alloc::Global;

/// Edges, and how many loops were left aside.
#[derive(Drop)]
pub struct Edges {
    /// The ends of each edge.
    pub ends: Vec<(u32, u32)>,
    /// The number of loops.
    pub loops: u64,
}

/// The edges of the edge blocks of a graph with these nodes. They may be at most 1,000, besides loops.
pub fn edge_list(alloc: Global, ids: &IndexMap<i64, u32>, list: &Tokens) -> Result<Edges, GmlErr>
    requires { All (λ n. n < index_map_len ids.now) (values ids.now) }
    ensures read { Gives edges_kept result (edges_from 1000 ids.now.entries no_edges (lists_of Edge list.now)) }
    ensures few { IfOk result (λ edges. length edges.ends.items ≤ 1000) }
    ensures inside { IfOk result (λ edges. All (IsEdge (index_map_len ids.now)) edges.ends.items) }
{
    let mut edges = Edges {
        ends: Vec::new(alloc),
        loops: 0,
    };
    let mut tokens = list.again();
    let _ = tokens.left();
    while let Some(block) = next_list(&mut tokens, Key::Edge) {
        edges = with_block(ids, edges, &block)?;
    }
    Ok(edges)
}

// These edges, and those of an edge block.
#[tactic(auto, unfolding(crate::specs::Meaning::with_block))]
fn with_block(ids: &IndexMap<i64, u32>, edges: Edges, block: &Pair) -> Result<Edges, GmlErr>
    requires numbered { All (λ n. n < index_map_len ids.now) (values ids.now) }
    requires loops { edges.loops < 2 ^ 63 }
    requires few { length edges.ends.items ≤ 1000 }
    requires inside { All (IsEdge (index_map_len ids.now)) edges.ends.items }
    ensures read { Gives edges_kept result (with_block 1000 ids.now.entries (edges_kept edges) block.now) }
    ensures loops { IfOk result (λ more. more.loops ≤ edges.loops + 1) }
    ensures few { IfOk result (λ more. length more.ends.items ≤ 1000) }
    ensures inside { IfOk result (λ more. All (IsEdge (index_map_len ids.now)) more.ends.items) }
{
    let values = values_of(block)?;
    let e = nodes_of(ids, values)?;
    with_edge(ids, edges, e)
}

// The nodes that two values name.
#[tactic(auto, unfolding(crate::specs::Meaning::nodes_of))]
fn nodes_of(ids: &IndexMap<i64, u32>, ends: (Token, Token)) -> Result<(u32, u32), GmlErr>
    requires { All (λ n. n < index_map_len ids.now) (values ids.now) }
    ensures value { result ≡ nodes_of ids.now.entries ends }
    ensures inside { IfOk result (HasNodes (index_map_len ids.now)) }
{
    let source = integer_at(ends.0)?;
    let target = integer_at(ends.1)?;
    let u = known(ids, ends.0.at, source)?;
    let v = known(ids, ends.1.at, target)?;
    Ok((u, v))
}

// The node with an id.
fn known(ids: &IndexMap<i64, u32>, at: u64, id: i64) -> Result<u32, GmlErr>
    requires { All (λ n. n < index_map_len ids.now) (values ids.now) }
    ensures value { result ≡ known at (number_of ids.now.entries id) }
    ensures inside { IfOk result (λ n. n < index_map_len ids.now) }
{
    match ids.get(&id) {
        Some(number) => Ok(*number),
        None => Err(GmlErr::Unknown(at)),
    }
}

// One edge more, or one loop.
#[tactic(auto, unfolding(crate::specs::Meaning::with_edge))]
fn with_edge(ids: &IndexMap<i64, u32>, mut edges: Edges, e: (u32, u32)) -> Result<Edges, GmlErr>
    requires nodes { HasNodes (index_map_len ids.now) e }
    requires loops { edges.loops < 2 ^ 63 }
    requires few { length edges.ends.items ≤ 1000 }
    requires inside { All (IsEdge (index_map_len ids.now)) edges.ends.items }
    ensures read { Gives edges_kept result (with_edge 1000 (edges_kept edges) e) }
    ensures loops { IfOk result (λ more. more.loops ≤ edges.loops + 1) }
    ensures few { IfOk result (λ more. length more.ends.items ≤ 1000) }
    ensures inside { IfOk result (λ more. All (IsEdge (index_map_len ids.now)) more.ends.items) }
{
    if e.0 == e.1 {
        edges.loops += 1;
    } else if edges.ends.len() < 1000 {
        edges.ends.push(e)?;
    } else {
        return Err(GmlErr::TooManyEdges);
    }
    Ok(edges)
}
