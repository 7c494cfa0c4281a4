ghost use Rattle.std.specs.Prelude.{◌≡◌, ◌↔◌, IfOk, IsTrue, length};
ghost use Rattle.std.specs.List.{range_with_len};
ghost use Rattle.xn_model.specs.Orders.{IsEdgeList};
ghost use Rattle.xn_insert.specs.Calls.{DrawsKept, IsStarted};
ghost use Rattle.xn_insert.specs.ListedLoose.{HasFurtherNodes, edges_in};

mod inserting;
mod looking;
mod making;

use crate::starting::walks_in_web;
use crate::walks::Walks;
use std::alloc::{AllocError, Global};
use std::marker::Model;
use xn_graph::Graph;
use xn_kinds::Orders;
use xn_map::Map;

/// A loose drawing of some edges of a graph: a map of its nodes and of further ones, in which each edge that is in is a
/// walk from its first to its second end.
///
/// Two walks cross at each further node, or one crosses itself. Edges may cross often, also such with a common end.
/// Contracts see the number of nodes of the graph, the map and the walks.
#[derive(Drop)]
pub struct Loose {
    nodes: u32,
    map: Map,
    walks: Walks,
}

impl Model for Loose {
    ghost use Rattle.std.specs.Prelude.{◌≤◌, length};
    ghost use Rattle.xn_insert.specs.ListedLoose.{ListedLoose, loose_of};

    ghost Value = { ListedLoose };

    ghost view = { λ l. loose_of l.nodes l.map l.walks };

    ghost invariant = { λ l. (l.nodes ≤ l.map.web.nodes) × (length l.walks ≤ 1000) };
}

impl Loose {
    /// The loose drawing of the kept edges, whose map is that of their planarised graph: so it has a crossing for each of
    /// the orders' own, and no walk meets a node twice. The kept edges rise, and orders and map are a drawing of them. It
    /// fails only for want of memory.
    pub fn start(
        alloc: Global,
        graph: &Graph,
        kept: &[u32],
        orders: &Orders,
        map: Map,
    ) -> Result<Loose, AllocError>
        requires kept { IsEdgeList (length graph.now.ends) kept.now }
        requires drawn { DrawsKept graph.now kept.now orders.now map }
        ensures { IfOk result (λ l. IsStarted graph.now kept.now map l) }
    {
        let walks = Walks::new(walks_in_web(alloc, graph, kept, orders)?);
        Ok(Loose {
            nodes: graph.nodes(),
            map,
            walks,
        })
    }

    /// The number of crossings.
    pub fn crossings(&self) -> u64
        ensures { HasFurtherNodes self.now result }
    {
        u64::from(self.map.web().nodes() - self.nodes)
    }

    /// Whether all edges are in. Its time is linear in the number of edges.
    pub fn whole(&self) -> bool
        ensures { IsTrue result ↔ (edges_in self.now ≡ range_with_len 0 (length self.now.walks)) }
    {
        for e in 0..self.walks.len() {
            if self.walks.at(e).is_empty() {
                return false;
            }
        }
        true
    }

    /// The map, and a walk for each edge of the graph: its darts in order, none where the edge isn't in.
    pub fn into_parts(self) -> (Map, Walks)
        ensures map { result.0 ≡ self.map }
        ensures walks { result.1 ≡ self.walks }
    {
        (self.map, self.walks)
    }
}
