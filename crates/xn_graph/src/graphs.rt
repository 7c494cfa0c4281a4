ghost use Rattle.std.specs.Prelude.{◌≡◌, ◌<◌, ◌≤◌, ◌↔◌, ◌++◌, IfOk, OnOk, IsErrOf, IfNone, IfSome, OkIff, length};
ghost use Rattle.xn_model.specs.Graph.{ends_at, independent, edges_of, pair_count_of, pairs_of};
ghost use Rattle.xn_graph.specs.Limits.{IsLimitedGraph, IsEdge, graph_of};
ghost use Rattle.xn_graph.specs.Pairs.{pairs_from, partners_of};
ghost use Rattle.xn_graph.specs.Refusals.{IsRefused};
ghost use Rattle.xn_graph.specs.declared.graphs.GraphErr.{GraphErr};

use std::alloc::{AllocError, Global};
use std::marker::Model;
use thiserror::Error;

/// The most nodes of an input graph.
pub const MAX_NODES: u32 = 1_000;
/// The most edges of an input graph.
pub const MAX_EDGES: usize = 1_000;

/// Why a number of nodes and a list of ends are no input graph: the first cause in this order.
#[derive(Clone, Copy, Debug, PartialEq, Eq, Error)]
pub enum GraphErr {
    /// There are more than 1,000 nodes.
    #[error("more than 1000 nodes")]
    TooManyNodes,
    /// There are more than 1,000 edges.
    #[error("more than 1000 edges")]
    TooManyEdges,
    /// This is the first edge that doesn't join two different nodes, and an end of it is no node.
    #[error("an end of edge {0} is no node")]
    End(u32),
    /// This is the first edge that doesn't join two different nodes, and its ends are one node.
    #[error("edge {0} joins a node to itself")]
    Loop(u32),
}

/// A graph: nodes 0 to n - 1 and edges that each join two different nodes. Parallel edges are separate edges.
///
/// It has at most 1,000 nodes and 1,000 edges, and is seen as the number of its nodes and the list of its ends.
#[derive(Debug, Drop)]
pub struct Graph {
    nodes: u32,
    ends: Vec<(u32, u32)>,
}

impl Model for Graph {
    ghost use Rattle.xn_model.specs.Graph.{Graph};
    ghost use Rattle.xn_graph.specs.Limits.{IsLimitedGraph, graph_of};

    ghost Value = { Graph };

    ghost view = { λ g. graph_of g.nodes g.ends.items };

    ghost invariant = { λ g. IsLimitedGraph (graph_of g.nodes g.ends.items) };
}

impl Graph {
    /// The graph of these nodes and ends. It refuses too many nodes, then too many edges, then the first edge that doesn't
    /// join two different nodes.
    pub fn make(nodes: u32, ends: Vec<(u32, u32)>) -> Result<Graph, GraphErr>
        ensures ok { let g = graph_of nodes ends.items in OkIff result (IsLimitedGraph g) g }
        ensures err { (e : GraphErr) → IsErrOf result e ↔ IsRefused nodes ends.items e }
    {
        if nodes > MAX_NODES {
            return Err(GraphErr::TooManyNodes);
        }
        if ends.len() > MAX_EDGES {
            return Err(GraphErr::TooManyEdges);
        }
        match first_flaw(nodes, ends.as_slice()) {
            None => Ok(Graph { nodes, ends }),
            Some(flaw) => Err(flaw),
        }
    }

    /// The number of nodes.
    pub fn nodes(&self) -> u32
        ensures value { result ≡ self.now.nodes }
        ensures limited { IsLimitedGraph self.now }
    {
        self.nodes
    }

    /// The number of edges.
    pub fn edges(&self) -> u32
        ensures value { result ≡ length self.now.ends }
        ensures limited { IsLimitedGraph self.now }
    {
        self.ends.len() as u32
    }

    /// The two ends of an edge, in the order in which they were given.
    pub fn end(&self, e: u32) -> (u32, u32)
        requires { e < length self.now.ends }
        ensures value { result ≡ ends_at self.now.ends e }
        ensures edge { IsEdge self.now.nodes result }
    {
        self.ends[e as usize]
    }

    /// The numbers of the edges, rising. It fails only for want of memory.
    pub fn all_edges(&self, alloc: Global) -> Result<Vec<u32>, AllocError>
        ensures { IfOk result (λ edges. edges.items ≡ edges_of self.now) }
    {
        (0..self.edges()).collect(alloc)
    }

    /// Whether the edges share no end, and so are two.
    pub fn independent(&self, e: u32, f: u32) -> bool
        requires e_in { e < length self.now.ends }
        requires f_in { f < length self.now.ends }
        ensures { result ≡ independent self.now.ends e f }
    {
        let (a, b) = self.end(e);
        let (c, d) = self.end(f);
        a != c && b != c && a != d && b != d
    }

    /// The number of independent pairs of edges. It compares each two edges and takes no memory.
    pub fn pair_count(&self) -> u64
        ensures value { result ≡ pair_count_of self.now }
        ensures few { result ≤ 499500 }
    {
        let mut count = 0;
        for e in 0..self.edges() {
            count += self.partner_count(e);
        }
        count
    }

    /// The independent pairs of edges, the smaller edge first, in lexicographic order. It fails only for want of memory.
    pub fn pairs(&self, alloc: Global) -> Result<Vec<(u32, u32)>, AllocError>
        ensures { IfOk result (λ list. list.items ≡ pairs_of self.now.ends (edges_of self.now)) }
    {
        let mut list = Vec::with_capacity(alloc, self.pair_count() as usize)?;
        for e in 0..self.edges() {
            self.push_pairs(e, &mut list)?;
        }
        Ok(list)
    }

    /// How many later edges are independent of the edge.
    fn partner_count(&self, e: u32) -> u64
        requires { e < length self.now.ends }
        ensures { result ≡ length (partners_of self.now e) }
    {
        let edges = self.edges();
        (e + 1..edges).filter(|f| self.independent(e, *f)).count() as u64
    }

    /// Appends the pairs of the edge with each later edge that is independent of it.
    fn push_pairs(&self, e: u32, list: &mut Vec<(u32, u32)>) -> Result<(), AllocError>
        requires { e < length self.now.ends }
        ensures { OnOk result (list.new.items ≡ list.old.items ++ pairs_from self.now e) }
    {
        let edges = self.edges();
        for f in e + 1..edges {
            if self.independent(e, f) {
                list.push((e, f))?;
            }
        }
        Ok(())
    }

    /// The same graph again. It fails only for want of memory.
    pub fn copy(&self, alloc: Global) -> Result<Graph, AllocError>
        ensures { IfOk result (λ g. g ≡ self.now) }
    {
        let ends = Vec::from_slice(alloc, self.ends.as_slice())?;
        Ok(Graph {
            nodes: self.nodes,
            ends,
        })
    }
}

/// The flaw of the first edge that doesn't join two different nodes.
fn first_flaw(nodes: u32, ends: &[(u32, u32)]) -> Option<GraphErr>
    requires nodes { nodes ≤ 1000 }
    requires edges { length ends.now ≤ 1000 }
    ensures none { IfNone result (IsLimitedGraph (graph_of nodes ends.now)) }
    ensures some { IfSome result (IsRefused nodes ends.now) }
{
    for (e, &(u, v)) in ends.iter().enumerate() {
        if u >= nodes || v >= nodes {
            return Some(GraphErr::End(e as u32));
        }
        if u == v {
            return Some(GraphErr::Loop(e as u32));
        }
    }
    None
}
