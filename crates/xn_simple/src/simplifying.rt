// Loose drawings are made simple.
ghost use Rattle.std.specs.Prelude.{◌≡◌, ◌+◌, ◌≤◌, ℕ, IfOk, OnOk, length};
ghost use Rattle.xn_list.specs.Lists.{lists_of};
ghost use Rattle.xn_model.specs.Drawing.{IsListedDrawing, order_of};
ghost use Rattle.xn_model.specs.Orders.{crossing_count};
ghost use Rattle.xn_loose.specs.Renaming.{subgraph_of};
ghost use Rattle.xn_insert.specs.ListedLoose.{IsLooseOf, edges_in, loose_of};
ghost use Rattle.xn_simple.specs.Tangle.{AreFurther, AreNotesOf, IsTangle, IsTangleOf, WalksAreApart, edges_walked, lists_in};
ghost use Rattle.xn_simple.specs.Untangling.{IsUntangled, KeepsMap};

use crate::tangle::{Notes, Tangle};
use std::alloc::{AllocError, Global};
use xn_graph::Graph;
use xn_insert::{Loose, Walks};
use xn_kinds::Drawing;
use xn_map::Map;

/// A simple drawing of the edges that are in, with no more crossings.
///
/// It is one of the graph with the same nodes and those edges, in rising order: of the graph itself, where all edges are
/// in. The walks are changed by steps, each of which leaves fewer nodes at which they may cross, and takes time linear in the
/// lengths of the walks that it changes. It fails only for want of memory.
pub fn simplify(alloc: Global, graph: &Graph, loose: Loose) -> Result<Drawing, AllocError>
    requires { IsLooseOf graph.now loose }
    ensures drawing { IfOk result (λ d. IsListedDrawing (subgraph_of graph.now (edges_in loose)) d.orders d.next) }
    ensures no_more { let g = subgraph_of graph.now (edges_in loose) in
        IfOk result (λ d. graph.now.nodes + crossing_count g (order_of g d.orders) ≤ loose.map.web.nodes) }
{
    let (map, walks) = loose.into_parts();
    let mut tangle = tangle_of(alloc, graph, map, walks)?;
    tangle.untangle(alloc, graph)?;
    tangle.drawing(alloc, graph.edges())
}

/// The tangle of a loose drawing: walks may cross at each further node.
pub fn tangle_of(alloc: Global, graph: &Graph, map: Map, walks: Walks) -> Result<Tangle, AllocError>
    requires { IsLooseOf graph.now (loose_of graph.now.nodes map walks) }
    ensures { IfOk result (λ t. IsTangleOf graph.now map (edges_in (loose_of graph.now.nodes map walks)) (lists_in t)) }
{
    let first = graph.nodes();
    let lists = walks.into_lists();
    let edges = edges_with_walks(alloc, &lists)?;
    let four = further_nodes(alloc, first, map.web().nodes())?;
    let notes = notes_of(alloc, map.web().segments(), &lists)?;
    Ok(Tangle {
        map,
        edges,
        walks: lists,
        four,
        notes,
    })
}

// The edges that have a walk.
fn edges_with_walks(alloc: Global, lists: &[Vec<u32>]) -> Result<Vec<u32>, AllocError>
    requires { length lists.now ≤ 1000 }
    ensures { IfOk result (λ edges. edges.items ≡ edges_walked (lists_of lists.now)) }
{
    let mut edges = Vec::new(alloc);
    for e in 0..lists.len() {
        if !lists[e].is_empty() {
            edges.push(e as u32)?;
        }
    }
    Ok(edges)
}

// Of each node of a map whether it is none of the first ones.
fn further_nodes(alloc: Global, first: u32, nodes: u32) -> Result<Vec<bool>, AllocError>
    requires { first ≤ nodes }
    ensures { IfOk result (λ four. AreFurther first nodes four.items) }
{
    let mut four = vec![in alloc; true; nodes as usize]?;
    for v in 0..first {
        four[v as usize] = false;
    }
    Ok(four)
}

// Which walk goes over each of so many segments.
fn notes_of(alloc: Global, segments: u32, lists: &[Vec<u32>]) -> Result<Notes, AllocError>
    requires { WalksAreApart segments (lists_of lists.now) }
    ensures { IfOk result (λ notes. AreNotesOf segments (lists_of lists.now) notes.owners.items notes.places.items) }
{
    let owners = vec![in alloc; 0; segments as usize]?;
    let places = vec![in alloc; 0; segments as usize]?;
    let mut notes = Notes { owners, places };
    for e in 0..lists.len() {
        notes.note(e as u32, &lists[e]);
    }
    Ok(notes)
}

impl Tangle {
    /// Takes steps until no walk gives one. A walk that changed is looked at again.
    pub fn untangle(&mut self, alloc: Global, graph: &Graph) -> Result<(), AllocError>
        requires { IsTangle graph.now (lists_in self.old) }
        ensures { OnOk result (KeepsMap (lists_in self.old) (lists_in self.new) × IsUntangled graph.now (lists_in self.new)) }
    {
        let mut open = Vec::from_slice(alloc, &self.edges)?;
        let mut met = vec![in alloc; 0; graph.edges() as usize]?;
        while let Some(e) = open.pop() {
            if let Some(step) = self.find(graph, met.as_mut_slice(), e) {
                let other = self.take_step(alloc, e, step)?;
                open.push(e)?;
                open.push(other)?;
            }
        }
        Ok(())
    }
}
