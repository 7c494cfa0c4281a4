// A decider that plants the crossings of a state: the row that this gives closes the state, or names a pair or a
// place.
ghost use Rattle.std.specs.Prelude.{◌≡◌, ◌↔◌, ◌+◌, ◌<◌, ◌≤◌, ◌^◌, true, false, ℕ, All, IfNone, IfOk, IfSome, IsSome, IsTrue, length, max, slice_index};
ghost use Rattle.xn_model.specs.Drawing.{IsListedDrawing, order_of};
ghost use Rattle.xn_model.specs.Graph.{Independent};
ghost use Rattle.xn_model.specs.Lists.{has};
ghost use Rattle.xn_model.specs.Orders.{IsEdgeList, crossing_count};
ghost use Rattle.xn_kinds.specs.Row.{RowHolds};
ghost use Rattle.xn_kinds.specs.State.{IsState};
ghost use Rattle.xn_kinds.specs.Tree.{MayOpen};
ghost use Rattle.xn_effort.specs.LeafLaws.{IsOfState};
ghost use Rattle.xn_tree.specs.Given.{state_of};
ghost use Rattle.xn_plant.specs.Planting.{IsRowOfState};
ghost use Rattle.xn_search.specs.Branching.{HasNoOpenPair, HasNoOpenPlace, IsOpenPair, IsOpenPlace};
ghost use Rattle.xn_search.specs.Choice.{GrowsTo, HaveKinds, IsCountedDrawing};

use crate::decisions::{Claim, Decider, Decision, Drawn};
use std::alloc::{AllocError, Global};
use xn_effort::laws::closing_leaves;
use xn_graph::Graph;
use xn_kinds::{Drawing, Node, Row};
use xn_list::Sequence;
use xn_orders::planarise;
use xn_plant::{Planes, Planted, plant};
use xn_tree::Given;

/// Decides by planting alone.
#[derive(Drop)]
pub struct ByPlanting<P> {
    /// What tests the webs.
    pub planes: P,
}

impl<P: Planes> Decider for ByPlanting<P> {
    fn decide(
        &mut self,
        alloc: Global,
        claim: &Claim,
        given: &Given,
        rows: &mut Vec<Row>,
    ) -> Result<Decision, AllocError> {
        match plant(alloc, claim.graph, given, &mut self.planes)? {
            Planted::Flat(drawing) => {
                let drawn = counted(alloc, claim.graph, drawing)?;
                Ok(Decision::Found(drawn))
            }
            Planted::Excluded(row) => {
                let node = by_row(alloc, claim, given, row, rows)?;
                Ok(Decision::Open(node))
            }
        }
    }
}

/// A drawing with the number of its crossings. It fails only for want of memory.
pub fn counted(alloc: Global, graph: &Graph, drawing: Drawing) -> Result<Drawn, AllocError>
    requires { IsListedDrawing graph.now drawing.orders drawing.next }
    ensures drawn { IfOk result (IsCountedDrawing graph.now) }
    ensures count { IfOk result (λ d. d.crossings ≡ crossing_count graph.now (order_of graph.now drawing.orders)) }
{
    let edges = graph.all_edges(alloc)?;
    let web = planarise(alloc, graph, edges.as_slice(), &drawing.orders)?;
    let crossings = web.nodes() - graph.nodes();
    Ok(Drawn { drawing, crossings })
}

/// The node that a row of the state asks for: its first open pair, else the first edge that has to be placed, else the
/// leaf that takes the row, which then comes behind the known ones. It fails only for want of memory.
pub fn by_row(
    alloc: Global,
    claim: &Claim,
    given: &Given,
    row: Row,
    rows: &mut Vec<Row>,
) -> Result<Node, AllocError>
    requires graph { given.now.graph ≡ claim.now.graph.now }
    requires state { IsState claim.now.graph.now (state_of given.now) }
    requires positive { 1 ≤ claim.now.crossings }
    requires row { IsRowOfState claim.now.graph.now (state_of given.now) row }
    requires hold { All (RowHolds claim.now.graph.now) rows.old.items }
    requires room { length rows.old.items < 2 ^ 20 }
    ensures more { IfOk result (λ _. GrowsTo rows.old.items rows.new.items) }
    ensures hold { IfOk result (λ _. All (RowHolds claim.now.graph.now) rows.new.items) }
    ensures kinds { IfOk result (λ _. HaveKinds rows.old.items → HaveKinds rows.new.items) }
    ensures few { IfOk result (λ _. length rows.new.items ≤ length rows.old.items + 1) }
    ensures keeps { IfOk result (MayOpen claim.now.graph.now claim.now.crossings rows.new.items (state_of given.now)) }
{
    if let Some((e, f)) = open_pair(claim.graph, given, row.edges.as_slice()) {
        return Ok(Node::Pair(e, f));
    }
    if let Some((e, f)) = open_place(given, &row) {
        return Ok(Node::Place(e, f));
    }
    take_row(alloc, claim, given, row, rows)
}

// The leaf that takes the row.
fn take_row(
    alloc: Global,
    claim: &Claim,
    given: &Given,
    row: Row,
    rows: &mut Vec<Row>,
) -> Result<Node, AllocError>
    requires graph { given.now.graph ≡ claim.now.graph.now }
    requires state { IsState claim.now.graph.now (state_of given.now) }
    requires positive { 1 ≤ claim.now.crossings }
    requires row { IsRowOfState claim.now.graph.now (state_of given.now) row }
    requires pairs { HasNoOpenPair claim.now.graph.now (state_of given.now) row.edges }
    requires places { HasNoOpenPlace row (state_of given.now) }
    requires hold { All (RowHolds claim.now.graph.now) rows.old.items }
    requires room { length rows.old.items < 2 ^ 20 }
    ensures more { IfOk result (λ _. GrowsTo rows.old.items rows.new.items) }
    ensures hold { IfOk result (λ _. All (RowHolds claim.now.graph.now) rows.new.items) }
    ensures kinds { IfOk result (λ _. HaveKinds rows.old.items → HaveKinds rows.new.items) }
    ensures few { IfOk result (λ _. length rows.new.items ≤ length rows.old.items + 1) }
    ensures keeps { IfOk result (MayOpen claim.now.graph.now claim.now.crossings rows.new.items (state_of given.now)) }
{
    closing_leaves();
    let number = rows.len() as u32;
    let part = part_of(number, claim.crossings);
    let parts = vec![in alloc; part]?;
    rows.push(row)?;
    Ok(Node::Leaf {
        d: 1,
        parts: Sequence::new(parts),
    })
}

// The part of a row that is taken so many times.
fn part_of(number: u32, times: u32) -> (u32, u64)
    ensures part { result ≡ (number, times) }
    ensures small { times < 2 ^ 32 }
{
    (number, u64::from(times))
}

// The first pair of the edges that is open.
fn open_pair(graph: &Graph, given: &Given, edges: &[u32]) -> Option<(u32, u32)>
    requires graph { given.now.graph ≡ graph.now }
    requires edges { IsEdgeList (length graph.now.ends) edges.now }
    ensures some { IfSome result (IsOpenPair graph.now (state_of given.now)) }
    ensures none { IfNone result (HasNoOpenPair graph.now (state_of given.now) edges.now) }
{
    for i in 0..edges.len() {
        if let Some(f) = open_partner(graph, given, edges, i) {
            return Some((edges[i], f));
        }
    }
    None
}

// The first later edge whose pair with the edge at a place is open.
fn open_partner(graph: &Graph, given: &Given, edges: &[u32], i: usize) -> Option<u32>
    requires graph { given.now.graph ≡ graph.now }
    requires edges { IsEdgeList (length graph.now.ends) edges.now }
    requires within { i < length edges.now }
    ensures some { IfSome result (λ f. IsOpenPair graph.now (state_of given.now) (slice_index edges.now i, f)) }
    ensures none { IfNone result ((j : ℕ) → i < j → j < length edges.now →
        Independent graph.now.ends (slice_index edges.now i) (slice_index edges.now j) →
        IsSome ((state_of given.now).decided (slice_index edges.now i) (slice_index edges.now j))) }
{
    for j in i + 1..edges.len() {
        if is_open(graph, given, edges[i], edges[j]) {
            return Some(edges[j]);
        }
    }
    None
}

/// Whether the pair of two edges, the smaller first, is independent and undecided.
pub fn is_open(graph: &Graph, given: &Given, e: u32, f: u32) -> bool
    requires graph { given.now.graph ≡ graph.now }
    requires rises { e < f }
    requires below { f < length graph.now.ends }
    ensures { IsTrue result ↔ IsOpenPair graph.now (state_of given.now) (e, f) }
{
    graph.independent(e, f) && given.value(e, f).is_none()
}

// The first edge of the row, and of those that cross it there, where there are two or more, the first that isn't
// placed along it.
fn open_place(given: &Given, row: &Row) -> Option<(u32, u32)>
    requires edges { IsEdgeList (length given.now.graph.ends) row.now.edges }
    requires lists_fit { length row.now.orders ≡ length row.now.edges }
    requires of_state { IsOfState row.now (state_of given.now) }
    ensures some { IfSome result (IsOpenPlace (state_of given.now)) }
    ensures none { IfNone result (HasNoOpenPlace row.now (state_of given.now)) }
{
    for i in 0..row.edges.len() {
        let e = *row.edges.at(i);
        if let Some(f) = unplaced(given, e, row.orders.at(i)) {
            return Some((e, f));
        }
    }
    None
}

// The first edge of a list of two or more that isn't placed along an edge.
fn unplaced(given: &Given, e: u32, list: &[u32]) -> Option<u32>
    requires { e < length given.now.graph.ends }
    ensures some { IfSome result (λ f. (has list.now f ≡ true) × (has ((state_of given.now).placed e) f ≡ false)) }
    ensures none { IfNone result (2 ≤ length list.now → (f : ℕ) → has list.now f ≡ true →
        has ((state_of given.now).placed e) f ≡ true) }
{
    if list.len() < 2 {
        return None;
    }
    let placed = given.placed(e);
    for f in list {
        if !placed.contains(f) {
            return Some(*f);
        }
    }
    None
}
