ghost use Rattle.std.specs.Prelude.{◌≡◌, ◌+◌, ◌<◌, ◌≤◌, ◌^◌, All, IfOk, length, max};
ghost use Rattle.xn_kinds.specs.Row.{RowHolds};
ghost use Rattle.xn_kinds.specs.State.{IsState};
ghost use Rattle.xn_effort.specs.Potential.{ones_in};
ghost use Rattle.xn_tree.specs.Given.{state_of};
ghost use Rattle.xn_search.specs.Choice.{GrowsTo, HaveKinds, IsDecision};

use std::alloc::{AllocError, Global};
use xn_graph::Graph;
use xn_kinds::{Drawing, Node, Row};
use xn_tree::Given;

/// What a round is to prove: that every drawing of the graph has at least so many crossings.
#[derive(Clone, Copy)]
pub struct Claim<'a> {
    /// The graph.
    pub graph: &'a Graph,
    /// The number of crossings.
    pub crossings: u32,
    /// The crossings of the best drawing that is known.
    pub best: u32,
}

/// A drawing, and how many crossings it has.
#[derive(Drop)]
pub struct Drawn {
    /// The drawing.
    pub drawing: Drawing,
    /// The number of its crossings.
    pub crossings: u32,
}

/// What is to be done in a state.
#[derive(Drop)]
pub enum Decision {
    /// The state is opened by this node.
    Open(Node),
    /// The graph has this drawing, and the round is over.
    Found(Drawn),
}

/// What decides how the search goes on in a state.
pub trait Decider {
    /// Decides it for a state in which fewer pairs are decided 1 than the claim has crossings. The node keeps its
    /// rule in a proof of the claim, or the drawing has fewer crossings. It may add rows that hold to those that
    /// are known: one, or any number while fewer than 800,000 are known. It fails only for want of memory, and then
    /// promises nothing of the rows.
    fn decide(
        &mut self,
        alloc: Global,
        claim: &Claim,
        given: &Given,
        rows: &mut Vec<Row>,
    ) -> Result<Decision, AllocError>
        requires graph { given.now.graph ≡ claim.now.graph.now }
        requires state { IsState claim.now.graph.now (state_of given.now) }
        requires positive { 1 ≤ claim.now.crossings }
        requires ones { ones_in claim.now.graph.now (state_of given.now) < claim.now.crossings }
        requires hold { All (RowHolds claim.now.graph.now) rows.old.items }
        requires room { length rows.old.items < 2 ^ 20 }
        ensures more { IfOk result (λ _. GrowsTo rows.old.items rows.new.items) }
        ensures hold { IfOk result (λ _. All (RowHolds claim.now.graph.now) rows.new.items) }
        ensures kinds { IfOk result (λ _. HaveKinds rows.old.items → HaveKinds rows.new.items) }
        ensures few { IfOk result (λ _. length rows.new.items ≤ max (length rows.old.items) 800000 + 1) }
        ensures decided { let g = claim.now.graph.now in
            IfOk result (IsDecision g claim.now.crossings rows.new.items (state_of given.now)) };
}
