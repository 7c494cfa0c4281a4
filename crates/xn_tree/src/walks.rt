ghost use Rattle.std.specs.Prelude.{◌≡◌, ◌↔◌, ◌<◌, false, List, [], ◌∷◌, IfOk, IsTrue, length, reverse};
ghost use Rattle.xn_kinds.specs.State.{State, empty_state};
ghost use Rattle.xn_kinds.specs.declared.trees.Node.TheVariants.{Pair, Place};
ghost use Rattle.xn_tree.specs.Given.{state_of};
ghost use Rattle.xn_kinds.specs.Tree.{Fits};
ghost use Rattle.xn_tree.specs.Walk.{GoesOn, IsPath, Opened, owed, pending_at, pending_of};
ghost use Rattle.xn_tree.specs.declared.walks.Choice.{Choice};
ghost use Rattle.xn_tree.specs.declared.walks.Choice.TheVariants.{Decided, Placed};

use crate::states::Given;
use std::alloc::{AllocError, Global};
use std::marker::Model;
use xn_graph::Graph;
use xn_kinds::Node;

/// A walk through proof trees in preorder, for the checkers and the search.
///
/// It keeps the path to one given state, and knows from it which states are still to come: contracts see the graph and the
/// path, and `pending_of` says which states are pending, this one first. Each node costs constant time on average, and memory
/// goes to the path alone.
#[derive(Drop)]
pub struct TreeWalk {
    given: Given,
    path: Vec<Choice>,
    live: bool,
}

/// What a path chose at a node.
#[derive(Clone, Copy, Debug, PartialEq, Eq)]
pub enum Choice {
    /// The pair of edges is decided so.
    Decided(u32, u32, bool),
    /// Along the first edge, the second is placed at this position.
    Placed(u32, u32, u32),
}

impl Model for TreeWalk {
    ghost use Rattle.std.specs.Prelude.{reverse};
    ghost use Rattle.xn_tree.specs.Given.{state_of};
    ghost use Rattle.xn_tree.specs.Walk.{IsPath, Position, position_of};

    ghost Value = { Position };

    ghost view = { λ w. position_of w.given.graph (reverse w.path.items) w.live };

    ghost invariant = { λ w. IsPath w.given.graph (state_of w.given) (reverse w.path.items) };
}

impl TreeWalk {
    /// The walk before the first node: nothing is decided. It fails only for want of memory.
    pub fn new(alloc: Global, graph: &Graph) -> Result<TreeWalk, AllocError>
        ensures graph { IfOk result (λ w. w.graph ≡ graph.now) }
        ensures pending { IfOk result (λ w. pending_of w ≡ empty_state ∷ []) }
    {
        Ok(TreeWalk {
            given: Given::empty(alloc, graph)?,
            path: Vec::new(alloc),
            live: true,
        })
    }

    /// The graph.
    pub fn graph(&self) -> &Graph
        ensures { result.now ≡ self.now.graph }
    {
        self.given.graph()
    }

    /// Whether no state is pending.
    pub fn is_finished(&self) -> bool
        ensures { IsTrue result ↔ (pending_of self.now ≡ []) }
    {
        !self.live
    }

    /// The first pending state, where there is one.
    pub fn given(&self) -> &Given
        ensures graph { result.now.graph ≡ self.now.graph }
        ensures state { (s : State) (rest : List State) → pending_of self.now ≡ s ∷ rest → state_of result.now ≡ s }
    {
        &self.given
    }

    /// Opens the first pending state by the node: whether the node fits it, a leaf always; then its children stand in its
    /// place. False too where no state is pending. It fails only for want of memory. After false or want of memory the walk
    /// is as before.
    pub fn open(&mut self, node: &Node) -> Result<bool, AllocError>
        ensures graph { self.new.graph ≡ self.old.graph }
        ensures opened { Opened self.old self.new node.now result }
    {
        if self.is_finished() {
            return Ok(false);
        }
        match node {
            Node::Pair(e, f) => self.open_pair(*e, *f),
            Node::Place(e, f) => self.open_place(*e, *f),
            Node::Leaf { .. } => {
                self.close();
                Ok(true)
            }
        }
    }

    // The same for a pair.
    fn open_pair(&mut self, e: u32, f: u32) -> Result<bool, AllocError>
        requires { IsTrue self.old.live }
        ensures graph { self.new.graph ≡ self.old.graph }
        ensures opened { Opened self.old self.new (Pair e f) result }
    {
        if !may_decide(&self.given, e, f) {
            return Ok(false);
        }
        self.path.reserve(1)?;
        self.given.decide(e, f, false);
        self.path.push_reserved(Choice::Decided(e, f, false));
        Ok(true)
    }

    // The same for a place.
    fn open_place(&mut self, e: u32, f: u32) -> Result<bool, AllocError>
        requires { IsTrue self.old.live }
        ensures graph { self.new.graph ≡ self.old.graph }
        ensures opened { Opened self.old self.new (Place e f) result }
    {
        if !may_place(&self.given, e, f) {
            return Ok(false);
        }
        self.path.reserve(1)?;
        self.given.place(e, f, 0)?;
        self.path.push_reserved(Choice::Placed(e, f, 0));
        Ok(true)
    }

    // The first pending state is done.
    fn close(&mut self)
        requires { IsTrue self.old.live }
        ensures graph { self.new.graph ≡ self.old.graph }
        ensures pending { pending_of self.new ≡ owed self.old.path }
    {
        self.live = go_on(&mut self.given, &mut self.path);
    }
}

// Whether the pair is an undecided one of independent edges, the smaller first.
fn may_decide(given: &Given, e: u32, f: u32) -> bool
    ensures { IsTrue result ↔ Fits given.now.graph (state_of given.now) (Pair e f) }
{
    let graph = given.graph();
    if e >= f || f >= graph.edges() || !graph.independent(e, f) {
        return false;
    }
    given.value(e, f).is_none()
}

// Whether f is decided to cross e and isn't placed along it.
fn may_place(given: &Given, e: u32, f: u32) -> bool
    ensures { IsTrue result ↔ Fits given.now.graph (state_of given.now) (Place e f) }
{
    let edges = given.graph().edges();
    if e == f || e >= edges || f >= edges {
        return false;
    }
    given.value(e, f) == Some(true) && !given.placed(e).contains(&f)
}

// The number of edges that are placed along e.
fn places(given: &Given, e: u32) -> u32
    requires { e < length given.now.graph.ends }
    ensures { result ≡ length ((state_of given.now).placed e) }
{
    let places = given.placed(e).len();
    prove!(places <= given.graph().edges() as usize);
    places as u32
}

// Takes back the last choices that have none after them at their nodes, and then goes on to the next choice: whether there is one.
fn go_on(given: &mut Given, path: &mut Vec<Choice>) -> bool
    requires { IsPath given.old.graph (state_of given.old) (reverse path.old.items) }
    ensures graph { given.new.graph ≡ given.old.graph }
    ensures path { IsPath given.new.graph (state_of given.new) (reverse path.new.items) }
    ensures pending { pending_at result (reverse path.new.items) ≡ owed (reverse path.old.items) }
{
    while let Some(choice) = path.pop() {
        if let Some(next) = take_back(given, choice) {
            path.push_reserved(next);
            return true;
        }
    }
    false
}

// Takes back the last choice of the path, and makes the next at its node, if there is one.
fn take_back(given: &mut Given, last: Choice) -> Option<Choice>
    requires { (rest : List Choice) × IsPath given.old.graph (state_of given.old) (last ∷ rest) }
    ensures graph { given.new.graph ≡ given.old.graph }
    ensures path { GoesOn given.old given.new last result }
{
    match last {
        Choice::Decided(e, f, one) => back_from_pair(given, e, f, one),
        Choice::Placed(e, f, at) => back_from_place(given, e, f, at),
    }
}

// The same of a decided pair: after 0 comes 1.
fn back_from_pair(given: &mut Given, e: u32, f: u32, one: bool) -> Option<Choice>
    requires { (rest : List Choice) × IsPath given.old.graph (state_of given.old) (Decided e f one ∷ rest) }
    ensures graph { given.new.graph ≡ given.old.graph }
    ensures path { GoesOn given.old given.new (Decided e f one) result }
{
    given.undecide(e, f);
    if one {
        return None;
    }
    given.decide(e, f, true);
    Some(Choice::Decided(e, f, true))
}

// The same of a placed edge: after each position comes the next, up to the last.
fn back_from_place(given: &mut Given, e: u32, f: u32, at: u32) -> Option<Choice>
    requires { (rest : List Choice) × IsPath given.old.graph (state_of given.old) (Placed e f at ∷ rest) }
    ensures graph { given.new.graph ≡ given.old.graph }
    ensures path { GoesOn given.old given.new (Placed e f at) result }
{
    let count = places(given, e);
    if at + 1 == count {
        given.unplace(e, at);
        return None;
    }
    given.shift(e, at);
    Some(Choice::Placed(e, f, at + 1))
}
