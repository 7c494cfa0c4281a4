// A decider that closes states by linear programs, and plants their crossings where it can't.
ghost use Rattle.std.specs.Prelude.{◌≡◌, ◌+◌, ◌<◌, ◌≤◌, ◌^◌, All, IfOk, IfSome, length, max};
ghost use Rattle.xn_kinds.specs.Row.{RowHolds};
ghost use Rattle.xn_kinds.specs.State.{IsState};
ghost use Rattle.xn_kinds.specs.Tree.{MayOpen};
ghost use Rattle.xn_effort.specs.Potential.{ones_in};
ghost use Rattle.xn_tree.specs.Given.{state_of};
ghost use Rattle.xn_plant.specs.Planting.{IsRowOfState};
ghost use Rattle.xn_search.specs.Branching.{IsOpenPair};
ghost use Rattle.xn_search.specs.Choice.{GrowsTo, HaveKinds, IsDecision};
ghost use Rattle.xn_programs.specs.Turns.{IsGrown};

use crate::hints::Hints;
use crate::turns::{keep, turns};
use std::alloc::{AllocError, Global};
use xn_cutter::{Cutter, Progress};
use xn_graph::Graph;
use xn_kinds::{Node, Row};
use xn_plant::{Planes, Planted, plant};
use xn_search::{Claim, Decider, Decision, by_row, counted, is_open};
use xn_tree::Given;

/// How often the program of a state is solved before its crossings are planted.
const TURNS_BEFORE: u32 = 48;
/// How often after that.
const TURNS_AFTER: u32 = 16;

/// Decides by linear programs of the known rows (after the branch and cut of Buchheim and others, 2008), with
/// cutters that find more rows, and by planting where the program of a state doesn't close it.
#[derive(Drop)]
pub struct ByPrograms<'a, P> {
    /// What tests the webs.
    pub planes: P,
    /// What finds rows, in the order in which they are asked: those after the first only where the point has
    /// a value from 1/2 on below 1.
    pub cutters: &'a mut Vec<Box<dyn Cutter>>,
    hints: Hints,
    // How many states were decided.
    decided: u64,
}

impl<'a, P: Planes> ByPrograms<'a, P> {
    /// A decider that knows no rows yet, and has the cutters lent. It takes no memory.
    pub fn new(alloc: Global, planes: P, cutters: &'a mut Vec<Box<dyn Cutter>>) -> Self {
        ByPrograms {
            planes,
            cutters,
            hints: Hints::new(alloc),
            decided: 0,
        }
    }

    // Tells the cutters how far the search is, where one more state comes.
    fn tell(&mut self, claim: &Claim) {
        let progress = Progress {
            round: claim.crossings,
            opened: self.decided,
            best: claim.best,
        };
        for cutter in self.cutters.iter_mut() {
            tell_one(cutter, progress);
        }
        self.decided = self.decided.saturating_add(1);
    }

    // The node that opens a state whose own row is given: a leaf, the open pair of greatest value at the
    // point, or what the row asks for.
    fn open(
        &mut self,
        alloc: Global,
        claim: &Claim,
        given: &Given,
        pairs: &[(u32, u32)],
        row: Row,
        rows: &mut Vec<Row>,
    ) -> Result<Node, AllocError>
        requires graph { given.now.graph ≡ claim.now.graph.now }
        requires state { IsState claim.now.graph.now (state_of given.now) }
        requires positive { 1 ≤ claim.now.crossings }
        requires row { IsRowOfState claim.now.graph.now (state_of given.now) row }
        requires hold { All (RowHolds claim.now.graph.now) rows.old.items }
        requires room { length rows.old.items < 2 ^ 20 }
        ensures more { IfOk result (λ _. GrowsTo rows.old.items rows.new.items) }
        ensures hold { IfOk result (λ _. All (RowHolds claim.now.graph.now) rows.new.items) }
        ensures kinds { IfOk result (λ _. HaveKinds rows.old.items → HaveKinds rows.new.items) }
        ensures few { IfOk result (λ _. length rows.new.items ≤ max (length rows.old.items) 800000 + 1) }
        ensures keeps { IfOk result (MayOpen claim.now.graph.now claim.now.crossings rows.new.items (state_of given.now)) }
    {
        let own = row.copy(alloc)?;
        let leaf = self.with_own(alloc, claim, given, pairs, own, rows)?;
        if let Some(leaf) = leaf {
            return Ok(leaf);
        }
        let greatest = self.hints.greatest(alloc, claim.graph, pairs)?;
        if let Some((e, f)) = open_of(claim.graph, given, greatest) {
            return Ok(Node::Pair(e, f));
        }
        let node = by_row(alloc, claim, given, row, rows)?;
        Ok(node)
    }

    // The leaf that closes the state, where its program gives one with its own row.
    fn with_own(
        &mut self,
        alloc: Global,
        claim: &Claim,
        given: &Given,
        pairs: &[(u32, u32)],
        own: Row,
        rows: &mut Vec<Row>,
    ) -> Result<Option<Node>, AllocError>
        requires graph { given.now.graph ≡ claim.now.graph.now }
        requires state { IsState claim.now.graph.now (state_of given.now) }
        requires own { RowHolds claim.now.graph.now own }
        requires hold { All (RowHolds claim.now.graph.now) rows.old.items }
        ensures grown { IfOk result (λ _. IsGrown claim.now.graph.now rows.old.items rows.new.items) }
        ensures closes { let g = claim.now.graph.now in
            IfOk result (λ r. IfSome r (MayOpen g claim.now.crossings rows.new.items (state_of given.now))) }
    {
        if !keep(claim.graph, own, rows, &mut self.hints, true)? {
            return Ok(None);
        }
        let leaf = turns(
            alloc,
            claim,
            given,
            pairs,
            rows,
            &mut self.hints,
            self.cutters,
            TURNS_AFTER,
        )?;
        Ok(leaf)
    }

    // What is to be done in a state whose program gave no leaf: its crossings are planted.
    fn planted(
        &mut self,
        alloc: Global,
        claim: &Claim,
        given: &Given,
        pairs: &[(u32, u32)],
        rows: &mut Vec<Row>,
    ) -> Result<Decision, AllocError>
        requires graph { given.now.graph ≡ claim.now.graph.now }
        requires state { IsState claim.now.graph.now (state_of given.now) }
        requires positive { 1 ≤ claim.now.crossings }
        requires ones { ones_in claim.now.graph.now (state_of given.now) < claim.now.crossings }
        requires hold { All (RowHolds claim.now.graph.now) rows.old.items }
        requires room { length rows.old.items < 2 ^ 20 }
        ensures more { IfOk result (λ _. GrowsTo rows.old.items rows.new.items) }
        ensures hold { IfOk result (λ _. All (RowHolds claim.now.graph.now) rows.new.items) }
        ensures kinds { IfOk result (λ _. HaveKinds rows.old.items → HaveKinds rows.new.items) }
        ensures few { IfOk result (λ _. length rows.new.items ≤ max (length rows.old.items) 800000 + 1) }
        ensures decided { let g = claim.now.graph.now in
            IfOk result (IsDecision g claim.now.crossings rows.new.items (state_of given.now)) }
    {
        match plant(alloc, claim.graph, given, &mut self.planes)? {
            Planted::Flat(drawing) => {
                let drawn = counted(alloc, claim.graph, drawing)?;
                Ok(Decision::Found(drawn))
            }
            Planted::Excluded(row) => {
                let node = self.open(alloc, claim, given, pairs, row, rows)?;
                self.hints.opened(alloc, claim, given, &node)?;
                Ok(Decision::Open(node))
            }
        }
    }
}

impl<'a, P: Planes> Decider for ByPrograms<'a, P> {
    fn decide(
        &mut self,
        alloc: Global,
        claim: &Claim,
        given: &Given,
        rows: &mut Vec<Row>,
    ) -> Result<Decision, AllocError> {
        self.tell(claim);
        let pairs = claim.graph.pairs(alloc)?;
        self.hints
            .begin(alloc, claim, given, pairs.as_slice(), rows.as_slice())?;
        let leaf = turns(
            alloc,
            claim,
            given,
            pairs.as_slice(),
            rows,
            &mut self.hints,
            self.cutters,
            TURNS_BEFORE,
        )?;
        if let Some(leaf) = leaf {
            self.hints.opened(alloc, claim, given, &leaf)?;
            return Ok(Decision::Open(leaf));
        }
        let decision = self.planted(alloc, claim, given, pairs.as_slice(), rows)?;
        Ok(decision)
    }
}

// Tells a cutter how far the search is.
fn tell_one(cutter: &mut Box<dyn Cutter>, progress: Progress) {
    cutter.hear(progress)
}

// The pair, where it is an open one.
fn open_of(graph: &Graph, given: &Given, pair: Option<(u32, u32)>) -> Option<(u32, u32)>
    requires { given.now.graph ≡ graph.now }
    ensures { IfSome result (IsOpenPair graph.now (state_of given.now)) }
{
    let (e, f) = pair?;
    if e < f && f < graph.edges() && is_open(graph, given, e, f) {
        Some((e, f))
    } else {
        None
    }
}
