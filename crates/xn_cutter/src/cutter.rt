ghost use Rattle.std.specs.Prelude.{◌≡◌, IfOk, IfSome};
ghost use Rattle.xn_kinds.specs.Row.{RowHolds};
ghost use Rattle.xn_kinds.specs.State.{IsState};
ghost use Rattle.xn_tree.specs.Given.{state_of};
ghost use Rattle.xn_cutter.specs.Point.{IsPoint};

use std::alloc::{AllocError, Global};
use xn_frac::Frac;
use xn_graph::Graph;
use xn_kinds::{Row, Var};
use xn_tree::Given;

/// How far a search is.
#[derive(Clone, Copy, Debug, PartialEq, Eq)]
pub struct Progress {
    /// The round, which is to prove that every drawing has at least so many crossings.
    pub round: u32,
    /// How many nodes were opened so far, those left out that took no decision.
    pub opened: u64,
    /// The crossings of the best drawing that is known.
    pub best: u32,
}

/// What looks for a row that a point breaks.
///
/// A point gives each variable that it names a number, from 0 to 1 where it comes from a linear program; one
/// that it doesn't name is 0, a decided one too.
pub trait Cutter: Drop {
    /// A row that holds for the graph, or none; at best one whose value at the point is below 1. It fails
    /// only for want of memory.
    fn cut(
        &mut self,
        alloc: Global,
        graph: &Graph,
        given: &Given,
        point: &[(Var, Frac)],
    ) -> Result<Option<Row>, AllocError>
        requires graph { given.now.graph ≡ graph.now }
        requires state { IsState graph.now (state_of given.now) }
        requires point { IsPoint graph.now point.now }
        ensures { IfOk result (λ found. IfSome found (RowHolds graph.now)) };

    /// Hears how far the search is that will ask it. One that leaves this out doesn't listen.
    fn hear(&mut self, _progress: Progress) {}
}
