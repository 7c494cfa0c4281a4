ghost use Rattle.std.specs.Prelude.{◌≡◌, IfNone, IfOk, IfSome};
ghost use Rattle.xn_kinds.specs.Row.{RowHolds};
ghost use Rattle.xn_kinds.specs.State.{IsState};
ghost use Rattle.xn_kura.specs.Flaws.{HasAKind};
ghost use Rattle.xn_tree.specs.Given.{state_of};
ghost use Rattle.xn_cutter.specs.Point.{IsPoint};
ghost use Rattle.xn_cut.specs.Cuts.{CrossesPlanted, IsCut, LieFlat};
ghost use Rattle.xn_cut.specs.Planted.{is_half, is_one, is_planted, takes};

use crate::literals::Literals;
use crate::orders::planted_orders;
use crate::planting::{Rule, planted_pairs};
use crate::rows::row_of;
use std::alloc::{AllocError, Global};
use xn_cutter::Cutter;
use xn_frac::Frac;
use xn_graph::Graph;
use xn_kinds::{Row, Var};
use xn_tree::Given;

/// Plants the pairs to which the point gives 1.
#[derive(Drop)]
pub struct OnesCutter {}

/// Plants the pairs to which the point gives at least 1/2.
#[derive(Drop)]
pub struct RoundCutter {}

/// Plants the pairs to which the point gives at least 1/2, in the order along each edge that the point
/// favours.
#[derive(Drop)]
pub struct OrderCutter {}

impl OnesCutter {
    /// A cutter, which keeps nothing.
    pub fn new() -> OnesCutter {
        OnesCutter {}
    }
}

impl RoundCutter {
    /// A cutter, which keeps nothing.
    pub fn new() -> RoundCutter {
        RoundCutter {}
    }
}

impl OrderCutter {
    /// A cutter, which keeps nothing.
    pub fn new() -> OrderCutter {
        OrderCutter {}
    }
}

impl Cutter for OnesCutter {
    fn cut(
        &mut self,
        alloc: Global,
        graph: &Graph,
        given: &Given,
        point: &[(Var, Frac)],
    ) -> Result<Option<Row>, AllocError>
        requires graph { given.now.graph ≡ graph.now }
        requires state { IsState graph.now (state_of given.now) }
        requires point { IsPoint graph.now point.now }
        ensures holds { IfOk result (λ cut. IfSome cut (RowHolds graph.now)) }
        ensures kind { IfOk result (λ cut. IfSome cut (λ row. HasAKind row.evidence)) }
        ensures planted { IfOk result (λ cut. IfSome cut (CrossesPlanted (is_planted is_one point.now))) }
        ensures none { IfOk result (λ cut. IfNone cut (LieFlat graph.now (is_planted is_one point.now))) }
    {
        match planted_row(alloc, graph, given, point, Rule::One, None)? {
            Some(row) => Ok(Some(row)),
            None => Ok(None),
        }
    }
}

impl Cutter for RoundCutter {
    fn cut(
        &mut self,
        alloc: Global,
        graph: &Graph,
        given: &Given,
        point: &[(Var, Frac)],
    ) -> Result<Option<Row>, AllocError>
        requires graph { given.now.graph ≡ graph.now }
        requires state { IsState graph.now (state_of given.now) }
        requires point { IsPoint graph.now point.now }
        ensures holds { IfOk result (λ cut. IfSome cut (RowHolds graph.now)) }
        ensures kind { IfOk result (λ cut. IfSome cut (λ row. HasAKind row.evidence)) }
        ensures planted { IfOk result (λ cut. IfSome cut (CrossesPlanted (is_planted is_half point.now))) }
        ensures none { IfOk result (λ cut. IfNone cut (LieFlat graph.now (is_planted is_half point.now))) }
    {
        match planted_row(alloc, graph, given, point, Rule::Half, None)? {
            Some(row) => Ok(Some(row)),
            None => Ok(None),
        }
    }
}

impl Cutter for OrderCutter {
    fn cut(
        &mut self,
        alloc: Global,
        graph: &Graph,
        given: &Given,
        point: &[(Var, Frac)],
    ) -> Result<Option<Row>, AllocError>
        requires graph { given.now.graph ≡ graph.now }
        requires state { IsState graph.now (state_of given.now) }
        requires point { IsPoint graph.now point.now }
        ensures holds { IfOk result (λ cut. IfSome cut (RowHolds graph.now)) }
        ensures kind { IfOk result (λ cut. IfSome cut (λ row. HasAKind row.evidence)) }
        ensures planted { IfOk result (λ cut. IfSome cut (CrossesPlanted (is_planted is_half point.now))) }
        ensures none { IfOk result (λ cut. IfNone cut (LieFlat graph.now (is_planted is_half point.now))) }
    {
        let literals = Literals::new(alloc, point)?;
        match planted_row(alloc, graph, given, point, Rule::Half, Some(&literals))? {
            Some(row) => Ok(Some(row)),
            None => Ok(None),
        }
    }
}

// A row in which the pairs cross that the rule plants, none where orders with these crossings have a flat
// web.
fn planted_row(
    alloc: Global,
    graph: &Graph,
    given: &Given,
    point: &[(Var, Frac)],
    rule: Rule,
    literals: Option<&Literals>,
) -> Result<Option<Row>, AllocError>
    requires graph { given.now.graph ≡ graph.now }
    requires point { IsPoint graph.now point.now }
    ensures { IfOk result (IsCut graph.now (is_planted (takes rule) point.now)) }
{
    let pairs = planted_pairs(alloc, point, rule)?;
    let orders = planted_orders(alloc, graph, given, pairs.as_slice(), literals)?;
    let found = row_of(alloc, graph, &orders, point, rule)?;
    Ok(found)
}
