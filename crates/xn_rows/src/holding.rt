// The test of a row: its edges, its orders, its evidence.
ghost use Rattle.std.specs.Prelude.{◌≡◌, length, MatchResult};
ghost use Rattle.xn_model.specs.Graph.{HasNoLoop, IsGraph};
ghost use Rattle.xn_kinds.specs.Row.{EvidenceHolds, RowHolds};
ghost use Rattle.xn_kinds.specs.declared.rows.Evidence.TheVariants.{Extension};
ghost use Rattle.xn_kura.specs.Flaws.{HasAKind};
ghost use Rattle.xn_kinds.specs.Row.{orders_of};
ghost use Rattle.xn_model.specs.Orders.{IsOrders};
ghost use Rattle.xn_rows.specs.Holding.{HasPaths, HasSizes, IsCauseFor, IsRowCause};

use crate::causes::RowErr;
use crate::edges::wrong_edge;
use std::alloc::{AllocError, Global};
use xn_graph::{Graph, Web};
use xn_kinds::{Evidence, EvidenceFlaw, Row, RowFlaw};
use xn_kura::{Marks, holds};
use xn_orders::{OrdersFlaw, orders_flaw, planarise};
use xn_reach::{Extended, list_flaw, reach_end};

/// Whether a row is one of the graph and holds; if not, its first flaw.
///
/// The flaws, in this order: edges that don't rise in range; entries that aren't listed, stand twice or only one way;
/// dependent edges that cross; the flaw of the evidence; an end of an extension that is reached. The time is near linear in
/// the size of the row and its web, but for an extension, where it is that of a planarity test of the listed segments.
pub fn row_holds(alloc: Global, graph: &Graph, row: &Row) -> Result<(), RowErr>
    requires { HasSizes row.now }
    ensures { MatchResult result (λ _. RowHolds graph.now row.now) (IsRowCause graph.now row.now) }
{
    check_orders(alloc, graph, row)?;
    let web = planarise(alloc, graph, row.edges.as_slice(), &row.orders)?;
    check_evidence(alloc, &web, &row.evidence)
}

// Whether the lists are orders over the edges.
fn check_orders(alloc: Global, graph: &Graph, row: &Row) -> Result<(), RowErr>
    requires { length row.now.orders ≡ length row.now.edges }
    ensures orders { MatchResult result (λ _. IsOrders graph.now.ends row.now.edges (orders_of row.now)) (IsRowCause graph.now row.now) }
    ensures graph { IsGraph graph.now }
{
    let edges = row.edges.as_slice();
    if let Some(e) = wrong_edge(graph.edges(), edges) {
        return Err(RowErr::Flaw(RowFlaw::Edge(e)));
    }
    match orders_flaw(alloc, graph, edges, &row.orders)? {
        None => Ok(()),
        Some(OrdersFlaw::Stray(e, f)) => Err(RowErr::Flaw(RowFlaw::Order(e, f))),
        Some(OrdersFlaw::Dependent(e, f)) => Err(RowErr::Flaw(RowFlaw::Dependent(e, f))),
    }
}

// Whether the evidence holds for a web.
fn check_evidence(alloc: Global, web: &Web, evidence: &Evidence) -> Result<(), RowErr>
    requires paths { HasPaths evidence.now }
    requires no_loop { HasNoLoop web.now.ends }
    ensures { MatchResult result (λ _. EvidenceHolds web.now evidence.now) (IsCauseFor web.now evidence.now) }
{
    match evidence {
        Evidence::Five { .. } => check_paths(alloc, web, evidence),
        Evidence::ThreeThree { .. } => check_paths(alloc, web, evidence),
        Evidence::Extension { list } => check_extension(alloc, web, list.as_slice()),
    }
}

// Whether the paths of an evidence are as it says.
fn check_paths(alloc: Global, web: &Web, evidence: &Evidence) -> Result<(), RowErr>
    requires { HasAKind evidence.now }
    ensures { MatchResult result (λ _. EvidenceHolds web.now evidence.now) (IsCauseFor web.now evidence.now) }
{
    let mut marks = Marks::new(alloc, web)?;
    match holds(web, evidence, &mut marks) {
        Ok(()) => Ok(()),
        Err(flaw) => Err(RowErr::Flaw(RowFlaw::Evidence(flaw))),
    }
}

// Whether the end of a list isn't reached by flat insertions.
fn check_extension(alloc: Global, web: &Web, list: &[u32]) -> Result<(), RowErr>
    requires { HasNoLoop web.now.ends }
    ensures { let evidence = Extension list.now in
        MatchResult result (λ _. EvidenceHolds web.now evidence) (IsCauseFor web.now evidence) }
{
    if let Some(place) = list_flaw(alloc, web, list)? {
        return Err(RowErr::Flaw(RowFlaw::Evidence(EvidenceFlaw::List(place))));
    }
    match reach_end(alloc, web, list)? {
        Extended::None => Ok(()),
        Extended::Flat(_) => Err(RowErr::Flaw(RowFlaw::Extends)),
    }
}
