// The turns of a state: its program is solved, and rows come in that are missed at its point.
ghost use Rattle.std.specs.Prelude.{◌≡◌, All, IfOk, IfSome};
ghost use Rattle.xn_kinds.specs.Row.{RowHolds};
ghost use Rattle.xn_kinds.specs.State.{IsState};
ghost use Rattle.xn_kinds.specs.Tree.{MayOpen};
ghost use Rattle.xn_kura.specs.Flaws.{HasAKind};
ghost use Rattle.xn_tree.specs.Given.{state_of};
ghost use Rattle.xn_cutter.specs.Point.{IsPoint};
ghost use Rattle.xn_programs.specs.Turns.{IsGrown, IsTurn, is_extension};

use crate::hints::{Hints, Worth};
use crate::leaves::{Turn, by_prices, by_ray, by_row_alone};
use std::alloc::{AllocError, Global};
use xn_cutter::Cutter;
use xn_frac::Frac;
use xn_graph::Graph;
use xn_kinds::{Evidence, Node, Row, Var};
use xn_search::Claim;
use xn_table::Outcome;
use xn_tree::Given;

/// Rows of cutters are kept while fewer than this are known.
const MOST_KNOWN: usize = 800_000;

/// Solves the program of a state and asks cutters, at most so many times: the leaf that closes the state,
/// where one is found. Rows that hold come behind the known ones.
pub fn turns(
    alloc: Global,
    claim: &Claim,
    given: &Given,
    pairs: &[(u32, u32)],
    rows: &mut Vec<Row>,
    hints: &mut Hints,
    cutters: &mut Vec<Box<dyn Cutter>>,
    most: u32,
) -> Result<Option<Node>, AllocError>
    requires graph { given.now.graph ≡ claim.now.graph.now }
    requires state { IsState claim.now.graph.now (state_of given.now) }
    requires hold { All (RowHolds claim.now.graph.now) rows.old.items }
    ensures grown { IfOk result (λ _. IsGrown claim.now.graph.now rows.old.items rows.new.items) }
    ensures closes { let g = claim.now.graph.now in
        IfOk result (λ r. IfSome r (MayOpen g claim.now.crossings rows.new.items (state_of given.now))) }
{
    for _ in 0..most {
        match solve_once(alloc, claim, given, rows.as_slice(), hints)? {
            Turn::Closed(leaf) => return Ok(Some(leaf)),
            Turn::Lost => {
                if !hints.renew(alloc)? {
                    return Ok(None);
                }
            }
            Turn::Open => {
                if !goes_on(alloc, claim, given, pairs, rows, hints, cutters)? {
                    return Ok(None);
                }
            }
        }
    }
    Ok(None)
}

// Whether rows came in that are missed at the point: known ones, or else those of cutters.
fn goes_on(
    alloc: Global,
    claim: &Claim,
    given: &Given,
    pairs: &[(u32, u32)],
    rows: &mut Vec<Row>,
    hints: &mut Hints,
    cutters: &mut Vec<Box<dyn Cutter>>,
) -> Result<bool, AllocError>
    requires graph { given.now.graph ≡ claim.now.graph.now }
    requires state { IsState claim.now.graph.now (state_of given.now) }
    requires hold { All (RowHolds claim.now.graph.now) rows.old.items }
    ensures grown { IfOk result (λ _. IsGrown claim.now.graph.now rows.old.items rows.new.items) }
{
    if hints.add_missed(alloc)? {
        return Ok(true);
    }
    let point = hints.point(alloc, claim.graph, pairs)?;
    let has_middle = hints.program().columns().has_middle();
    let mut came_in = false;
    for cutter in cutters.iter_mut() {
        if ask(cutter, alloc, claim, given, point.as_slice(), rows, hints)? {
            came_in = true;
        }
        if !has_middle {
            return Ok(came_in);
        }
    }
    Ok(came_in)
}

// Whether a cutter gave a row that is new and missed at the point, which then came in.
fn ask(
    cutter: &mut Box<dyn Cutter>,
    alloc: Global,
    claim: &Claim,
    given: &Given,
    point: &[(Var, Frac)],
    rows: &mut Vec<Row>,
    hints: &mut Hints,
) -> Result<bool, AllocError>
    requires graph { given.now.graph ≡ claim.now.graph.now }
    requires state { IsState claim.now.graph.now (state_of given.now) }
    requires point { IsPoint claim.now.graph.now point.now }
    requires hold { All (RowHolds claim.now.graph.now) rows.old.items }
    ensures grown { IfOk result (λ _. IsGrown claim.now.graph.now rows.old.items rows.new.items) }
{
    match cutter.cut(alloc, claim.graph, given, point)? {
        None => Ok(false),
        Some(row) => keep(claim.graph, row, rows, hints, false),
    }
}

/// A row that holds comes behind the known ones if it is new and missed at the point, or new and the state's
/// own; none where too many are known, and none with an extension. Whether it is new and missed.
pub fn keep(
    graph: &Graph,
    row: Row,
    rows: &mut Vec<Row>,
    hints: &mut Hints,
    is_own: bool,
) -> Result<bool, AllocError>
    requires row { RowHolds graph.now row }
    requires hold { All (RowHolds graph.now) rows.old.items }
    ensures grown { IfOk result (λ _. IsGrown graph.now rows.old.items rows.new.items) }
{
    if has_extension(&row) {
        return Ok(false);
    }
    let worth = hints.weigh(graph, &row)?;
    let is_wanted = worth == Worth::Now || is_own && worth == Worth::Later;
    if !is_wanted {
        hints.forget();
        return Ok(false);
    }
    if !push_row(graph, row, rows)? {
        hints.forget();
        return Ok(false);
    }
    if worth == Worth::Now {
        hints.use_last()?;
        return Ok(true);
    }
    Ok(false)
}

// Whether the evidence of a row is an extension.
fn has_extension(row: &Row) -> bool
    ensures { result ≡ is_extension row.now.evidence }
{
    match &row.evidence {
        Evidence::Five { .. } => false,
        Evidence::ThreeThree { .. } => false,
        Evidence::Extension { .. } => true,
    }
}

// A row that holds comes behind the known ones, where few are known: whether that is so.
fn push_row(graph: &Graph, row: Row, rows: &mut Vec<Row>) -> Result<bool, AllocError>
    requires row { RowHolds graph.now row }
    requires kind { HasAKind row.evidence }
    requires hold { All (RowHolds graph.now) rows.old.items }
    ensures { IfOk result (λ _. IsGrown graph.now rows.old.items rows.new.items) }
{
    if rows.len() >= MOST_KNOWN {
        return Ok(false);
    }
    rows.push(row)?;
    Ok(true)
}

// One turn: the program is solved, and closes the state or doesn't.
fn solve_once(
    alloc: Global,
    claim: &Claim,
    given: &Given,
    rows: &[Row],
    hints: &mut Hints,
) -> Result<Turn, AllocError>
    requires graph { given.now.graph ≡ claim.now.graph.now }
    requires hold { All (RowHolds claim.now.graph.now) rows.now }
    ensures { IfOk result (IsTurn claim.now.graph.now claim.now.crossings rows.now (state_of given.now)) }
{
    if let Some(number) = hints.program().hopeless() {
        return by_row_alone(alloc, claim, given, rows, number);
    }
    match hints.program_mut().solve(claim.crossings) {
        Outcome::Best => Ok(Turn::Open),
        Outcome::Stalled => Ok(Turn::Lost),
        Outcome::Passed => by_prices(alloc, claim, given, rows, hints.program()),
        Outcome::Nothing => by_ray(alloc, claim, given, rows, hints.program()),
    }
}
