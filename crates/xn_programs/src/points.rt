// The point of a program, as the cutters are given it.
ghost use Rattle.std.specs.Prelude.{◌≡◌, ◌<◌, ◌^◌, IfOk, IsTrue};
ghost use Rattle.xn_cutter.specs.Point.{IsPoint, IsVar};
ghost use Rattle.xn_programs.specs.Named.{Named, place_in};

use crate::columns::Columns;
use crate::lines::{Lines, Order, pair_number};
use std::alloc::{AllocError, Global};
use xn_frac::Frac;
use xn_graph::Graph;
use xn_kinds::Var;
use xn_table::ONE;

/// The variables that aren't 0 at the point, the fixed ones too, with their values: the pairs, which are to
/// be given in rising order, and the orders that occur in known rows.
pub fn point_of(
    alloc: Global,
    graph: &Graph,
    pairs: &[(u32, u32)],
    lines: &Lines,
    columns: &Columns,
) -> Result<Vec<(Var, Frac)>, AllocError>
    ensures { IfOk result (λ point. IsPoint graph.now point.items) }
{
    let orders = orders_at(alloc, graph, lines, columns)?;
    let mut point = Vec::new(alloc);
    let mut next = 0;
    for &(e, f) in pairs {
        let value = columns.value(pair_number(graph.edges(), e, f));
        next = name(&mut point, next, graph, Var::Cross(e, f), value)?;
    }
    for &(order, value) in orders.as_slice() {
        let variable = Var::Before(order.along, order.first, order.second);
        next = name(&mut point, next, graph, variable, value)?;
    }
    Ok(point)
}

// The orders that occur, rising, with their values.
fn orders_at(
    alloc: Global,
    graph: &Graph,
    lines: &Lines,
    columns: &Columns,
) -> Result<Vec<(Order, i64)>, AllocError> {
    let mut orders = Vec::new(alloc);
    let mut variable = graph.edges().wrapping_mul(graph.edges());
    for order in lines.orders() {
        orders.push((*order, columns.value(variable)))?;
        variable = variable.wrapping_add(1);
    }
    orders.sort()?;
    Ok(orders)
}

// A variable more, if its value isn't 0, its place is at least the next one, and it is one of the graph.
// Answers what is the next place then.
fn name(
    point: &mut Vec<(Var, Frac)>,
    next: u128,
    graph: &Graph,
    variable: Var,
    value: i64,
) -> Result<u128, AllocError>
    requires { Named graph.now point.old.items next }
    ensures { IfOk result (Named graph.now point.new.items) }
{
    let place = place_of(variable);
    if value == 0 || place < next || !is_var(graph, variable) {
        return Ok(next);
    }
    point.push((variable, fraction(value)))?;
    Ok(place + 1)
}

// The place of a variable among all.
fn place_of(variable: Var) -> u128
    ensures place { result ≡ place_in variable }
    ensures small { result < 2 ^ 100 }
{
    match variable {
        Var::Cross(e, f) => u128::from(e) * (1 << 32) + u128::from(f),
        Var::Before(e, f, g) => {
            (u128::from(e) + 1) * (1 << 64) + u128::from(f) * (1 << 32) + u128::from(g)
        }
    }
}

// Whether the variable is one of the graph.
fn is_var(graph: &Graph, variable: Var) -> bool
    ensures { IsTrue result → IsVar graph.now variable }
{
    let edges = graph.edges();
    match variable {
        Var::Cross(e, f) => e < f && f < edges && graph.independent(e, f),
        Var::Before(e, f, g) => {
            f < g && g < edges && e < edges && graph.independent(e, f) && graph.independent(e, g)
        }
    }
}

// A number of the table as a fraction.
fn fraction(value: i64) -> Frac {
    Frac::new(i128::from(value), i128::from(ONE))
}
