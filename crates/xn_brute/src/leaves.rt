// The value of a leaf, as far as the values of the variables are known.
ghost use Rattle.std.specs.Prelude.{◌≡◌, ◌<◌, ◌≤◌, pos, ◌-ℤ◌, ◌*ℤ◌, IfOk, All, length};
ghost use Rattle.xn_kinds.specs.Row.{orders_of, pairs_value, turns_value, value_of};
ghost use Rattle.xn_brute.specs.Known.{Evaluates, known_of};
ghost use Rattle.xn_brute.specs.Leaf.{AreEdges, IsSmall, IsSmallPart, IsSmallRow, crossing_pairs, independent_part, pair_part, pairs_in, parts_in, parts_with, turns_along, value_in};

use crate::known::{Known, literal, value_of};
use crate::lists::has;
use xn_graph::Graph;
use xn_kinds::{Row, Var};

/// A leaf of a proof tree: a divisor, and rows by their numbers, each with its multiplier.
#[derive(Clone, Copy)]
pub struct Leaf<'a> {
    /// The graph.
    pub graph: &'a Graph,
    /// Rows over edges of the graph.
    pub rows: &'a [Row],
    /// The divisor.
    pub d: u64,
    /// The numbers of rows, each with its multiplier.
    pub parts: &'a [(u32, u64)],
}

// The list of an edge in the orders of a row.
fn order_of(row: &Row, e: u32) -> &[u32]
    ensures list { result.now ≡ orders_of row.now e }
    ensures short { All (λ l. length l ≤ 1000) row.now.orders → length result.now ≤ 1000 }
{
    let edges = row.edges.as_slice();
    for (i, x) in edges.iter().enumerate() {
        if *x == e {
            return if i < row.orders.len() {
                row.orders.at(i)
            } else {
                &[]
            };
        }
    }
    &[]
}

// Whether e and f cross otherwise than in the row.
fn pair_part(known: &Known, row: &Row, e: u32, f: u32) -> Result<u64, Var>
    ensures value { Evaluates (known_of known.now) (λ v. pair_part row.now v (e, f)) result }
    ensures bit { IfOk result (λ n. n ≤ 1) }
{
    let crosses = value_of(known, Var::Cross(e, f))?;
    Ok(if has(order_of(row, e), f) {
        1 - crosses
    } else {
        crosses
    })
}

// The same, and 0 for edges that aren't independent.
fn independent_part(known: &Known, graph: &Graph, row: &Row, e: u32, f: u32) -> Result<u64, Var>
    requires e_in { e < length graph.now.ends }
    requires f_in { f < length graph.now.ends }
    ensures value { Evaluates (known_of known.now) (λ v. independent_part graph.now row.now v e f) result }
    ensures bit { IfOk result (λ n. n ≤ 1) }
{
    if graph.independent(e, f) {
        pair_part(known, row, e, f)
    } else {
        Ok(0)
    }
}

// The sum over the pairs of e with each of these edges.
fn parts_with(known: &Known, graph: &Graph, row: &Row, e: u32, edges: &[u32]) -> Result<u64, Var>
    requires e_in { e < length graph.now.ends }
    requires edges_in { AreEdges graph.now edges.now }
    requires few { length edges.now ≤ 1000 }
    ensures value { Evaluates (known_of known.now) (parts_with graph.now row.now e edges.now) result }
    ensures small { IfOk result (λ n. n ≤ 1000) }
{
    let mut sum = 0;
    for f in edges {
        sum += independent_part(known, graph, row, e, *f)?;
    }
    Ok(sum)
}

// The sum over all independent pairs of a row.
fn pairs_value(known: &Known, graph: &Graph, row: &Row) -> Result<u64, Var>
    requires { IsSmallRow graph.now row.now }
    ensures value { Evaluates (known_of known.now) (pairs_value graph.now row.now) result }
    ensures small { IfOk result (λ n. n ≤ 1000000) }
{
    let edges = row.edges.as_slice();
    let mut sum = 0;
    for i in 0..edges.len() {
        sum += parts_with(known, graph, row, edges[i], &edges[i + 1..])?;
    }
    Ok(sum)
}

// The sum over each two neighbours in the list of an edge.
fn turns_along(known: &Known, e: u32, list: &[u32]) -> Result<u64, Var>
    requires { length list.now ≤ 1000 }
    ensures value { Evaluates (known_of known.now) (λ v. turns_along v e list.now) result }
    ensures small { IfOk result (λ n. n ≤ 1000) }
{
    let mut sum = 0;
    for i in 1..list.len() {
        sum += 1 - literal(known, e, list[i - 1], list[i])?;
    }
    Ok(sum)
}

// The sum over each two neighbours in each list of a row.
fn turns_value(known: &Known, row: &Row) -> Result<u64, Var>
    requires few { length row.now.edges ≤ 1000 }
    requires short { All (λ l. length l ≤ 1000) row.now.orders }
    ensures value { Evaluates (known_of known.now) (turns_value row.now) result }
    ensures small { IfOk result (λ n. n ≤ 1000000) }
{
    let edges = row.edges.as_slice();
    let mut sum = 0;
    for e in edges {
        sum += turns_along(known, *e, order_of(row, *e))?;
    }
    Ok(sum)
}

// The value of a row.
fn row_value(known: &Known, graph: &Graph, row: &Row) -> Result<u64, Var>
    requires { IsSmallRow graph.now row.now }
    ensures value { Evaluates (known_of known.now) (value_of graph.now row.now) result }
    ensures small { IfOk result (λ n. n ≤ 2000000) }
{
    Ok(pairs_value(known, graph, row)? + turns_value(known, row)?)
}

// A multiplier times what a value is above 1.
fn weighed(multiplier: u64, value: u64) -> i128
    requires { value ≤ 2000000 }
    ensures value { result ≡ pos multiplier *ℤ (pos value -ℤ pos 1) }
    ensures small { IsSmallPart 1 result }
{
    i128::from(multiplier) * (i128::from(value) - 1)
}

// The weighted sum of the rows of a leaf.
fn parts_value(known: &Known, leaf: &Leaf) -> Result<i128, Var>
    requires { IsSmall leaf.now }
    ensures value { Evaluates (known_of known.now) (parts_in leaf.now) result }
    ensures small { IfOk result (IsSmallPart 1000) }
{
    let mut sum = 0;
    for (number, multiplier) in leaf.parts {
        let value = row_value(known, leaf.graph, &leaf.rows[*number as usize])?;
        sum += weighed(*multiplier, value);
    }
    Ok(sum)
}

// The number of these pairs that cross.
fn crossings_in(known: &Known, pairs: &[(u32, u32)]) -> Result<u64, Var>
    ensures value { Evaluates (known_of known.now) (crossing_pairs pairs.now) result }
    ensures small { IfOk result (λ n. n ≤ length pairs.now) }
{
    let mut sum = 0;
    for (e, f) in pairs {
        sum += value_of(known, Var::Cross(*e, *f))?;
    }
    Ok(sum)
}

// A divisor times a number.
fn times(d: u64, number: u64) -> i128
    requires { number ≤ 2000000 }
    ensures value { result ≡ pos d *ℤ pos number }
    ensures small { IsSmallPart 1 result }
{
    i128::from(d) * i128::from(number)
}

/// The value of a leaf, or a variable that it needs and that isn't known.
///
/// The pairs are the independent pairs of the graph.
pub fn leaf_value(known: &Known, leaf: &Leaf, pairs: &[(u32, u32)]) -> Result<i128, Var>
    requires small { IsSmall leaf.now }
    requires pairs { pairs.now ≡ pairs_in leaf.now }
    requires few { length pairs.now ≤ 2000000 }
    ensures { Evaluates (known_of known.now) (value_in leaf.now) result }
{
    let crossings = crossings_in(known, pairs)?;
    let parts = parts_value(known, leaf)?;
    Ok(times(leaf.d, crossings) - parts)
}
