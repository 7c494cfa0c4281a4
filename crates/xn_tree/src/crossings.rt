// The least of what the pairs give to the value of a leaf.
ghost use Rattle.std.specs.Prelude.{◌≡◌, ◌*◌, ◌<◌, ◌≤◌, ◌^◌, length};
ghost use Rattle.std.specs.List.Sorted.{IsStrictlyIncreasing};
ghost use Rattle.xn_model.specs.Lists.{one_if};
ghost use Rattle.xn_kinds.specs.Bound.{IsLeastOver};
ghost use Rattle.xn_kinds.specs.State.{InBox};
ghost use Rattle.xn_tree.specs.Leaf.{AddsPair, AddsPairsOf, IsLeaf, IsLeastOfPair, IsSmall, all_crosses, pair_term, pair_weight, state_in};

use crate::leasts::least_of;
use crate::leaves::Leaf;
use crate::lists::{has, is_edge, order_of, weighed};
use xn_kinds::Row;

// Whether the row has the pair and it crosses there, and whether the row has it and it doesn't cross.
fn pair_terms(row: &Row, e: u32, f: u32) -> (bool, bool)
    requires rise { IsStrictlyIncreasing row.now.edges }
    requires lists_fit { length row.now.orders ≡ length row.now.edges }
    ensures zero { one_if result.0 ≡ pair_term row.now e f 0 }
    ensures one { one_if result.1 ≡ pair_term row.now e f 1 }
{
    match order_of(row, e) {
        None => (false, false),
        Some(list) => {
            if has(list, f) {
                (true, false)
            } else {
                (false, is_edge(row, f))
            }
        }
    }
}

// The weighted sums of what the rows say of a pair, for 0 and for 1.
fn pair_weights(leaf: &Leaf, e: u32, f: u32) -> (u128, u128)
    requires { IsLeaf leaf.now }
    ensures zero { result.0 ≡ pair_weight leaf.now.rows.now leaf.now.parts.now e f 0 }
    ensures one { result.1 ≡ pair_weight leaf.now.rows.now leaf.now.parts.now e f 1 }
    ensures small { (result.0 ≤ 2 ^ 84) × (result.1 ≤ 2 ^ 84) }
{
    let mut zero = 0;
    let mut one = 0;
    for (number, multiplier) in leaf.parts {
        let (crossed, apart) = pair_terms(&leaf.rows[*number as usize], e, f);
        zero += weighed(*multiplier, crossed);
        one += weighed(*multiplier, apart);
    }
    (zero, one)
}

// The least of what a pair gives.
fn pair_least(leaf: &Leaf, e: u32, f: u32) -> i128
    requires leaf { IsLeaf leaf.now }
    requires rises { e < f }
    requires below { f < length leaf.now.graph.now.ends }
    ensures least { IsLeastOfPair leaf.now e f result }
    ensures small { IsSmall 1 result }
{
    let (zero, one) = pair_weights(leaf, e, f);
    let at_zero = -(zero as i128);
    let at_one = i128::from(leaf.d) - one as i128;
    least_of(leaf.given.value(e, f), at_zero, at_one)
}

// The least of what two edges give: 0 where they aren't independent.
fn part_least(leaf: &Leaf, e: u32, f: u32) -> i128
    requires leaf { IsLeaf leaf.now }
    requires rises { e < f }
    requires below { f < length leaf.now.graph.now.ends }
    ensures least { AddsPair leaf.now e f result }
    ensures small { IsSmall 1 result }
{
    if leaf.graph.independent(e, f) {
        pair_least(leaf, e, f)
    } else {
        0
    }
}

// The least of what the pairs of an edge with later edges give.
fn partners_least(leaf: &Leaf, e: u32) -> i128
    requires leaf { IsLeaf leaf.now }
    requires below { e < length leaf.now.graph.now.ends }
    ensures least { AddsPairsOf leaf.now e result }
    ensures small { IsSmall 1000 result }
{
    let edges = leaf.graph.edges();
    let mut sum = 0;
    for f in e + 1..edges {
        sum += part_least(leaf, e, f);
    }
    sum
}

/// The least of what all pairs of edges give to the value of a leaf.
pub fn crosses_least(leaf: &Leaf) -> i128
    requires { IsLeaf leaf.now }
    ensures least { IsLeastOver (InBox (state_in leaf.now)) (all_crosses leaf.now) result }
    ensures small { IsSmall 1000000 result }
{
    let mut sum = 0;
    for e in 0..leaf.graph.edges() {
        sum += partners_least(leaf, e);
    }
    sum
}
