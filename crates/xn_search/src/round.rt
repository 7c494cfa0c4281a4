// One round of the search: a proof of a number of crossings, or a drawing with fewer.
ghost use Rattle.std.specs.Prelude.{◌≡◌, ◌+◌, ◌-◌, ◌<◌, ◌≤◌, ◌^◌, [], All, IfOk, length, max};
ghost use Rattle.xn_kinds.specs.Row.{RowHolds};
ghost use Rattle.xn_kinds.specs.State.{IsState};
ghost use Rattle.xn_kinds.specs.declared.trees.Node.TheVariants.{Leaf};
ghost use Rattle.xn_effort.specs.Potential.{ones_in};
ghost use Rattle.xn_tree.specs.Given.{state_of};
ghost use Rattle.xn_search.specs.Choice.{GrowsTo, HaveKinds, IsRoundDecision};
ghost use Rattle.xn_search.specs.Ones.{EndsWith};
ghost use Rattle.xn_search.specs.Rounds.{IsRound};

use crate::decisions::{Claim, Decider, Decision, Drawn};
use crate::ones::{count_children, is_full};
use std::alloc::{AllocError, Global};
use xn_effort::laws::{closing_leaves, more_rows, rounds};
use xn_kinds::{Node, Row};
use xn_list::Sequence;
use xn_tree::{Given, TreeWalk};

/// How a round ends.
#[derive(Drop)]
pub enum End {
    /// Its nodes are a proof.
    Proved,
    /// Its budget is spent, and a state is left.
    Spent,
    /// The state that it came to has this drawing.
    Found(Drawn),
}

/// A round: the nodes that it opened, and how it ended.
#[derive(Drop)]
pub struct Round {
    /// The nodes in preorder.
    pub nodes: Vec<Node>,
    /// How many states were opened.
    pub spent: u64,
    /// Its end.
    pub end: End,
}

/// Searches for a proof of the claim, and opens at most so many states. A state costs constant time on average,
/// beside what the decider takes.
pub fn run<D: Decider>(
    alloc: Global,
    claim: &Claim,
    budget: u64,
    decider: &mut D,
    rows: &mut Vec<Row>,
) -> Result<Round, AllocError>
    requires positive { 1 ≤ claim.now.crossings }
    requires hold { All (RowHolds claim.now.graph.now) rows.old.items }
    requires room { max (length rows.old.items) 800000 + budget < 2 ^ 20 }
    ensures more { IfOk result (λ r. GrowsTo rows.old.items rows.new.items) }
    ensures hold { IfOk result (λ r. All (RowHolds claim.now.graph.now) rows.new.items) }
    ensures kinds { IfOk result (λ r. HaveKinds rows.old.items → HaveKinds rows.new.items) }
    ensures few { IfOk result (λ r. length rows.new.items ≤ max (length rows.old.items) 800000 + r.spent) }
    ensures round { IfOk result (IsRound claim.now.graph.now claim.now.crossings budget rows.new.items) }
{
    rounds();
    more_rows();
    let mut walk = TreeWalk::new(alloc, claim.graph)?;
    let mut ones = vec![in alloc; 0]?;
    let mut nodes = Vec::new(alloc);
    for spent in 0..budget {
        let given = walk.given();
        match choose(alloc, claim, given, ones.as_slice(), decider, rows)? {
            Decision::Found(drawn) => {
                return Ok(Round {
                    nodes,
                    spent: spent + 1,
                    end: End::Found(drawn),
                });
            }
            Decision::Open(node) => {
                count_children(claim, given, &node, &mut ones)?;
                walk.open(&node)?;
                nodes.push(node)?;
            }
        }
        if walk.is_finished() {
            return Ok(Round {
                nodes,
                spent: spent + 1,
                end: End::Proved,
            });
        }
    }
    Ok(Round {
        nodes,
        spent: budget,
        end: End::Spent,
    })
}

// What is to be done in a state: one with as many pairs decided 1 as the claim has crossings is a leaf.
fn choose<D: Decider>(
    alloc: Global,
    claim: &Claim,
    given: &Given,
    ones: &[u32],
    decider: &mut D,
    rows: &mut Vec<Row>,
) -> Result<Decision, AllocError>
    requires graph { given.now.graph ≡ claim.now.graph.now }
    requires state { IsState claim.now.graph.now (state_of given.now) }
    requires counted { EndsWith ones.now (ones_in claim.now.graph.now (state_of given.now)) }
    requires positive { 1 ≤ claim.now.crossings }
    requires hold { All (RowHolds claim.now.graph.now) rows.old.items }
    requires room { length rows.old.items < 2 ^ 20 }
    ensures more { IfOk result (λ _. GrowsTo rows.old.items rows.new.items) }
    ensures hold { IfOk result (λ _. All (RowHolds claim.now.graph.now) rows.new.items) }
    ensures kinds { IfOk result (λ _. HaveKinds rows.old.items → HaveKinds rows.new.items) }
    ensures few { IfOk result (λ _. length rows.new.items ≤ max (length rows.old.items) 800000 + 1) }
    ensures chosen { let g = claim.now.graph.now in
        IfOk result (IsRoundDecision g claim.now.crossings rows.new.items (state_of given.now)) }
{
    closing_leaves();
    if is_full(claim, ones) {
        return Ok(Decision::Open(closing_leaf(alloc)));
    }
    let decision = decider.decide(alloc, claim, given, rows)?;
    Ok(decision)
}

/// The leaf that takes no rows.
pub fn closing_leaf(alloc: Global) -> Node
    ensures { result ≡ Leaf 1 [] }
{
    Node::Leaf {
        d: 1,
        parts: Sequence::new(Vec::new(alloc)),
    }
}
