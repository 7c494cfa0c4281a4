// How many pairs are decided 1 in each pending state of a round, the first state last.
ghost use Rattle.std.specs.Prelude.{◌≡◌, ◌∷◌, ◌<◌, ◌≤◌, ◌++◌, ℕ, IfOk, IsFalse, IsTrue, List};
ghost use Rattle.xn_kinds.specs.State.{State, IsState};
ghost use Rattle.xn_kinds.specs.Tree.{Fits, children};
ghost use Rattle.xn_effort.specs.Potential.{IsSearched, ones_in};
ghost use Rattle.xn_tree.specs.Given.{state_of};
ghost use Rattle.xn_search.specs.Ones.{EndsWith, ones_of, with_children, with_copies};

use crate::decisions::Claim;
use std::alloc::{AllocError, Global};
use xn_kinds::Node;
use xn_tree::Given;

/// Whether the number of the first state is at least that of the crossings to be proved.
pub fn is_full(claim: &Claim, ones: &[u32]) -> bool
    requires counted { (n : ℕ) × EndsWith ones.now n }
    ensures full { IsTrue result → (n : ℕ) → EndsWith ones.now n → claim.now.crossings ≤ n }
    ensures low { IsFalse result → (n : ℕ) → EndsWith ones.now n → n < claim.now.crossings }
{
    ones[ones.len() - 1] >= claim.crossings
}

/// The numbers of its children in place of that of the first state, which is given and is opened by the node.
pub fn count_children(
    claim: &Claim,
    given: &Given,
    node: &Node,
    ones: &mut Vec<u32>,
) -> Result<(), AllocError>
    requires graph { given.now.graph ≡ claim.now.graph.now }
    requires state { IsState claim.now.graph.now (state_of given.now) }
    requires fits { Fits claim.now.graph.now (state_of given.now) node.now }
    requires searched { IsSearched claim.now.graph.now claim.now.crossings (state_of given.now) node.now }
    requires counted { EndsWith ones.old.items (ones_in claim.now.graph.now (state_of given.now)) }
    ensures { IfOk result (λ _. (left : List State) →
        ones.old.items ≡ ones_of claim.now.graph.now (state_of given.now ∷ left) →
        ones.new.items ≡ ones_of claim.now.graph.now (children (state_of given.now) node.now ++ left)) }
{
    let last = ones.len() - 1;
    let first = ones[last];
    ones.truncate(last);
    push_children(claim, given, node, first, ones)
}

// The numbers of the children of a state behind the others.
fn push_children(
    claim: &Claim,
    given: &Given,
    node: &Node,
    first: u32,
    ones: &mut Vec<u32>,
) -> Result<(), AllocError>
    requires graph { given.now.graph ≡ claim.now.graph.now }
    requires state { IsState claim.now.graph.now (state_of given.now) }
    requires fits { Fits claim.now.graph.now (state_of given.now) node.now }
    requires searched { IsSearched claim.now.graph.now claim.now.crossings (state_of given.now) node.now }
    requires first { first ≡ ones_in claim.now.graph.now (state_of given.now) }
    ensures { IfOk result (λ _. ones.new.items ≡ with_children ones.old.items first (state_of given.now) node.now) }
{
    match node {
        Node::Pair(_, _) => {
            ones.push(first + 1)?;
            ones.push(first)?;
            Ok(())
        }
        Node::Place(e, _) => push_copies(first, given.placed(*e).len() + 1, ones),
        Node::Leaf { .. } => Ok(()),
    }
}

// The number so many times behind the others.
fn push_copies(number: u32, count: usize, ones: &mut Vec<u32>) -> Result<(), AllocError>
    ensures { IfOk result (λ _. ones.new.items ≡ with_copies ones.old.items count number) }
{
    for _ in 0..count {
        ones.push(number)?;
    }
    Ok(())
}
