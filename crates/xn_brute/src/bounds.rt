ghost use Rattle.std.specs.Prelude.{◌≡◌, ◌≤◌, ◌∷◌, IfOk, length};
ghost use Rattle.xn_kinds.specs.Bound.{IsLeastOver};
ghost use Rattle.xn_brute.specs.Bound.{IsBoundIn};
ghost use Rattle.xn_brute.specs.Known.{known_in, state_of, FitsKnown};
ghost use Rattle.xn_brute.specs.Leaf.{IsSmall, pairs_in, value_in};

use crate::known::{Given, Known};
use crate::leaves::{Leaf, leaf_value};
use std::alloc::{AllocError, Global};
use xn_kinds::Var;

/// The bound of a leaf in a state: the least of its value over all 0/1 values of the variables that the state doesn't give.
///
/// It tries them all, so the time doubles with each of these variables that the leaf reads. `is_small` tests whether a leaf
/// is one that it takes.
pub fn bound_by_search(alloc: Global, leaf: &Leaf, given: &Given) -> Result<i128, AllocError>
    requires { IsSmall leaf.now }
    ensures { IfOk result (IsBoundIn given.now leaf.now) }
{
    prove!(leaf.graph.pair_count() <= 499_500);
    let pairs = leaf.graph.pairs(alloc)?;
    least(alloc, leaf, &pairs, given, &[])
}

// The least value where further variables are tried: of an unknown variable that the leaf reads, both values are tried.
fn least(
    alloc: Global,
    leaf: &Leaf,
    pairs: &[(u32, u32)],
    given: &Given,
    tried: &[(Var, bool)],
) -> Result<i128, AllocError>
    requires small { IsSmall leaf.now }
    requires pairs { pairs.now ≡ pairs_in leaf.now }
    requires few { length pairs.now ≤ 2000000 }
    ensures { IfOk result (IsLeastOver (FitsKnown (known_in (state_of given.now) tried.now)) (value_in leaf.now)) }
{
    match leaf_value(&Known { given, tried }, leaf, pairs) {
        Ok(value) => Ok(value),
        Err(x) => {
            let zero = least(alloc, leaf, pairs, given, &with(alloc, tried, x, false)?)?;
            let one = least(alloc, leaf, pairs, given, &with(alloc, tried, x, true)?)?;
            Ok(if zero <= one { zero } else { one })
        }
    }
}

// The list with a variable and its value in front.
fn with(
    alloc: Global,
    tried: &[(Var, bool)],
    x: Var,
    is: bool,
) -> Result<Vec<(Var, bool)>, AllocError>
    ensures { IfOk result (λ list. list.items ≡ (x, is) ∷ tried.now) }
{
    let mut list = Vec::new(alloc);
    list.push((x, is))?;
    list.extend_from_slice(tried)?;
    Ok(list)
}
