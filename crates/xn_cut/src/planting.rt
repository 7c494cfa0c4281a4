// The pairs that are planted at a point.
ghost use Rattle.std.specs.Prelude.{◌≡◌, ◌++◌, IfOk, OnOk};
ghost use Rattle.xn_cut.specs.Planted.{crossers, pair_of, pairs_in, partner, takes};

use std::alloc::{AllocError, Global};
use xn_frac::Frac;
use xn_kinds::Var;

/// Which numbers of a pair plant its crossing.
#[derive(Clone, Copy)]
pub enum Rule {
    /// The number 1.
    One,
    /// Those from 1/2 on.
    Half,
}

impl Rule {
    /// Whether the rule takes a number.
    pub fn takes(self, value: Frac) -> bool
        ensures { result ≡ takes self value }
    {
        let (num, den) = (value.num(), value.den());
        match self {
            Rule::One => num == den,
            Rule::Half => num > 0 && den - num <= num,
        }
    }
}

/// The pairs that are planted, in the order in which the point names them. It fails only for want of memory.
pub fn planted_pairs(
    alloc: Global,
    point: &[(Var, Frac)],
    rule: Rule,
) -> Result<Vec<(u32, u32)>, AllocError>
    ensures { IfOk result (λ pairs. pairs.items ≡ pairs_in (takes rule) point.now) }
{
    let mut pairs = Vec::new(alloc);
    for (variable, value) in point {
        push_pair(&mut pairs, *variable, *value, rule)?;
    }
    Ok(pairs)
}

// Appends the pair of a variable, if it is planted.
fn push_pair(
    pairs: &mut Vec<(u32, u32)>,
    variable: Var,
    value: Frac,
    rule: Rule,
) -> Result<(), AllocError>
    ensures { OnOk result (pairs.new.items ≡ pairs.old.items ++ pair_of (takes rule) (variable, value)) }
{
    if rule.takes(value) {
        if let Var::Cross(e, f) = variable {
            pairs.push((e, f))?;
        }
    }
    Ok(())
}

/// The edges that cross an edge in some pairs, in the order of the pairs. It fails only for want of memory.
pub fn crossers_of(alloc: Global, pairs: &[(u32, u32)], e: u32) -> Result<Vec<u32>, AllocError>
    ensures { IfOk result (λ list. list.items ≡ crossers pairs.now e) }
{
    let mut list = Vec::new(alloc);
    for (a, b) in pairs {
        push_partner(&mut list, e, *a, *b)?;
    }
    Ok(list)
}

// Appends the other edge of a pair of the edge.
fn push_partner(list: &mut Vec<u32>, e: u32, a: u32, b: u32) -> Result<(), AllocError>
    ensures { OnOk result (list.new.items ≡ list.old.items ++ partner e (a, b)) }
{
    if a == e {
        list.push(b)?;
    } else if b == e {
        list.push(a)?;
    }
    Ok(())
}
