// The dual simplex method. It answers a candidate, which is checked before it is given.
ghost use Rattle.std.specs.Prelude.{◌<◌, IfOk, IfSome, length};

use crate::pivot::{Leaving, best_entering, first_leaving, pivot};
use crate::program::{Lp, LpRow};
use crate::stop::Stop;
use crate::table::{Table, Variable, is_zero, one, put, whole, zero};
use std::alloc::{AllocError, Global};
use xn_frac::{Frac, Wide};

/// A candidate for an answer.
#[derive(Debug, Drop)]
pub enum Candidate {
    /// A point with multipliers.
    Best { point: Vec<Frac>, duals: Vec<Frac> },
    /// Multipliers whose row no point of the box meets.
    Nothing { ray: Vec<Frac> },
}

// How the pivots of a table end.
enum End {
    // No variable is beyond a bound.
    Settled,
    // This variable is beyond a bound, and none brings it back.
    Stuck(Leaving),
    // All pivots are spent.
    Spent,
}

/// A candidate, or none after so many pivots. Rows are taken in one by one, each the one that the point misses most.
pub fn find_candidate(alloc: Global, lp: &Lp, cap: u64) -> Result<Option<Candidate>, Stop> {
    let mut table = Table::start(alloc, lp)?;
    let mut left = cap;
    for _ in 0..=lp.rows.len() {
        match settle(&mut table, &mut left)? {
            End::Settled => {}
            End::Stuck(leaving) => {
                let ray = ray(alloc, &table, leaving, lp.rows.len())?;
                return Ok(Some(Candidate::Nothing { ray }));
            }
            End::Spent => return Ok(None),
        }
        let point = table.point(alloc, lp.cost.len())?;
        match worst_row(lp, point.as_slice())? {
            None => {
                let duals = table.duals(alloc, lp.rows.len())?;
                return Ok(Some(Candidate::Best { point, duals }));
            }
            Some((i, surplus)) => {
                let weights = weights(alloc, lp.rows.at(i), lp.cost.len())?;
                table.add_row(alloc, i, weights.as_slice(), surplus)?;
            }
        }
    }
    Ok(None)
}

// Pivots until no variable is beyond a bound.
fn settle(table: &mut Table, left: &mut u64) -> Result<End, Stop> {
    while let Some(leaving) = first_leaving(table) {
        let Some(entering) = best_entering(table, &table.basics[leaving.place], leaving.is_above)?
        else {
            return Ok(End::Stuck(leaving));
        };
        if *left == 0 {
            return Ok(End::Spent);
        }
        *left -= 1;
        pivot(table, leaving, entering)?;
    }
    Ok(End::Settled)
}

// The rows' multipliers in the line of a variable that nothing brings back.
fn ray(alloc: Global, table: &Table, leaving: Leaving, rows: usize) -> Result<Vec<Frac>, Stop> {
    let mut ray = vec![in alloc; zero(); rows]?;
    let Some(basic) = table.basics.get(leaving.place) else {
        return Ok(ray);
    };
    if let Variable::Surplus(i) = basic.variable {
        put(ray.as_mut_slice(), i, one());
    }
    for (nonbasic, slope) in table.nonbasics.iter().zip(&basic.line) {
        if let Variable::Surplus(i) = nonbasic.variable {
            let multiplier = if leaving.is_above {
                *slope
            } else {
                zero().sub(*slope)?
            };
            put(ray.as_mut_slice(), i, multiplier);
        }
    }
    Ok(ray)
}

// The row that the point misses most, with how far its sum is below what it has to reach.
fn worst_row(lp: &Lp, point: &[Frac]) -> Result<Option<(usize, Frac)>, Wide>
    ensures { IfOk result (λ found. IfSome found (λ worst. worst.0 < length lp.now.rows)) }
{
    let mut worst = None;
    let mut least = zero();
    for i in 0..lp.rows.len() {
        let surplus = surplus(lp.rows.at(i), point)?;
        if surplus.less(least) {
            worst = Some(i);
            least = surplus;
        }
    }
    Ok(worst.map(|i| (i, least)))
}

// How far the row's sum at the point passes what it has to reach.
fn surplus(row: &LpRow, point: &[Frac]) -> Result<Frac, Wide> {
    let mut sum = zero().sub(whole(row.least))?;
    for (column, coefficient) in row.terms.as_slice() {
        let value = point.get(*column as usize).copied().unwrap_or(zero());
        if !is_zero(value) && *coefficient != 0 {
            sum = sum.add(value.mul(whole(*coefficient))?)?;
        }
    }
    Ok(sum)
}

// The row's coefficients by column.
fn weights(alloc: Global, row: &LpRow, columns: usize) -> Result<Vec<Frac>, Stop> {
    let mut weights = vec![in alloc; zero(); columns]?;
    for (column, coefficient) in row.terms.as_slice() {
        if let Some(weight) = weights.get_mut(*column as usize) {
            *weight = weight.add(whole(*coefficient))?;
        }
    }
    Ok(weights)
}
