// The answer of a program.
ghost use Rattle.std.specs.Prelude.{◌≡◌, ◌↔◌, ◌<◌, ◌*◌, ◌+◌, length, IfOk, IfErr, IfSome};
ghost use Rattle.xn_lp.specs.Program.{NamesColumns, AnswerHolds, HasCause, HasNoPoint, IsNothing, IsTooLarge};

use crate::checks::{is_best, is_ray};
use crate::items::Items;
use crate::program::{Lp, LpAnswer, LpErr};
use crate::simplex::{Candidate, find_candidate};
use crate::stop::Stop;
use std::alloc::Global;
use xn_frac::Frac;

/// The most rows of a program.
const MAX_ROWS: usize = 200;
/// The most columns of a program.
const MAX_COLUMNS: usize = 2_000;

/// A best point of the program with multipliers that prove it, or a ray that shows that it has no point.
///
/// It makes at most 64 pivots for each row and column. Each answer is checked exactly before it is given.
pub fn solve_lp(alloc: Global, lp: &Lp) -> Result<LpAnswer, LpErr>
    requires { NamesColumns lp.now }
    ensures answer { IfOk result (AnswerHolds lp.now) }
    ensures nothing { IfOk result (λ a. IsNothing a ↔ HasNoPoint lp.now) }
    ensures err { IfErr result (HasCause lp.now) }
    ensures large { IsTooLarge lp.now → result ≡ Err (LpErr.TooLarge (length lp.now.rows) (length lp.now.cost)) }
{
    let (rows, columns) = (lp.rows.len(), lp.cost.len());
    if rows > MAX_ROWS || columns > MAX_COLUMNS {
        return Err(LpErr::TooLarge {
            rows: rows as u64,
            columns: columns as u64,
        });
    }
    let cap = 64 * (rows + columns) as u64;
    match checked_answer(alloc, lp, cap) {
        Ok(Some(answer)) => Ok(answer),
        Ok(None) => Err(LpErr::PivotCap(cap)),
        Err(Stop::Wide(wide)) => Err(LpErr::Wide(wide.a, wide.b)),
        Err(Stop::Memory) => Err(LpErr::Memory),
    }
}

// An answer that holds, or none after so many pivots.
fn checked_answer(alloc: Global, lp: &Lp, cap: u64) -> Result<Option<LpAnswer>, Stop>
    requires { NamesColumns lp.now }
    ensures { IfOk result (λ found. IfSome found (AnswerHolds lp.now)) }
{
    match find_candidate(alloc, lp, cap)? {
        Some(Candidate::Best { point, duals }) => checked_best(alloc, lp, point, duals),
        Some(Candidate::Nothing { ray }) => checked_ray(alloc, lp, ray),
        None => Ok(None),
    }
}

// The point with its multipliers, if they are a best answer.
fn checked_best(
    alloc: Global,
    lp: &Lp,
    point: Vec<Frac>,
    duals: Vec<Frac>,
) -> Result<Option<LpAnswer>, Stop>
    requires { NamesColumns lp.now }
    ensures { IfOk result (λ found. IfSome found (AnswerHolds lp.now)) }
{
    if !is_best(alloc, lp, point.as_slice(), duals.as_slice())? {
        return Ok(None);
    }
    Ok(Some(LpAnswer::Best {
        point: Items::new(point),
        duals: Items::new(duals),
    }))
}

// The ray, if it shows that there is no point.
fn checked_ray(alloc: Global, lp: &Lp, ray: Vec<Frac>) -> Result<Option<LpAnswer>, Stop>
    requires { NamesColumns lp.now }
    ensures { IfOk result (λ found. IfSome found (AnswerHolds lp.now)) }
{
    if !is_ray(alloc, lp, ray.as_slice())? {
        return Ok(None);
    }
    Ok(Some(LpAnswer::Nothing {
        ray: Items::new(ray),
    }))
}
