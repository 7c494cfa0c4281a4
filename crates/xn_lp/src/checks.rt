// Answers are given only after these exact checks.
ghost use Rattle.std.specs.Prelude.{◌≡◌, ◌<◌, ℤ, pos, ◌*ℤ◌, ◌<ℤ◌, IsTrue, IfOk, length, true};
ghost use Rattle.xn_lp.specs.Box.{entry};
ghost use Rattle.xn_lp.specs.Program.{NamesColumns, IsBest, IsRay};
ghost use Rattle.xn_lp.specs.Whole.{number_at, terms_total, cost_total, AreWithin, AreNatural, MeetsRows, NameBelow, IsPointTotal, IsBestTotal};

use crate::prices::least_total;
use crate::program::Lp;
use crate::scaled::{Scaled, over_one};
use crate::stop::Stop;
use crate::whole::Whole;
use std::alloc::Global;
use xn_frac::{Frac, Wide};

/// Whether the point and the multipliers are a best answer: true only where they are.
pub fn is_best(alloc: Global, lp: &Lp, point: &[Frac], duals: &[Frac]) -> Result<bool, Stop>
    requires { NamesColumns lp.now }
    ensures { IfOk result (λ yes. IsTrue yes → (length point.now ≡ length lp.now.cost) × (length duals.now ≡ length lp.now.rows)
        × IsBest lp.now (entry point.now) (entry duals.now)) }
{
    if point.len() != lp.cost.len() || duals.len() != lp.rows.len() {
        return Ok(false);
    }
    let point = over_one(alloc, point)?;
    let duals = over_one(alloc, duals)?;
    is_best_scaled(alloc, lp, &point, &duals)
}

// The same of whole numbers over one denominator.
fn is_best_scaled(alloc: Global, lp: &Lp, point: &Scaled, duals: &Scaled) -> Result<bool, Stop>
    requires columns { NamesColumns lp.now }
    requires each { length point.now.numbers.items ≡ length lp.now.cost }
    requires each_row { length duals.now.numbers.items ≡ length lp.now.rows }
    requires over { pos 0 <ℤ point.now.over }
    requires duals_over { pos 0 <ℤ duals.now.over }
    ensures { IfOk result (λ yes. IsTrue yes
        → IsBestTotal lp.now point.now.numbers.items point.now.over duals.now.numbers.items duals.now.over) }
{
    if !is_point(lp, point)? || !are_natural(duals.numbers.as_slice()) {
        return Ok(false);
    }
    let cost = cost_at(lp, point.numbers.as_slice())?;
    let least = least_total(alloc, lp, duals.over, duals.numbers.as_slice())?;
    Ok(are_same(cost, point.over, least, duals.over))
}

// Whether m / d is n / e.
fn are_same(m: Whole, d: Whole, n: Whole, e: Whole) -> bool
    requires first { pos 0 <ℤ d }
    requires second { pos 0 <ℤ e }
    ensures { IsTrue result → m *ℤ e ≡ n *ℤ d }
{
    Frac::new(m.value(), d.value()) == Frac::new(n.value(), e.value())
}

/// Whether the multipliers show that the program has no point: true only where they do.
pub fn is_ray(alloc: Global, lp: &Lp, ray: &[Frac]) -> Result<bool, Stop>
    requires { NamesColumns lp.now }
    ensures { IfOk result (λ yes. IsTrue yes → (length ray.now ≡ length lp.now.rows) × IsRay lp.now (entry ray.now)) }
{
    if ray.len() != lp.rows.len() {
        return Ok(false);
    }
    let ray = over_one(alloc, ray)?;
    if !are_natural(ray.numbers.as_slice()) {
        return Ok(false);
    }
    let least = least_total(alloc, lp, Whole::new(0), ray.numbers.as_slice())?;
    Ok(least.value() > 0)
}

// Whether every number is from 0 to the denominator.
fn lies_in_box(point: &Scaled) -> bool
    ensures { IsTrue result → AreWithin (length point.now.numbers.items) (number_at point.now.numbers.items) point.now.over }
{
    let over = point.over.value();
    point
        .numbers
        .iter()
        .all(|n| 0 <= n.value() && n.value() <= over)
}

// Whether every number is at least 0.
fn are_natural(numbers: &[Whole]) -> bool
    ensures { IsTrue result → AreNatural numbers.now }
{
    numbers.iter().all(|n| 0 <= n.value())
}

// Whether the point lies in the box and meets every row.
fn is_point(lp: &Lp, point: &Scaled) -> Result<bool, Wide>
    requires columns { NamesColumns lp.now }
    requires each { length point.now.numbers.items ≡ length lp.now.cost }
    ensures { IfOk result (λ yes. IsTrue yes → IsPointTotal lp.now point.now.numbers.items point.now.over) }
{
    if !lies_in_box(point) {
        return Ok(false);
    }
    meets_rows(lp, point)
}

// Whether every row's sum reaches its least.
fn meets_rows(lp: &Lp, point: &Scaled) -> Result<bool, Wide>
    requires columns { NamesColumns lp.now }
    requires each { length point.now.numbers.items ≡ length lp.now.cost }
    ensures { IfOk result (λ yes. IsTrue yes → MeetsRows lp.now (number_at point.now.numbers.items) point.now.over) }
{
    for i in 0..lp.rows.len() {
        let row = lp.rows.at(i);
        let reach = Whole::new(row.least).times(point.over)?;
        let sum = sum_of(row.terms.as_slice(), point.numbers.as_slice())?;
        if sum.value() < reach.value() {
            return Ok(false);
        }
    }
    Ok(true)
}

// The sum of the terms at the numbers.
fn sum_of(terms: &[(u32, i64)], numbers: &[Whole]) -> Result<Whole, Wide>
    requires { NameBelow terms.now (length numbers.now) }
    ensures { IfOk result (λ v. v ≡ terms_total terms.now (number_at numbers.now)) }
{
    let mut total = Whole::new(0);
    for (column, coefficient) in terms {
        let number = numbers[*column as usize];
        total = total.plus(Whole::new(*coefficient).times(number)?)?;
    }
    Ok(total)
}

// The cost of the numbers.
fn cost_at(lp: &Lp, numbers: &[Whole]) -> Result<Whole, Wide>
    requires { length numbers.now ≡ length lp.now.cost }
    ensures { IfOk result (λ v. v ≡ cost_total lp.now (number_at numbers.now)) }
{
    let mut total = Whole::new(0);
    for (i, cost) in lp.cost.as_slice().iter().enumerate() {
        total = total.plus(Whole::new(*cost).times(numbers[i])?)?;
    }
    Ok(total)
}
