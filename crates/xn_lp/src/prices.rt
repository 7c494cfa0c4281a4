// The prices of the columns under multipliers of the rows, and what the rows then cost at the least.
ghost use Rattle.std.specs.Prelude.{◌≡◌, ℕ, ◌<◌, ℤ, ◌-ℤ◌, ◌*ℤ◌, IfOk, OnOk, length};
ghost use Rattle.xn_lp.specs.Program.{NamesColumns};
ghost use Rattle.xn_lp.specs.Whole.{total_to, number_at, terms_total, weighted_total, low_part, NameBelow, cost_total, combined_total, combined_reach, IsLeastTotal};

use crate::program::Lp;
use crate::stop::Stop;
use crate::whole::Whole;
use std::alloc::Global;
use xn_frac::Wide;

/// The least value over the box of weight times the cost, less the combined rows beyond what they have to reach.
pub fn least_total(
    alloc: Global,
    lp: &Lp,
    weight: Whole,
    multipliers: &[Whole],
) -> Result<Whole, Stop>
    requires columns { NamesColumns lp.now }
    requires each { length multipliers.now ≡ length lp.now.rows }
    ensures { IfOk result (IsLeastTotal lp.now weight (number_at multipliers.now)) }
{
    let prices = prices_of(alloc, lp, weight, multipliers)?;
    let reach = combined_reach(lp, multipliers)?;
    Ok(reach.plus(low_total(prices.as_slice())?)?)
}

// The price of each column: weight times its cost, less the rows' coefficients, each times its multiplier.
fn prices_of(
    alloc: Global,
    lp: &Lp,
    weight: Whole,
    multipliers: &[Whole],
) -> Result<Vec<Whole>, Stop>
    requires columns { NamesColumns lp.now }
    requires each { length multipliers.now ≡ length lp.now.rows }
    ensures len { IfOk result (λ v. length v.items ≡ length lp.now.cost) }
    ensures value { IfOk result (λ v. (u : ℕ → ℤ) → weighted_total v.items u
        ≡ weight *ℤ cost_total lp.now u -ℤ combined_total lp.now (number_at multipliers.now) u) }
{
    let mut prices = weighted_costs(alloc, lp.cost.as_slice(), weight)?;
    take_rows(prices.as_mut_slice(), lp, multipliers)?;
    Ok(prices)
}

// Takes each row's coefficients, each times the row's multiplier, from the prices of their columns.
fn take_rows(prices: &mut [Whole], lp: &Lp, multipliers: &[Whole]) -> Result<(), Wide>
    requires columns { NamesColumns lp.now }
    requires each { length multipliers.now ≡ length lp.now.rows }
    requires priced { length prices.old ≡ length lp.now.cost }
    ensures { OnOk result ((u : ℕ → ℤ) → weighted_total prices.new u
        ≡ weighted_total prices.old u -ℤ combined_total lp.now (number_at multipliers.now) u) }
{
    for i in 0..lp.rows.len() {
        take_row(prices, lp.rows.at(i).terms.as_slice(), multipliers[i])?;
    }
    Ok(())
}

// Weight times each cost.
fn weighted_costs(alloc: Global, cost: &[i64], weight: Whole) -> Result<Vec<Whole>, Stop>
    ensures len { IfOk result (λ v. length v.items ≡ length cost.now) }
    ensures value { IfOk result (λ v. (j : ℕ) → j < length cost.now → number_at v.items j ≡ weight *ℤ number_at cost.now j) }
{
    let mut prices = Vec::new(alloc);
    for c in cost {
        prices.push(weight.times(Whole::new(*c))?)?;
    }
    Ok(prices)
}

// Takes the row's coefficients, each times the multiplier, from the prices of their columns.
fn take_row(prices: &mut [Whole], terms: &[(u32, i64)], multiplier: Whole) -> Result<(), Wide>
    requires { NameBelow terms.now (length prices.old) }
    ensures { OnOk result ((u : ℕ → ℤ) → weighted_total prices.new u ≡ weighted_total prices.old u -ℤ multiplier *ℤ terms_total terms.now u) }
{
    for (column, coefficient) in terms {
        let at = *column as usize;
        let part = multiplier.times(Whole::new(*coefficient))?;
        prices[at] = prices[at].plus(part.negated())?;
    }
    Ok(())
}

// What the rows have to reach, each times its multiplier.
fn combined_reach(lp: &Lp, multipliers: &[Whole]) -> Result<Whole, Wide>
    requires { length multipliers.now ≡ length lp.now.rows }
    ensures { IfOk result (λ v. v ≡ combined_reach lp.now (number_at multipliers.now)) }
{
    let mut reach = Whole::new(0);
    for i in 0..lp.rows.len() {
        reach = reach.plus(multipliers[i].times(Whole::new(lp.rows.at(i).least))?)?;
    }
    Ok(reach)
}

// The sum of the prices below 0.
fn low_total(prices: &[Whole]) -> Result<Whole, Wide>
    ensures { IfOk result (λ v. v ≡ total_to (length prices.now) (λ j. low_part (number_at prices.now j))) }
{
    let mut total = Whole::new(0);
    for price in prices {
        if price.value() < 0 {
            total = total.plus(*price)?;
        }
    }
    Ok(total)
}
