// Fractions brought to one denominator.
ghost use Rattle.std.specs.Prelude.{◌≡◌, ◌<◌, ◌*◌, ℕ, ℤ, pos, ◌<ℤ◌, IfOk, length};
ghost use Rattle.xn_lp.specs.Box.{entry};
ghost use Rattle.xn_lp.specs.Whole.{number_at, IsOver, AreOver, Divides};

use crate::stop::Stop;
use crate::whole::Whole;
use std::alloc::Global;
use xn_frac::{Frac, Wide};

/// Numbers over one denominator.
#[derive(Debug, Drop)]
pub struct Scaled {
    /// The numerators.
    pub numbers: Vec<Whole>,
    /// The denominator, above 0.
    pub over: Whole,
}

/// The fractions over their least common denominator.
pub fn over_one(alloc: Global, fractions: &[Frac]) -> Result<Scaled, Stop>
    ensures { IfOk result (λ s. AreOver fractions.now s.numbers.items s.over) }
{
    let over = common_denominator(fractions)?;
    let numbers = numerators(alloc, fractions, over)?;
    Ok(Scaled { numbers, over })
}

// A number above 0 that every denominator divides.
fn common_denominator(fractions: &[Frac]) -> Result<Whole, Wide>
    ensures above { IfOk result (λ n. pos 0 <ℤ n) }
    ensures divided { IfOk result (λ n. (i : ℕ) → i < length fractions.now → Divides (entry fractions.now i).den n) }
{
    let mut over = Whole::new(1);
    for fraction in fractions {
        over = widened(over, *fraction)?;
    }
    Ok(over)
}

// The least multiple of the number that the fraction's denominator divides.
fn widened(over: Whole, fraction: Frac) -> Result<Whole, Wide>
    requires { pos 0 <ℤ over }
    ensures above { IfOk result (λ n. pos 0 <ℤ n) }
    ensures kept { IfOk result (λ n. (d : ℕ) → Divides d over → Divides d n) }
    ensures divided { IfOk result (λ n. Divides fraction.den n) }
{
    let missing = Frac::new(fraction.den(), over.value()).num();
    over.times(Whole::from_num(missing))
}

// The fractions' numerators over the denominator.
fn numerators(alloc: Global, fractions: &[Frac], over: Whole) -> Result<Vec<Whole>, Stop>
    requires above { pos 0 <ℤ over }
    requires divided { (i : ℕ) → i < length fractions.now → Divides (entry fractions.now i).den over }
    ensures len { IfOk result (λ v. length v.items ≡ length fractions.now) }
    ensures each { IfOk result (λ v. (i : ℕ) → i < length fractions.now → IsOver (entry fractions.now i) (number_at v.items i) over) }
{
    let mut numbers = Vec::new(alloc);
    for fraction in fractions {
        numbers.push(numerator(*fraction, over)?)?;
    }
    Ok(numbers)
}

// The fraction's numerator over the denominator.
fn numerator(fraction: Frac, over: Whole) -> Result<Whole, Wide>
    requires above { pos 0 <ℤ over }
    requires divided { Divides fraction.den over }
    ensures { IfOk result (λ n. IsOver fraction n over) }
{
    let times = over.value() / fraction.den();
    Whole::from_num(fraction.num()).times(Whole::from_num(times))
}
