// One step of the dual simplex method, by Bland's rule: of those that may leave or enter, the first in the order.
ghost use Rattle.std.specs.Prelude.{◌≢◌, ◌<◌, pos, IsTrue, IfSome, vec_len};

use crate::stop::Stop;
use crate::table::{Basic, Nonbasic, Table, Variable, add_times, is_zero, one, put, zero};
use xn_frac::{Frac, Wide};

/// A basic variable beyond a bound.
#[derive(Clone, Copy, Debug)]
pub struct Leaving {
    /// Its place in the table.
    pub place: usize,
    /// Whether it is above its upper bound, and not below 0.
    pub is_above: bool,
}

/// The first variable beyond a bound.
pub fn first_leaving(table: &Table) -> Option<Leaving>
    ensures { IfSome result (λ l. l.place < vec_len table.now.basics) }
{
    let mut first: Option<(Leaving, Variable)> = None;
    for (place, basic) in table.basics.iter().enumerate() {
        let is_above = is_above(basic);
        let is_first = first.is_none_or(|(_, variable)| basic.variable.rank() < variable.rank());
        if is_first && (is_above || basic.value.num() < 0) {
            first = Some((Leaving { place, is_above }, basic.variable));
        }
    }
    first.map(|(leaving, _)| leaving)
}

// Whether a column is above 1.
fn is_above(basic: &Basic) -> bool {
    match basic.variable {
        Variable::Column(_) => one().less(basic.value),
        Variable::Surplus(_) => false,
    }
}

/// The variable at a bound that enters, with how much the leaving one rises with it.
#[derive(Clone, Copy, Debug)]
pub struct Entering {
    /// Its place in the table.
    pub place: usize,
    /// How much the leaving variable rises with it.
    pub slope: Frac,
    ghost some: { slope.num ≢ pos 0 },
}

// A variable that may enter, with the size of its price for each unit of the leaving one.
#[derive(Clone, Copy, Debug)]
struct Choice {
    entering: Entering,
    ratio: Frac,
    variable: Variable,
}

/// The variable that enters for the basic one: of those that bring it back to its bound, the one whose price allows the least.
pub fn best_entering(
    table: &Table,
    basic: &Basic,
    is_above: bool,
) -> Result<Option<Entering>, Wide> {
    let mut best: Option<Choice> = None;
    for (place, nonbasic) in table.nonbasics.iter().enumerate() {
        let slope = entry(basic.line.as_slice(), place);
        if !brings_back(*nonbasic, slope, is_above) {
            continue;
        }
        let choice = Choice {
            entering: Entering { place, slope },
            ratio: ratio_of(entry(table.prices.as_slice(), place), slope)?,
            variable: nonbasic.variable,
        };
        if best.is_none_or(|other| is_better(choice, other)) {
            best = Some(choice);
        }
    }
    Ok(best.map(|choice| choice.entering))
}

// Whether moving the variable off its bound brings the basic one back.
fn brings_back(nonbasic: Nonbasic, slope: Frac, is_above: bool) -> bool
    ensures { IsTrue result → slope.num ≢ pos 0 }
{
    slope.num() != 0 && (slope.num() > 0) != (nonbasic.at_upper != is_above)
}

// The size of the price for each unit of the leaving variable.
fn ratio_of(price: Frac, slope: Frac) -> Result<Frac, Wide>
    requires { slope.num ≢ pos 0 }
{
    if is_zero(price) {
        return Ok(zero());
    }
    size(price.div(slope)?)
}

// The absolute value.
fn size(fraction: Frac) -> Result<Frac, Wide> {
    if fraction.num() < 0 {
        zero().sub(fraction)
    } else {
        Ok(fraction)
    }
}

// Whether the ratio is less, or is the same and the variable comes before.
fn is_better(choice: Choice, other: Choice) -> bool {
    choice.ratio.less(other.ratio)
        || (!other.ratio.less(choice.ratio) && choice.variable.rank() < other.variable.rank())
}

/// Puts the leaving variable at the bound that it is beyond, and writes the entering one in those at a bound.
pub fn pivot(table: &mut Table, leaving: Leaving, entering: Entering) -> Result<(), Stop>
    requires { leaving.place < vec_len table.old.basics }
{
    let Basic {
        variable,
        value,
        mut line,
    } = table.basics.swap_remove(leaving.place);
    let bound = if leaving.is_above { one() } else { zero() };
    let step = bound.sub(value)?.div(entering.slope)?;
    solve_for(line.as_mut_slice(), entering)?;
    for basic in table.basics.iter_mut() {
        let factor = take_entry(basic.line.as_mut_slice(), entering.place);
        if !is_zero(factor) {
            if !is_zero(step) {
                basic.value = basic.value.add(factor.mul(step)?)?;
            }
            add_times(basic.line.as_mut_slice(), factor, line.as_slice())?;
        }
    }
    let price = take_entry(table.prices.as_mut_slice(), entering.place);
    add_times(table.prices.as_mut_slice(), price, line.as_slice())?;
    if let Some(place) = table.nonbasics.get_mut(entering.place) {
        let entered = *place;
        *place = Nonbasic {
            variable,
            at_upper: leaving.is_above,
        };
        table.basics.push(Basic {
            variable: entered.variable,
            value: entered.bound().add(step)?,
            line,
        })?;
    }
    Ok(())
}

// Turns the leaving variable's line into the entering one's.
fn solve_for(line: &mut [Frac], entering: Entering) -> Result<(), Wide> {
    for slot in line.iter_mut() {
        if !is_zero(*slot) {
            *slot = zero().sub(slot.div(entering.slope)?)?;
        }
    }
    put(line, entering.place, one().div(entering.slope)?);
    Ok(())
}

// The entry at the place, and 0 past the end.
fn entry(line: &[Frac], place: usize) -> Frac {
    line.get(place).copied().unwrap_or(zero())
}

// Takes the entry out of the line.
fn take_entry(line: &mut [Frac], place: usize) -> Frac {
    let taken = entry(line, place);
    put(line, place, zero());
    taken
}
