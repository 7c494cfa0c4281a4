// The table of the simplex method: some variables stand at a bound, the others are written in them.
ghost use Rattle.std.specs.Prelude.{◌≡◌, ◌↔◌, pos, IsTrue, slice_set};
ghost use Rattle.xn_frac.specs.Ratio.{whole};

use crate::program::Lp;
use crate::stop::Stop;
use std::alloc::{AllocError, Global};
use xn_frac::{Frac, Wide};

/// A variable: a column, or how far a row passes what it has to reach.
#[derive(Clone, Copy, Debug, PartialEq, Eq)]
pub enum Variable {
    Column(usize),
    Surplus(usize),
}

/// A variable at a bound.
#[derive(Clone, Copy, Debug)]
pub struct Nonbasic {
    /// Which variable.
    pub variable: Variable,
    /// Whether it stands at its upper bound, which is 1, and not at 0.
    pub at_upper: bool,
}

/// A variable that is written in those at a bound.
#[derive(Debug, Drop)]
pub struct Basic {
    /// Which variable.
    pub variable: Variable,
    /// Its value.
    pub value: Frac,
    /// How much it rises with each variable at a bound.
    pub line: Vec<Frac>,
}

/// The table. Its prices say how much the cost rises with each variable at a bound.
#[derive(Debug, Drop)]
pub struct Table {
    /// The variables at a bound.
    pub nonbasics: Vec<Nonbasic>,
    /// Their prices.
    pub prices: Vec<Frac>,
    /// The others.
    pub basics: Vec<Basic>,
}

impl Variable {
    /// Its place in Bland's order: columns before rows.
    pub fn rank(self) -> (bool, usize) {
        match self {
            Variable::Column(j) => (false, j),
            Variable::Surplus(i) => (true, i),
        }
    }

    // The row's coefficient of the variable, which is 0 of a row's surplus.
    fn weight(self, weights: &[Frac]) -> Frac {
        match self {
            Variable::Column(j) => weights.get(j).copied().unwrap_or(zero()),
            Variable::Surplus(_) => zero(),
        }
    }
}

impl Nonbasic {
    /// The bound at which it stands.
    pub fn bound(self) -> Frac {
        if self.at_upper { one() } else { zero() }
    }
}

/// 0.
pub fn zero() -> Frac
    ensures { result ≡ whole (pos 0) }
{
    Frac::whole(0)
}

/// 1.
pub fn one() -> Frac
    ensures { result ≡ whole (pos 1) }
{
    Frac::whole(1)
}

/// A whole number.
pub fn whole(number: i64) -> Frac
    ensures { result ≡ whole number }
{
    Frac::whole(i128::from(number))
}

/// Whether the fraction is 0.
pub fn is_zero(fraction: Frac) -> bool
    ensures { IsTrue result ↔ (fraction.num ≡ pos 0) }
{
    fraction.num() == 0
}

impl Table {
    /// The table with no row: each column stands at the bound where it costs less.
    pub fn start(alloc: Global, lp: &Lp) -> Result<Table, AllocError> {
        let mut nonbasics = Vec::new(alloc);
        let mut prices = Vec::new(alloc);
        for (j, cost) in lp.cost.as_slice().iter().enumerate() {
            nonbasics.push(Nonbasic {
                variable: Variable::Column(j),
                at_upper: *cost < 0,
            })?;
            prices.push(whole(*cost))?;
        }
        Ok(Table {
            nonbasics,
            prices,
            basics: Vec::new(alloc),
        })
    }

    /// The values of the columns.
    pub fn point(&self, alloc: Global, columns: usize) -> Result<Vec<Frac>, AllocError> {
        let mut point = vec![in alloc; zero(); columns]?;
        for nonbasic in &self.nonbasics {
            if let Variable::Column(j) = nonbasic.variable {
                put(point.as_mut_slice(), j, nonbasic.bound());
            }
        }
        for basic in &self.basics {
            if let Variable::Column(j) = basic.variable {
                put(point.as_mut_slice(), j, basic.value);
            }
        }
        Ok(point)
    }

    /// The prices of the rows, which are 0 of a row that stands at no bound.
    pub fn duals(&self, alloc: Global, rows: usize) -> Result<Vec<Frac>, AllocError> {
        let mut duals = vec![in alloc; zero(); rows]?;
        for (nonbasic, price) in self.nonbasics.iter().zip(&self.prices) {
            if let Variable::Surplus(i) = nonbasic.variable {
                put(duals.as_mut_slice(), i, *price);
            }
        }
        Ok(duals)
    }

    /// Adds the surplus of row i, written in the variables at a bound.
    pub fn add_row(
        &mut self,
        alloc: Global,
        i: usize,
        weights: &[Frac],
        value: Frac,
    ) -> Result<(), Stop> {
        let mut line = Vec::new(alloc);
        for nonbasic in &self.nonbasics {
            line.push(nonbasic.variable.weight(weights))?;
        }
        for basic in &self.basics {
            let weight = basic.variable.weight(weights);
            if !is_zero(weight) {
                add_times(line.as_mut_slice(), weight, basic.line.as_slice())?;
            }
        }
        self.basics.push(Basic {
            variable: Variable::Surplus(i),
            value,
            line,
        })?;
        Ok(())
    }
}

/// Writes the value at the place, if there is one.
pub fn put(values: &mut [Frac], place: usize, value: Frac)
    ensures { values.new ≡ slice_set values.old place value }
{
    if place < values.len() {
        values[place] = value;
    }
}

/// Adds the factor times the other line. Nothing that is 0 is multiplied.
pub fn add_times(line: &mut [Frac], factor: Frac, other: &[Frac]) -> Result<(), Wide> {
    if is_zero(factor) {
        return Ok(());
    }
    for (entry, term) in line.iter_mut().zip(other) {
        if !is_zero(*term) {
            *entry = entry.add(factor.mul(*term)?)?;
        }
    }
    Ok(())
}
