// The lines of the simplex method: the variables that stand at no bound, written in those that do. A place
// past the end of a list is answered by 0 or by nothing, so that no call asks anything of its caller.

use crate::fixed::{
    ONE, coarse_square, inverse, long_product, product, quotient, share_of_square, square,
    times_inverse, whole,
};
use std::alloc::{AllocError, Global};

// By how much a variable has to miss a bound before it leaves.
const LEAST_MISS: i64 = 1 << 14;

// The least slope with which a variable enters.
const LEAST_SLOPE: u64 = 1 << 12;

// Ratios no farther apart than one over two to this count as one.
const SAME_RATIO_BITS: u32 = 30;

// Entries of a pivot line below this count as 0.
const LEAST_ENTRY: u64 = 1 << 6;

/// A variable: a column, or by how much a row passes what it has to reach.
#[derive(Clone, Copy, Debug)]
pub enum Variable {
    Column(u32),
    Surplus(u32),
}

/// A variable at a bound.
#[derive(Clone, Copy, Debug)]
pub struct Nonbasic {
    /// Which variable.
    pub variable: Variable,
    /// Whether it stands at its upper bound, which is one, and not at 0.
    pub at_upper: bool,
}

/// A variable that is written in those at a bound.
#[derive(Debug, Drop)]
pub struct Line {
    /// Which variable.
    pub variable: Variable,
    /// Its value.
    pub value: i64,
    /// How much it rises with each variable at a bound.
    pub entries: Vec<i64>,
}

/// A basic variable beyond a bound.
#[derive(Clone, Copy, Debug)]
pub struct Leaving {
    /// The place of its line.
    pub place: usize,
    /// Whether it is above its upper bound, and not below 0.
    pub is_above: bool,
}

/// The variable at a bound that enters.
#[derive(Clone, Copy, Debug)]
pub struct Entering {
    /// Its place.
    pub place: usize,
    /// How much the leaving variable rises with it.
    pub slope: i64,
}

// An entry of a pivot line that isn't 0.
#[derive(Clone, Copy, Debug)]
struct Term {
    place: usize,
    entry: i64,
}

// A variable that may enter, with the sizes of its price and of its slope.
#[derive(Clone, Copy, Debug)]
struct Choice {
    entering: Entering,
    price: i64,
    slope: i64,
}

/// The lines.
#[derive(Debug, Drop)]
pub struct Tableau {
    /// The variables at a bound.
    pub nonbasics: Vec<Nonbasic>,
    /// How much the cost rises with each of them.
    pub prices: Vec<i64>,
    /// The others. Their entries past the last variable at a bound are 0.
    pub lines: Vec<Line>,
    /// The cost.
    pub value: i64,
    // Room for the terms of a pivot line, so that a pivot takes no memory.
    terms: Vec<Term>,
}

impl Nonbasic {
    /// The bound at which it stands.
    pub fn bound(self) -> i64 {
        if self.at_upper { ONE } else { 0 }
    }

    // Whether moving it off its bound brings a variable back that rises with it by this slope.
    fn brings_back(self, slope: i64, is_above: bool) -> bool {
        slope.unsigned_abs() >= LEAST_SLOPE && (slope > 0) != (self.at_upper != is_above)
    }
}

impl Line {
    // By how much the variable is beyond a bound, and whether it is the upper one.
    fn miss(&self) -> (i64, bool) {
        match self.variable {
            Variable::Column(_) if self.value > ONE => (self.value.wrapping_sub(ONE), true),
            _ => (self.value.wrapping_neg(), false),
        }
    }

    // What a pivot with this miss gains: the square of the miss over that of the length of the line, the
    // variable itself among its entries (Forrest and Goldfarb, Steepest-edge simplex algorithms for linear
    // programming, Mathematical Programming 57, 1992).
    fn gain(&self, miss: i64) -> i128 {
        let mut length = ONE;
        for entry in self.entries.iter() {
            length = length.wrapping_add(coarse_square(*entry));
        }
        share_of_square(square(miss), length)
    }

    /// Adds a whole multiple of a variable at a bound.
    pub fn add_nonbasic(&mut self, coefficient: i64, place: usize, nonbasic: Nonbasic) {
        if let Some(slot) = self.entries.get_mut(place) {
            *slot = slot.wrapping_add(whole(coefficient));
        }
        self.value = self
            .value
            .wrapping_add(coefficient.wrapping_mul(nonbasic.bound()));
    }

    /// Adds a whole multiple of a variable that is written in those at a bound.
    pub fn add_basic(&mut self, coefficient: i64, other: &Line) {
        for (slot, entry) in self.entries.iter_mut().zip(&other.entries) {
            *slot = slot.wrapping_add(coefficient.wrapping_mul(*entry));
        }
        self.value = self
            .value
            .wrapping_add(coefficient.wrapping_mul(other.value));
    }
}

impl Tableau {
    /// No variables.
    pub fn new(alloc: Global) -> Tableau {
        Tableau {
            nonbasics: Vec::new(alloc),
            prices: Vec::new(alloc),
            lines: Vec::new(alloc),
            value: 0,
            terms: Vec::new(alloc),
        }
    }

    /// Takes out all variables.
    pub fn clear(&mut self) {
        self.nonbasics.clear();
        self.prices.clear();
        self.lines.clear();
        self.value = 0;
    }

    /// Adds a variable at 0. Where it fails, nothing has changed but how far the lines go on with 0.
    pub fn add_nonbasic(&mut self, variable: Variable, cost: i64) -> Result<(), AllocError> {
        let count = self.nonbasics.len() + 1;
        for line in self.lines.iter_mut() {
            line.entries.resize(count, 0)?;
        }
        self.terms.resize(count, Term { place: 0, entry: 0 })?;
        self.nonbasics.reserve(1)?;
        self.prices.reserve(1)?;
        self.nonbasics.push_reserved(Nonbasic {
            variable,
            at_upper: false,
        });
        self.prices.push_reserved(cost);
        Ok(())
    }

    /// The variable that leaves: of those beyond a bound the one with the steepest edge, or the first.
    pub fn leaving(&self, takes_first: bool) -> Option<Leaving> {
        let mut best: Option<(Leaving, i128)> = None;
        for (place, line) in self.lines.iter().enumerate() {
            let (miss, is_above) = line.miss();
            if miss > LEAST_MISS {
                let leaving = Leaving { place, is_above };
                if takes_first {
                    return Some(leaving);
                }
                let most = share_of_square(square(miss), ONE);
                if best.is_none_or(|(_, greatest)| most > greatest) {
                    let gain = line.gain(miss);
                    if best.is_none_or(|(_, greatest)| gain > greatest) {
                        best = Some((leaving, gain));
                    }
                }
            }
        }
        best.map(|(leaving, _)| leaving)
    }

    /// The variable that enters: of those that bring the leaving one back, the one that costs least a unit.
    pub fn entering(&self, leaving: Leaving) -> Option<Entering> {
        let line = self.lines.get(leaving.place)?;
        let mut best: Option<Choice> = None;
        for (place, nonbasic) in self.nonbasics.iter().enumerate() {
            let slope = entry(line.entries.as_slice(), place);
            if nonbasic.brings_back(slope, leaving.is_above) {
                let choice = Choice {
                    entering: Entering { place, slope },
                    price: entry(self.prices.as_slice(), place).saturating_abs(),
                    slope: slope.saturating_abs(),
                };
                if best.is_none_or(|other| is_better(choice, other)) {
                    best = Some(choice);
                }
            }
        }
        best.map(|choice| choice.entering)
    }

    /// Puts the leaving variable at the bound that it is beyond, and writes the entering one in those at a
    /// bound. It answers the one that left and the one that entered.
    pub fn pivot(&mut self, leaving: Leaving, entering: Entering) -> Option<(Variable, Variable)> {
        let line = self.lines.get_mut(leaving.place)?;
        let nonbasic = self.nonbasics.get_mut(entering.place)?;
        let (left, entered) = (line.variable, *nonbasic);
        let bound = if leaving.is_above { ONE } else { 0 };
        let step = quotient(bound.wrapping_sub(line.value), entering.slope);
        solve_for(line.entries.as_mut_slice(), entering);
        let count = list_terms(line.entries.as_slice(), self.terms.as_mut_slice());
        line.variable = entered.variable;
        line.value = entered.bound().wrapping_add(step);
        *nonbasic = Nonbasic {
            variable: left,
            at_upper: leaving.is_above,
        };
        self.substitute(leaving.place, entering.place, step, count);
        Some((left, entered.variable))
    }

    // Writes the variable that entered by its terms, in the lines but its own and in the prices.
    fn substitute(&mut self, leaving: usize, entering: usize, step: i64, count: usize) {
        let terms = self.terms.get(..count).unwrap_or(&[]);
        for (place, line) in self.lines.iter_mut().enumerate() {
            if place != leaving {
                let factor = take_entry(line.entries.as_mut_slice(), entering);
                if factor != 0 {
                    line.value = line.value.wrapping_add(product(factor, step));
                    add_times(line.entries.as_mut_slice(), factor, terms);
                }
            }
        }
        let price = take_entry(self.prices.as_mut_slice(), entering);
        self.value = self.value.wrapping_add(product(price, step));
        add_times(self.prices.as_mut_slice(), price, terms);
    }
}

// Whether the price for each unit of the leaving variable is less, or is the same and the slope is greater. Both
// prices are compared for as many units as both slopes multiplied, since a quotient takes as long as ten products.
fn is_better(choice: Choice, other: Choice) -> bool {
    let mine = long_product(choice.price, other.slope);
    let its = long_product(other.price, choice.slope);
    let least = long_product(choice.slope, other.slope) >> SAME_RATIO_BITS;
    let gap = mine.wrapping_sub(its);
    if gap <= least && gap >= least.wrapping_neg() {
        choice.slope > other.slope
    } else {
        gap < 0
    }
}

// Turns the leaving variable's entries into the entering one's.
fn solve_for(entries: &mut [i64], entering: Entering) {
    let inverse = inverse(entering.slope.wrapping_neg());
    for slot in entries.iter_mut() {
        if *slot != 0 {
            let entry = times_inverse(*slot, inverse);
            *slot = if entry.unsigned_abs() < LEAST_ENTRY {
                0
            } else {
                entry
            };
        }
    }
    if let Some(slot) = entries.get_mut(entering.place) {
        *slot = quotient(ONE, entering.slope);
    }
}

// Lists the entries that aren't 0, and answers how many there are.
fn list_terms(entries: &[i64], terms: &mut [Term]) -> usize {
    let mut count = 0;
    for (place, entry) in entries.iter().enumerate() {
        if *entry != 0 {
            if let Some(term) = terms.get_mut(count) {
                *term = Term {
                    place,
                    entry: *entry,
                };
                count += 1;
            }
        }
    }
    count
}

// Adds the factor times the terms.
fn add_times(entries: &mut [i64], factor: i64, terms: &[Term]) {
    for term in terms {
        if let Some(slot) = entries.get_mut(term.place) {
            *slot = slot.wrapping_add(product(factor, term.entry));
        }
    }
}

/// The entry at the place, and 0 past the end.
pub fn entry(entries: &[i64], place: usize) -> i64 {
    entries.get(place).copied().unwrap_or(0)
}

// Takes the entry out.
fn take_entry(entries: &mut [i64], place: usize) -> i64 {
    match entries.get_mut(place) {
        Some(slot) => {
            let taken = *slot;
            *slot = 0;
            taken
        }
        None => 0,
    }
}
