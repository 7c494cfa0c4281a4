// A linear program with the basis that its solving has come to.
ghost use Rattle.std.specs.Prelude.{◌≡◌, ◌+◌, ◌^◌, ◌≤◌, pos, ◌≤ℤ◌, false, OnErr, OnOk};
ghost use Rattle.xn_table.specs.Size.{of_size};

use crate::fixed::{ONE, whole};
use crate::tableau::{Entering, Leaving, Line, Tableau, Variable, entry};
use std::alloc::{AllocError, Global};
use std::marker::Model;

// The greatest number of columns, and of rows.
const MOST: usize = u32::MAX as usize;

// The pivots of one call: so many at most, and after the lesser number no longer by the steepest edge, which
// may go round in a circle.
const MOST_PIVOTS: u32 = 20_000;

const MOST_BY_EDGE: u32 = 2_000;

/// How a call of `solve` ended.
#[derive(Clone, Copy, Debug, PartialEq, Eq)]
pub enum Outcome {
    /// No row and no bound of a column is missed.
    Best,
    /// The value passed the limit.
    Passed,
    /// A row can't be met within the box: `ray` shows it.
    Nothing,
    /// It gave up, after 20,000 pivots.
    Stalled,
}

/// The program: the least sum of costs over columns between 0 and `ONE` that meet all rows. It goes on from
/// the basis that it has come to.
///
/// Contracts see how large it is.
#[derive(Debug, Drop)]
pub struct Table {
    columns: Vec<Place>,
    rows: Vec<Place>,
    tableau: Tableau,
    stuck: Option<Leaving>,
    pivots: u64,
}

// Where a variable stands: its place among those at a bound, or that of its line.
#[derive(Clone, Copy, Debug)]
enum Place {
    Nonbasic(usize),
    Basic(usize),
}

impl Model for Table {
    ghost use Rattle.std.specs.Prelude.{◌<◌, ◌^◌, vec_len};
    ghost use Rattle.xn_table.specs.Size.{Size, of_size};

    ghost Value = { Size };

    ghost view = { λ t. of_size (vec_len t.columns) (vec_len t.rows) };

    ghost invariant = { λ t. (vec_len t.columns < 2 ^ 32) × (vec_len t.rows < 2 ^ 32) };
}

impl Table {
    /// No columns and no rows. It takes no memory.
    pub fn new(alloc: Global) -> Table
        ensures { result ≡ of_size 0 0 }
    {
        Table {
            columns: Vec::new(alloc),
            rows: Vec::new(alloc),
            tableau: Tableau::new(alloc),
            stuck: None,
            pivots: 0,
        }
    }

    /// Takes out all columns and rows. What it has of memory it keeps, but for the lines of its rows.
    pub fn clear(&mut self)
        ensures { self.new ≡ of_size 0 0 }
    {
        self.columns.clear();
        self.rows.clear();
        self.tableau.clear();
        self.stuck = None;
    }

    /// The number of columns.
    pub fn columns(&self) -> u32
        ensures { result ≡ self.now.columns }
    {
        self.columns.len() as u32
    }

    /// The number of rows.
    pub fn rows(&self) -> u32
        ensures { result ≡ self.now.rows }
    {
        self.rows.len() as u32
    }

    /// Adds a column between 0 and `ONE`, which stands at 0, with its cost: one below 0 counts as 0. Its
    /// number is the number of columns before. It fails for want of memory, or at 2^32 - 1 columns.
    pub fn add_column(&mut self, cost: i64) -> Result<(), AllocError>
        ensures ok { OnOk result (self.new ≡ of_size (self.old.columns + 1) self.old.rows) }
        ensures err { OnErr result (self.new ≡ self.old) }
    {
        let count = self.columns.len();
        if count >= MOST {
            return Err(AllocError);
        }
        self.columns.reserve(1)?;
        self.tableau
            .add_nonbasic(Variable::Column(count as u32), cost.max(0))?;
        self.columns.push_reserved(Place::Nonbasic(count));
        Ok(())
    }

    /// Adds a row: the sum of the coefficients times the columns is at least `least`, all whole numbers.
    /// Columns that aren't there are passed over. It is written over the present basis, so it may come after
    /// pivots. It fails for want of memory, or at 2^32 - 1 rows.
    pub fn add_row(&mut self, terms: &[(u32, i64)], least: i64) -> Result<(), AllocError>
        ensures ok { OnOk result (self.new ≡ of_size self.old.columns (self.old.rows + 1)) }
        ensures err { OnErr result (self.new ≡ self.old) }
    {
        let count = self.rows.len();
        if count >= MOST {
            return Err(AllocError);
        }
        let line = self.line(Variable::Surplus(count as u32), terms, least)?;
        self.rows.reserve(1)?;
        self.tableau.lines.push(line)?;
        self.rows.push_reserved(Place::Basic(count));
        Ok(())
    }

    /// Pivots until no row and no bound is missed, or the value is above the limit. The limit is in fixed
    /// point, as are all numbers that the table gives.
    pub fn solve(&mut self, limit: i64) -> Outcome
        ensures { self.new ≡ self.old }
    {
        self.stuck = None;
        for pivot in 0..MOST_PIVOTS {
            if self.tableau.value > limit {
                return Outcome::Passed;
            }
            let Some(leaving) = self.tableau.leaving(pivot >= MOST_BY_EDGE) else {
                return Outcome::Best;
            };
            let Some(entering) = self.tableau.entering(leaving) else {
                self.stuck = Some(leaving);
                return Outcome::Nothing;
            };
            self.pivot(leaving, entering);
        }
        Outcome::Stalled
    }

    /// The cost of the present point: no point of the program costs less, but for rounding.
    pub fn value(&self) -> i64 {
        self.tableau.value
    }

    /// How many pivots the table has made since it is there.
    pub fn pivots(&self) -> u64 {
        self.pivots
    }

    /// The value of a column, pulled to its bounds, and 0 where there is no such column.
    pub fn point(&self, column: u32) -> i64
        ensures none { self.now.columns ≤ column → result ≡ pos 0 }
        ensures above { pos 0 ≤ℤ result }
        ensures below { result ≤ℤ pos (2 ^ 36) }
    {
        match self.columns.get(column as usize) {
            Some(place) => self.value_at(*place).clamp(0, ONE),
            None => 0,
        }
    }

    /// The multiplier of a row, and 0 where there is no such row: how much the cost rises with what the row
    /// has to reach.
    pub fn price(&self, row: u32) -> i64
        ensures none { self.now.rows ≤ row → result ≡ pos 0 }
        ensures above { pos 0 ≤ℤ result }
    {
        match self.rows.get(row as usize) {
            Some(Place::Nonbasic(place)) => entry(self.tableau.prices.as_slice(), *place).max(0),
            _ => 0,
        }
    }

    /// After `Nothing`, the multiplier of a row, and 0 where there is no such row. The sum of the rows with
    /// these multipliers is a row that no point of the box meets. After another outcome all are 0.
    pub fn ray(&self, row: u32) -> i64
        ensures none { self.now.rows ≤ row → result ≡ pos 0 }
        ensures above { pos 0 ≤ℤ result }
    {
        match (self.rows.get(row as usize), self.stuck) {
            (Some(place), Some(stuck)) => self.share(*place, stuck).max(0),
            _ => 0,
        }
    }

    /// Whether the row binds: its surplus stands at 0, since it isn't in the basis.
    pub fn binds(&self, row: u32) -> bool
        ensures { self.now.rows ≤ row → result ≡ false }
    {
        matches!(self.rows.get(row as usize), Some(Place::Nonbasic(_)))
    }

    // The surplus of a row, written in the variables at a bound.
    fn line(
        &self,
        variable: Variable,
        terms: &[(u32, i64)],
        least: i64,
    ) -> Result<Line, AllocError> {
        let alloc = *self.columns.allocator();
        let mut line = Line {
            variable,
            value: whole(least).wrapping_neg(),
            entries: vec![in alloc; 0; self.columns.len()]?,
        };
        for (column, coefficient) in terms {
            match self.columns.get(*column as usize) {
                Some(Place::Nonbasic(place)) => {
                    if let Some(nonbasic) = self.tableau.nonbasics.get(*place) {
                        line.add_nonbasic(*coefficient, *place, *nonbasic);
                    }
                }
                Some(Place::Basic(place)) => {
                    if let Some(other) = self.tableau.lines.get(*place) {
                        line.add_basic(*coefficient, other);
                    }
                }
                None => {}
            }
        }
        Ok(line)
    }

    // One pivot, with the places of the two variables.
    fn pivot(&mut self, leaving: Leaving, entering: Entering)
        ensures { self.new ≡ self.old }
    {
        self.pivots = self.pivots.wrapping_add(1);
        if let Some((left, entered)) = self.tableau.pivot(leaving, entering) {
            self.put(left, Place::Nonbasic(entering.place));
            self.put(entered, Place::Basic(leaving.place));
        }
    }

    // Notes where the variable stands.
    fn put(&mut self, variable: Variable, place: Place)
        ensures { self.new ≡ self.old }
    {
        match variable {
            Variable::Column(column) => {
                if let Some(slot) = self.columns.get_mut(column as usize) {
                    *slot = place;
                }
            }
            Variable::Surplus(row) => {
                if let Some(slot) = self.rows.get_mut(row as usize) {
                    *slot = place;
                }
            }
        }
    }

    // The value of the variable at the place.
    fn value_at(&self, place: Place) -> i64 {
        match place {
            Place::Nonbasic(place) => match self.tableau.nonbasics.get(place) {
                Some(nonbasic) => nonbasic.bound(),
                None => 0,
            },
            Place::Basic(place) => match self.tableau.lines.get(place) {
                Some(line) => line.value,
                None => 0,
            },
        }
    }

    // The multiplier of a surplus in the line of the variable that nothing brings back.
    fn share(&self, place: Place, stuck: Leaving) -> i64 {
        match place {
            Place::Nonbasic(place) => match self.tableau.lines.get(stuck.place) {
                Some(line) if stuck.is_above => entry(line.entries.as_slice(), place),
                Some(line) => entry(line.entries.as_slice(), place).wrapping_neg(),
                None => 0,
            },
            Place::Basic(place) if place == stuck.place => ONE,
            Place::Basic(_) => 0,
        }
    }
}
