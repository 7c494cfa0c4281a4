// Linear programs and their answers.
ghost use Rattle.std.specs.Prelude.{◌↔◌, IsTrue};

use crate::items::Items;
use crate::terms::name_below;
use xn_frac::Frac;

/// A row of a program: the sum of its terms is to be at least `least`.
#[derive(Debug, Drop)]
pub struct LpRow {
    /// Columns with their coefficients.
    pub terms: Items<(u32, i64)>,
    /// What the sum has to reach.
    pub least: i64,
}

/// A program: it asks for the least cost over 0 <= x <= 1 where the sum of each row is at least its `least`.
#[derive(Debug, Drop)]
pub struct Lp {
    /// The cost of each column.
    pub cost: Items<i64>,
    /// The rows.
    pub rows: Items<LpRow>,
}

impl Lp {
    ghost use Rattle.xn_lp.specs.Program.{NamesColumns};

    /// Whether every term names one of the columns.
    pub fn names_columns(&self) -> bool
        ensures { IsTrue result ↔ NamesColumns self.now }
    {
        for i in 0..self.rows.len() {
            if !name_below(self.rows.at(i).terms.as_slice(), self.cost.len()) {
                return false;
            }
        }
        true
    }
}

/// An answer to a program.
#[derive(Debug, Drop)]
pub enum LpAnswer {
    /// A point of the program, and multipliers of the rows that prove that no point costs less.
    Best {
        point: Items<Frac>,
        duals: Items<Frac>,
    },
    /// The program has no point: multipliers of the rows whose combined row no point of the box meets.
    Nothing {
        ray: Items<Frac>,
    },
}

/// Why a program has no answer.
#[derive(Clone, Copy, Debug, PartialEq, Eq)]
pub enum LpErr {
    /// An operation on these two fractions is out of range.
    Wide(Frac, Frac),
    /// This many pivots were made.
    PivotCap(u64),
    /// There are more than 200 rows or more than 2,000 columns.
    TooLarge { rows: u64, columns: u64 },
    /// There is no memory left.
    Memory,
}
