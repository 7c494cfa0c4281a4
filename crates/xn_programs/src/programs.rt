// The linear program of a state: the least number of crossings over the box of the state, where the rows that
// it takes have at least the value 1.
ghost use Rattle.std.specs.Prelude.{◌≡◌};

use crate::columns::{Columns, Entry, Outlook};
use crate::lines::{Lines, Term};
use std::alloc::{AllocError, Global};
use xn_graph::Graph;
use xn_table::{ONE, Outcome, Table};
use xn_tree::Given;

/// The most rows of a program.
const MOST_ROWS: u32 = 200;
/// How many missed rows are added at once.
const AT_ONCE: usize = 10;
/// By how much the value has to pass the greatest number of crossings that is to be excluded.
const MARGIN: i64 = ONE / 500;
/// By how much a row of the table may be missed at its own point, a ten thousandth.
const DRIFT: i64 = ONE / 10_000;
/// How often the table of a state is made anew.
const MOST_RENEWALS: u32 = 2;

/// The program of a state.
#[derive(Drop)]
pub struct Program {
    table: Table,
    columns: Columns,
    // for each row of the table the number of the known row
    numbers: Vec<u32>,
    // for each known row, up to the last of these, whether it is one of them
    marks: Vec<bool>,
    // how often the table was made anew in this state
    renewals: u32,
    // a known row whose value is 0 in the box
    hopeless: Option<u32>,
    // the terms of the row that is written
    line: Vec<(u32, i64)>,
    // the variables below this number are pairs
    pair_numbers: u32,
}

impl Program {
    /// A program of no state.
    pub fn new(alloc: Global) -> Program {
        Program {
            table: Table::new(alloc),
            columns: Columns::new(alloc),
            numbers: Vec::new(alloc),
            marks: Vec::new(alloc),
            renewals: 0,
            hopeless: None,
            line: Vec::new(alloc),
            pair_numbers: 0,
        }
    }

    /// The program of a state, with no rows.
    pub fn begin(
        &mut self,
        graph: &Graph,
        given: &Given,
        pairs: &[(u32, u32)],
        lines: &Lines,
    ) -> Result<(), AllocError>
        requires { given.now.graph ≡ graph.now }
    {
        self.clear();
        self.renewals = 0;
        self.hopeless = None;
        self.pair_numbers = graph.edges().wrapping_mul(graph.edges());
        self.columns.begin(graph, given, pairs, lines)
    }

    /// The variables.
    pub fn columns(&self) -> &Columns {
        &self.columns
    }

    /// The number of a row whose value is 0 in the box, where one was met.
    pub fn hopeless(&self) -> Option<u32> {
        self.hopeless
    }

    /// A known row comes in: it is left out where it can't be missed in the box, and noted where its value is
    /// 0 there.
    pub fn add(&mut self, lines: &Lines, number: u32) -> Result<(), AllocError> {
        let terms = lines.at(number as usize);
        match self.columns.outlook(terms) {
            Outlook::Met => Ok(()),
            Outlook::Hopeless => {
                self.hopeless = Some(number);
                Ok(())
            }
            Outlook::Open => self.write(terms, number),
        }
    }

    /// Whether there is no room for one more row.
    pub fn is_full(&self) -> bool {
        self.table.rows() >= MOST_ROWS
    }

    /// Solves it, until it is seen that a drawing in the box has at least so many crossings.
    pub fn solve(&mut self, crossings: u32) -> Outcome {
        let limit = i64::from(crossings)
            .wrapping_sub(1)
            .wrapping_sub(i64::from(self.columns.ones()))
            .wrapping_mul(ONE)
            .wrapping_add(MARGIN);
        let outcome = self.table.solve(limit);
        match outcome {
            Outcome::Best => {
                self.read_point();
                if self.table.value() > limit {
                    Outcome::Passed
                } else {
                    Outcome::Best
                }
            }
            other => other,
        }
    }

    /// The numbers of the rows that bind at the point.
    pub fn binding(&self, alloc: Global) -> Result<Vec<u32>, AllocError> {
        let mut numbers = Vec::new(alloc);
        for (i, number) in self.numbers.iter().enumerate() {
            if self.table.binds(row_number(i)) {
                numbers.push(*number)?;
            }
        }
        Ok(numbers)
    }

    /// The rows with their prices as whole multipliers, so many to 1, by their numbers.
    pub fn priced(&self, alloc: Global, scale: u64) -> Result<Vec<(u32, u64)>, AllocError> {
        let mut parts = Vec::new(alloc);
        for (i, number) in self.numbers.iter().enumerate() {
            if let Some(times) = whole(self.table.price(row_number(i)), scale) {
                parts.push((*number, times))?;
            }
        }
        parts.sort()?;
        Ok(parts)
    }

    /// For each column the sum of the prices of the rows in which it stands.
    pub fn sums_of_prices(&self, alloc: Global, lines: &Lines) -> Result<Vec<i64>, AllocError> {
        let mut sums = vec![in alloc; 0; self.columns.variables().len()]?;
        for (i, number) in self.numbers.iter().enumerate() {
            let price = self.table.price(row_number(i));
            for term in lines.at(*number as usize) {
                self.add_price(term.variable, price, sums.as_mut_slice());
            }
        }
        Ok(sums)
    }

    // A price comes to the sum of the column of a variable, where it has one.
    fn add_price(&self, variable: u32, price: i64, sums: &mut [i64]) {
        if let Entry::Column(column) = self.columns.entry(variable) {
            if let Some(sum) = sums.get_mut(column as usize) {
                *sum = sum.wrapping_add(price);
            }
        }
    }

    /// The rows with their parts in a sum that passes its greatest value over the box, as whole multipliers.
    pub fn rayed(&self, alloc: Global, scale: u64) -> Result<Vec<(u32, u64)>, AllocError> {
        let mut parts = Vec::new(alloc);
        for (i, number) in self.numbers.iter().enumerate() {
            if let Some(times) = whole(self.table.ray(row_number(i)), scale) {
                parts.push((*number, times))?;
            }
        }
        parts.sort()?;
        Ok(parts)
    }

    /// Whether a row of the table is missed by its own point by more than its numbers may be off.
    pub fn has_drifted(&self, lines: &Lines) -> bool {
        self.numbers.iter().any(|number| self.columns.sum(lines.at(*number as usize)) < ONE - DRIFT)
    }

    /// The table is made anew of its rows, at most twice in a state: whether it was.
    pub fn renew(&mut self, alloc: Global, lines: &Lines) -> Result<bool, AllocError> {
        if self.renewals >= MOST_RENEWALS {
            return Ok(false);
        }
        self.renewals = self.renewals.saturating_add(1);
        let numbers = Vec::from_slice(alloc, self.numbers.as_slice())?;
        self.restart(lines, numbers.as_slice())?;
        Ok(true)
    }

    /// Those of the known rows come in that are missed most at the point: whether there were some.
    pub fn add_missed(&mut self, alloc: Global, lines: &Lines) -> Result<bool, AllocError> {
        let missed = self.missed(alloc, lines)?;
        if missed.is_empty() {
            return Ok(false);
        }
        if self.table.rows() as usize + AT_ONCE > MOST_ROWS as usize {
            self.drop_loose(alloc, lines)?;
        }
        for (_, number) in missed.as_slice().iter().take(AT_ONCE) {
            if !self.is_full() {
                self.add(lines, *number)?;
            }
        }
        Ok(true)
    }

    // The values of the missed rows at the point with their numbers, the least first.
    fn missed(&self, alloc: Global, lines: &Lines) -> Result<Vec<(i64, u32)>, AllocError> {
        let mut missed = Vec::new(alloc);
        for i in 0..lines.len() {
            if !self.is_in(i) {
                if let Some(value) = self.columns.missed_value(lines.at(i)) {
                    missed.push((value, row_number(i)))?;
                }
            }
        }
        missed.sort()?;
        Ok(missed)
    }

    // The rows that don't bind go.
    fn drop_loose(&mut self, alloc: Global, lines: &Lines) -> Result<(), AllocError> {
        let binding = self.binding(alloc)?;
        self.restart(lines, binding.as_slice())
    }

    // The table is made anew of these known rows.
    fn restart(&mut self, lines: &Lines, numbers: &[u32]) -> Result<(), AllocError> {
        self.clear();
        self.columns.free();
        for number in numbers {
            self.add(lines, *number)?;
        }
        Ok(())
    }

    // No rows are left in the table.
    fn clear(&mut self) {
        self.table.clear();
        self.numbers.clear();
        self.marks.clear();
    }

    // Whether a known row is in the table.
    fn is_in(&self, number: usize) -> bool {
        self.marks.get(number).copied().unwrap_or(false)
    }

    // Marks a known row that is in the table.
    fn mark(&mut self, number: u32) -> Result<(), AllocError> {
        let place = number as usize;
        if place >= self.marks.len() {
            self.marks.resize(place + 1, false)?;
        }
        if let Some(mark) = self.marks.get_mut(place) {
            *mark = true;
        }
        Ok(())
    }

    // The values of the columns.
    fn read_point(&mut self) {
        for column in 0..self.table.columns() {
            let value = self.table.point(column);
            self.columns.move_to(column as usize, value);
        }
    }

    // A row of the table.
    fn write(&mut self, terms: &[Term], number: u32) -> Result<(), AllocError> {
        self.line.clear();
        let mut least: i64 = 1;
        for term in terms {
            if let Some(column) = self.column_of(term.variable)? {
                if term.flipped {
                    least = least.wrapping_sub(1);
                    self.line.push((column, -1))?;
                } else {
                    self.line.push((column, 1))?;
                }
            }
        }
        self.table.add_row(self.line.as_slice(), least)?;
        self.numbers.push(number)?;
        self.mark(number)
    }

    // The column of a variable, a new one where it has none, if it isn't fixed.
    fn column_of(&mut self, variable: u32) -> Result<Option<u32>, AllocError> {
        match self.columns.entry(variable) {
            Entry::Fixed(_) => Ok(None),
            Entry::Column(column) => Ok(Some(column)),
            Entry::Free => {
                self.table
                    .add_column(cost(variable, variable < self.pair_numbers))?;
                let column = self.columns.push(variable)?;
                Ok(Some(column))
            }
        }
    }
}

// The number of a row in the table or in a list of rows.
fn row_number(i: usize) -> u32 {
    u32::try_from(i).unwrap_or(u32::MAX)
}

// The cost of a variable: a little below 1 for a pair, and a little above 0 for an order, so that few points
// cost the same.
fn cost(variable: u32, is_pair: bool) -> i64 {
    let little = i64::from((variable.wrapping_mul(2_654_435_761) >> 12) % 1009) * 681;
    if is_pair { ONE - little } else { little }
}

// A number of the table, so many times, as a whole number, if that is above 0.
fn whole(value: i64, scale: u64) -> Option<u64> {
    let times = i128::from(value)
        .wrapping_mul(i128::from(scale))
        .wrapping_add(1 << 35)
        >> 36;
    match u64::try_from(times) {
        Ok(times) => if times > 0 { Some(times) } else { None },
        Err(_) => None,
    }
}
