// The variables of a state: which of them are fixed, which are columns of its program, and the point.
ghost use Rattle.std.specs.Prelude.{◌≡◌};

use crate::lines::{Lines, Order, Term, pair_number};
use std::alloc::{AllocError, Global};
use xn_graph::Graph;
use xn_table::ONE;
use xn_tree::Given;

/// A value that is so near to 0 or to 1 is taken as that.
const NEAR: i64 = 1 << 16;

/// What a variable is in a state.
#[derive(Clone, Copy, Debug, PartialEq, Eq)]
pub enum Entry {
    /// It is fixed so.
    Fixed(bool),
    /// It isn't fixed, and stands in no row of the program.
    Free,
    /// It is this column of the program.
    Column(u32),
}

/// What can become of the value of a row in a state.
#[derive(Clone, Copy, Debug, PartialEq, Eq)]
pub enum Outlook {
    /// It is at least 1.
    Met,
    /// It is 0.
    Hopeless,
    /// The one or the other.
    Open,
}

/// The variables of a state.
#[derive(Drop)]
pub struct Columns {
    // for each variable what it is, and its value at the point
    entries: Vec<Entry>,
    values: Vec<i64>,
    // for each column its variable
    variables: Vec<u32>,
    ones: u32,
}

impl Columns {
    /// No variables.
    pub fn new(alloc: Global) -> Columns {
        Columns {
            entries: Vec::new(alloc),
            values: Vec::new(alloc),
            variables: Vec::new(alloc),
            ones: 0,
        }
    }

    /// The variables of a state, with no columns: what isn't fixed is 0 at the point.
    pub fn begin(
        &mut self,
        graph: &Graph,
        given: &Given,
        pairs: &[(u32, u32)],
        lines: &Lines,
    ) -> Result<(), AllocError>
        requires { given.now.graph ≡ graph.now }
    {
        self.clear(graph.edges() as usize, lines.orders().len())?;
        for (e, f) in pairs {
            let entry = pair_entry(graph, given, *e, *f);
            self.fix(pair_number(graph.edges(), *e, *f) as usize, entry);
            if entry == Entry::Fixed(true) {
                self.ones = self.ones.saturating_add(1);
            }
        }
        let pair_numbers = graph.edges() as usize * graph.edges() as usize;
        for (i, order) in lines.orders().iter().enumerate() {
            self.fix(
                pair_numbers.saturating_add(i),
                order_entry(graph, given, order),
            );
        }
        Ok(())
    }

    /// How many pairs are decided 1.
    pub fn ones(&self) -> u32 {
        self.ones
    }

    /// What a variable is.
    pub fn entry(&self, variable: u32) -> Entry {
        match self.entries.get(variable as usize) {
            Some(entry) => *entry,
            None => Entry::Free,
        }
    }

    /// The value of a variable at the point.
    pub fn value(&self, variable: u32) -> i64 {
        self.values.get(variable as usize).copied().unwrap_or(0)
    }

    /// The variables of the columns.
    pub fn variables(&self) -> &[u32] {
        self.variables.as_slice()
    }

    /// A variable becomes the next column.
    pub fn push(&mut self, variable: u32) -> Result<u32, AllocError> {
        let column = u32::try_from(self.variables.len()).unwrap_or(u32::MAX);
        self.variables.push(variable)?;
        self.set(variable as usize, Entry::Column(column));
        Ok(column)
    }

    /// No columns are left; the point stays.
    pub fn free(&mut self) {
        for variable in self.variables.as_slice() {
            if let Some(entry) = self.entries.get_mut(*variable as usize) {
                *entry = Entry::Free;
            }
        }
        self.variables.clear();
    }

    /// The value of the variable of a column at the point, pulled to 0 and 1.
    pub fn move_to(&mut self, column: usize, value: i64) {
        if let Some(variable) = self.variables.get(column) {
            let at = *variable as usize;
            if let Some(old) = self.values.get_mut(at) {
                *old = pulled(value);
            }
        }
    }

    /// What can become of a row.
    pub fn outlook(&self, terms: &[Term]) -> Outlook {
        let mut is_open = false;
        for term in terms {
            match self.entry(term.variable) {
                Entry::Fixed(one) => {
                    if one != term.flipped {
                        return Outlook::Met;
                    }
                }
                Entry::Free => is_open = true,
                Entry::Column(_) => is_open = true,
            }
        }
        if is_open {
            Outlook::Open
        } else {
            Outlook::Hopeless
        }
    }

    /// The value of a row at the point, or a part of it that is at least 1.
    pub fn sum(&self, terms: &[Term]) -> i64 {
        let mut sum: i64 = 0;
        for term in terms {
            let value = self.value(term.variable);
            let part = if term.flipped {
                ONE.wrapping_sub(value)
            } else {
                value
            };
            sum = sum.wrapping_add(part);
            if sum >= ONE {
                return sum;
            }
        }
        sum
    }

    /// The value of a row at the point, where that is below 1.
    pub fn missed_value(&self, terms: &[Term]) -> Option<i64> {
        let value = self.sum(terms);
        if value < ONE - NEAR {
            Some(value)
        } else {
            None
        }
    }

    /// Whether some value is at least 1/2 and below 1.
    pub fn has_middle(&self) -> bool {
        self.variables
            .iter()
            .any(|variable| is_middle(self.value(*variable)))
    }

    // No columns, and no variable is fixed.
    fn clear(&mut self, edges: usize, orders: usize) -> Result<(), AllocError> {
        let count = edges.saturating_mul(edges).saturating_add(orders);
        self.entries.clear();
        self.entries.resize(count, Entry::Free)?;
        self.values.clear();
        self.values.resize(count, 0)?;
        self.variables.clear();
        self.ones = 0;
        Ok(())
    }

    // A variable is this.
    fn set(&mut self, variable: usize, entry: Entry) {
        if let Some(old) = self.entries.get_mut(variable) {
            *old = entry;
        }
    }

    // A variable is this, and has its value at the point.
    fn fix(&mut self, variable: usize, entry: Entry) {
        self.set(variable, entry);
        if entry == Entry::Fixed(true) {
            if let Some(value) = self.values.get_mut(variable) {
                *value = ONE;
            }
        }
    }
}

// What a pair is.
fn pair_entry(graph: &Graph, given: &Given, e: u32, f: u32) -> Entry
    requires { given.now.graph ≡ graph.now }
{
    if e == f || e >= graph.edges() || f >= graph.edges() {
        return Entry::Free;
    }
    match given.value(e, f) {
        Some(one) => Entry::Fixed(one),
        None => Entry::Free,
    }
}

// What the order of two edges is.
fn order_entry(graph: &Graph, given: &Given, order: &Order) -> Entry
    requires { given.now.graph ≡ graph.now }
{
    if order.along >= graph.edges() {
        return Entry::Free;
    }
    let placed = given.placed(order.along);
    let first = placed.iter().position(|f| *f == order.first);
    let second = placed.iter().position(|f| *f == order.second);
    match (first, second) {
        (Some(i), Some(j)) => Entry::Fixed(i < j),
        _ => Entry::Free,
    }
}

// The value, from 0 to 1, and just that where it is near to one of them.
fn pulled(value: i64) -> i64 {
    if value < NEAR {
        0
    } else if value > ONE - NEAR {
        ONE
    } else {
        value
    }
}

// Whether the value is at least 1/2 and below 1.
fn is_middle(value: i64) -> bool {
    value >= ONE / 2 && value < ONE
}
