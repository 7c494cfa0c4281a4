// The rows that are known, each as the terms of its value.
use std::alloc::{AllocError, Global};
use std::collections::BTreeMap;
use xn_graph::Graph;
use xn_kinds::Row;

/// What a variable adds to the value of a row.
#[derive(Clone, Copy, Debug, PartialEq, Eq)]
pub struct Term {
    /// The number of the variable.
    pub variable: u32,
    /// Whether it adds what is left of its value to 1.
    pub flipped: bool,
}

/// The order of two edges along another.
#[derive(Clone, Copy, Debug, PartialEq, Eq, PartialOrd, Ord)]
pub struct Order {
    /// The edge that both cross.
    pub along: u32,
    /// The smaller of the two.
    pub first: u32,
    /// The other.
    pub second: u32,
}

/// The known rows, in their order. A pair of edges has the number that its place in a square table has, and
/// the orders that occur have the numbers behind these, as they came.
#[derive(Drop)]
pub struct Lines {
    terms: Vec<Term>,
    // for each row the number of terms up to its end
    ends: Vec<usize>,
    orders: Vec<Order>,
    numbers: BTreeMap<Order, u32>,
}

/// The number of a pair of two edges of a graph with so many edges.
pub fn pair_number(edges: u32, e: u32, f: u32) -> u32 {
    e.min(f).wrapping_mul(edges).wrapping_add(e.max(f))
}

impl Lines {
    /// No rows.
    pub fn new(alloc: Global) -> Lines {
        Lines {
            terms: Vec::new(alloc),
            ends: Vec::new(alloc),
            orders: Vec::new(alloc),
            numbers: BTreeMap::new(alloc),
        }
    }

    /// The number of rows.
    pub fn len(&self) -> usize {
        self.ends.len()
    }

    /// The orders that have a number.
    pub fn orders(&self) -> &[Order] {
        self.orders.as_slice()
    }

    /// The terms of a row: none where there is no such row.
    pub fn at(&self, number: usize) -> &[Term] {
        let end = self.ends.get(number).copied().unwrap_or(0);
        let start = if number == 0 {
            0
        } else {
            self.ends.get(number - 1).copied().unwrap_or(0)
        };
        self.terms.as_slice().get(start..end).unwrap_or(&[])
    }

    /// The rows that are known and weren't seen yet come behind the others.
    pub fn learn(&mut self, graph: &Graph, rows: &[Row]) -> Result<(), AllocError> {
        for i in self.ends.len()..rows.len() {
            self.push(graph, &rows[i])?;
        }
        Ok(())
    }

    /// One row more.
    pub fn push(&mut self, graph: &Graph, row: &Row) -> Result<(), AllocError> {
        let edges = row.edges.as_slice();
        for (i, e) in edges.iter().enumerate() {
            if i < row.orders.len() {
                let list = row.orders.at(i);
                let later = edges.get(i + 1..).unwrap_or(&[]);
                push_pairs(&mut self.terms, graph, *e, later, list)?;
                self.push_turns(graph.edges(), *e, list)?;
            }
        }
        self.ends.push(self.terms.len())?;
        Ok(())
    }

    /// The last row goes.
    pub fn pop(&mut self) {
        let _ = self.ends.pop();
        let left = self.ends.last().copied().unwrap_or(0);
        self.terms.truncate(left);
    }

    /// Whether no earlier row has the terms of the last one.
    pub fn is_last_new(&self) -> bool {
        let last = self.ends.len().saturating_sub(1);
        let terms = self.at(last);
        !(0..last).any(|i| self.at(i) == terms)
    }

    // The terms of the neighbours in the list of an edge.
    fn push_turns(&mut self, edges: u32, along: u32, list: &[u32]) -> Result<(), AllocError> {
        for i in 1..list.len() {
            let (f, g) = (list[i - 1], list[i]);
            let order = Order {
                along,
                first: f.min(g),
                second: f.max(g),
            };
            let variable = self.number_of(edges, order)?;
            self.terms.push(Term {
                variable,
                flipped: f < g,
            })?;
        }
        Ok(())
    }

    // The number of an order: the next where it has none yet.
    fn number_of(&mut self, edges: u32, order: Order) -> Result<u32, AllocError> {
        if let Some(number) = self.numbers.get(&order) {
            return Ok(*number);
        }
        let count = u32::try_from(self.orders.len()).unwrap_or(u32::MAX);
        let number = edges.wrapping_mul(edges).wrapping_add(count);
        self.orders.push(order)?;
        self.numbers.insert(order, number)?;
        Ok(number)
    }
}

// The terms of the pairs of an edge with later edges of its row, of which those in the list cross it.
fn push_pairs(
    terms: &mut Vec<Term>,
    graph: &Graph,
    e: u32,
    later: &[u32],
    list: &[u32],
) -> Result<(), AllocError> {
    for f in later {
        if are_independent(graph, e, *f) {
            terms.push(Term {
                variable: pair_number(graph.edges(), e, *f),
                flipped: list.contains(f),
            })?;
        }
    }
    Ok(())
}

// Whether these are edges, and share no end.
fn are_independent(graph: &Graph, e: u32, f: u32) -> bool {
    e < graph.edges() && f < graph.edges() && graph.independent(e, f)
}
