// What it costs a row at a point to have two edges. These numbers guide the cutters, and no clause speaks of
// them.
use crate::planting::Rule;
use crate::units::{ONE, units};
use std::alloc::{AllocError, Global};
use xn_frac::Frac;
use xn_graph::Graph;
use xn_kinds::Var;

/// What each independent pair costs besides, a thousandth: of rows that cost alike the ones with few pairs
/// come first.
const EACH: u64 = (ONE / 1000) as u64;

/// For each two edges what their pair adds to the value of a row at the point, in units: the number of the
/// pair, or 1 less that number where it is planted.
#[derive(Drop)]
pub struct Costs {
    rows: Vec<Vec<u64>>,
}

impl Costs {
    /// The costs at a point. It takes time in the square of the number of edges, and fails only for want of
    /// memory.
    pub fn new(
        alloc: Global,
        graph: &Graph,
        point: &[(Var, Frac)],
        rule: Rule,
    ) -> Result<Costs, AllocError> {
        let mut costs = Costs {
            rows: zeros(alloc, graph.edges() as usize)?,
        };
        for (e, f) in graph.pairs(alloc)?.as_slice() {
            costs.add(*e, *f, EACH);
        }
        for (variable, value) in point {
            if let Var::Cross(e, f) = variable {
                costs.add(*e, *f, cost_of(*value, rule));
            }
        }
        Ok(costs)
    }

    /// For each edge what it costs with all others.
    pub fn weights(&self, alloc: Global) -> Result<Vec<u64>, AllocError> {
        let mut weights = Vec::with_capacity(alloc, self.rows.len())?;
        for row in &self.rows {
            weights.push(total(row.as_slice()))?;
        }
        Ok(weights)
    }

    /// Takes what an edge costs with each other one off the weights of these.
    pub fn take_off(&self, weights: &mut [u64], e: usize) {
        if let Some(row) = self.rows.get(e) {
            for (weight, cost) in weights.iter_mut().zip(row.iter()) {
                *weight = weight.saturating_sub(*cost);
            }
        }
    }

    // Adds to the costs of a pair.
    fn add(&mut self, e: u32, f: u32, cost: u64) {
        self.add_at(e, f, cost);
        self.add_at(f, e, cost);
    }

    // Adds to one of the two entries of a pair.
    fn add_at(&mut self, e: u32, f: u32, cost: u64) {
        if let Some(row) = self.rows.get_mut(e as usize) {
            if let Some(entry) = row.get_mut(f as usize) {
                *entry = entry.saturating_add(cost);
            }
        }
    }
}

// What a pair of this number costs.
fn cost_of(value: Frac, rule: Rule) -> u64 {
    let number = units(value);
    if rule.takes(value) {
        u64::from(ONE.saturating_sub(number))
    } else {
        u64::from(number)
    }
}

// The sum of some costs.
fn total(costs: &[u64]) -> u64 {
    let mut sum = 0u64;
    for cost in costs {
        sum = sum.saturating_add(*cost);
    }
    sum
}

// A square of zeros.
fn zeros(alloc: Global, edges: usize) -> Result<Vec<Vec<u64>>, AllocError> {
    let mut rows = Vec::with_capacity(alloc, edges)?;
    for _ in 0..edges {
        rows.push(vec![in alloc; 0; edges]?)?;
    }
    Ok(rows)
}
