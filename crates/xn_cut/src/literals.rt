// The order of crossings along an edge that a point favours. No clause speaks of it.
ghost use Rattle.std.specs.Prelude.{◌≤◌, length};

use crate::units::{ONE, units};
use std::alloc::{AllocError, Global};
use std::collections::BTreeMap;
use xn_frac::Frac;
use xn_kinds::Var;

/// The numbers that a point gives to the orders along edges, in units.
#[derive(Drop)]
pub struct Literals {
    values: BTreeMap<Var, u32>,
}

impl Literals {
    /// Those of a point. It fails only for want of memory.
    pub fn new(alloc: Global, point: &[(Var, Frac)]) -> Result<Literals, AllocError> {
        let mut values = BTreeMap::new(alloc);
        for (variable, value) in point {
            if let Var::Before(_, _, _) = variable {
                values.insert(*variable, units(*value))?;
            }
        }
        Ok(Literals { values })
    }

    /// The edges of a list along e: the first ones, so many of them, as they stand, and then each of the
    /// others inserted where the sum of its literals is greatest. It fails only for want of memory.
    pub fn inserted(
        &self,
        alloc: Global,
        e: u32,
        list: &[u32],
        standing: usize,
    ) -> Result<Vec<u32>, AllocError> {
        let mut front = Vec::with_capacity(alloc, list.len())?;
        for (i, f) in list.iter().enumerate() {
            if i < standing {
                front.push(*f)?;
            } else {
                let place = self.best_place(e, front.as_slice(), *f);
                front.insert(place, *f)?;
            }
        }
        Ok(front)
    }

    // The place in a list along e where the sum of the literals of f is greatest, the first of them.
    fn best_place(&self, e: u32, list: &[u32], f: u32) -> usize
        ensures { result ≤ length list.now }
    {
        let (mut best, mut most, mut sum) = (0, 0i64, 0i64);
        for (i, g) in list.iter().enumerate() {
            sum = sum
                .wrapping_add(self.before(e, *g, f))
                .wrapping_sub(self.before(e, f, *g));
            if sum > most {
                best = i + 1;
                most = sum;
            }
        }
        best
    }

    // How far f stands before g along e.
    fn before(&self, e: u32, f: u32, g: u32) -> i64 {
        if f < g {
            i64::from(self.value(Var::Before(e, f, g)))
        } else {
            i64::from(ONE).wrapping_sub(i64::from(self.value(Var::Before(e, g, f))))
        }
    }

    // The number of a variable.
    fn value(&self, variable: Var) -> u32 {
        match self.values.get(&variable) {
            Some(value) => *value,
            None => 0,
        }
    }
}
