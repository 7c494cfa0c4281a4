//! Linear programs over a box, solved in fixed point: a hint, which nothing rests on.
#![tactic(auto)]

mod fixed;
mod table;
mod tableau;
#[cfg(test)]
mod tests;

pub use fixed::ONE;
pub use table::{Outcome, Table};
