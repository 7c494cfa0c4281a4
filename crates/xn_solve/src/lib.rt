//! The solver: the search of a graph over the planarity test, and the answer made of what it finds.
#![tactic(auto)]

mod answering;
mod maps;
mod solving;
#[cfg(test)]
mod tests;

pub use answering::answer_of;
pub use maps::Maps;
pub use solving::solve;
pub use xn_search::{Solved, Work};
