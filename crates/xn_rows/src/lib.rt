//! Rows: whether one is a row of a graph and holds, and if not, its first flaw.
#![tactic(auto)]

mod causes;
mod edges;
mod holding;
pub mod laws;
#[cfg(test)]
mod tests;

pub use causes::RowErr;
pub use holding::row_holds;
pub use xn_tree::{Choice, Given, TreeWalk, bound};
