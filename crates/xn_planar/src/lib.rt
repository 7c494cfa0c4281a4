//! Planarity with evidence: a flat map of a web, or what shows that there is none.
#![tactic(auto)]

mod chains;
mod cores;
mod deciding;
mod planarity;
mod renaming;
mod shrinking;
#[cfg(test)]
mod tests;
mod trees;

pub use planarity::{Planarity, planar};
pub use shrinking::{MinimalWeb, minimal};
