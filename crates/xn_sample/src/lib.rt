//! A graph to try the program on, for each number of nodes.
#![tactic(auto)]

mod draws;
mod samples;
#[cfg(test)]
mod tests;

pub use draws::Draws;
pub use samples::sample;
