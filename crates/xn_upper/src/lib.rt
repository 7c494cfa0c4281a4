//! A drawing with few crossings, found by inserting edges.
#![tactic(auto)]

mod flat_starts;
mod improving;
mod shuffles;
#[cfg(test)]
mod tests;
mod uppers;

pub use uppers::upper;
