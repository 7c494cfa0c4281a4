//! Evidence by flat insertions, decided by a planarity test.
#![tactic(auto)]

pub mod laws;
mod reaching;
#[cfg(test)]
mod tests;

pub use reaching::reach_end;
pub use xn_extend::{Extended, list_flaw};
