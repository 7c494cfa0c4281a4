//! What a search asks for rows: points, and the trait of those that cut them off.
#![tactic(auto)]

mod cutter;
#[cfg(test)]
mod tests;

pub use cutter::{Cutter, Progress};
