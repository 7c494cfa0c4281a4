//! Exact fractions whose two numbers fit an `i128`.
#![tactic(auto)]

mod frac;
pub mod laws;
mod short;
#[cfg(test)]
mod tests;
pub mod whole;

pub use frac::{Frac, Wide};
