//! Lists that contracts see as the lists they are.
#![tactic(auto)]

mod nested;
mod plain;
#[cfg(test)]
mod tests;

pub use nested::Lists;
pub use plain::{Sequence, copied};
