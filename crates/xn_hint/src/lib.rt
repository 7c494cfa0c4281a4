//! Whether a web is likely to have a flat map.
#![tactic(auto)]

mod darts;
mod hints;
mod kernels;
mod shrinking;
#[cfg(test)]
mod tests;

pub use hints::seems_flat;
