//! Drawings made simple, with no more crossings.
#![tactic(auto)]

mod changing;
mod crossed;
mod finding;
pub mod laws;
mod reading;
mod simplifying;
mod starts;
mod taking_out;
mod tangle;
mod turning;
mod untouching;

pub use simplifying::simplify;
pub use taking_out::{laid_again, without};
pub use untouching::untouch;

#[cfg(test)]
mod tests;
