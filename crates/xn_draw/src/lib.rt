//! Drawings: the first flaw of what is said to be a drawing, or what is seen of it.
#![tactic(auto)]

mod examining;
pub mod laws;
mod lengths;
mod results;
#[cfg(test)]
mod tests;
mod touches;

pub use examining::examine;
pub use results::{DrawErr, Seen};
pub use xn_orders::planarise;
