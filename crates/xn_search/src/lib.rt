//! The search for a drawing with the fewest crossings, and for the proof that no drawing has fewer.
#![tactic(auto)]

mod branching;
mod decisions;
mod ones;
mod round;
mod searches;
mod solved;
mod solving;
#[cfg(test)]
mod tests;

pub use branching::{ByPlanting, by_row, counted, is_open};
pub use decisions::{Claim, Decider, Decision, Drawn};
pub use searches::{Searched, search};
pub use solved::{Solved, Work, solve_from};
pub use solving::solve;
