//! The checker of answers.
#![tactic(auto)]

mod drawing;
mod front;
pub mod judge;
pub mod laws;
mod refusals;
mod row_part;
mod seeing;
#[cfg(test)]
mod tests;
mod tree_part;
mod verdicts;

pub use verdicts::{Accepted, check, check_text, draw_text, examine_text};
