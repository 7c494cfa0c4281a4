//! The lines of a text, the words of a line, and numbers in their one spelling.
#![tactic(auto)]

mod laws;
mod numbers;
mod pieces;
#[cfg(test)]
mod tests;

pub use laws::{line_laws, number_laws, word_laws};
pub use numbers::{WordNumber, put_i128, put_u64, word_u32, word_u64};
pub use pieces::{Line, Lines, Words};
