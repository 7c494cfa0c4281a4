//! What the words of the command line ask for.
#![tactic(auto)]

mod command;
pub mod laws;
mod parse;
#[cfg(test)]
mod tests;

pub use command::{Command, WordsErr, read_words};
