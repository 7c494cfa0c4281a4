//! The checker of answers that come in pieces.
#![tactic(auto)]

pub mod laws;
mod parts;
mod stream;
#[cfg(test)]
mod tests;

pub use stream::{StreamCheck, check_pieces};
