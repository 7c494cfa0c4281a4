//! The rows of a proof by first use: the leaves of the tree name each row, and new ones in the order of their
//! numbers.
#![tactic(auto)]

mod numbering;
mod tidying;

pub use tidying::{Proof, tidy};
