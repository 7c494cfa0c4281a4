//! Embedding by paths (Demoucron, Malgrange, Pertuiset 1964): a flat map of a web, or a fragment that no face takes.
//!
//! What is proved rests on `growing`, `sharing`, `fragments` and `embedding`. `proposing`, `numbering` and `paths` only propose
//! which segment goes where: each proposal is tested before the segment is placed.
#![tactic(auto)]

mod embedding;
mod fragments;
mod growing;
mod jams;
mod numbering;
mod paths;
mod proposing;
mod rounds;
mod sharing;
#[cfg(test)]
mod tests;
mod watching;

pub use embedding::{Attempt, try_embed};
pub use jams::Jam;
