//! Plain types: drawings, rows with their evidence, proof trees, answers, and what can be wrong with them.
#![tactic(auto)]

mod answers;
mod drawings;
mod flaws;
pub mod laws;
mod rows;
#[cfg(test)]
mod tests;
mod trees;

pub use answers::Answer;
pub use drawings::{Drawing, Orders};
pub use flaws::{DrawFlaw, EvidenceFlaw, Flaw, FlawKind, RowFlaw};
pub use rows::{Evidence, Paths, Row};
pub use trees::{Node, Tree, Var};
