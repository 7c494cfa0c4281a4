//! Loose drawings: maps with a walk for each edge that is in, and edges that come in along shortest routes.
#![tactic(auto)]

mod faces;
mod flaws;
mod growing;
mod judging;
pub mod laws;
mod loose;
mod routes;
mod searching;
mod starting;
mod walks;

pub use flaws::{LooseErr, LooseFlaw};
pub use loose::Loose;
pub use walks::Walks;

#[cfg(test)]
mod tests;
