//! Graphs, webs and their counts.
#![tactic(auto)]

mod counts;
mod graphs;
pub mod laws;
mod stars;
#[cfg(test)]
mod tests;
mod webs;

pub use counts::Euler;
pub use graphs::{Graph, GraphErr, MAX_EDGES, MAX_NODES};
pub use stars::Stars;
pub use webs::{MAX_WEB, Web, WebErr};
