//! The graph of a GML text.
#![tactic(auto)]

mod blocks;
mod edges;
mod errors;
mod grammar;
pub mod laws;
mod lists;
mod nodes;
mod pair;
mod reader;
mod runs;
mod stream;
#[cfg(test)]
mod tests;
mod token;
#[cfg(test)]
mod tool_texts;

pub use errors::GmlErr;
pub use reader::{Read, read_graph};
