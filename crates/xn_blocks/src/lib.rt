//! The blocks of a web: the classes of its segments by common cycles.
#![tactic(auto)]

mod block_list;
mod classes;
mod cuts;
mod forest;
pub mod laws;
mod parts;
#[cfg(test)]
mod tests;

pub use block_list::{BlockList, blocks};
