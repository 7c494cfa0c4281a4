//! Surgery that keeps the genus of a map: what the plain calls of maps do, and that a flat map stays flat.
#![tactic(auto)]

mod deletion;
pub mod laws;
mod resolution;
mod smoothing;
mod splitting;

pub use deletion::delete_edge;
pub use resolution::{Way, resolve};
pub use smoothing::smooth;
pub use splitting::split_node;

#[cfg(test)]
mod tests;
