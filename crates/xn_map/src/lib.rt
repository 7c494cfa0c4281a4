//! Maps: webs with a rotation at each node, their faces and components, and Euler's counts.
#![tactic(auto)]

mod anchored;
mod components;
mod corners;
mod darts;
mod faces;
pub mod laws;
mod lone;
mod maps;
mod rotation;

pub use corners::Corner;
pub use faces::in_one_face;
pub use maps::{Map, MapErr};

#[cfg(test)]
mod tests;
