//! Plain slow programs for the definitions that don't compute. The contract of each is the definition itself, so a reader
//! can run it on a small input.
#![tactic(auto)]

mod bounds;
mod drawings;
mod extensions;
mod insertions;
mod known;
mod leaves;
mod lists;
mod orders;
mod rotations;
mod searches;
mod sizes;
#[cfg(test)]
mod tests;
mod webs;

pub use bounds::bound_by_search;
pub use drawings::is_listed_drawing;
pub use extensions::extends_by_search;
pub use known::Given;
pub use leaves::Leaf;
pub use searches::{crossing_number_below, has_drawing_within};
pub use sizes::is_small;
