//! Evidence by flat insertions: flat maps that grow by one segment after another, in the order of a list.
#![tactic(auto)]

mod earlier;
mod extending;
pub mod laws;
mod lists;
mod search;
#[cfg(test)]
mod tests;

pub use extending::{Extended, extend, listed_web};
pub use lists::list_flaw;
