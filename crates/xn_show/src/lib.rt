//! The text that shows a drawing, as GML.
#![tactic(auto)]

pub mod laws;
mod segments;
#[cfg(test)]
mod tests;
mod text;
mod writing;

pub use text::show;
