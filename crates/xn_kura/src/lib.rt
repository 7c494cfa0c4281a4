//! Evidence that a web has no flat map: subdivisions of K5 and of K3,3 (Kuratowski 1930).
#![tactic(auto)]

mod evidence;
mod kinds;
pub mod laws;
mod marks;
mod repeats;
#[cfg(test)]
mod tests;
mod traces;
mod walks;

pub use evidence::holds;
pub use kinds::find_kind;
pub use marks::Marks;
