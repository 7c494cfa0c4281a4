//! Orders: whether the lists of a list of edges are orders over them, and the planarised graph of orders.
#![tactic(auto)]

mod crossings;
mod dependents;
mod flaws;
pub mod laws;
mod planar;
mod strays;
#[cfg(test)]
mod tests;

pub use flaws::{OrdersFlaw, orders_flaw};
pub use planar::planarise;
