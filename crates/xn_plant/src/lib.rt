//! Planting: the web of the crossings that are decided in a state has a flat map, so that the graph has a drawing
//! with no more crossings, or some edges with the crossings among them exclude one.
#![tactic(auto)]

mod orders;
mod planting;
mod used;

pub use orders::planted_orders;
pub use planting::{Planarity, Planes, Planted, plant};
