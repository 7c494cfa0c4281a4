//! Loose drawings of some edges: how an edge comes in along a route, and how bounds of parts add up.
#![tactic(auto)]

pub mod laws;
