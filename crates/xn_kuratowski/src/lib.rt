//! Kuratowski's theorem over combinatorial maps: a web without loops has a flat map, or a subdivision of K5 or of K3,3.
#![tactic(auto)]

pub mod laws;
