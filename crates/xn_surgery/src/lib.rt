//! Surgery on maps: what it does to faces, components and genus zero that segments come, become one or two, nodes are split, and maps are joined.
#![tactic(auto)]

pub mod laws;
