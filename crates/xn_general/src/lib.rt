//! Drawings of any kind, and simple ones: what bounds these bounds all.
#![tactic(auto)]

pub mod laws;
