//! Loose drawings made simple: tracks, the steps by which walks meet less, tidying.
#![tactic(auto)]

pub mod laws;
