//! The genus of maps: Euler's inequality, and that a flat map stays flat where segments go or have other numbers.
#![tactic(auto)]

pub mod laws;
