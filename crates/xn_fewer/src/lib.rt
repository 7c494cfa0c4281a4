//! The planarised web of fewer edges stays flat, and what webs with a flat map have to do with each other.
#![tactic(auto)]

pub mod laws;
