//! What rows and proof trees show of every simple drawing, and accepted proofs of every drawing: the central proofs of the
//! checker.
#![tactic(auto)]

pub mod laws;
