//! Answers that prove what they say: laws that join a drawing and an accepted proof to the text of an answer.
#![tactic(auto)]

pub mod laws;
