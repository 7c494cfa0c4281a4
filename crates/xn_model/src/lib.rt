//! The definitions on which every statement of this repository rests: graphs, maps, drawings, the crossing number, and
//! what shows that a web has no flat map. They speak of numbers, lists and functions alone; `specs/` has them, one file an idea.
#![tactic(auto)]

pub mod laws;
