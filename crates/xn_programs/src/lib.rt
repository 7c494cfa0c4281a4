//! The search with linear programs: a state is closed by multipliers that a program of the known rows gives,
//! or branched where its point is greatest.
#![tactic(auto)]

mod columns;
mod deciding;
mod frames;
mod hints;
mod leaves;
mod lines;
mod points;
mod programs;
mod solving;
#[cfg(test)]
mod tests;
mod turns;

pub use deciding::ByPrograms;
pub use solving::solve;
