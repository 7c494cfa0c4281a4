//! The three cutters: they plant crossings by a point, and where these exclude one another they give a row.
#![tactic(auto)]

mod costs;
mod cutters;
mod judging;
mod literals;
mod orders;
mod parts;
mod planting;
mod ranks;
mod rows;
mod shrinking;
#[cfg(test)]
mod tests;
mod units;
mod used;

pub use cutters::{OnesCutter, OrderCutter, RoundCutter};
