//! Linear programs over a box, solved exactly.
#![tactic(auto)]

mod checks;
mod items;
pub mod laws;
mod pivot;
mod prices;
mod program;
mod scaled;
mod simplex;
mod solve;
mod stop;
mod table;
mod terms;
#[cfg(test)]
mod tests;
mod whole;

pub use items::Items;
pub use program::{Lp, LpAnswer, LpErr, LpRow};
pub use solve::solve_lp;
pub use xn_frac::{Frac, Wide};
