//! Laws on the definitions. Each is the contract of a function that does nothing.

ghost use Rattle.xn_graph.specs.Counts.{BalancedWhereFlat};

/// The counts of a map balance exactly where it has genus zero.
pub fn counts_balance_where_flat()
    ensures { BalancedWhereFlat }
{}
