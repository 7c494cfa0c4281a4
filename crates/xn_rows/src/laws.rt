//! Laws on the flaws of rows. Each is the contract of a function that does nothing.
ghost use Rattle.xn_rows.specs.RowLaws.{HoldsWhereFlawless, OneRowFlaw};

/// A row holds exactly where it has no flaw, and it has at most one.
pub fn first_flaws()
    ensures exactly { HoldsWhereFlawless }
    ensures one { OneRowFlaw }
{}
