//! Laws on the flaws of drawings. Each is the contract of a function that does nothing.
ghost use Rattle.xn_draw.specs.Flaws.{DrawnOrFlawed, DrawnWhereFlawless, OneFlaw};

/// Lists and turns are a drawing or have one flaw, and never both.
pub fn first_flaws()
    ensures either { DrawnOrFlawed }
    ensures exactly { DrawnWhereFlawless }
    ensures one { OneFlaw }
{}
