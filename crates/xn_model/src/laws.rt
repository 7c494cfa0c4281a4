//! Laws that show that the definitions mean what they should. Each is the contract of a function with an empty body.
ghost use Rattle.xn_model.specs.ComponentLaws.{ComponentsAreByWalks, LabelsAreByWalks};
ghost use Rattle.xn_model.specs.Examples.{CurledEdge, K4IsFlat, K4OnTorus, K5WithOneCrossing, LimitOfNothing, PairsOfK33, PartedNodes, SmallCycles, TwoLoneNodes};
ghost use Rattle.xn_model.specs.ListLaws.{CountsBoth, HasByPlace, HasInJoined};
ghost use Rattle.xn_model.specs.Laws.{LeastFalls, AtMostRises, BelowIsWithin, BoundsMeet, LimitFalls, OneCrossingNumber};

/// Lower and upper bounds of the crossing number agree with each other.
pub fn bounds_of_the_crossing_number()
    ensures falls { LeastFalls }
    ensures rises { AtMostRises }
    ensures meet { BoundsMeet }
    ensures one { OneCrossingNumber }
    ensures limits { LimitFalls }
    ensures within { BelowIsWithin }
{}

/// What stands in a list has a place there, and a count is that of what doesn't pass taken from all.
pub fn words_on_lists()
    ensures place { HasByPlace }
    ensures joined { HasInJoined }
    ensures counts { CountsBoth }
{}

/// The definitions on worked examples, by computation.
pub fn worked_examples()
    ensures k4 { K4IsFlat }
    ensures torus { K4OnTorus }
    ensures k5 { K5WithOneCrossing }
    ensures k33 { PairsOfK33 }
    ensures lone { TwoLoneNodes }
    ensures curled { CurledEdge }
    ensures parted { PartedNodes }
    ensures cycles { SmallCycles }
    ensures nothing { LimitOfNothing }
{}

/// The labels of components, and so their number, are those by walks of segments.
pub fn components_by_walks()
    ensures labels { LabelsAreByWalks }
    ensures count { ComponentsAreByWalks }
{}
