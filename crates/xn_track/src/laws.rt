//! Laws that make loose drawings simple. Each is the contract of a function with an empty body.
ghost use Rattle.xn_track.specs.Cutting.{CuttingLeavesAMap};
ghost use Rattle.xn_track.specs.Examples.{CurledEdgeIsStraightened};
ghost use Rattle.xn_track.specs.Relinking.{EverySplitRelinks, PassesCanBeRelinked};
ghost use Rattle.xn_track.specs.Simplifying.{LooseDrawingsAreTracks, LooseDrawingsGiveDrawings, LooseDrawingsGiveSimpleOnes, TracksGiveDrawings};
ghost use Rattle.xn_track.specs.Steps.{BeginningsAreExchanged, ClosedPartsAreCutOff, MiddlesAreExchanged};
ghost use Rattle.xn_track.specs.Tidying.{TracksThatMeetSimplyAreDrawings};

/// Runs of segments become one segment each.
pub fn cutting()
    ensures { CuttingLeavesAMap }
{}

/// Tracks that meet simply are drawings, whose orders are those along the walks.
pub fn tidying()
    ensures { TracksThatMeetSimplyAreDrawings }
{}

/// A node that two walks pass comes apart, so that each goes on where the other did: flat stays flat.
pub fn relinking()
    ensures every { EverySplitRelinks }
    ensures there { PassesCanBeRelinked }
{}

/// The steps by which walks meet less: a closed part goes, beginnings change places, middles change places.
pub fn steps()
    ensures closed { ClosedPartsAreCutOff }
    ensures beginnings { BeginningsAreExchanged }
    ensures middles { MiddlesAreExchanged }
{}

/// Every loose drawing gives a simple one with no more crossings.
pub fn simplifying()
    ensures tracks { TracksGiveDrawings }
    ensures loose { LooseDrawingsAreTracks }
    ensures drawings { LooseDrawingsGiveDrawings }
    ensures simple { LooseDrawingsGiveSimpleOnes }
{}

/// An edge that goes round a loop becomes a drawing without crossings.
pub fn worked_examples()
    ensures { CurledEdgeIsStraightened }
{}
