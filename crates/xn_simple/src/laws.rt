//! Laws on drawings that are made simple. Each is the contract of a function with an empty body.
ghost use Rattle.xn_simple.specs.Loosened.{BeginningsChange, ClosedPartsGo, MiddlesChange};
ghost use Rattle.xn_simple.specs.Tidied.{LoosenedWalksAreDrawings};
ghost use Rattle.xn_simple.specs.Untouched.{TouchingEdgesComeApart};

/// In a flat map of a planarised graph the edges that touch come apart, and those that cross still do.
pub fn touching()
    ensures { TouchingEdgesComeApart }
{}

/// The steps by which walks meet less, over a map that stays as it is: what is told of each node is only whether it is
/// still a crossing.
pub fn steps()
    ensures closed { ClosedPartsGo }
    ensures beginnings { BeginningsChange }
    ensures middles { MiddlesChange }
{}

/// Where no step is left the walks are a drawing, with no more crossings than there are nodes that still are some.
pub fn tidying()
    ensures { LoosenedWalksAreDrawings }
{}
