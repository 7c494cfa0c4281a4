//! Laws on webs that have a flat map. Each is the contract of a function with an empty body.
ghost use Rattle.xn_fewer.specs.Flat.{BridgeStaysFlat, LoneNodeComesFlat, OtherNamesStayFlat, ParallelStaysFlat, SomeSegmentsStayFlat};
ghost use Rattle.xn_fewer.specs.Laws.{FewerEdgesStayFlat};
ghost use Rattle.xn_fewer.specs.Walks.{WalksGoOver};

/// A web that joins the ends of each segment of another joins all nodes that the other joins.
pub fn walks()
    ensures { WalksGoOver }
{}

/// Some of a web's segments, in any order, each perhaps turned, have a flat map where the web has one; so has the web with nodes named otherwise or more, with a segment beside another, or between two components.
pub fn flat_webs()
    ensures some { SomeSegmentsStayFlat }
    ensures renamed { OtherNamesStayFlat }
    ensures lone { LoneNodeComesFlat }
    ensures bridge { BridgeStaysFlat }
    ensures parallel { ParallelStaysFlat }
{}

/// The web of some edges, with the crossings among them, has a flat map where the web of all does.
pub fn fewer_edges()
    ensures { FewerEdgesStayFlat }
{}
