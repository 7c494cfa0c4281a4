//! Laws on loose drawings. Each is the contract of a function with an empty body.
ghost use Rattle.xn_loose.specs.Inserting.{EdgesComeIn, EdgesComeIntoLooseDrawings, EdgesJoinComponents};
ghost use Rattle.xn_loose.specs.Parts.{BoundsAddUp, CrossingsAddUp, PartsGiveDrawings, WalksGiveDrawings};
ghost use Rattle.xn_loose.specs.Renaming.{DrawingsOfEdgesAreDrawings};
ghost use Rattle.xn_loose.specs.Routes.{FacesHaveNames, StepsAcross, StepsWithin};
ghost use Rattle.xn_loose.specs.Shortest.{EdgesComeInByLeastRoutes, LeastRoutesAreSimple, RouteLengthsAreThere, RoutesAreThere, RoutesBecomeSimple, SimpleRoutesAreRoutes};

/// A new edge steps across a segment within a face: flat stays flat, and the other faces stay as they are.
pub fn routes()
    ensures names { FacesHaveNames }
    ensures across { StepsAcross }
    ensures within { StepsWithin }
{}

/// An edge comes into a track along a route from face to face, with a crossing for each segment on the way.
pub fn inserting()
    ensures track { EdgesComeIn }
    ensures loose { EdgesComeIntoLooseDrawings }
    ensures apart { EdgesJoinComponents }
{}

/// Joined nodes have a route, a least one meets no face twice, and along it an edge comes in, with a crossing for
/// each segment on the way.
pub fn shortest_routes()
    ensures there { RoutesAreThere }
    ensures routes { SimpleRoutesAreRoutes }
    ensures simple { RoutesBecomeSimple }
    ensures least { LeastRoutesAreSimple }
    ensures length { RouteLengthsAreThere }
    ensures comes { EdgesComeInByLeastRoutes }
{}

/// A drawing of some edges is a drawing of the graph of those edges.
pub fn renaming()
    ensures { DrawingsOfEdgesAreDrawings }
{}

/// Some of the edges of a loose drawing have a drawing with no more crossings than there are nodes that their walks
/// alone pass twice; so lower bounds of parts without a common edge add up.
pub fn parts()
    ensures walks { WalksGiveDrawings }
    ensures parts { PartsGiveDrawings }
    ensures sum { CrossingsAddUp }
    ensures bounds { BoundsAddUp }
{}
