//! Laws on drawings and simple drawings. Each is the contract of a function with an empty body.
ghost use Rattle.xn_general.specs.Bounds.{DrawingsGiveSimpleOnes, LeastIsOfAllDrawings, MostIsOfAllDrawings, SimpleDrawingsAreDrawings};
ghost use Rattle.xn_general.specs.Touching.{MeshesGiveDrawings};
ghost use Rattle.xn_general.specs.Webs.{DrawingsAreLoose, TouchingOrdersGiveDrawings, WebsAreMeshes};

/// Where walks touch they come apart, so that a simple drawing is left.
pub fn touching()
    ensures { MeshesGiveDrawings }
{}

/// A planarised graph is a mesh, and a simple drawing a loose one.
pub fn drawings_in_webs()
    ensures meshes { WebsAreMeshes }
    ensures loose { DrawingsAreLoose }
    ensures touching { TouchingOrdersGiveDrawings }
{}

/// Every drawing gives a simple one with no more crossings, and a simple one is a drawing: so what bounds the simple
/// drawings bounds all.
pub fn all_drawings()
    ensures drawings { SimpleDrawingsAreDrawings }
    ensures simple { DrawingsGiveSimpleOnes }
    ensures least { LeastIsOfAllDrawings }
    ensures most { MostIsOfAllDrawings }
{}
