//! Kuratowski's theorem, and what its proof gives beside it. Each is the contract of a function with no code in its body.
ghost use Rattle.xn_kuratowski.specs.Core.{CoresAreFound, CoresAreSubdivisions};
ghost use Rattle.xn_kuratowski.specs.Flat.{ContractionStaysFlat, UnionAtANodeStaysFlat, UnionAtASegmentStaysFlat};
ghost use Rattle.xn_kuratowski.specs.Reduction.{CutWebsGo, LoneNodesGo, ParallelsGo};
ghost use Rattle.xn_kuratowski.specs.Theorem.{FlatOrEvidence, FlatOrMinor, FlatWhereNoEvidence};

use xn_kura::laws::evidence_excludes_flat_maps;

/// Every web without loops has a flat map, or an evidence of one of the two kinds holds for it, five nodes or three against three, and never both (Kuratowski 1930).
pub fn flat_maps_or_evidence()
    ensures either { FlatOrEvidence }
    ensures exact { FlatWhereNoEvidence }
{
    evidence_excludes_flat_maps();
}

/// Every web without loops has a flat map, or K5 or K3,3 as a minor (Wagner 1937).
pub fn flat_maps_or_minors()
    ensures { FlatOrMinor }
{}

/// A core, which has no flat map while each web with one segment less has one, is a subdivision of K5 or of K3,3 and nodes without segments; a search for such an evidence finds one.
pub fn cores()
    ensures subdivisions { CoresAreSubdivisions }
    ensures found { CoresAreFound }
{
    evidence_excludes_flat_maps();
}

/// A web with a lone node, with two segments beside each other, or that falls apart without two nodes has a flat map or a minor, if smaller webs do.
pub fn reductions()
    ensures lone { LoneNodesGo }
    ensures parallels { ParallelsGo }
    ensures cuts { CutWebsGo }
{}

/// A segment that is contracted leaves a flat map; two flat maps that share a node, or two nodes and a segment between them, make one.
pub fn flat_webs()
    ensures contracted { ContractionStaysFlat }
    ensures at_a_node { UnionAtANodeStaysFlat }
    ensures at_a_segment { UnionAtASegmentStaysFlat }
{}
