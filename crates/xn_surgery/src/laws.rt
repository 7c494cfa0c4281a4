//! Laws on surgery. Each is the contract of a function with an empty body.
ghost use Rattle.xn_surgery.specs.Contraction.{ContractionKeepsCounts, ContractionKeepsFlat, ContractionLeavesAMap};
ghost use Rattle.xn_surgery.specs.Insertion.{InsertionJoinsComponents, InsertionJoinsFaces, InsertionKeepsComponents, InsertionKeepsFlat, InsertionLeavesAMap, InsertionSplitsAFace, OtherInsertionsAreNotFlat};
ghost use Rattle.xn_surgery.specs.Overlay.{OverlayAddsCounts, OverlayIsAMap, OverlayKeepsFlat};
ghost use Rattle.xn_surgery.specs.Resolution.{ResolutionKeepsFlat, ResolutionLeavesAMap};
ghost use Rattle.xn_surgery.specs.Smoothing.{SmoothingKeepsCounts, SmoothingKeepsFlat, SmoothingLeavesAMap};
ghost use Rattle.xn_surgery.specs.Splitting.{SplitJoinsFaces, SplitKeepsComponents, SplitKeepsFlat, SplitLeavesAMap, SplitSplitsAComponent, SplitSplitsAFace};
ghost use Rattle.xn_surgery.specs.Subdivision.{SubdivisionKeepsCounts, SubdivisionKeepsFlat, SubdivisionLeavesAMap};

/// A segment comes into a map, from a corner to a corner of another node.
pub fn insertion()
    ensures map { InsertionLeavesAMap }
    ensures split { InsertionSplitsAFace }
    ensures join { InsertionJoinsFaces }
    ensures joined { InsertionKeepsComponents }
    ensures apart { InsertionJoinsComponents }
    ensures flat { InsertionKeepsFlat }
    ensures others { OtherInsertionsAreNotFlat }
{}

/// Chains of segments become one segment each: faces and components stay, and genus zero both ways.
pub fn contraction()
    ensures map { ContractionLeavesAMap }
    ensures counts { ContractionKeepsCounts }
    ensures flat { ContractionKeepsFlat }
{}

/// A new node on a segment: faces and components stay, and genus zero both ways.
pub fn subdivision()
    ensures map { SubdivisionLeavesAMap }
    ensures counts { SubdivisionKeepsCounts }
    ensures flat { SubdivisionKeepsFlat }
{}

/// A node with two darts goes, and its two segments become one: faces and components stay, and genus zero both ways.
pub fn smoothing()
    ensures map { SmoothingLeavesAMap }
    ensures counts { SmoothingKeepsCounts }
    ensures flat { SmoothingKeepsFlat }
{}

/// A node is split: some darts that follow each other go to a new node.
pub fn splitting()
    ensures map { SplitLeavesAMap }
    ensures split { SplitSplitsAFace }
    ensures join { SplitJoinsFaces }
    ensures joined { SplitKeepsComponents }
    ensures apart { SplitSplitsAComponent }
    ensures flat { SplitKeepsFlat }
{}

/// A crossing is resolved: its node is split into two, and both are smoothed.
pub fn resolution()
    ensures map { ResolutionLeavesAMap }
    ensures flat { ResolutionKeepsFlat }
{}

/// Two maps of the same nodes that share at most one node, laid over each other.
pub fn overlay()
    ensures map { OverlayIsAMap }
    ensures counts { OverlayAddsCounts }
    ensures flat { OverlayKeepsFlat }
{}
