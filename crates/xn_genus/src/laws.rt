//! Laws on the genus of maps. Each is the contract of a function with an empty body.
ghost use Rattle.xn_genus.specs.Deletion.{DeletionJoinsFaces, DeletionKeepsComponents, DeletionKeepsFlat, DeletionLeavesAMap, DeletionSplitsAComponent, DeletionSplitsAFace};
ghost use Rattle.xn_genus.specs.Genus.{FlatOnAnySegments, GenusIsNotNegative, ListedDartsAreAPart, ListedSegmentsAreAPart, PartsAreMaps, PartsHaveRotations, PartsStayFlat};
ghost use Rattle.xn_genus.specs.Renumbering.{NodeComes, NodeComesFlat, NodeGoes, NodeGoesFlat, NodeRenumberingKeepsCounts, NodeRenumberingKeepsFlat, NodeRenumberingLeavesAMap, RenumberingKeepsCounts, RenumberingKeepsFlat, RenumberingLeavesAMap};

/// Euler's inequality: V - E + F is at most 2C for every map.
pub fn euler_inequality()
    ensures { GenusIsNotNegative }
{}

/// A flat map stays flat on any of its segments: in the web's own numbers, and as a map of the segments under numbers of their own.
pub fn restriction()
    ensures live { FlatOnAnySegments }
    ensures rotation { PartsHaveRotations }
    ensures map { PartsAreMaps }
    ensures flat { PartsStayFlat }
    ensures darts { ListedDartsAreAPart }
    ensures segments { ListedSegmentsAreAPart }
{}

/// A segment goes out of its rings, and the last segment takes its number.
pub fn deletion()
    ensures map { DeletionLeavesAMap }
    ensures split { DeletionSplitsAFace }
    ensures join { DeletionJoinsFaces }
    ensures joined { DeletionKeepsComponents }
    ensures bridge { DeletionSplitsAComponent }
    ensures flat { DeletionKeepsFlat }
{}

/// All segments under other numbers, some perhaps turned: the counts stay.
pub fn renumbering()
    ensures map { RenumberingLeavesAMap }
    ensures counts { RenumberingKeepsCounts }
    ensures flat { RenumberingKeepsFlat }
{}

/// Nodes under other numbers: the counts stay.
pub fn node_renumbering()
    ensures map { NodeRenumberingLeavesAMap }
    ensures counts { NodeRenumberingKeepsCounts }
    ensures flat { NodeRenumberingKeepsFlat }
{}

/// A node without darts comes or goes: one face and one component more or less.
pub fn nodes_without_darts()
    ensures comes { NodeComes }
    ensures comes_flat { NodeComesFlat }
    ensures goes { NodeGoes }
    ensures goes_flat { NodeGoesFlat }
{}
