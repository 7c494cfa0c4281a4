//! What keeps the genus of a map: each law is the contract of a function with an empty body.
ghost use Rattle.xn_genus.specs.Deletion.{DeletionKeepsFlat};
ghost use Rattle.xn_genus.specs.Genus.{GenusIsNotNegative};
ghost use Rattle.xn_surgery.specs.Resolution.{ResolutionKeepsFlat};
ghost use Rattle.xn_surgery.specs.Smoothing.{SmoothingKeepsFlat};
ghost use Rattle.xn_surgery.specs.Splitting.{SplitKeepsFlat};

/// V - E + F is at most 2C for every map, and each call of this crate keeps a flat map flat.
pub fn genus()
    ensures euler { GenusIsNotNegative }
    ensures delete_edge { DeletionKeepsFlat }
    ensures split_node { SplitKeepsFlat }
    ensures smooth { SmoothingKeepsFlat }
    ensures resolve { ResolutionKeepsFlat }
{}
