//! A law on refusals, as the contract of a function that does nothing.
ghost use Rattle.xn_map.specs.Rotation.{FlawsAreNoMaps};

/// A list of successors with a flaw is no rotation.
pub fn flaws_are_no_maps()
    ensures { FlawsAreNoMaps }
{}
