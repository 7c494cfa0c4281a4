//! Laws on blocks. Each is the contract of a function with an empty body.
ghost use Rattle.xn_blocks.specs.Laws.{BlocksAreClasses, BlocksPartSegments};

/// To be equal or on a common cycle is an equivalence of the segments of a web without loops; so its blocks part them.
pub fn blocks()
    ensures classes { BlocksAreClasses }
    ensures part { BlocksPartSegments }
{}
