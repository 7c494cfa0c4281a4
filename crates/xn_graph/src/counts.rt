ghost use Rattle.std.specs.Prelude.{◌↔◌, IsTrue};
ghost use Rattle.xn_graph.specs.Counts.{IsBalanced};

/// The counts of a map: nodes, segments, faces and components (Euler).
#[derive(Clone, Copy, Debug, PartialEq, Eq)]
pub struct Euler {
    /// The nodes.
    pub v: u64,
    /// The segments.
    pub e: u64,
    /// The faces: the cycles of the face walk, and one for each node without darts.
    pub f: u64,
    /// The connected components.
    pub c: u64,
}

impl Euler {
    /// Whether V - E + F = 2C, as in a map of genus zero.
    pub fn is_balanced(&self) -> bool
        ensures { IsTrue result ↔ IsBalanced self.now }
    {
        u128::from(self.v) + u128::from(self.f) == 2 * u128::from(self.c) + u128::from(self.e)
    }
}
