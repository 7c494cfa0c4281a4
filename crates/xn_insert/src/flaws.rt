ghost use Rattle.std.specs.Prelude.{◌≡◌};
ghost use Rattle.xn_insert.specs.declared.flaws.LooseErr.TheVariants.{Memory};

use std::alloc::AllocError;
use xn_graph::Euler;

/// What is first wrong with a map and walks that are said to be a loose drawing of all edges of a graph.
#[derive(Clone, Copy, Debug, PartialEq, Eq)]
pub enum LooseFlaw {
    /// There isn't one walk for each edge, or the map has fewer nodes than the graph.
    Size,
    /// The walk of this edge doesn't lead from its first to its second end, or it passes a node of the graph.
    Ends(u32),
    /// This segment isn't walked exactly once.
    Walked(u32),
    /// This further node hasn't four darts, or a walk doesn't go straight over it.
    Turn(u32),
    /// The map isn't flat: these are its counts.
    Genus(Euler),
}

/// Why there is no loose drawing.
#[derive(Clone, Copy, Debug, PartialEq, Eq)]
pub enum LooseErr {
    /// Map and walks are none, and this is their first flaw.
    Flaw(LooseFlaw),
    /// There is no memory.
    Memory,
}

impl From<AllocError> for LooseErr {
    ghost from_gives = { λ _ e. e ≡ Memory };

    fn from(_error: AllocError) -> LooseErr {
        LooseErr::Memory
    }
}
