ghost use Rattle.std.specs.Prelude.{◌≡◌};
ghost use Rattle.xn_draw.specs.declared.results.DrawErr.TheVariants.{Memory};

use std::alloc::AllocError;
use xn_graph::Euler;
use xn_kinds::DrawFlaw;

/// What is seen of a drawing.
#[derive(Clone, Copy, Debug, PartialEq, Eq)]
pub struct Seen {
    /// The number of crossings.
    pub crossings: u64,
    /// The counts of the map of its planarised graph.
    pub euler: Euler,
}

/// Why a drawing isn't seen.
#[derive(Clone, Copy, Debug, PartialEq, Eq)]
pub enum DrawErr {
    /// It is no simple drawing of the graph, and this is its first flaw.
    Flaw(DrawFlaw),
    /// There is no memory.
    Memory,
}

impl From<AllocError> for DrawErr {
    ghost from_gives = { λ _ e. e ≡ Memory };

    fn from(_error: AllocError) -> DrawErr {
        DrawErr::Memory
    }
}
