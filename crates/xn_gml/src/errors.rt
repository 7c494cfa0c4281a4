// Why a text has no graph.
ghost use Rattle.std.specs.Prelude.{◌≡◌};
ghost use Rattle.xn_gml.specs.declared.errors.GmlErr.TheVariants.{Memory};

use std::alloc::{AllocError, AllocFailed};
use thiserror::Error;

/// Why a text has no graph: the first cause in the order of the steps. The numbers are byte offsets.
///
/// First the whole text is read by the grammar (`Syntax`, `Deep`), then the graph is sought (`NoGraph`, `SecondGraph`), then come
/// the node blocks in order, and then the edge blocks.
#[derive(Clone, Copy, Debug, PartialEq, Eq, Error)]
pub enum GmlErr {
    /// The token there can't stand there, or the text ends there too early.
    #[error("syntax at {0}")]
    Syntax(u64),
    /// The `[` there would make 65 lists stand open.
    #[error("deep at {0}")]
    Deep(u64),
    /// No top-level pair has the key `graph` and a list.
    #[error("no graph")]
    NoGraph,
    /// The key there begins a second graph.
    #[error("second graph at {0}")]
    SecondGraph(u64),
    /// The block whose `[` is there has no `id`, or no `source` or `target`.
    #[error("no id at {0}")]
    NoId(u64),
    /// The id there is that of an earlier node.
    #[error("repeated at {0}")]
    Repeated(u64),
    /// The end there is no node's id.
    #[error("unknown at {0}")]
    Unknown(u64),
    /// The value there is no integer of 64 bits.
    #[error("range at {0}")]
    Range(u64),
    /// There are more than 1,000 nodes.
    #[error("more than 1000 nodes")]
    TooManyNodes,
    /// There are more than 1,000 edges that are no loops.
    #[error("more than 1000 edges")]
    TooManyEdges,
    /// Memory was wanting.
    #[error("no memory")]
    Memory,
}

impl From<AllocError> for GmlErr {
    ghost from_gives = { λ _ e. e ≡ Memory };

    fn from(_e: AllocError) -> GmlErr {
        GmlErr::Memory
    }
}

impl<T: Drop> From<AllocFailed<T>> for GmlErr {
    ghost from_gives = { λ _ e. e ≡ Memory };

    fn from(_e: AllocFailed<T>) -> GmlErr {
        GmlErr::Memory
    }
}
