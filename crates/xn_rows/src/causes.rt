ghost use Rattle.std.specs.Prelude.{◌≡◌};
ghost use Rattle.xn_rows.specs.declared.causes.RowErr.TheVariants.{Memory};

use std::alloc::AllocError;
use thiserror::Error;
use xn_kinds::RowFlaw;

/// Why a row isn't seen to hold.
#[derive(Clone, Copy, Debug, PartialEq, Eq, Error)]
pub enum RowErr {
    /// It is no row of the graph, or doesn't hold, and this is its first flaw.
    #[error("the row has a flaw")]
    Flaw(RowFlaw),
    /// There is no memory.
    #[error("no memory")]
    Memory,
}

impl From<AllocError> for RowErr {
    ghost from_gives = { λ _ e. e ≡ Memory };

    fn from(_error: AllocError) -> RowErr {
        RowErr::Memory
    }
}
