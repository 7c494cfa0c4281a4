// Why a computation stopped.
use std::alloc::{AllocError, AllocFailed};
use xn_frac::Wide;

/// Why a computation stopped.
#[derive(Debug, Drop)]
pub enum Stop {
    /// An operation is out of range.
    Wide(Wide),
    /// There is no memory left.
    Memory,
}

impl From<Wide> for Stop {
    fn from(wide: Wide) -> Stop {
        Stop::Wide(wide)
    }
}

impl From<AllocError> for Stop {
    fn from(_: AllocError) -> Stop {
        Stop::Memory
    }
}

impl<T: Drop> From<AllocFailed<T>> for Stop {
    fn from(_: AllocFailed<T>) -> Stop {
        Stop::Memory
    }
}
