//! Why no rows are made: too many of them, or lack of memory.
ghost use Rattle.std.specs.Prelude.{◌≡◌};
ghost use Rattle.flatten.specs.declared.fault.FlattenFault.TheVariants.{Memory};

use std::alloc::{AllocError, AllocFailed};
use streams::OUT_OF_MEMORY;
use thiserror::Error;

/// Why a dump can't be flattened.
#[derive(Clone, Copy, Debug, PartialEq, Eq, Error)]
pub enum FlattenFault {
    /// Memory was refused.
    #[error("{}", OUT_OF_MEMORY)]
    Memory,
}

impl From<AllocError> for FlattenFault {
    ghost from_gives = { λ _ e. e ≡ Memory };

    fn from(_e: AllocError) -> FlattenFault {
        FlattenFault::Memory
    }
}

impl<T: Drop> From<AllocFailed<T>> for FlattenFault {
    ghost from_gives = { λ _ e. e ≡ Memory };

    fn from(_e: AllocFailed<T>) -> FlattenFault {
        FlattenFault::Memory
    }
}
