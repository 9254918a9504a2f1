//! Why a line gives no element: a code, or lack of memory. The codes are in `code.rt`.
ghost use Rattle.std.specs.Prelude.{◌≡◌};
ghost use Rattle.lsif.specs.declared.fault.ReadFault.TheVariants.{Memory};

use crate::code::Code;
use std::alloc::{AllocError, AllocFailed};
use streams::OUT_OF_MEMORY;
use thiserror::Error;

/// Why a line has no element.
#[derive(Clone, Copy, Debug, PartialEq, Eq, Error)]
pub enum ReadFault {
    /// Memory was refused.
    #[error("{}", OUT_OF_MEMORY)]
    Memory,
    /// The least fault of the line's shape.
    #[error(transparent)]
    Shape(Code),
}

impl From<AllocError> for ReadFault {
    ghost from_gives = { λ _ e. e ≡ Memory };

    fn from(_e: AllocError) -> ReadFault {
        ReadFault::Memory
    }
}

impl<T: Drop> From<AllocFailed<T>> for ReadFault {
    ghost from_gives = { λ _ e. e ≡ Memory };

    fn from(_e: AllocFailed<T>) -> ReadFault {
        ReadFault::Memory
    }
}
