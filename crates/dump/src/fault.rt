//! Where a dump is faulty: a line and its code; and why an element or a dump is refused. The codes
//! are those of the crate `lsif`.
ghost use Rattle.std.specs.Prelude.{◌≡◌};
ghost use Rattle.dump.specs.declared.fault.FeedFault.TheVariants.{Memory};

use lsif::Code;
use std::alloc::{AllocError, AllocFailed};
use streams::OUT_OF_MEMORY;
use thiserror::Error;

/// What is wrong with a dump: a line, counted from 1, and its code.
#[derive(Clone, Copy, Debug, PartialEq, Eq, Error)]
#[error("line {line}: {code}")]
pub struct LineFault {
    pub line: u32,
    pub code: Code,
}

/// Why the checker takes no further line.
#[derive(Clone, Copy, Debug, PartialEq, Eq, Error)]
pub enum FeedFault {
    /// Memory was refused.
    #[error("{}", OUT_OF_MEMORY)]
    Memory,
    /// The dump is faulty.
    #[error(transparent)]
    Line(LineFault),
}

impl From<AllocError> for FeedFault {
    ghost from_gives = { λ _ e. e ≡ Memory };

    fn from(_e: AllocError) -> FeedFault {
        FeedFault::Memory
    }
}

impl<T: Drop> From<AllocFailed<T>> for FeedFault {
    ghost from_gives = { λ _ e. e ≡ Memory };

    fn from(_e: AllocFailed<T>) -> FeedFault {
        FeedFault::Memory
    }
}
