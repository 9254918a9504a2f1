//! Why the tables refuse, with the code of each reason and its message, and the private reason that
//! a row isn't one of the tables'. `specs/Fault`.
ghost use Rattle.std.specs.Prelude.{◌≡◌};
ghost use Rattle.tables.specs.Fault.{IsStoreFault, name_of, text_of, fault_of};
ghost use Rattle.tables.specs.Steps.Refusals.{told_fault};
ghost use Rattle.tables.specs.declared.fault.Refusal.TheVariants.{Memory, Store};

use machine::STORE_REFUSED;
use sqlite::{Error, ErrorCode};
use std::alloc::{AllocError, AllocFailed};
use std::fmt;
use streams::OUT_OF_MEMORY;

/// Why a call of the tables is refused. Its message is what the program prints.
#[derive(Clone, Copy, Debug, PartialEq, Eq)]
pub enum TablesFault {
    /// The store or a statement refused for another cause than memory, or a row isn't one that this
    /// product writes.
    Refused,
    /// Memory was refused, also to the store of a database in memory (`Tables::in_memory`).
    Memory,
    /// The database isn't the product's: something has the name of one of its tables, and no
    /// version can be read.
    Foreign,
    /// The tables are of format 1, which `migrate` upgrades.
    OldFormat,
}

impl TablesFault {
    /// The code of the fault, `S01` to `S04`, as it is printed.
    pub fn name(self) -> &'static str
        ensures { result.now ≡ name_of self }
    {
        match self {
            TablesFault::Refused => "S01",
            TablesFault::Memory => "S02",
            TablesFault::Foreign => "S03",
            TablesFault::OldFormat => "S04",
        }
    }

    /// The message of the fault, as it is printed.
    pub fn text(self) -> &'static str
        ensures { result.now ≡ text_of self }
    {
        match self {
            TablesFault::Refused => STORE_REFUSED,
            TablesFault::Memory => OUT_OF_MEMORY,
            TablesFault::Foreign => "not a codenav database",
            TablesFault::OldFormat => "database is of format 1",
        }
    }
}

impl fmt::Display for TablesFault {
    fn fmt<W: fmt::Write>(&self, f: &mut fmt::Formatter<W>) -> fmt::Result {
        f.write_str(self.text())
    }
}

impl std::error::Error for TablesFault {}

/// The fault that an error of the store is, of a database in memory or of another. What a store in
/// memory can't do is for lack of memory.
pub(crate) fn fault_of(is_in_memory: bool, error: Error) -> TablesFault
    ensures is { result ≡ fault_of is_in_memory error }
    ensures kind { IsStoreFault result }
{
    match error {
        Error::SqliteFailure(ErrorCode::OutOfMemory) => TablesFault::Memory,
        Error::SqliteFailure(ErrorCode::SystemIoFailure) if is_in_memory => TablesFault::Memory,
        _ => TablesFault::Refused,
    }
}

/// Why a private function refuses.
#[derive(Clone, Copy)]
pub(crate) enum Refusal {
    /// The store refused with this error.
    Store(Error),
    /// A row isn't one of this product's.
    Row,
    /// Memory was refused to work beside the store's.
    Memory,
}

impl From<Error> for Refusal {
    ghost from_gives = { λ error refusal. refusal ≡ Store error };

    fn from(error: Error) -> Refusal {
        Refusal::Store(error)
    }
}

impl From<AllocError> for Refusal {
    ghost from_gives = { λ _ refusal. refusal ≡ Memory };

    fn from(_: AllocError) -> Refusal {
        Refusal::Memory
    }
}

impl<T: Drop> From<AllocFailed<T>> for Refusal {
    ghost from_gives = { λ _ refusal. refusal ≡ Memory };

    fn from(_: AllocFailed<T>) -> Refusal {
        Refusal::Memory
    }
}

impl Refusal {
    /// The fault that it is, of a database in memory or of another.
    pub(crate) fn fault(self, is_in_memory: bool) -> TablesFault
        ensures is { result ≡ told_fault is_in_memory self }
        ensures kind { IsStoreFault result }
    {
        match self {
            Refusal::Store(error) => fault_of(is_in_memory, error),
            Refusal::Row => TablesFault::Refused,
            Refusal::Memory => TablesFault::Memory,
        }
    }
}
