//! A desk in memory, for tests and for reading. It keeps what it accepted, and walks a dump when a
//! query asks.
ghost use Rattle.machine.specs.State.{nothing};

use crate::index_desk::IndexDesk;
use crate::memory_index::MemoryIndex;
use machine::Desk;
use std::alloc::Global;

/// A desk over an index in memory.
pub type PlainDesk = IndexDesk<MemoryIndex>;

impl PlainDesk {
    /// A desk that represents the state of an empty database. It takes no memory.
    pub fn new(alloc: Global) -> PlainDesk
        ensures { ⟦<IndexDesk<MemoryIndex> as Desk>⟧.stands result nothing }
    {
        IndexDesk::over(alloc, MemoryIndex::new(alloc))
    }
}
