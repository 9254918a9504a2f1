//! The desk over the tables of a database. Its clauses say from outside, both ways, which states it
//! represents, what a crash may leave and when it is reliable: as `tables/specs/Stands` says it of
//! the tables and `sqlite` of their disk.
ghost use Rattle.std.specs.Prelude.{◌↔◌, ◌∷◌, [], List, IsTrue};
ghost use Rattle.sqlite.specs.Held.{state};
ghost use Rattle.sqlite.specs.State.{HasCleanDisk};
ghost use Rattle.tables.specs.Stands.{Rests};
ghost use Rattle.machine.specs.State.{State};
ghost use Rattle.desk.specs.TableStates.{LeavesOneOf, ServesFor};

use crate::index_desk::IndexDesk;
use machine::Desk;
use sqlite::Alter;
use std::alloc::Global;
use tables::Tables;

/// A desk over the tables of a database, in a file or in memory.
pub type TableDesk<S> = IndexDesk<Tables<S>>;

impl<S: Alter> TableDesk<S> {
    /// A desk that represents what the tables represent, and of which a crash leaves what it would
    /// leave of them: where their store is open and they are at rest, their state alone. It takes
    /// no memory.
    pub fn new(alloc: Global, tables: Tables<S>) -> TableDesk<S>
        ensures stands { (m : State) → ⟦<IndexDesk<Tables<S>> as Desk>⟧.stands result m ↔ ServesFor (state S.Store tables) m }
        ensures may_leave { (states : List State) → ⟦<IndexDesk<Tables<S>> as Desk>⟧.may_leave result states ↔ LeavesOneOf (state S.Store tables) states }
        ensures reliable { ⟦<IndexDesk<Tables<S>> as Desk>⟧.is_reliable result ↔ HasCleanDisk (state S.Store tables) }
        ensures alone { (m : State) → IsTrue (state S.Store tables).is_open → Rests (state S.Store tables) m
            → ⟦<IndexDesk<Tables<S>> as Desk>⟧.may_leave result (m ∷ []) }
    {
        IndexDesk::over(alloc, tables)
    }

    /// The tables of the desk. They represent what it represented, and a crash leaves of them what
    /// it would have left of the desk.
    pub fn into_tables(self) -> Tables<S>
        ensures stands { (m : State) → ServesFor (state S.Store result) m ↔ ⟦<IndexDesk<Tables<S>> as Desk>⟧.stands self m }
        ensures may_leave { (states : List State) → LeavesOneOf (state S.Store result) states ↔ ⟦<IndexDesk<Tables<S>> as Desk>⟧.may_leave self states }
        ensures reliable { HasCleanDisk (state S.Store result) ↔ ⟦<IndexDesk<Tables<S>> as Desk>⟧.is_reliable self }
    {
        self.index
    }
}
