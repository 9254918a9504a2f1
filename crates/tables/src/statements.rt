//! A statement that is run within a transaction. What was committed stays, whatever it changes.
ghost use Rattle.std.specs.Prelude.{IsTrue};
ghost use Rattle.sqlite.specs.State.{HasCleanDisk, ExecutesInside};
ghost use Rattle.sqlite.specs.Held.{state};
ghost use Rattle.tables.specs.Steps.Clauses.{CommitsNothing};
ghost use Rattle.sqlite.specs.Values.{bound};

use sqlite::types::ValueRef;
use sqlite::{Alter, Error, Transaction};

/// Runs a statement with these values, and returns how many rows it wrote.
pub(crate) fn run<S: Alter>(
    tx: &mut Transaction<'_, S>,
    text: &str,
    values: &[ValueRef<'_>],
) -> Result<usize, Error>
    ensures ran { HasCleanDisk (state S.Store tx.new.conn.now) → IsTrue tx.old.conn.now.in_transaction
        → ExecutesInside 0 text.now (bound values.now) (state S.Store tx.old.conn.now) (state S.Store tx.new.conn.now) result }
    ensures uncommitted { CommitsNothing S.Store tx.old.conn tx.new.conn }
{
    tx.execute(text, values)
}
