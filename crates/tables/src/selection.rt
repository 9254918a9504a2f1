//! Selections of typed rows: a statement is run, and each row read by its type's columns, or
//! refused. The statements are in the files of what they select.
ghost use Rattle.std.specs.Prelude.{◌≡◌, ◌++◌, ◌∷◌, [], ⊤, List, IfOk, IfSome, OnOk};
ghost use Rattle.std.specs.List.{AllByRecursion};
ghost use Rattle.sqlite_value.specs.Order.{Row as Columns};
ghost use Rattle.sqlite.specs.Values.{bound};
ghost use Rattle.sqlite.specs.State.{HasCleanDisk, Shown};
ghost use Rattle.sqlite.specs.Held.{state};
ghost use Rattle.tables.specs.Schema.{schema_two};
ghost use Rattle.tables.specs.Steps.Selected.{IsQuery, AreColumns, AreRead, IsFirstRead};
ghost use Rattle.tables.specs.Steps.Clauses.{OnlyReads};
ghost use Rattle.tables.specs.Steps.Refusals.{RefusesNoRow};

use crate::fault::Refusal;
use sqlite::types::ValueRef;
use sqlite::{Alter, Connection, Row};
use std::alloc::{AllocError, Global};

/// A value that a row of an answer reads as.
pub(crate) trait Listed: Sized + Drop {
    /// The columns of its row.
    ghost columns: { Self → Columns };

    /// What is true of each value that is read, beside its columns.
    ghost is_sound: { Self → Type 0 } = { λ _. ⊤ };

    /// What is true of each value that the product writes, beside its columns.
    ghost is_own: { Self → Type 0 } = { λ _. ⊤ };

    /// The value of a row. It's `Row` only where the product writes no such row.
    fn read(row: &Row) -> Result<Self, Refusal>
        ensures columns { IfOk result (λ x. AreColumns 0 (columns x) row.now) }
        ensures sound { IfOk result is_sound }
        ensures own { (x : Self) → is_own x → AreColumns 0 (columns x) row.now → RefusesNoRow result };

    /// The value as it's kept after the one of the row before, with which it may share memory.
    fn after(self, _before: Option<&Self>) -> Result<Self, AllocError>
        ensures columns { IfOk result (λ kept. columns kept ≡ columns self) }
        ensures sound { is_sound self → IfOk result is_sound }
    {
        Ok(self)
    }
}

/// Adds what a row reads as, after what the rows before it read as.
pub(crate) fn add_row<T: Listed>(found: &mut Vec<T>, row: &Row) -> Result<(), Refusal>
    ensures read { OnOk result ((rows : List Columns) → AreRead T.columns rows found.old.items → AreRead T.columns (rows ++ row.now ∷ []) found.new.items) }
    ensures sound { OnOk result (AllByRecursion T.is_sound found.old.items → AllByRecursion T.is_sound found.new.items) }
{
    let item = T::read(row)?.after(found.last())?;
    found.push(item)?;
    Ok(())
}

/// What the rows of the answer to a query that writes nothing read as. Each row is read as it
/// comes, so that no row is held with its value.
pub(crate) fn select_all<S: Alter, T: Listed>(
    alloc: Global,
    conn: &mut Connection<S>,
    sql: &str,
    params: &[ValueRef<'_>],
) -> Result<Vec<T>, Refusal>
    requires { IsQuery sql.now }
    ensures read { HasCleanDisk (state S.Store conn.new) → (state S.Store conn.old).now.schema ≡ schema_two → IfOk result (λ found. (rows : List Columns)
        × Shown sql.now (bound params.now) (state S.Store conn.old) (state S.Store conn.new) rows × AreRead T.columns rows found.items) }
    ensures sound { IfOk result (λ found. AllByRecursion T.is_sound found.items) }
    ensures reads { OnlyReads S.Store result conn.old conn.new }
{
    let mut found = Vec::new(alloc);
    let mut rows = conn.query(sql, params)?;
    'rows: for _ in 0..usize::MAX {
        let Some(row) = rows.next()? else {
            return Ok(found);
        };
        add_row(&mut found, row)?;
    }
    Err(Refusal::Memory)
}

/// What the first row of the answer reads as, where there is one.
pub(crate) fn select_first<S: Alter, T: Listed>(
    conn: &mut Connection<S>,
    sql: &str,
    params: &[ValueRef<'_>],
) -> Result<Option<T>, Refusal>
    requires { IsQuery sql.now }
    ensures read { HasCleanDisk (state S.Store conn.new)
        → IfOk result (λ found. (rows : List Columns) × Shown sql.now (bound params.now) (state S.Store conn.old) (state S.Store conn.new) rows
        × IsFirstRead T.columns rows found) }
    ensures sound { IfOk result (λ found. IfSome found T.is_sound) }
    ensures reads { OnlyReads S.Store result conn.old conn.new }
{
    let rows = conn.query_all(sql, params)?;
    match rows.first() {
        Some(row) => Ok(Some(T::read(row)?)),
        None => Ok(None),
    }
}
