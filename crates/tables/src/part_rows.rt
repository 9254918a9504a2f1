//! The trait of the rows of a part, and how a list of them is put into its table: eight by one
//! statement, since each statement costs a plan, and the last ones one by one. What the rows hold
//! is in `specs/Columns`, what a statement makes of its values in `specs/Steps/Inserts`.
ghost use Rattle.std.specs.Prelude.{◌≡◌, ◌∷◌, ◌++◌, ℕ, map, IfSome, OnOk};
ghost use Rattle.std.specs.List.{flat_map};
ghost use Rattle.sqlite_value.specs.declared.value.Value.TheVariants.{Int};
ghost use Rattle.sqlite_value.specs.Order.{Row as Columns};
ghost use Rattle.sqlite.specs.Values.{bound};
ghost use Rattle.tables.specs.Steps.Puts.{PutsAll};
ghost use Rattle.tables.specs.Steps.Inserts.{Inserts, InsertsOne, InsertsEight};
ghost use Rattle.tables.specs.Steps.Clauses.{CommitsNothing, Edits};

use crate::statements::run;
use sqlite::types::ValueRef;
use sqlite::{Alter, Error, Transaction};
use std::alloc::{AllocError, Global};
use std::slice::from_ref;

/// How many rows a statement for several rows inserts.
pub(crate) const EIGHT: usize = 8;

/// A row that a part has in one of its tables.
pub(crate) trait PartRow {
    /// The tree of the table.
    ghost tree: { ℕ };

    /// The row's columns after that of the slot.
    ghost columns: { Self → Columns };

    /// The statement that inserts one row.
    fn insert_one() -> &'static str
        ensures { InsertsOne result.now tree columns };

    /// The statement that inserts eight rows, where the table has one.
    fn insert_eight() -> Option<&'static str>
        ensures { IfSome result (λ text. InsertsEight text.now tree columns) };

    /// Adds the row's values, the slot first, to those of a statement.
    fn bind<'a>(&'a self, slot: i64, values: &mut Vec<ValueRef<'a>>) -> Result<(), AllocError>
        ensures { OnOk result (bound values.new.items ≡ bound values.old.items ++ (Int slot ∷ columns self.now)) };
}

/// Puts the rows into their table, under this slot, by a statement for so many. The values that are
/// there are those of rows before.
fn insert_by<'a, S: Alter, R: PartRow>(
    tx: &mut Transaction<'_, S>,
    slot: i64,
    text: &str,
    rows: &'a [R],
    values: &mut Vec<ValueRef<'a>>,
) -> Result<(), Error>
    requires inserts { Inserts text.now R.tree (flat_map (λ row. Int slot ∷ R.columns row) rows.now) (map (λ row. Int slot ∷ R.columns row) rows.now) }
    ensures put { Edits S.Store result tx.old.conn tx.new.conn (PutsAll R.tree (map (λ row. Int slot ∷ R.columns row) rows.now)) }
    ensures uncommitted { CommitsNothing S.Store tx.old.conn tx.new.conn }
{
    values.clear();
    for row in rows {
        row.bind(slot, values)?;
    }
    run(tx, text, values)?;
    Ok(())
}

/// Puts the rows into their table, under this slot, one by one.
fn insert_each<'a, S: Alter, R: PartRow>(
    tx: &mut Transaction<'_, S>,
    slot: i64,
    rows: &'a [R],
    values: &mut Vec<ValueRef<'a>>,
) -> Result<(), Error>
    ensures put { Edits S.Store result tx.old.conn tx.new.conn (PutsAll R.tree (map (λ row. Int slot ∷ R.columns row) rows.now)) }
    ensures uncommitted { CommitsNothing S.Store tx.old.conn tx.new.conn }
{
    let text = R::insert_one();
    for row in rows {
        insert_by(tx, slot, text, from_ref(row), values)?;
    }
    Ok(())
}

/// Puts at most eight rows into their table, under this slot: eight at once where there is a
/// statement for eight.
fn insert_few<'a, S: Alter, R: PartRow>(
    tx: &mut Transaction<'_, S>,
    slot: i64,
    rows: &'a [R],
    values: &mut Vec<ValueRef<'a>>,
) -> Result<(), Error>
    ensures put { Edits S.Store result tx.old.conn tx.new.conn (PutsAll R.tree (map (λ row. Int slot ∷ R.columns row) rows.now)) }
    ensures uncommitted { CommitsNothing S.Store tx.old.conn tx.new.conn }
{
    match R::insert_eight() {
        Some(text) if rows.len() == EIGHT => insert_by(tx, slot, text, rows, values),
        _ => insert_each(tx, slot, rows, values),
    }
}

/// Puts the rows into their table, under this slot.
pub(crate) fn insert_all<S: Alter, R: PartRow>(
    alloc: Global,
    tx: &mut Transaction<'_, S>,
    slot: i64,
    rows: &[R],
) -> Result<(), Error>
    ensures put { Edits S.Store result tx.old.conn tx.new.conn (PutsAll R.tree (map (λ row. Int slot ∷ R.columns row) rows.now)) }
    ensures uncommitted { CommitsNothing S.Store tx.old.conn tx.new.conn }
{
    let mut values = Vec::new(alloc);
    for group in rows.chunks(EIGHT) {
        insert_few(tx, slot, group, &mut values)?;
    }
    Ok(())
}
