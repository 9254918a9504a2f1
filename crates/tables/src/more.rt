//! The rows of `more`: the results of a line whose kinds have no column in `range_row` and `bearer`.
//! They're put, and selected by their line.
ghost use Rattle.std.specs.Prelude.{◌≡◌, ◌↔◌, ◌∷◌, ◌⊎◌, ◌≤◌, List, length, map, take, IfOk, IsTrue, OnOk};
ghost use Rattle.std.specs.List.{flat_map};
ghost use Rattle.sqlite_value.specs.declared.value.Value.TheVariants.{Int};
ghost use Rattle.sqlite_value.specs.Order.{Row as Columns};
ghost use Rattle.sqlite_rules.specs.Lists.{Has};
ghost use Rattle.sqlite.specs.State.{HasCleanDisk};
ghost use Rattle.sqlite.specs.Held.{state};
ghost use Rattle.flatten.specs.declared.rows.Rows.{Rows};
ghost use Rattle.flatten.specs.declared.rows.BearerRow.{BearerRow};
ghost use Rattle.flatten.specs.Flat.{ResultsValue};
ghost use Rattle.flatten.specs.Rows.{range_value, bearer_value, results_value, rows_value};
ghost use Rattle.tables.specs.Schema.{schema_two};
ghost use Rattle.tables.specs.Databases.{Holds};
ghost use Rattle.tables.specs.Kinds.{more_kinds};
ghost use Rattle.tables.specs.Columns.{kind_columns, more_columns, more_rows, range_more, bearer_more};
ghost use Rattle.tables.specs.Steps.Known.{IsKnown, more_value, more_values};
ghost use Rattle.tables.specs.Steps.Next.{IsNext};
ghost use Rattle.tables.specs.Steps.Puts.{PutsAll, Steps};
ghost use Rattle.tables.specs.Steps.Clauses.{CommitsNothing, Edits, OfDump, OnlyReads};
ghost use Rattle.tables.specs.TableTrees.{more_tree};

use crate::columns::column;
use crate::fault::Refusal;
use crate::kinds::{INSERT_MORE, bind_more, has_more, has_same_more, naming_more, read_more};
use crate::part_rows::{PartRow, insert_all};
use crate::selection::{Listed, select_first};
use flatten::{BearerRow, RangeRow, Results, Rows};
use sqlite::types::ValueRef;
use sqlite::{Alter, Connection, Error, Row, Transaction, params};
use std::alloc::{AllocError, Global};
use std::slice::from_ref;

/// A line, with its results of the kinds that have a column in `more`.
#[derive(Drop)]
pub(crate) struct MoreRow {
    pub(crate) line: u32,
    pub(crate) results: Results,
}

impl PartRow for MoreRow {
    ghost tree = { more_tree };

    ghost columns = { λ row. more_values (more_value row) };

    #[tactic(auto, using(crate::proofs::Inserts::more_put))]
    fn insert_one() -> &'static str {
        INSERT_MORE
    }

    fn insert_eight() -> Option<&'static str> {
        None
    }

    fn bind<'a>(&'a self, slot: i64, values: &mut Vec<ValueRef<'a>>) -> Result<(), AllocError> {
        values.extend_from_slice(params![slot, self.line])?;
        bind_more(self.results, values)
    }
}

impl Listed for MoreRow {
    ghost columns = { λ row. more_values (more_value row) };

    fn read(row: &Row) -> Result<MoreRow, Refusal> {
        Ok(MoreRow {
            line: column(row, 0)?,
            results: read_more(row, 1)?,
        })
    }
}

const SELECT_MORE: &str = naming_more!("SELECT line, ", " FROM more WHERE slot = ?1 AND line = ?2");

/// The results that a line of the dump that has this slot has in `more`.
pub(crate) fn more_of<S: Alter>(
    conn: &mut Connection<S>,
    slot: i64,
    line: u32,
) -> Result<Results, Refusal>
    ensures more { OfDump S.Store conn.old conn.new slot (λ dump. (results : ResultsValue) → IsKnown dump line results
        → IfOk result (λ more. map (results_value more) more_kinds ≡ map results more_kinds)) }
    ensures reads { OnlyReads S.Store result conn.old conn.new }
{
    let found: Option<MoreRow> = select_first(conn, SELECT_MORE, params![slot, line])?;
    match found {
        Some(more) => Ok(more.results),
        None => Ok(Results::none()),
    }
}

/// Puts the row of a line, where it has one.
fn insert_line<S: Alter>(
    alloc: Global,
    tx: &mut Transaction<'_, S>,
    slot: i64,
    line: u32,
    results: Results,
) -> Result<(), Error>
    ensures put { Edits S.Store result tx.old.conn tx.new.conn
        (PutsAll more_tree (map (λ columns. Int slot ∷ columns) (more_columns line (results_value results)))) }
    ensures uncommitted { CommitsNothing S.Store tx.old.conn tx.new.conn }
{
    if !has_more(results) {
        return Ok(());
    }
    let row = MoreRow { line, results };
    insert_all(alloc, tx, slot, from_ref(&row))
}

/// Puts the rows of the lines of ranges.
fn insert_ranges<S: Alter>(
    alloc: Global,
    tx: &mut Transaction<'_, S>,
    slot: i64,
    ranges: &[RangeRow<'_>],
) -> Result<(), Error>
    ensures put { Edits S.Store result tx.old.conn tx.new.conn
        (PutsAll more_tree (flat_map (λ row. map (λ columns. Int slot ∷ columns) (range_more (range_value row))) ranges.now)) }
    ensures uncommitted { CommitsNothing S.Store tx.old.conn tx.new.conn }
{
    for row in ranges {
        insert_line(alloc, tx, slot, row.line, row.results)?;
    }
    Ok(())
}

/// Whether a bearer has this line, and in `more` the same of these results.
fn has_same(bearer: &BearerRow, line: u32, results: Results) -> bool
    ensures is { IsTrue result ↔ ((bearer.now.line ≡ line)
        × (map (results_value bearer.now.results) more_kinds ≡ map (results_value results) more_kinds)) }
    ensures more { IsTrue result → more_columns line (results_value results) ≡ bearer_more (bearer_value bearer.now) }
{
    bearer.line == line && has_same_more(bearer.results, results)
}

/// Whether a range has the row of a bearer.
fn is_of_range(rows: &Rows<'_>, bearer: &BearerRow) -> bool
    ensures listed { IsTrue result → (row : Columns) → Has (bearer_more (bearer_value bearer.now)) row
        → Has (flat_map (λ r. range_more (range_value r)) rows.now.ranges.items) row }
    ensures each { (earlier : List BearerRow) → IsNext rows.now earlier bearer.now → (row : Columns) → Has (bearer_more (bearer_value bearer.now)) row
        → Has (flat_map (λ r. range_more (range_value r)) rows.now.ranges.items) row → IsTrue result }
{
    match rows
        .ranges
        .binary_search_by(|range| range.line.cmp(&bearer.line))
    {
        Ok(found) => match rows.ranges.get(found) {
            Some(range) => has_same(bearer, range.line, range.results),
            None => false,
        },
        Err(_) => false,
    }
}

/// Whether the last of these bearers has the row of the next one.
fn is_of_last(earlier: &[BearerRow], bearer: &BearerRow) -> bool
    ensures listed { IsTrue result → (row : Columns) → Has (bearer_more (bearer_value bearer.now)) row
        → Has (flat_map (λ b. bearer_more (bearer_value b)) earlier.now) row }
    ensures each { (rows : Rows) → IsNext rows earlier.now bearer.now → (row : Columns) → Has (bearer_more (bearer_value bearer.now)) row
        → Has (flat_map (λ b. bearer_more (bearer_value b)) earlier.now) row → IsTrue result }
{
    match earlier.last() {
        Some(before) => has_same(bearer, before.line, before.results),
        None => false,
    }
}

/// Whether the row of a bearer is that of the bearer before it, or of a range.
fn is_listed(rows: &Rows<'_>, at: usize, bearer: &BearerRow) -> bool
    requires { at ≤ length rows.now.bearers.items }
    ensures listed { IsTrue result → (row : Columns) → Has (bearer_more (bearer_value bearer.now)) row
        → Has (flat_map (λ r. range_more (range_value r)) rows.now.ranges.items) row
        ⊎ Has (flat_map (λ b. bearer_more (bearer_value b)) (take at rows.now.bearers.items)) row }
    ensures each { IsNext rows.now (take at rows.now.bearers.items) bearer.now → (row : Columns) → Has (bearer_more (bearer_value bearer.now)) row
        → Has (flat_map (λ r. range_more (range_value r)) rows.now.ranges.items) row
        ⊎ Has (flat_map (λ b. bearer_more (bearer_value b)) (take at rows.now.bearers.items)) row → IsTrue result }
{
    is_of_last(&rows.bearers[..at], bearer) || is_of_range(rows, bearer)
}

/// Puts the row of a bearer, where that isn't there yet.
fn insert_bearer<S: Alter>(
    alloc: Global,
    tx: &mut Transaction<'_, S>,
    slot: i64,
    rows: &Rows<'_>,
    at: usize,
    bearer: &BearerRow,
) -> Result<(), Error>
    requires { at ≤ length rows.now.bearers.items }
    ensures put { HasCleanDisk (state S.Store tx.new.conn.now) → IsTrue tx.old.conn.now.in_transaction
        → (state S.Store tx.old.conn.now).now.schema ≡ schema_two
        → ((row : Columns) → Has (map (λ columns. Int slot ∷ columns) (flat_map (λ r. range_more (range_value r)) rows.now.ranges.items)) row
        → Holds (state S.Store tx.old.conn.now).now.trees more_tree row)
        → ((row : Columns) → Has (map (λ columns. Int slot ∷ columns) (flat_map (λ b. bearer_more (bearer_value b)) (take at rows.now.bearers.items))) row
        → Holds (state S.Store tx.old.conn.now).now.trees more_tree row)
        → OnOk result (Steps (PutsAll more_tree (map (λ columns. Int slot ∷ columns) (bearer_more (bearer_value bearer.now))))
        (state S.Store tx.old.conn.now) (state S.Store tx.new.conn.now)) }
    ensures uncommitted { CommitsNothing S.Store tx.old.conn tx.new.conn }
{
    if is_listed(rows, at, bearer) {
        return Ok(());
    }
    insert_line(alloc, tx, slot, bearer.line, bearer.results)
}

/// Puts the rows of the bearers, where those of the ranges are there.
fn insert_bearers<S: Alter>(
    alloc: Global,
    tx: &mut Transaction<'_, S>,
    slot: i64,
    rows: &Rows<'_>,
) -> Result<(), Error>
    ensures put { HasCleanDisk (state S.Store tx.new.conn.now) → IsTrue tx.old.conn.now.in_transaction
        → (state S.Store tx.old.conn.now).now.schema ≡ schema_two
        → ((row : Columns) → Has (map (λ columns. Int slot ∷ columns) (flat_map (λ r. range_more (range_value r)) rows.now.ranges.items)) row
        → Holds (state S.Store tx.old.conn.now).now.trees more_tree row)
        → OnOk result (Steps (PutsAll more_tree (flat_map (λ b. map (λ columns. Int slot ∷ columns) (bearer_more (bearer_value b))) rows.now.bearers.items))
        (state S.Store tx.old.conn.now) (state S.Store tx.new.conn.now)) }
    ensures uncommitted { CommitsNothing S.Store tx.old.conn tx.new.conn }
{
    for (at, bearer) in rows.bearers.iter().enumerate() {
        insert_bearer(alloc, tx, slot, rows, at, bearer)?;
    }
    Ok(())
}

/// Puts the rows of the lines of a dump.
pub(crate) fn insert_more<S: Alter>(
    tx: &mut Transaction<'_, S>,
    slot: i64,
    rows: &Rows<'_>,
) -> Result<(), Error>
    ensures put { Edits S.Store result tx.old.conn tx.new.conn
        (PutsAll more_tree (map (λ columns. Int slot ∷ columns) (more_rows (rows_value rows.now)))) }
    ensures uncommitted { CommitsNothing S.Store tx.old.conn tx.new.conn }
{
    let alloc = *rows.ranges.allocator();
    insert_ranges(alloc, tx, slot, rows.ranges.as_slice())?;
    insert_bearers(alloc, tx, slot, rows)
}
