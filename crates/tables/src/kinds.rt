//! The kinds of requests whose first results are in `more`, by which format 2 adds to the three kinds
//! of format 1: the columns of that table, and what they hold of a line's results. The columns of a
//! new kind are named here and in `specs/Kinds` alone.
ghost use Rattle.std.specs.Prelude.{◌≡◌, ◌↔◌, ◌++◌, List, is_some, map, IfOk, IsTrue, OnOk};
ghost use Rattle.std.specs.List.{list_any};
ghost use Rattle.sqlite.specs.Values.{bound};
ghost use Rattle.lsif.specs.RequestKinds.{kinds};
ghost use Rattle.flatten.specs.Rows.{results_value};
ghost use Rattle.tables.specs.Columns.{kind_columns};
ghost use Rattle.tables.specs.Kinds.{more_kinds};
ghost use Rattle.tables.specs.Steps.Refusals.{RefusesNoRow};
ghost use Rattle.tables.specs.Steps.Selected.{AreColumns};

use crate::columns::column;
use crate::fault::Refusal;
use flatten::Results;
use lsif::RequestKind;
use sqlite::types::ValueRef;
use sqlite::{Row, params};
use std::alloc::AllocError;

/// The kinds that have a column in `more`, in the order of these columns.
const MORE_KINDS: [RequestKind; 2] = [RequestKind::Declaration, RequestKind::Implementation];

/// A statement with the names of these columns between two texts.
macro_rules! naming_more {
    ($before:literal, $after:literal $(,)?) => {
        concat!($before, "decl, imp", $after)
    };
}

/// A statement that declares these columns between two texts.
macro_rules! declaring_more {
    ($before:literal, $after:literal $(,)?) => {
        concat!($before, "decl INTEGER, imp INTEGER", $after)
    };
}

pub(crate) use declaring_more;
pub(crate) use naming_more;

/// The statement that inserts a row.
pub(crate) const INSERT_MORE: &str = naming_more!(
    "INSERT INTO more (slot, line, ",
    ") VALUES (?, ?, ?, ?)"
);

/// Whether a line has a row in `more`: a result of one of these kinds.
pub(crate) fn has_more(results: Results) -> bool
    ensures { result ≡ list_any is_some (map (results_value results) more_kinds) }
{
    for kind in MORE_KINDS {
        if results.of(kind).is_some() {
            return true;
        }
    }
    false
}

/// Whether two lines have the same results of these kinds.
pub(crate) fn has_same_more(first: Results, second: Results) -> bool
    ensures { IsTrue result ↔ (map (results_value first) more_kinds ≡ map (results_value second) more_kinds) }
{
    for kind in MORE_KINDS {
        if first.of(kind) != second.of(kind) {
            return false;
        }
    }
    true
}

/// Adds the numbers of a line's results of these kinds to the values of a statement.
pub(crate) fn bind_more(results: Results, values: &mut Vec<ValueRef<'_>>) -> Result<(), AllocError>
    ensures { OnOk result (bound values.new.items ≡ bound values.old.items ++ kind_columns more_kinds (results_value results)) }
{
    for kind in MORE_KINDS {
        let number = results.of(kind);
        values.extend_from_slice(params![number])?;
    }
    Ok(())
}

/// The results of these kinds that a row has in its columns from this one on.
pub(crate) fn read_more(row: &Row, at: u8) -> Result<Results, Refusal>
    ensures columns { IfOk result (λ results. AreColumns at (kind_columns more_kinds (results_value results)) row.now) }
    ensures other { RefusesNoRow result }
{
    let at = usize::from(at);
    Ok(Results {
        numbers: [None, None, None, column(row, at)?, column(row, at + 1)?],
    })
}

/// The results of all kinds that a row has in its columns from this one on.
pub(crate) fn read_all(row: &Row, at: u8) -> Result<Results, Refusal>
    ensures columns { IfOk result (λ results. AreColumns at (kind_columns kinds (results_value results)) row.now) }
    ensures other { RefusesNoRow result }
{
    let at = usize::from(at);
    Ok(Results {
        numbers: [
            column(row, at)?,
            column(row, at + 1)?,
            column(row, at + 2)?,
            column(row, at + 3)?,
            column(row, at + 4)?,
        ],
    })
}
