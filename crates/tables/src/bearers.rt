//! The bearers of a moniker key in all projects, as they are selected by one join of `bearer`,
//! `slot` and `more`, over the index of keys. `FindsBearers` in `machine/specs/Selections`.
ghost use Rattle.std.specs.Prelude.{◌∷◌, map, string_bytes, IfOk};
ghost use Rattle.sqlite_value.specs.declared.value.Value.TheVariants.{Text};
ghost use Rattle.sqlite.specs.State.{HasCleanDisk};
ghost use Rattle.sqlite.specs.Held.{state};
ghost use Rattle.lsif.specs.RequestKinds.{kinds};
ghost use Rattle.flatten.specs.Flat.{kind_index};
ghost use Rattle.flatten.specs.Rows.{results_value};
ghost use Rattle.tables.specs.Columns.{kind_columns, number};
ghost use Rattle.machine.specs.State.{State};
ghost use Rattle.tables.specs.Stands.{OnlySelects, Rests};
ghost use Rattle.machine.specs.Selections.{FindsBearers, bearer_found};
ghost use Rattle.tables.specs.Steps.Clauses.{OfState, OnlyReads};

use crate::columns::{column, kind_of};
use crate::fault::{Refusal, TablesFault};
use crate::kinds::{naming_more, read_all};
use crate::selection::{Listed, select_all};
use crate::tables::Tables;
use machine::FoundBearer;
use sqlite::{Alter, Connection, Row, params};
use std::alloc::Global;

impl Listed for FoundBearer {
    ghost columns = { λ b. Text (string_bytes b.project) ∷ number b.line ∷ number (kind_index b.kind)
        ∷ kind_columns kinds (results_value b.results) };

    fn read(row: &Row) -> Result<FoundBearer, Refusal> {
        let kind = kind_of(column(row, 2)?)?;
        Ok(FoundBearer {
            kind,
            line: column(row, 1)?,
            results: read_all(row, 3)?,
            project: column(row, 0)?,
        })
    }
}

const SELECT_BEARERS_OF_KEY: &str = naming_more!(
    "SELECT slot.project, bearer.line, bearer.kind, bearer.def, bearer.refs, bearer.hover, ",
    " FROM bearer LEFT JOIN slot ON slot.id = bearer.slot LEFT JOIN more ON more.slot = bearer.slot AND more.line = bearer.line WHERE bearer.keytext = ?1"
);

/// The bearers of a key, each with its project and the results that `more` has, as the join finds
/// them. A row whose slot isn't there has no project, which `read` refuses.
fn select_bearers<S: Alter>(
    alloc: Global,
    conn: &mut Connection<S>,
    key: &str,
) -> Result<Vec<FoundBearer>, Refusal>
    ensures found { OfState S.Store conn.old conn.new (λ m. IfOk result (λ found. FindsBearers m key.now (map bearer_found found.items))) }
    ensures reads { OnlyReads S.Store result conn.old conn.new }
{
    select_all(alloc, conn, SELECT_BEARERS_OF_KEY, params![key])
}

impl<S: Alter> Tables<S> {
    /// The bearers of a key in the dumps of all projects, in any order. The key is as
    /// `flatten::key_text` makes it. Errors: `Refused` and `Memory` (`TablesFault`).
    pub fn bearers(&mut self, alloc: Global, key: &str) -> Result<Vec<FoundBearer>, TablesFault>
        ensures found { HasCleanDisk (state S.Store self.new) → (m : State) → Rests (state S.Store self.old) m
            → IfOk result (λ found. FindsBearers m key.now (map bearer_found found.items)) }
        ensures selects { OnlySelects result (state S.Store self.old) (state S.Store self.new) }
    {
        match select_bearers(alloc, &mut self.conn, key) {
            Ok(found) => Ok(found),
            Err(refusal) => {
                self.slot = None;
                Err(refusal.fault(self.is_in_memory))
            }
        }
    }
}
