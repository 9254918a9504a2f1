//! The rows of a dump, put under a slot of its own, table by table. The rows are made by the crate
//! `flatten`.
ghost use Rattle.std.specs.Prelude.{◌≡◌, ◌∷◌, [], map, Some, None, IsTrue, OnOk};
ghost use Rattle.sqlite_value.specs.declared.value.Value.TheVariants.{Int};
ghost use Rattle.sqlite.specs.State.{HasCleanDisk};
ghost use Rattle.sqlite.specs.Held.{state};
ghost use Rattle.flatten.specs.Rows.{rows_value};
ghost use Rattle.tables.specs.Schema.{schema_two};
ghost use Rattle.tables.specs.Columns.{document_columns, range_columns, item_columns, hover_columns, mark_columns, bearer_columns, profile_columns, dump_rows};
ghost use Rattle.tables.specs.Contents.{Contents, Replies, Keeps, changed, kept};
ghost use Rattle.tables.specs.Steps.Puts.{PutsAll, Then, GoesOn};
ghost use Rattle.tables.specs.Steps.Clauses.{CommitsNothing, Edits};
ghost use Rattle.tables.specs.TableTrees.{bearer_tree, document_tree, hover_tree, item_tree, mark_tree, part_profile_tree, range_row_tree};
ghost use Rattle.tables.specs.declared.slots.Part.TheVariants.{Dump};

use crate::more::insert_more;
use crate::part_rows::insert_all;
use crate::slots::{Part, insert_slot};
use crate::statements::run;
use flatten::Rows;
use lsif::Profile;
use sqlite::{Alter, Error, Transaction, params};

/// Puts the documents, the ranges and the items of a dump.
fn insert_places<S: Alter>(
    tx: &mut Transaction<'_, S>,
    slot: i64,
    rows: &Rows<'_>,
) -> Result<(), Error>
    ensures put { Edits S.Store result tx.old.conn tx.new.conn (Then
        (PutsAll document_tree (map (λ columns. Int slot ∷ columns) (map document_columns (rows_value rows.now).documents))) (Then
        (PutsAll range_row_tree (map (λ columns. Int slot ∷ columns) (map range_columns (rows_value rows.now).ranges)))
        (PutsAll item_tree (map (λ columns. Int slot ∷ columns) (map item_columns (rows_value rows.now).items))))) }
    ensures uncommitted { CommitsNothing S.Store tx.old.conn tx.new.conn }
{
    let alloc = *rows.documents.allocator();
    insert_all(alloc, tx, slot, rows.documents.as_slice())?;
    insert_all(alloc, tx, slot, rows.ranges.as_slice())?;
    insert_all(alloc, tx, slot, rows.items.as_slice())
}

/// Puts the hovers, the marks and the bearers of a dump.
fn insert_contents<S: Alter>(
    tx: &mut Transaction<'_, S>,
    slot: i64,
    rows: &Rows<'_>,
) -> Result<(), Error>
    ensures put { Edits S.Store result tx.old.conn tx.new.conn (Then
        (PutsAll hover_tree (map (λ columns. Int slot ∷ columns) (map hover_columns (rows_value rows.now).hovers))) (Then
        (PutsAll mark_tree (map (λ columns. Int slot ∷ columns) (map mark_columns (rows_value rows.now).marks)))
        (PutsAll bearer_tree (map (λ columns. Int slot ∷ columns) (map bearer_columns (rows_value rows.now).bearers))))) }
    ensures uncommitted { CommitsNothing S.Store tx.old.conn tx.new.conn }
{
    let alloc = *rows.hovers.allocator();
    insert_all(alloc, tx, slot, rows.hovers.as_slice())?;
    insert_all(alloc, tx, slot, rows.marks.as_slice())?;
    insert_all(alloc, tx, slot, rows.bearers.as_slice())
}

const INSERT_INTO_PROFILES: &str = "INSERT INTO part_profile (slot, profile) VALUES (?1, ?2)";

/// Puts the profile of a dump.
fn insert_profile<S: Alter>(
    tx: &mut Transaction<'_, S>,
    slot: i64,
    profile: Profile,
) -> Result<usize, Error>
    ensures put { Edits S.Store result tx.old.conn tx.new.conn (PutsAll part_profile_tree ((Int slot ∷ profile_columns profile) ∷ [])) }
    ensures uncommitted { CommitsNothing S.Store tx.old.conn tx.new.conn }
{
    let number = profile.number();
    run(tx, INSERT_INTO_PROFILES, params![slot, number])
}

/// Puts the rows of a dump under a slot of its own, where the project has none.
pub(crate) fn insert_dump<S: Alter>(
    tx: &mut Transaction<'_, S>,
    project: &str,
    rows: &Rows<'_>,
) -> Result<(), Error>
    ensures put { HasCleanDisk (state S.Store tx.new.conn.now) → IsTrue tx.old.conn.now.in_transaction → (state S.Store tx.old.conn.now).now.schema ≡ schema_two
        → (parts : Contents) (replies : Replies) → Keeps (state S.Store tx.old.conn.now).now.trees (changed parts project.now Dump None) replies
        → OnOk result (GoesOn (state S.Store tx.old.conn.now) (state S.Store tx.new.conn.now)
        × Keeps (state S.Store tx.new.conn.now).now.trees (changed parts project.now Dump (Some (dump_rows rows.now.profile (rows_value rows.now))))
        replies) }
    ensures uncommitted { CommitsNothing S.Store tx.old.conn tx.new.conn }
{
    let slot = insert_slot(tx, project, Part::Dump)?;
    insert_places(tx, slot, rows)?;
    insert_contents(tx, slot, rows)?;
    insert_profile(tx, slot, rows.profile)?;
    insert_more(tx, slot, rows)
}
