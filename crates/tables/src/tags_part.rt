//! The rows of tags, put under a slot of their own; the fields are written as JSON. A dump's rows
//! are in `dump_part.rt`.
ghost use Rattle.std.specs.Prelude.{IfSome, ◌≡◌, ◌∷◌, map, string_bytes, Some, None, IsTrue, IfOk, OnOk};
ghost use Rattle.sqlite_value.specs.declared.value.Value.TheVariants.{Int};
ghost use Rattle.sqlite.specs.State.{HasCleanDisk};
ghost use Rattle.sqlite.specs.Held.{state};
ghost use Rattle.tags.specs.Views.{field_value, tag_value, tag_values};
ghost use Rattle.tables.specs.Schema.{schema_two};
ghost use Rattle.tables.specs.Columns.{columns_with, fields_text, tag_columns, tag_rows};
ghost use Rattle.tables.specs.Contents.{Contents, Replies, Keeps, changed};
ghost use Rattle.tables.specs.Steps.Puts.{PutsAll, GoesOn};
ghost use Rattle.tables.specs.Steps.Clauses.{CommitsNothing, Edits};
ghost use Rattle.tables.specs.Steps.Inserts.{InsertsOne, InsertsEight};
ghost use Rattle.tables.specs.TableTrees.{tag_tree};
ghost use Rattle.tables.specs.declared.slots.Part.TheVariants.{Tags};
ghost use Rattle.tables.specs.declared.tags_part.WrittenTag.{WrittenTag};

use crate::part_rows::{EIGHT, PartRow, insert_all};
use crate::slots::{Part, insert_slot};
use machine::fields_value;
use sqlite::types::ValueRef;
use sqlite::{Alter, Error, Transaction, params};
use std::alloc::{AllocError, Global};
use tags::{Field, Tag};

const INSERT_TAG: &str =
    "INSERT INTO tag (slot, line, name, file, address, kind, fields) VALUES (?1, ?2, ?3, ?4, ?5, ?6, ?7)";

const INSERT_EIGHT_TAGS: &str =
    "INSERT INTO tag (slot, line, name, file, address, kind, fields) VALUES (?,?,?,?,?,?,?),(?,?,?,?,?,?,?),(?,?,?,?,?,?,?),(?,?,?,?,?,?,?),(?,?,?,?,?,?,?),(?,?,?,?,?,?,?),(?,?,?,?,?,?,?),(?,?,?,?,?,?,?)";

/// The text of the fields of a tag.
fn fields_text(alloc: Global, fields: &[Field]) -> Result<String, AllocError>
    ensures { IfOk result (λ text. string_bytes text ≡ fields_text (map field_value fields.now)) }
{
    fields_value(alloc, fields)?.to_string(alloc)
}

/// A tag, with the text of its fields.
#[derive(Drop)]
struct WrittenTag<'a> {
    tag: &'a Tag,
    fields: String,
}

impl PartRow for WrittenTag<'_> {
    ghost tree = { tag_tree };

    ghost columns = { λ row. columns_with (tag_value row.tag.now) (string_bytes row.fields) };

    #[tactic(auto, using(crate::proofs::Inserts::tag_put))]
    fn insert_one() -> &'static str
        ensures { InsertsOne result.now tag_tree (λ (row : WrittenTag). columns_with (tag_value row.tag.now) (string_bytes row.fields)) }
    {
        INSERT_TAG
    }

    #[tactic(auto, using(crate::proofs::Inserts::tags_put))]
    fn insert_eight() -> Option<&'static str>
        ensures { IfSome result (λ text. InsertsEight text.now tag_tree (λ (row : WrittenTag). columns_with (tag_value row.tag.now) (string_bytes row.fields))) }
    {
        Some(INSERT_EIGHT_TAGS)
    }

    fn bind<'a>(&'a self, slot: i64, values: &mut Vec<ValueRef<'a>>) -> Result<(), AllocError> {
        let tag = self.tag;
        values.extend_from_slice(params![
            slot,
            tag.line,
            &tag.name,
            &tag.file,
            &tag.address,
            &tag.kind,
            &self.fields
        ])
    }
}

/// The tags with the texts of their fields.
fn written<'a>(alloc: Global, tags: &'a [Tag]) -> Result<Vec<WrittenTag<'a>>, AllocError>
    ensures { IfOk result (λ rows. map (λ row. columns_with (tag_value row.tag.now) (string_bytes row.fields)) rows.items
        ≡ map (λ tag. tag_columns (tag_value tag)) tags.now) }
{
    let mut rows = Vec::new(alloc);
    for tag in tags {
        let fields = fields_text(alloc, &tag.fields)?;
        rows.push(WrittenTag { tag, fields })?;
    }
    Ok(rows)
}

/// Puts the rows of tags into their table, as many at once as one statement takes, so that few
/// texts of fields are in memory.
fn insert_rows<S: Alter>(
    alloc: Global,
    tx: &mut Transaction<'_, S>,
    slot: i64,
    tags: &[Tag],
) -> Result<(), Error>
    ensures put { Edits S.Store result tx.old.conn tx.new.conn (PutsAll tag_tree (map (λ tag. Int slot ∷ tag_columns (tag_value tag)) tags.now)) }
    ensures uncommitted { CommitsNothing S.Store tx.old.conn tx.new.conn }
{
    for group in tags.chunks(EIGHT) {
        let rows = written(alloc, group)?;
        insert_all(alloc, tx, slot, &rows)?;
    }
    Ok(())
}

/// Puts the rows of tags under a slot of their own, where the project has none.
pub(crate) fn insert_tags<S: Alter>(
    alloc: Global,
    tx: &mut Transaction<'_, S>,
    project: &str,
    tags: &[Tag],
) -> Result<(), Error>
    ensures put { HasCleanDisk (state S.Store tx.new.conn.now) → IsTrue tx.old.conn.now.in_transaction → (state S.Store tx.old.conn.now).now.schema ≡ schema_two
        → (parts : Contents) (replies : Replies) → Keeps (state S.Store tx.old.conn.now).now.trees (changed parts project.now Tags None) replies
        → OnOk result (GoesOn (state S.Store tx.old.conn.now) (state S.Store tx.new.conn.now)
        × Keeps (state S.Store tx.new.conn.now).now.trees (changed parts project.now Tags (Some (tag_rows (tag_values tags.now)))) replies) }
    ensures uncommitted { CommitsNothing S.Store tx.old.conn tx.new.conn }
{
    let slot = insert_slot(tx, project, Part::Tags)?;
    insert_rows(alloc, tx, slot, tags)
}
