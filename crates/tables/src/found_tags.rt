//! Tags with their projects, made of the rows that are selected (`names.rt`). The fields are read
//! from their JSON, only for the project that is asked for.
ghost use Rattle.std.specs.Prelude.{◌≡◌, ◌↔◌, List, ℕ, Contains, Some, map, option_map, string_bytes, IsTrue, IfOk, OnOk};
ghost use Rattle.sqlite.specs.Held.{state};
ghost use Rattle.serde_json.specs.Data.{string};
ghost use Rattle.serde_json.specs.Read.{read as read_text};
ghost use Rattle.serde_json.specs.View.{view};
ghost use Rattle.tags.specs.Values.{FieldValue, TagValue};
ghost use Rattle.tags.specs.Views.{field_value, tag_value};
ghost use Rattle.machine.specs.Reply.{field_data};
ghost use Rattle.tables.specs.Columns.{fields_text, tag_columns};
ghost use Rattle.machine.specs.FoundTags.{FoundTag as FoundTagValue, IsAsked};
ghost use Rattle.machine.specs.Found.{tag_found};
ghost use Rattle.tables.specs.Steps.Slots.{IsNamed};
ghost use Rattle.tables.specs.Steps.TagRows.{AllTell, Grows, IsFoundIf, IsTold, TellsTag, columns_of, tag_row_columns};
ghost use Rattle.tables.specs.Steps.Clauses.{OfState, OnlyReads};

use crate::columns::column;
use crate::fault::Refusal;
use crate::parts::{ProjectSlot, slot_project};
use crate::selection::Listed;
use machine::FoundTag;
use serde_json::{Category, Value};
use sqlite::{Alter, Connection, Row};
use std::alloc::Global;
use tags::{Field, Tag};

/// The row of a tag. The fields are as they are written.
#[derive(Drop)]
pub(crate) struct TagRow {
    slot: i64,
    line: u32,
    name: String,
    file: String,
    address: String,
    kind: Option<String>,
    fields: String,
}

impl Listed for TagRow {
    ghost columns = { tag_row_columns };

    fn read(row: &Row) -> Result<TagRow, Refusal> {
        Ok(TagRow {
            slot: column(row, 0)?,
            line: column(row, 1)?,
            name: column(row, 2)?,
            file: column(row, 3)?,
            address: column(row, 4)?,
            kind: column(row, 5)?,
            fields: column(row, 6)?,
        })
    }
}

/// The text that a JSON value is.
fn text_of(value: Value) -> Result<String, Refusal>
    ensures { (text : List ℕ) → view value ≡ string text → IfOk result (λ found. string_bytes found ≡ text) }
{
    match value {
        Value::String(text) => Ok(text),
        _ => Err(Refusal::Row),
    }
}

/// The field that a JSON value is: a pair of a name and a value.
fn field_of(value: Value) -> Result<Field, Refusal>
    ensures { (field : FieldValue) → view value ≡ field_data field → IfOk result (λ found. field_value found ≡ field) }
{
    let Value::Array(mut pair) = value else {
        return Err(Refusal::Row);
    };
    match (pair.pop(), pair.pop(), pair.pop()) {
        (Some(text), Some(name), None) => Ok(Field {
            name: text_of(name)?,
            value: text_of(text)?,
        }),
        _ => Err(Refusal::Row),
    }
}

/// The JSON value that a text is.
fn value_of(alloc: Global, text: &str) -> Result<Value, Refusal>
    ensures { IfOk result (λ value. read_text text.now ≡ Some (view value)) }
{
    match Value::from_str(alloc, text) {
        Ok(value) => Ok(value),
        Err(e) if matches!(e.classify(), Category::Memory) => Err(Refusal::Memory),
        Err(_) => Err(Refusal::Row),
    }
}

/// The items of the JSON array that a text is.
fn items_of(alloc: Global, text: &str) -> Result<Vec<Value>, Refusal>
    ensures { (fields : List FieldValue) → text.now ≡ fields_text fields → IfOk result (λ items. map view items.items ≡ map field_data fields) }
{
    match value_of(alloc, text)? {
        Value::Array(items) => Ok(items),
        _ => Err(Refusal::Row),
    }
}

/// The fields that have this text.
fn fields_of(alloc: Global, text: &str) -> Result<Vec<Field>, Refusal>
    ensures { (fields : List FieldValue) → text.now ≡ fields_text fields → IfOk result (λ found. map field_value found.items ≡ fields) }
{
    let items = items_of(alloc, text)?;
    let mut found = Vec::new(alloc);
    for item in items {
        let field = field_of(item)?;
        if found.push(field).is_err() {
            return Err(Refusal::Memory);
        }
    }
    Ok(found)
}

/// The tag of a row.
fn tag_of(alloc: Global, row: TagRow) -> Result<Tag, Refusal>
    ensures { (tag : TagValue) → columns_of row ≡ tag_columns tag → IfOk result (λ found. tag_value found ≡ tag) }
{
    let fields = fields_of(alloc, row.fields.as_str())?;
    Ok(Tag {
        line: row.line,
        name: row.name,
        file: row.file,
        address: row.address,
        kind: row.kind,
        fields,
    })
}

/// Whether the project is the one that is asked for, where one is.
fn is_asked(asked: Option<&str>, project: &str) -> bool
    ensures { IsTrue result ↔ IsAsked (option_map (λ p. p.now) asked.entry) project.now }
{
    match asked {
        Some(asked) => project == asked,
        None => true,
    }
}

/// The tag of a row, with its project, or none where another project is asked for.
fn complete<S: Alter>(
    alloc: Global,
    conn: &mut Connection<S>,
    named: &mut Option<ProjectSlot>,
    row: TagRow,
    asked: Option<&str>,
) -> Result<Option<FoundTag>, Refusal>
    requires named { IsNamed (state S.Store conn.old) named.old }
    ensures whole { OfState S.Store conn.old conn.new (λ m. (v : FoundTagValue) → TellsTag (state S.Store conn.old).now.trees m row v
        → IfOk result (IsFoundIf (option_map (λ p. p.now) asked.entry) v)) }
    ensures named { OnOk result (IsNamed (state S.Store conn.new) named.new) }
    ensures reads { OnlyReads S.Store result conn.old conn.new }
{
    let project = slot_project(alloc, conn, named, row.slot)?;
    if !is_asked(asked, project.as_str()) {
        return Ok(None);
    }
    let tag = tag_of(alloc, row)?;
    Ok(Some(FoundTag { project, tag }))
}

/// Puts the tag after those that were found, where there is one.
fn push_some(found: &mut Vec<FoundTag>, tag: Option<FoundTag>) -> Result<(), Refusal>
    ensures { OnOk result (Grows tag found.old.items found.new.items) }
{
    let Some(tag) = tag else {
        return Ok(());
    };
    match found.push(tag) {
        Ok(()) => Ok(()),
        Err(_) => Err(Refusal::Memory),
    }
}

/// The tags of the rows, each with its project: all, or those of the project that is asked for.
pub(crate) fn complete_all<S: Alter>(
    alloc: Global,
    conn: &mut Connection<S>,
    rows: Vec<TagRow>,
    asked: Option<&str>,
) -> Result<Vec<FoundTag>, Refusal>
    ensures found { OfState S.Store conn.old conn.new (λ m. AllTell (state S.Store conn.old).now.trees m rows.items
        → IfOk result (λ found. (v : FoundTagValue)
        → Contains (map tag_found found.items) v ↔ (IsTold (state S.Store conn.old).now.trees m rows.items v
        × IsAsked (option_map (λ p. p.now) asked.entry) v.project))) }
    ensures reads { OnlyReads S.Store result conn.old conn.new }
{
    let mut left = rows;
    let mut named = None;
    let mut found = Vec::new(alloc);
    while let Some(row) = left.pop() {
        let tag = complete(alloc, conn, &mut named, row, asked)?;
        push_some(&mut found, tag)?;
    }
    Ok(found)
}
