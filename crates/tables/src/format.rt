//! Which format the tables of a database have, by its version, and whether its names are the
//! index's own.
ghost use Rattle.std.specs.Prelude.{◌≡◌, ◌≢◌, ◌∷◌, [], ◌⊎◌, pos, true, false, codes, IsTrue, IfOk, OnErr, Ok};
ghost use Rattle.sqlite_value.specs.declared.value.Value.TheVariants.{Int};
ghost use Rattle.sqlite_value.specs.Order.{Row as Columns, column};
ghost use Rattle.sqlite_catalog.specs.Change.{is_used as is_used_in};
ghost use Rattle.sqlite.specs.State.{HasCleanDisk, Survives, Shown, IsUnchanged};
ghost use Rattle.sqlite.specs.Held.{state};
ghost use Rattle.tables.specs.Opening.{StaysCommitted};
ghost use Rattle.tables.specs.Schema.{IsSchemaOne, empty_schema, schema_two};
ghost use Rattle.tables.specs.Databases.{IsFormatOne, IsFormatTwo, ShowsVersion};

use sqlite::types::ValueRef;
use sqlite::{Alter, Connection, Error, Row};
use sqlite_schema::schema::Schema;

/// A table, an index or a view has this name.
fn is_used(schema: &Schema, name: &str) -> bool
    ensures { result ≡ is_used_in schema.now name.now }
{
    let name = name.as_bytes();
    (schema.table_named(name).is_some() || schema.index_named(name).is_some())
        || schema.view_named(name).is_some()
}

/// Something has the name of one of the tables.
fn has_own_name(schema: &Schema) -> bool
    ensures absent { schema.now ≡ empty_schema → result ≡ false }
    ensures format { is_used_in schema.now (codes "format") ≡ true → result ≡ true }
    ensures old { IsSchemaOne schema.now → result ≡ true }
    ensures known { schema.now ≡ schema_two → result ≡ true }
{
    if is_used(schema, "format") {
        return true;
    }
    for name in [
        "slot",
        "keyed",
        "document",
        "range_row",
        "item",
        "hover",
        "mark",
        "bearer",
        "tag",
        "part_profile",
        "more",
    ] {
        if is_used(schema, name) {
            return true;
        }
    }
    false
}

/// A version can be read.
fn has_version(schema: &Schema) -> bool
    ensures old { IsSchemaOne schema.now → result ≡ true }
    ensures known { schema.now ≡ schema_two → result ≡ true }
{
    let Some(at) = schema.table_named("format".as_bytes()) else {
        return false;
    };
    match schema.tables.as_slice().get(at) {
        Some(table) => table.column_named("version".as_bytes()).is_some(),
        None => false,
    }
}

/// The rows of the table of versions.
fn version_rows<S: Alter>(conn: &mut Connection<S>) -> Result<Vec<Row>, Error>
    ensures old { HasCleanDisk (state S.Store conn.new) → IsFormatOne (state S.Store conn.old).now
        → IfOk result (λ rows. (rows.items ≡ (Int (pos 1) ∷ []) ∷ []) × IsUnchanged (state S.Store conn.old) (state S.Store conn.new)) }
    ensures known { HasCleanDisk (state S.Store conn.new) → IsFormatTwo (state S.Store conn.old).now
        → IfOk result (λ rows. (rows.items ≡ (Int (pos 2) ∷ []) ∷ []) × IsUnchanged (state S.Store conn.old) (state S.Store conn.new)) }
    ensures shown { HasCleanDisk (state S.Store conn.new)
        → IfOk result (λ rows. Shown (codes "SELECT version FROM format") [] (state S.Store conn.old) (state S.Store conn.new) rows.items) }
    ensures mode { conn.old.in_transaction ≡ false → conn.new.in_transaction ≡ false }
    ensures clean { HasCleanDisk (state S.Store conn.new) → HasCleanDisk (state S.Store conn.old) }
    ensures same { HasCleanDisk (state S.Store conn.new) → IsTrue (state S.Store conn.new).is_open
        → IsFormatOne (state S.Store conn.old).now ⊎ IsFormatTwo (state S.Store conn.old).now
        → OnErr result (StaysCommitted (state S.Store conn.old) (state S.Store conn.new)) }
    ensures crash { IsFormatOne (state S.Store conn.old).now ⊎ IsFormatTwo (state S.Store conn.old).now
        → Survives (state S.Store conn.old) (state S.Store conn.new) (λ _. ⊥) }
{
    conn.query_all("SELECT version FROM format", &[])
}

/// What the tables of a database are.
#[derive(Clone, Copy, PartialEq, Eq, Drop)]
pub(crate) enum Format {
    /// Nothing has the name of one of them.
    Absent,
    One,
    Two,
    /// Something has such a name, and no version can be read.
    Unknown,
}

/// The format by the rows of versions.
fn format_in(rows: &[Row]) -> Format
    ensures old { rows.now ≡ (Int (pos 1) ∷ []) ∷ [] → result ≡ Format.One }
    ensures known { rows.now ≡ (Int (pos 2) ∷ []) ∷ [] → result ≡ Format.Two }
    ensures one { result ≡ Format.One → (row : Columns) × (rows.now ≡ row ∷ []) × (column row 0 ≡ Int (pos 1)) }
    ensures two { result ≡ Format.Two → (row : Columns) × (rows.now ≡ row ∷ []) × (column row 0 ≡ Int (pos 2)) }
    ensures present { result ≢ Format.Absent }
{
    if rows.len() != 1 {
        return Format::Unknown;
    }
    match rows[0].get_ref(0) {
        Ok(ValueRef::Int(1)) => Format::One,
        Ok(ValueRef::Int(2)) => Format::Two,
        _ => Format::Unknown,
    }
}

/// The format of a database's tables. The version is asked only where the schema has a column for
/// it.
pub(crate) fn find_format<S: Alter>(conn: &mut Connection<S>) -> Result<Format, Error>
    ensures absent { (state S.Store conn.old).now.schema ≡ empty_schema → (result ≡ Ok Format.Absent) × (conn.new ≡ conn.old) }
    ensures one { HasCleanDisk (state S.Store conn.new) → result ≡ Ok Format.One → ShowsVersion (state S.Store conn.old) (state S.Store conn.new) 1 }
    ensures two { HasCleanDisk (state S.Store conn.new) → result ≡ Ok Format.Two → ShowsVersion (state S.Store conn.old) (state S.Store conn.new) 2 }
    ensures present { is_used_in (state S.Store conn.old).now.schema (codes "format") ≡ true → result ≢ Ok Format.Absent }
    ensures old { HasCleanDisk (state S.Store conn.new) → IsFormatOne (state S.Store conn.old).now
        → IfOk result (λ found. (found ≡ Format.One) × IsUnchanged (state S.Store conn.old) (state S.Store conn.new)) }
    ensures known { HasCleanDisk (state S.Store conn.new) → IsFormatTwo (state S.Store conn.old).now
        → IfOk result (λ found. (found ≡ Format.Two) × IsUnchanged (state S.Store conn.old) (state S.Store conn.new)) }
    ensures mode { conn.old.in_transaction ≡ false → conn.new.in_transaction ≡ false }
    ensures clean { HasCleanDisk (state S.Store conn.new) → HasCleanDisk (state S.Store conn.old) }
    ensures same { HasCleanDisk (state S.Store conn.new) → IsTrue (state S.Store conn.new).is_open
        → IsFormatOne (state S.Store conn.old).now ⊎ IsFormatTwo (state S.Store conn.old).now
        → OnErr result (StaysCommitted (state S.Store conn.old) (state S.Store conn.new)) }
    ensures crash { IsFormatOne (state S.Store conn.old).now ⊎ IsFormatTwo (state S.Store conn.old).now
        → Survives (state S.Store conn.old) (state S.Store conn.new) (λ _. ⊥) }
{
    if !has_own_name(conn.schema()) {
        return Ok(Format::Absent);
    }
    if !has_version(conn.schema()) {
        return Ok(Format::Unknown);
    }
    let rows = version_rows(conn)?;
    Ok(format_in(rows.as_slice()))
}
