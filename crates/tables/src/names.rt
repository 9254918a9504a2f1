//! Tags by their names, as they are selected: of one name, or of a prefix. Both are ranges of the
//! index on names, so that no tag of another name is read. `FindsNamed` and
//! `FindsPrefixed` in `machine/specs/Selections`.
ghost use Rattle.std.specs.Prelude.{◌≡◌, Contains, map, option_map, IfOk, OnOk};
ghost use Rattle.sqlite.specs.State.{HasCleanDisk};
ghost use Rattle.sqlite.specs.Held.{state};
ghost use Rattle.dump.specs.Places.{IsListing};
ghost use Rattle.machine.specs.State.{State};
ghost use Rattle.tables.specs.Stands.{OnlySelects, Rests};
ghost use Rattle.machine.specs.FoundTags.{BeginsWith, line_cmp, name_cmp};
ghost use Rattle.machine.specs.Found.{tag_found};
ghost use Rattle.machine.specs.Selections.{FindsNamed, FindsPrefixed};
ghost use Rattle.tables.specs.Steps.TagRows.{IsBehind, TellNamed};
ghost use Rattle.tables.specs.Steps.Clauses.{OfState, OnlyReads};

use crate::fault::{Refusal, TablesFault};
use crate::found_tags::{TagRow, complete_all};
use crate::selection::select_all;
use crate::tables::Tables;
use machine::FoundTag;
use sqlite::types::{Bytes, Value};
use sqlite::{Alter, Connection, params};
use std::alloc::{AllocError, Global};
use std::cmp::Ordering;

/// By project, then by line.
fn order_by_line(a: &FoundTag, b: &FoundTag) -> Ordering
    ensures { result ≡ line_cmp (tag_found a.now) (tag_found b.now) }
{
    let lines = a.tag.line.cmp(&b.tag.line);
    a.project.as_str().cmp(b.project.as_str()).then(lines)
}

/// Puts the tags in order by project and line. It's `Row` where a project has two tags of one line,
/// which the key of `tag` forbids.
fn list_by_line(found: &mut Vec<FoundTag>) -> Result<(), Refusal>
    ensures { OnOk result (IsListing line_cmp (Contains (map tag_found found.old.items)) (map tag_found found.new.items)) }
{
    found.sort_unstable_by(|a, b| order_by_line(a, b));
    if found.is_sorted_by(|a, b| order_by_line(a, b).is_lt()) {
        Ok(())
    } else {
        Err(Refusal::Row)
    }
}

/// By name, then by project, then by line.
fn order_by_name(a: &FoundTag, b: &FoundTag) -> Ordering
    ensures { result ≡ name_cmp (tag_found a.now) (tag_found b.now) }
{
    let names = a.tag.name.as_str().cmp(b.tag.name.as_str());
    names.then(order_by_line(a, b))
}

/// Puts the tags in order by name, project and line. It's `Row` where a project has two tags of one
/// line, which the key of `tag` forbids.
fn list_by_name(found: &mut Vec<FoundTag>) -> Result<(), Refusal>
    ensures { OnOk result (IsListing name_cmp (Contains (map tag_found found.old.items)) (map tag_found found.new.items)) }
{
    found.sort_unstable_by(|a, b| order_by_name(a, b));
    if found.is_sorted_by(|a, b| order_by_name(a, b).is_lt()) {
        Ok(())
    } else {
        Err(Refusal::Row)
    }
}

const SELECT_TAGS_OF_NAME: &str =
    "SELECT slot, line, name, file, address, kind, fields FROM tag WHERE name = ?1";

/// The rows of the tags of this name.
fn select_named<S: Alter>(
    alloc: Global,
    conn: &mut Connection<S>,
    name: &str,
) -> Result<Vec<TagRow>, Refusal>
    ensures rows { OfState S.Store conn.old conn.new (λ m. IfOk result (λ rows. TellNamed (state S.Store conn.old).now.trees m
        (λ text. text ≡ name.now) rows.items)) }
    ensures reads { OnlyReads S.Store result conn.old conn.new }
{
    select_all(alloc, conn, SELECT_TAGS_OF_NAME, params![name])
}

/// The tags of this name.
fn find_named<S: Alter>(
    alloc: Global,
    conn: &mut Connection<S>,
    name: &str,
    asked: Option<&str>,
) -> Result<Vec<FoundTag>, Refusal>
    ensures found { OfState S.Store conn.old conn.new (λ m. IfOk result (λ found. FindsNamed m (option_map
        (λ p. p.now) asked.entry) name.now (map tag_found found.items))) }
    ensures reads { OnlyReads S.Store result conn.old conn.new }
{
    let rows = select_named(alloc, conn, name)?;
    let mut found = complete_all(alloc, conn, rows, asked)?;
    list_by_line(&mut found)?;
    Ok(found)
}

/// The least value after all texts that begin with this one, by their bytes: the text with its last
/// byte one greater. Where the text is empty all texts begin with it, and the value is the first
/// blob, since blobs come after texts (SQLite, "Comparison Expressions").
fn value_behind(alloc: Global, prefix: &str) -> Result<Value, AllocError>
    ensures { IfOk result (IsBehind prefix.now) }
{
    let Some((last, front)) = prefix.as_bytes().split_last() else {
        return Ok(Value::Blob(Bytes::from_slice(alloc, &[])?));
    };
    let mut end = Vec::from_slice(alloc, front)?;
    end.push(last.saturating_add(1))?;
    Ok(Value::Text(Bytes::from_slice(alloc, &end)?))
}

const SELECT_TAGS_OF_PREFIX: &str =
    "SELECT slot, line, name, file, address, kind, fields FROM tag WHERE name >= ?1 AND name < ?2";

/// The rows of the tags whose names begin with the text.
fn select_prefixed<S: Alter>(
    alloc: Global,
    conn: &mut Connection<S>,
    prefix: &str,
) -> Result<Vec<TagRow>, Refusal>
    ensures rows { OfState S.Store conn.old conn.new (λ m. IfOk result (λ rows. TellNamed (state S.Store conn.old).now.trees m
        (λ text. BeginsWith text prefix.now) rows.items)) }
    ensures reads { OnlyReads S.Store result conn.old conn.new }
{
    let behind = value_behind(alloc, prefix)?;
    select_all(alloc, conn, SELECT_TAGS_OF_PREFIX, params![prefix, &behind])
}

/// The tags whose names begin with the text.
fn find_prefixed<S: Alter>(
    alloc: Global,
    conn: &mut Connection<S>,
    prefix: &str,
    asked: Option<&str>,
) -> Result<Vec<FoundTag>, Refusal>
    ensures found { OfState S.Store conn.old conn.new (λ m. IfOk result (λ found. FindsPrefixed m (option_map
        (λ p. p.now) asked.entry) prefix.now (map tag_found found.items))) }
    ensures reads { OnlyReads S.Store result conn.old conn.new }
{
    let rows = select_prefixed(alloc, conn, prefix)?;
    let mut found = complete_all(alloc, conn, rows, asked)?;
    list_by_name(&mut found)?;
    Ok(found)
}

impl<S: Alter> Tables<S> {
    /// The tags of this name: of the project, where one is given, and else of all. They are in
    /// order by project (its bytes) and line. Errors: `Refused` and `Memory` (`TablesFault`).
    pub fn names_exact(
        &mut self,
        alloc: Global,
        name: &str,
        project: Option<&str>,
    ) -> Result<Vec<FoundTag>, TablesFault>
        ensures found { HasCleanDisk (state S.Store self.new) → (m : State) → Rests (state S.Store self.old) m
            → IfOk result (λ found. FindsNamed m (option_map (λ p. p.now) project.entry) name.now (map tag_found found.items)) }
        ensures selects { OnlySelects result (state S.Store self.old) (state S.Store self.new) }
    {
        self.slot = None;
        match find_named(alloc, &mut self.conn, name, project) {
            Ok(found) => Ok(found),
            Err(refusal) => Err(refusal.fault(self.is_in_memory)),
        }
    }

    /// The tags whose names begin with the text: of the project, where one is given, and else of
    /// all. They are in order by name (its bytes), project and line. Errors: `Refused` and `Memory`
    /// (`TablesFault`).
    pub fn names_prefix(
        &mut self,
        alloc: Global,
        prefix: &str,
        project: Option<&str>,
    ) -> Result<Vec<FoundTag>, TablesFault>
        ensures found { HasCleanDisk (state S.Store self.new) → (m : State) → Rests (state S.Store self.old) m
            → IfOk result (λ found. FindsPrefixed m (option_map (λ p. p.now) project.entry) prefix.now (map tag_found found.items)) }
        ensures selects { OnlySelects result (state S.Store self.old) (state S.Store self.new) }
    {
        self.slot = None;
        match find_prefixed(alloc, &mut self.conn, prefix, project) {
            Ok(found) => Ok(found),
            Err(refusal) => Err(refusal.fault(self.is_in_memory)),
        }
    }
}
