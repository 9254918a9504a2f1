//! What is selected of dumps in memory. Each selection flattens the dump and looks at every row:
//! plain to read, and slow for large dumps.
ghost use Rattle.std.specs.Prelude.{◌≡◌, Contains, map, IfOk, option_map, string_bytes};
ghost use Rattle.std.specs.BTreeMap.{IsOrdered};
ghost use Rattle.std.specs.String.{string_cmp};
ghost use Rattle.std.specs.List.{filter_map};
ghost use Rattle.std.specs.List.Sorted.{IsStrictlySortedBy};
ghost use Rattle.flatten.specs.Rows.{range_value};
ghost use Rattle.machine.specs.Selections.{FindsCover, bearer_found, item_found, mark_found, range_found};
ghost use Rattle.machine.specs.Steps.Covers.{inner_order};
ghost use Rattle.desk.specs.Steps.Rows.{AreThose};
ghost use Rattle.desk.specs.Steps.Selected.{IsBearerAmong, IsBearerOf, IsItemOf, IsMarkOf, IsHoverOf, by_span, range_found_of, range_wanted};

use crate::project::Project;
use dump::{CheckedDump, Role, nesting_law, uri_law};
use flatten::{FlattenFault, RangeRow, flatten};
use lsif::RequestKind;
use machine::{FoundBearer, FoundItem, FoundMark, FoundRange};
use positions::{Position, Span};
use std::alloc::{AllocError, Global};
use std::cmp::Ordering;
use std::collections::BTreeMap;
use std::rc::RcStr;

/// The places that the result of this number has in a role.
pub(crate) fn items_of(
    alloc: Global,
    dump: &CheckedDump,
    result_number: u32,
    role: Role,
) -> Result<Vec<FoundItem>, FlattenFault>
    ensures { IfOk result (λ found. AreThose (IsItemOf dump.now.elements result_number role) (map item_found found.items)) }
{
    let rows = flatten(alloc, dump)?.items;
    let mut found = Vec::new(alloc);
    for row in &rows {
        if row.result == result_number && row.role == role {
            let uri = RcStr::from_string(String::from_str(alloc, row.uri)?)?;
            found.push(FoundItem {
                uri,
                span: *row.span,
            })?;
        }
    }
    Ok(found)
}

/// The marks of the range at this line.
pub(crate) fn marks_of(
    alloc: Global,
    dump: &CheckedDump,
    line: u32,
) -> Result<Vec<FoundMark>, FlattenFault>
    ensures { IfOk result (λ found. AreThose (IsMarkOf dump.now.elements line) (map mark_found found.items)) }
{
    let rows = flatten(alloc, dump)?.marks;
    let mut found = Vec::new(alloc);
    for row in &rows {
        if row.range == line {
            let key = String::from_str(alloc, row.key.as_str())?;
            found.push(FoundMark {
                kind: row.kind,
                key,
            })?;
        }
    }
    Ok(found)
}

/// The contents of the hover result of this number.
pub(crate) fn hover_of(
    alloc: Global,
    dump: &CheckedDump,
    result_number: u32,
) -> Result<Option<String>, FlattenFault>
    ensures { IfOk result (λ found. IsHoverOf dump.now.elements result_number (option_map string_bytes found)) }
{
    let rows = flatten(alloc, dump)?.hovers;
    for row in &rows {
        if row.result == result_number {
            return Ok(Some(String::from_str(alloc, row.contents)?));
        }
    }
    Ok(None)
}

/// The bearers of the key in the dump of this project.
pub(crate) fn bearers_of(
    alloc: Global,
    dump: &CheckedDump,
    project: &str,
    key: &str,
) -> Result<Vec<FoundBearer>, FlattenFault>
    ensures { IfOk result (λ found. AreThose (IsBearerOf dump.now.elements project.now key.now) (map bearer_found found.items)) }
{
    let rows = flatten(alloc, dump)?.bearers;
    let mut found = Vec::new(alloc);
    for row in &rows {
        if row.key.as_str() == key {
            let project = String::from_str(alloc, project)?;
            found.push(FoundBearer {
                project,
                line: row.line,
                kind: row.kind,
                results: row.results,
            })?;
        }
    }
    Ok(found)
}

/// The rows of ranges in the document of this serialized URL that cover the position.
fn covering_rows<'a>(
    alloc: Global,
    rows: &[RangeRow<'a>],
    uri: &str,
    at: Position,
) -> Result<Vec<RangeRow<'a>>, AllocError>
    ensures { IfOk result (λ found. map range_value found.items ≡ filter_map (range_wanted uri.now at) (map range_value rows.now)) }
{
    let mut found = Vec::new(alloc);
    for row in rows {
        if row.uri == uri && row.span.covers(at) {
            found.push(*row)?;
        }
    }
    Ok(found)
}

/// The later start first, and of one start the lesser end.
fn order(a: &Span, b: &Span) -> Ordering
    ensures { result ≡ inner_order a.now b.now }
{
    let ends = a.end().cmp(&b.end());
    b.start().cmp(&a.start()).then(ends)
}

/// Puts the rows in order, of each span one: the later start first, and of one start the lesser
/// end.
fn list_rows(rows: &mut Vec<RangeRow<'_>>)
    ensures rises { IsStrictlySortedBy by_span rows.new.items }
    ensures from { (r : RangeRow) → Contains rows.new.items r → Contains rows.old.items r }
    ensures each { (r : RangeRow) → Contains rows.old.items r → (s : RangeRow) × Contains rows.new.items s × (s.span.now ≡ r.span.now) }
{
    rows.sort_unstable_by(|a, b| order(a.span, b.span));
    rows.dedup_by_key(|r| *r.span);
}

/// What the request finds of the range of this row.
fn found_range(row: &RangeRow<'_>, request: RequestKind) -> FoundRange
    ensures { range_found result ≡ range_found_of request row.now }
{
    FoundRange {
        line: row.line,
        span: *row.span,
        result: row.results.of(request),
    }
}

/// The ranges of the document of this serialized URL that cover the position, the smallest first,
/// with their results for the request.
pub(crate) fn covering_of(
    alloc: Global,
    dump: &CheckedDump,
    request: RequestKind,
    uri: &str,
    at: Position,
) -> Result<Vec<FoundRange>, FlattenFault>
    ensures { IfOk result (λ found. FindsCover request dump.now.elements uri.now at (map range_found found.items)) }
{
    nesting_law();
    uri_law();
    let _faultless = dump.elements();
    let rows = flatten(alloc, dump)?.ranges;
    let mut covering = covering_rows(alloc, &rows, uri, at)?;
    list_rows(&mut covering);
    let mut found = Vec::new(alloc);
    for row in &covering {
        found.push(found_range(row, request))?;
    }
    Ok(found)
}

/// The bearers of the key in the dumps of all projects.
pub(crate) fn bearers_in(
    alloc: Global,
    projects: &BTreeMap<String, Project>,
    key: &str,
) -> Result<Vec<FoundBearer>, FlattenFault>
    ensures found { IfOk result (λ found. AreThose (IsBearerAmong key.now projects.now.entries) (map bearer_found found.items)) }
    ensures ordered { IsOrdered string_cmp projects.now }
{
    let mut found = Vec::new(alloc);
    for (name, project) in projects {
        if let Some(dump) = &project.dump {
            let mut more = bearers_of(alloc, dump, name.as_str(), key)?;
            found.append(&mut more)?;
        }
    }
    Ok(found)
}
