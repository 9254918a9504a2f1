//! The ranges that cover a position, as they are selected: an index finds the last range that
//! starts at the position or before, and a climb by its parents the others. That takes one
//! statement for each range on the way, however many the document has.
ghost use Rattle.std.specs.Prelude.{◌≡◌, List, ℕ, Some, map, IfOk, OnOk};
ghost use Rattle.sqlite.specs.State.{HasCleanDisk};
ghost use Rattle.sqlite.specs.Held.{state};
ghost use Rattle.flatten.specs.Flat.{RangeRowValue, IsRangeRow};
ghost use Rattle.tables.specs.Contents.{HasSlot};
ghost use Rattle.machine.specs.State.{State};
ghost use Rattle.tables.specs.Stands.{OnlySelects, Rests};
ghost use Rattle.machine.specs.Selections.{FindsCover, FindsCovering, range_found};
ghost use Rattle.tables.specs.Steps.Slots.{IsKnown};
ghost use Rattle.tables.specs.Steps.Climbs.{IsClimbed, TellsRange, row_found};
ghost use Rattle.tables.specs.declared.slots.Part.TheVariants.{Dump};
ghost use Rattle.tables.specs.Steps.Clauses.{OfDump, OfState, OnlyReads};

use crate::documents::has_document;
use crate::fault::{Refusal, TablesFault};
use crate::more::more_of;
use crate::parts::{ProjectSlot, dump_slot};
use crate::range_rows::{SlotRange, parent_of, start_of};
use crate::tables::Tables;
use lsif::RequestKind;
use machine::{Covering, FoundRange};
use positions::Position;
use sqlite::{Alter, Connection};
use std::alloc::Global;

/// The rows of the ranges of a document that cover the position, in the dump that has this slot,
/// the smallest range first.
fn climb<S: Alter>(
    alloc: Global,
    conn: &mut Connection<S>,
    slot: i64,
    uri: &str,
    at: Position,
) -> Result<Vec<SlotRange>, Refusal>
    ensures climbed { OfDump S.Store conn.old conn.new slot (λ dump. IfOk result (λ found. IsClimbed dump uri.now at found.items)) }
    ensures reads { OnlyReads S.Store result conn.old conn.new }
{
    let mut found = Vec::new(alloc);
    let mut next = start_of(conn, slot, uri, at)?;
    while let Some(range) = next {
        next = parent_of(conn, slot, uri, &range)?;
        if range.span.covers(at) && found.push(range).is_err() {
            return Err(Refusal::Memory);
        }
    }
    Ok(found)
}

/// The number of the range's first result for a request. Those of the kinds that the row doesn't have
/// are in `more`.
fn result_of<S: Alter>(
    conn: &mut Connection<S>,
    slot: i64,
    request: RequestKind,
    row: &SlotRange,
) -> Result<Option<u32>, Refusal>
    ensures result { OfDump S.Store conn.old conn.new slot (λ dump. (r : RangeRowValue) → IsRangeRow dump.elements r
        → TellsRange row.now r → IfOk result (λ number. number ≡ r.results request)) }
    ensures reads { OnlyReads S.Store result conn.old conn.new }
{
    match request {
        RequestKind::Definition => Ok(row.def),
        RequestKind::References => Ok(row.refs),
        RequestKind::Hover => Ok(row.hover),
        _ => Ok(more_of(conn, slot, row.line)?.of(request)),
    }
}

/// What a request finds of the range of this row.
fn complete<S: Alter>(
    conn: &mut Connection<S>,
    slot: i64,
    request: RequestKind,
    row: &SlotRange,
) -> Result<FoundRange, Refusal>
    ensures whole { OfDump S.Store conn.old conn.new slot (λ dump. (r : RangeRowValue) → IsRangeRow dump.elements r
        → TellsRange row.now r → IfOk result (λ found. range_found found ≡ row_found request r)) }
    ensures reads { OnlyReads S.Store result conn.old conn.new }
{
    let result = result_of(conn, slot, request, row)?;
    Ok(FoundRange {
        line: row.line,
        span: row.span,
        result,
    })
}

/// The ranges of a document that cover the position, in the dump that has this slot.
fn ranges_in<S: Alter>(
    alloc: Global,
    conn: &mut Connection<S>,
    slot: i64,
    request: RequestKind,
    uri: &str,
    at: Position,
) -> Result<Vec<FoundRange>, Refusal>
    ensures found { OfDump S.Store conn.old conn.new slot (λ dump. IfOk result
        (λ found. FindsCover request dump.elements uri.now at (map range_found found.items))) }
    ensures reads { OnlyReads S.Store result conn.old conn.new }
{
    let rows = climb(alloc, conn, slot, uri, at)?;
    let mut found = Vec::new(alloc);
    for row in &rows {
        let range = complete(conn, slot, request, row)?;
        if found.push(range).is_err() {
            return Err(Refusal::Memory);
        }
    }
    Ok(found)
}

/// What covers the position in a document of the dump that has this slot. Whether there is such a
/// document is asked only where nothing covers it.
fn covering_in<S: Alter>(
    alloc: Global,
    conn: &mut Connection<S>,
    slot: i64,
    request: RequestKind,
    uri: &str,
    at: Position,
) -> Result<Covering, Refusal>
    ensures found { OfState S.Store conn.old conn.new (λ m. (project : List ℕ)
        → HasSlot (state S.Store conn.old).now.trees slot project Dump → IfOk result (FindsCovering m request project uri.now at)) }
    ensures reads { OnlyReads S.Store result conn.old conn.new }
{
    let ranges = ranges_in(alloc, conn, slot, request, uri, at)?;
    if !ranges.is_empty() {
        return Ok(Covering::Ranges(ranges));
    }
    if has_document(conn, slot, uri)? {
        Ok(Covering::Ranges(ranges))
    } else {
        Ok(Covering::NoDocument)
    }
}

/// What covers the position in a document of a project's dump.
fn find_covering<S: Alter>(
    alloc: Global,
    conn: &mut Connection<S>,
    known: &mut Option<ProjectSlot>,
    request: RequestKind,
    project: &str,
    uri: &str,
    at: Position,
) -> Result<Covering, Refusal>
    requires known { IsKnown (state S.Store conn.old) known.old }
    ensures found { OfState S.Store conn.old conn.new (λ m. IfOk result (FindsCovering m request project.now uri.now at)) }
    ensures known { OnOk result (IsKnown (state S.Store conn.new) known.new) }
    ensures reads { OnlyReads S.Store result conn.old conn.new }
{
    match dump_slot(alloc, conn, known, project)? {
        Some(slot) => covering_in(alloc, conn, slot, request, uri, at),
        None => Ok(Covering::NoDump),
    }
}

impl<S: Alter> Tables<S> {
    /// The ranges of a document of the project's dump that cover the position, the smallest first,
    /// with their results for the request; or that the project has no dump, or the dump no document
    /// of this serialized URL. Errors: `Refused` and `Memory` (`TablesFault`).
    pub fn covering(
        &mut self,
        alloc: Global,
        request: RequestKind,
        project: &str,
        uri: &str,
        position: Position,
    ) -> Result<Covering, TablesFault>
        ensures found { HasCleanDisk (state S.Store self.new) → (m : State) → Rests (state S.Store self.old) m
            → IfOk result (FindsCovering m request project.now uri.now position) }
        ensures selects { OnlySelects result (state S.Store self.old) (state S.Store self.new) }
    {
        match find_covering(
            alloc,
            &mut self.conn,
            &mut self.slot,
            request,
            project,
            uri,
            position,
        ) {
            Ok(found) => Ok(found),
            Err(refusal) => {
                self.slot = None;
                Err(refusal.fault(self.is_in_memory))
            }
        }
    }
}
