//! The range that answers a request at a position: the smallest that covers it and has a result, or
//! a key by which the request goes on to other projects (`Pick` of the crate `dump`). The rows come
//! smallest first, so the search ends at the first that does.
ghost use Rattle.std.specs.Prelude.{◌↔◌, IsTrue, IfOk, OnOk, map, option_map, string_bytes};
ghost use Rattle.dump.specs.Requests.{IsFirst};
ghost use Rattle.machine.specs.Selections.{mark_found, range_found};
ghost use Rattle.machine.specs.State.{State};
ghost use Rattle.desk.specs.Indexes.{AreFaultless};
ghost use Rattle.desk.specs.Steps.Clauses.{OnlyReads};
ghost use Rattle.desk.specs.Steps.Rows.{AreFollowed, AreKeys, Picks, RowSpeaks};

use crate::index::{Index, IndexFault};
use lsif::RequestKind;
use machine::{Covering, FoundMark, FoundRange};
use positions::Position;
use std::alloc::{AllocError, Global};

/// What answers a request at a position.
#[derive(Clone, Copy)]
pub(crate) enum Picked {
    /// The project has no dump.
    NoDump,
    /// The dump has no such document.
    NoDocument,
    /// No range that covers the position has a result or such a key.
    NoRange,
    /// The row of the range.
    Range(FoundRange),
}

/// The texts of the keys of those marks by which the request goes on to other projects.
fn followed_keys(
    alloc: Global,
    request: RequestKind,
    mut marks: Vec<FoundMark>,
) -> Result<Vec<String>, AllocError>
    ensures { IfOk result (λ keys. AreFollowed request (map mark_found marks.items) (map string_bytes keys.items)) }
{
    let mut keys = Vec::new(alloc);
    while let Some(mark) = marks.pop() {
        if request.follows(mark.kind) {
            keys.push(mark.key)?;
        }
    }
    Ok(keys)
}

/// The texts of the keys by which the request goes on to other projects from the range at this line
/// (counted from 1) of the project's dump.
pub(crate) fn keys_at<I: Index>(
    alloc: Global,
    index: &mut I,
    request: RequestKind,
    project: &str,
    line: u32,
) -> Result<Vec<String>, IndexFault>
    ensures found { I.is_reliable index.new → (m : State) → I.stands index.old m
        → IfOk result (λ keys. AreKeys m request project.now line (map string_bytes keys.items)) }
    ensures reads { OnlyReads I.Index result index.old index.new }
{
    let marks = index.marks(alloc, project, line)?;
    let keys = followed_keys(alloc, request, marks)?;
    Ok(keys)
}

/// Whether the range has a result, or a key by which the request goes on to other projects. Its
/// marks are selected only where it has no result.
fn speaks<I: Index>(
    alloc: Global,
    index: &mut I,
    request: RequestKind,
    project: &str,
    range: &FoundRange,
) -> Result<bool, IndexFault>
    ensures found { I.is_reliable index.new → (m : State) → I.stands index.old m
        → IfOk result (λ speaks. IsTrue speaks ↔ RowSpeaks m request project.now (range_found range.now)) }
    ensures reads { OnlyReads I.Index result index.old index.new }
{
    if range.result.is_some() {
        return Ok(true);
    }
    let keys = keys_at(alloc, index, request, project, range.line)?;
    Ok(!keys.is_empty())
}

/// The first of the ranges that has a result or a key by which the request goes on to other
/// projects.
fn first_speaking<I: Index>(
    alloc: Global,
    index: &mut I,
    request: RequestKind,
    project: &str,
    ranges: &[FoundRange],
) -> Result<Option<FoundRange>, IndexFault>
    ensures first { I.is_reliable index.new → (m : State) → I.stands index.old m
        → IfOk result (λ o. IsFirst (RowSpeaks m request project.now) (map range_found ranges.now) (option_map range_found o)) }
    ensures reads { OnlyReads I.Index result index.old index.new }
{
    for range in ranges {
        if speaks(alloc, index, request, project, range)? {
            return Ok(Some(*range));
        }
    }
    Ok(None)
}

/// What answers a request at a position of a project's document.
pub(crate) fn pick<I: Index>(
    alloc: Global,
    index: &mut I,
    request: RequestKind,
    project: &str,
    uri: &str,
    at: Position,
) -> Result<Picked, IndexFault>
    ensures found { I.is_reliable index.new → (m : State) → I.stands index.old m → IfOk result (Picks m request project.now uri.now at) }
    ensures faultless { I.is_reliable index.new → (m : State) → I.stands index.old m → OnOk result (AreFaultless m) }
    ensures reads { OnlyReads I.Index result index.old index.new }
{
    match index.covering(alloc, request, project, uri, at)? {
        Covering::NoDump => Ok(Picked::NoDump),
        Covering::NoDocument => Ok(Picked::NoDocument),
        Covering::Ranges(ranges) => {
            match first_speaking(alloc, index, request, project, &ranges)? {
                Some(range) => Ok(Picked::Range(range)),
                None => Ok(Picked::NoRange),
            }
        }
    }
}
