//! The contents that answer a hover query: those of the range's own result, and where it has none,
//! those of the first vertex that is joined to it, by project and line (`HoversAt` of
//! `specs/Answers`).
ghost use Rattle.std.specs.Prelude.{IfOk, option_map, string_bytes};
ghost use Rattle.machine.specs.Selections.{range_found};
ghost use Rattle.machine.specs.State.{State};
ghost use Rattle.desk.specs.Steps.Clauses.{OnlyReads};
ghost use Rattle.machine.specs.Answers.{AnswersAt, AnswersHover};
ghost use Rattle.machine.specs.Requests.{at_value};
ghost use Rattle.desk.specs.Steps.RowHovers.{RowHovers};

use crate::index::{Index, IndexFault};
use crate::rows::bearers::joined_bearers;
use crate::rows::ranges::{Picked, keys_at, pick};
use lsif::RequestKind;
use machine::{Code, DocUri, FoundRange, ProjectName, Reply, hover_found};
use positions::Position;
use std::alloc::Global;

/// The contents that answer a hover query at the range of this row: those of its own result, and
/// where it has none, those of the least vertex that is joined to it (by project, line and number).
fn contents_at<I: Index>(
    alloc: Global,
    index: &mut I,
    own: &str,
    range: &FoundRange,
) -> Result<Option<String>, IndexFault>
    ensures found { I.is_reliable index.new → (m : State) → I.stands index.old m
        → IfOk result (λ o. RowHovers m own.now (range_found range.now) (option_map string_bytes o)) }
    ensures reads { OnlyReads I.Index result index.old index.new }
{
    if let Some(number) = range.result {
        return index.hover(own, number);
    }
    let keys = keys_at(alloc, index, RequestKind::Hover, own, range.line)?;
    let found = joined_bearers(alloc, index, RequestKind::Hover, own, &keys)?;
    match found.iter().min() {
        Some(row) => index.hover(row.project.as_str(), row.number),
        None => Ok(None),
    }
}

/// Answers a hover query.
pub(crate) fn hover<I: Index>(
    alloc: Global,
    index: &mut I,
    project: &ProjectName,
    uri: &DocUri,
    at: Position,
) -> Result<Reply, IndexFault>
    ensures found { I.is_reliable index.new → (m : State) → I.stands index.old m
        → IfOk result (λ r. AnswersAt m (at_value project.now uri.now at) (AnswersHover m (at_value project.now uri.now at)) r) }
    ensures reads { OnlyReads I.Index result index.old index.new }
{
    let (project, uri) = (project.as_str(), uri.as_str());
    match pick(alloc, index, RequestKind::Hover, project, uri, at)? {
        Picked::NoDump => Ok(Reply::refused(Code::D01)),
        Picked::NoDocument => Ok(Reply::refused(Code::D02)),
        Picked::NoRange => Ok(hover_found(alloc, None)?),
        Picked::Range(range) => {
            let found = contents_at(alloc, index, project, &range)?;
            Ok(hover_found(alloc, found.as_deref())?)
        }
    }
}
