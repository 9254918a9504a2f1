//! The rows of ranges, as they are selected: the one from which a climb starts, by the index on
//! starts, and that of the parent of each.
ghost use Rattle.std.specs.Prelude.{◌<◌, ◌∷◌, [], Some, IsTrue, IfOk};
ghost use Rattle.positions.specs.Position.{IsPosition};
ghost use Rattle.tables.specs.Columns.{number, optional, position, IsWritten};
ghost use Rattle.tables.specs.Steps.Climbs.{IsStart, IsNamed, weight};
ghost use Rattle.tables.specs.Steps.Clauses.{OfDump, OnlyReads};

use crate::columns::{column, span_of};
use crate::fault::Refusal;
use crate::selection::{Listed, select_first};
use positions::{Position, Span};
use sqlite::{Alter, Connection, Row, params};

/// What is read of the row of a range: all but its document.
#[derive(Clone, Copy, Drop)]
pub(crate) struct SlotRange {
    pub(crate) line: u32,
    pub(crate) span: Span,
    /// The line of the smallest range that it lies in.
    pub(crate) parent: Option<u32>,
    pub(crate) def: Option<u32>,
    pub(crate) refs: Option<u32>,
    pub(crate) hover: Option<u32>,
}

impl Listed for SlotRange {
    ghost columns = { λ r. number r.line ∷ position r.span.start ∷ position r.span.«end» ∷ optional r.parent ∷ optional r.def ∷ optional r.refs
        ∷ optional r.hover ∷ [] };

    ghost is_sound = { λ r. IsPosition r.span.start × IsPosition r.span.«end» };

    ghost is_own = { λ r. IsWritten r.span };

    fn read(row: &Row) -> Result<SlotRange, Refusal> {
        let span = span_of(column(row, 1)?, column(row, 2)?)?;
        Ok(SlotRange {
            line: column(row, 0)?,
            span,
            parent: column(row, 3)?,
            def: column(row, 4)?,
            refs: column(row, 5)?,
            hover: column(row, 6)?,
        })
    }
}

const SELECT_START: &str =
    "SELECT line, first, last, parent, def, refs, hover FROM range_row WHERE slot = ?1 AND uri = ?2 AND first <= ?3 AND last > first ORDER BY first DESC, last LIMIT 1";

/// The range of a document, in the dump that has this slot, that isn't empty, starts at the
/// position or before, and comes last by start, then by falling end.
pub(crate) fn start_of<S: Alter>(
    conn: &mut Connection<S>,
    slot: i64,
    uri: &str,
    at: Position,
) -> Result<Option<SlotRange>, Refusal>
    ensures start { OfDump S.Store conn.old conn.new slot (λ dump. IfOk result (IsStart dump uri.now at)) }
    ensures reads { OnlyReads S.Store result conn.old conn.new }
{
    let packed = at.pack();
    select_first(conn, SELECT_START, params![slot, uri, packed])
}

/// Whether the first range comes before the second, by start, then by falling end.
fn comes_before(first: &SlotRange, second: &SlotRange) -> bool
    ensures lighter { IsTrue result → weight (Some first.now) < weight (Some second.now) }
{
    let (start, end) = (first.span.start(), first.span.end());
    let (other_start, other_end) = (second.span.start(), second.span.end());
    start < other_start || (start == other_start && end > other_end)
}

const SELECT_RANGE: &str =
    "SELECT line, first, last, parent, def, refs, hover FROM range_row WHERE slot = ?1 AND line = ?2 AND uri = ?3";

/// The parent of a range of a document, in the dump that has this slot. It's `Row` where the
/// document has no such range, or one that doesn't come before this one (by start, then by falling
/// end). So every climb ends.
pub(crate) fn parent_of<S: Alter>(
    conn: &mut Connection<S>,
    slot: i64,
    uri: &str,
    child: &SlotRange,
) -> Result<Option<SlotRange>, Refusal>
    ensures named { OfDump S.Store conn.old conn.new slot (λ dump. IfOk result (IsNamed dump uri.now child.now)) }
    ensures lighter { IfOk result (λ parent. weight parent < weight (Some child.now)) }
    ensures reads { OnlyReads S.Store result conn.old conn.new }
{
    let Some(line) = child.parent else {
        return Ok(None);
    };
    let found: Option<SlotRange> = select_first(conn, SELECT_RANGE, params![slot, line, uri])?;
    match found {
        Some(parent) if comes_before(&parent, child) => Ok(Some(parent)),
        _ => Err(Refusal::Row),
    }
}
