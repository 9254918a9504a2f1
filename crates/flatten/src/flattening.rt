//! Flattens a checked dump: makes the rows of all kinds, one kind after the other, within a limit
//! of their number. `IsFlat` in `specs/Flat`.
ghost use Rattle.std.specs.Prelude.{◌≡◌, IfOk, map};
ghost use Rattle.dump.specs.Places.{IsListing};
ghost use Rattle.flatten.specs.Limits.{most_rows};
ghost use Rattle.flatten.specs.Flat.{HasPositions, IsBearerRow, IsFlat, IsMarkRow, bearer_cmp, mark_cmp};
ghost use Rattle.flatten.specs.Rows.{bearer_value, mark_value, rows_value};
ghost use Rattle.flatten.specs.Steps.Kinds.{AreKinds};

use crate::borne::{borne, moniker_marks};
use crate::budget::Budget;
use crate::chains::Chains;
use crate::documents::document_rows;
use crate::fault::FlattenFault;
use crate::items::item_rows;
use crate::kinds::{Gathered, Kinds, gather};
use crate::limits::MOST_ROWS;
use crate::marks::{bearer_rows, mark_rows};
use crate::ranges::range_rows;
use crate::rows::{BearerRow, MarkRow, RangeRow, Rows};
use dump::CheckedDump;
use std::alloc::Global;

/// The limit of the product.
fn most_rows() -> usize
    ensures { result ≡ most_rows }
{
    MOST_ROWS
}

/// Takes the documents' URLs of these rows from a budget of so many.
fn take_uris(ranges: &[RangeRow<'_>], limit: usize) -> Result<(), FlattenFault> {
    let mut budget = Budget::new(limit);
    for range in ranges {
        budget.take_text(range.uri.len())?;
    }
    Ok(())
}

/// The rows of the marks, and those of the bearers.
fn moniker_rows(
    alloc: Global,
    kinds: &Kinds<'_>,
    limit: usize,
) -> Result<(Vec<MarkRow>, Vec<BearerRow>), FlattenFault>
    requires { AreKinds kinds.now }
    ensures marks { IfOk result (λ rows. IsListing mark_cmp (IsMarkRow kinds.now.dump.now.elements) (map mark_value rows.0.items)) }
    ensures bearers { IfOk result (λ rows. IsListing bearer_cmp (IsBearerRow kinds.now.dump.now.elements) (map bearer_value rows.1.items)) }
{
    let mut chains = Chains::new(alloc, kinds.dump, borne(alloc, kinds, limit)?)?;
    let borne_marks = moniker_marks(alloc, kinds.dump)?;
    let marks = mark_rows(alloc, &borne_marks, &mut chains, &kinds.ranges, limit)?;
    let bearers = bearer_rows(alloc, &borne_marks, &mut chains, limit)?;
    Ok((marks, bearers))
}

/// The rows of the dump, where no more than so many of a kind come, and the walks for them follow
/// no more than so many pairs. `flatten` calls it with the limit of the product; tests call it with
/// small ones.
pub fn flatten_within<'a>(
    alloc: Global,
    dump: &'a CheckedDump,
    limit: usize,
) -> Result<Rows<'a>, FlattenFault>
    ensures profile { IfOk result (λ rows. rows.profile ≡ dump.now.profile) }
    ensures rows { IfOk result (λ rows. IsFlat dump.now.elements (rows_value rows)) }
    ensures located { IfOk result (λ rows. HasPositions dump.now.elements) }
{
    let Gathered {
        mut kinds,
        hovers,
        ranges,
        intervals,
    } = gather(alloc, dump)?;
    let documents = document_rows(alloc, &kinds)?;
    let ranges = range_rows(alloc, dump, ranges, intervals)?;
    take_uris(&ranges, limit)?;
    let (marks, bearers) = moniker_rows(alloc, &kinds, limit)?;
    let items = item_rows(alloc, &mut kinds, limit)?;
    Ok(Rows {
        profile: dump.profile(),
        documents,
        ranges,
        items,
        hovers,
        marks,
        bearers,
    })
}

/// The rows of the dump: what its walks lead to. There may be 4,000,000 rows of one kind, counted
/// before repeats are dropped, and each 128 bytes of their texts count as one more. The walks over
/// "referenceResults" or `attach` may follow 4,000,000 pairs. More counts as lack of memory.
pub fn flatten<'a>(alloc: Global, dump: &'a CheckedDump) -> Result<Rows<'a>, FlattenFault>
    ensures profile { IfOk result (λ rows. rows.profile ≡ dump.now.profile) }
    ensures rows { IfOk result (λ rows. IsFlat dump.now.elements (rows_value rows)) }
    ensures located { IfOk result (λ rows. HasPositions dump.now.elements) }
{
    flatten_within(alloc, dump, most_rows())
}
