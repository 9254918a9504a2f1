//! The rows of ranges: each with its place, its parent and its first results. The parents are found
//! in `parents.rt`. `IsRangeRow` in `specs/Flat`.
ghost use Rattle.std.specs.Prelude.{◌≡◌, ◌++◌, Some, Ok, IfOk, OnOk, Contains, map};
ghost use Rattle.std.specs.List.{All, flat_map};
ghost use Rattle.lsif.specs.Element.{id_value, element_value, range};
ghost use Rattle.dump.specs.Fault.{IsFaultless};
ghost use Rattle.dump.specs.Graph.{vertex_at};
ghost use Rattle.dump.specs.Places.{IsListing};
ghost use Rattle.flatten.specs.Flat.{HasEachRange, IsRangeRow, by_line, number_of};
ghost use Rattle.flatten.specs.Rows.{range_value};
ghost use Rattle.flatten.specs.Steps.Chains.{AreChains};
ghost use Rattle.flatten.specs.Steps.Parents.{IsWithinLimit, interval_value, intervals_in};
ghost use Rattle.flatten.specs.Steps.Ranges.{AreFoundRanges, IsFoundRange, range_lines};
ghost use Rattle.flatten.specs.Steps.Tables.{container_uri};

use crate::chains::Chains;
use crate::closure::target_of;
use crate::numbers::number_of;
use crate::parents::{Interval, parents};
use crate::places::container_uri;
use crate::rows::RangeRow;
use dump::{CheckedDump, container_law, ends_law, line_law, nesting_law, pick_law, vertex_law};
use lsif::{Element, Id, Vertex};
use positions::Span;
use std::alloc::{AllocError, Global};

/// The row of the range of this number in the document of this uri, with its first results, but
/// without a parent.
fn found_range<'a>(
    alloc: Global,
    chains: &mut Chains<'a>,
    number: u32,
    id: &'a Id,
    span: &'a Span,
    uri: &'a str,
) -> Result<RangeRow<'a>, AllocError>
    requires chains { AreChains chains.old }
    requires faultless { IsFaultless (map Ok chains.old.dump.now.elements) }
    requires number { number_of chains.old.dump.now.elements (id_value id.now) ≡ Some number }
    requires range { vertex_at chains.old.dump.now.elements (id_value id.now) ≡ Some (range span.now) }
    requires uri { container_uri chains.old.dump.now.elements (id_value id.now) ≡ Some uri.now }
    ensures found { IfOk result (λ found. (found.line ≡ number) × IsFoundRange chains.old.dump.now.elements (range_value found)) }
    ensures chains { OnOk result (AreChains chains.new) }
    ensures dump { chains.new.dump ≡ chains.old.dump }
{
    container_law();
    ends_law();
    line_law();
    let along = chains.along(alloc, id)?;
    Ok(RangeRow {
        line: number,
        uri,
        span,
        parent: None,
        results: along.results,
    })
}

/// Adds the element, where it's a range that a document contains.
pub(crate) fn add_found<'a>(
    alloc: Global,
    found: &mut Vec<RangeRow<'a>>,
    chains: &mut Chains<'a>,
    element: &'a Element,
) -> Result<(), AllocError>
    requires chains { AreChains chains.old }
    requires faultless { IsFaultless (map Ok chains.old.dump.now.elements) }
    requires element { Contains chains.old.dump.now.elements (element_value element.now) }
    requires found { All (IsFoundRange chains.old.dump.now.elements) (map range_value found.old.items) }
    ensures lines { OnOk result (map (λ r. r.line) (map range_value found.new.items) ≡ map (λ r. r.line) (map range_value found.old.items)
        ++ range_lines chains.old.dump.now.elements (element_value element.now)) }
    ensures found { OnOk result (All (IsFoundRange chains.old.dump.now.elements) (map range_value found.new.items)) }
    ensures chains { OnOk result (AreChains chains.new) }
    ensures dump { chains.new.dump ≡ chains.old.dump }
{
    vertex_law();
    let Element::Vertex(id, Vertex::Range(span)) = element else {
        return Ok(());
    };
    let (Some(number), Some(uri)) = (
        number_of(chains.dump, id.lent()),
        container_uri(chains.dump, id.lent()),
    ) else {
        return Ok(());
    };
    found.push(found_range(alloc, chains, number, id, span, uri)?)?;
    Ok(())
}

/// The rows of ranges, which were found in the order of the elements, with their parents: in the
/// order of their lines.
pub(crate) fn range_rows<'a>(
    alloc: Global,
    dump: &CheckedDump,
    found: Vec<RangeRow<'a>>,
    intervals: Vec<Interval>,
) -> Result<Vec<RangeRow<'a>>, AllocError>
    requires found { AreFoundRanges dump.now.elements (map range_value found.items) }
    requires intervals { map interval_value intervals.items ≡ flat_map (intervals_in dump.now.elements) dump.now.elements }
    requires within { All IsWithinLimit dump.now.elements }
    requires faultless { IsFaultless (map Ok dump.now.elements) }
    ensures rows { IfOk result (λ rows. IsListing by_line (IsRangeRow dump.now.elements) (map range_value rows.items)) }
    ensures each { IfOk result (λ rows. HasEachRange dump.now.elements (map range_value rows.items)) }
{
    container_law();
    line_law();
    nesting_law();
    pick_law();
    vertex_law();
    let parents = parents(alloc, dump, intervals)?;
    let mut rows = found;
    for row in rows.iter_mut() {
        row.parent = target_of(&parents, row.line);
    }
    Ok(rows)
}
