//! The smallest range of its document in which each range lies: a sweep over the ranges in the
//! order of their starts. The links to the ranges that are still open are the stack, so that the
//! sweep is linear and the sort before it O(n log n). `IsParent` in `specs/Flat`.
ghost use Rattle.std.specs.Prelude.{◌≡◌, ◌↔◌, ◌++◌, ◌<◌, ℕ, Ok, IfOk, OnOk, Contains, length, map, option_map};
ghost use Rattle.std.specs.List.Sorted.{IsNonDecreasingBy};
ghost use Rattle.std.specs.List.{All, flat_map};
ghost use Rattle.dump.specs.Fault.{IsFaultless};
ghost use Rattle.dump.specs.Places.{IsListing};
ghost use Rattle.positions.specs.Position.{IsPosition, packed_of};
ghost use Rattle.lsif.specs.Element.{id_value, element_value};
ghost use Rattle.flatten.specs.Steps.Kinds.{AreThose, is_range};
ghost use Rattle.flatten.specs.Steps.Parents.{AreLinks, AreParents, AreIntervals, IsLinkPair, IsOpenBefore, IsWithinLimit, encloses, interval_cmp, interval_of, interval_value, interval_with, intervals_in};

use crate::closure::sort_by_source;
use crate::numbers::number_of;
use dump::{CheckedDump, container_law, line_law, nesting_law, vertex_law};
use lsif::{Element, Id, Vertex};
use positions::Position;
use std::alloc::{AllocError, Global};
use std::cmp::Ordering;

/// A range that isn't empty, as numbers: its document's, its own, and its start and its end as
/// packed positions.
#[derive(Clone, Copy, PartialEq, Eq)]
pub(crate) struct Interval {
    document: u32,
    range: u32,
    start: u64,
    end: u64,
}

/// A number that keeps the order of positions.
fn packed(position: Position) -> u64
    ensures value { result ≡ packed_of position }
    ensures within { IsPosition position }
{
    position.pack().unsigned_abs()
}

/// The interval of a range of this number in the document of the other, where it isn't empty.
fn interval_with(document: u32, range: u32, start: u64, end: u64) -> Option<Interval>
    ensures { option_map interval_value result ≡ interval_with document range start «end» }
{
    if start < end {
        Some(Interval {
            document,
            range,
            start,
            end,
        })
    } else {
        None
    }
}

/// The interval of the range of this id.
fn interval_of(dump: &CheckedDump, range: &Id, start: u64, end: u64) -> Option<Interval>
    ensures { option_map interval_value result ≡ interval_of dump.now.elements (id_value range.now) start «end» }
{
    let document = number_of(dump, dump.container(range.lent())?.lent())?;
    interval_with(document, number_of(dump, range.lent())?, start, end)
}

/// Adds the interval of the element, where it's a range.
pub(crate) fn add_interval(
    intervals: &mut Vec<Interval>,
    dump: &CheckedDump,
    element: &Element,
) -> Result<(), AllocError>
    ensures intervals { OnOk result (map interval_value intervals.new.items ≡ map interval_value intervals.old.items
        ++ intervals_in dump.now.elements (element_value element.now)) }
    ensures within { IsWithinLimit (element_value element.now) }
{
    if let Element::Vertex(id, Vertex::Range(span)) = element {
        let start = packed(span.start());
        let end = packed(span.end());
        if let Some(interval) = interval_of(dump, id, start, end) {
            intervals.push(interval)?;
        }
    }
    Ok(())
}

/// By document, then start, of one start the greater end first, then range.
fn order(a: &Interval, b: &Interval) -> Ordering
    ensures { result ≡ interval_cmp (interval_value a.now) (interval_value b.now) }
{
    let ends = b.end.cmp(&a.end).then(a.range.cmp(&b.range));
    a.document
        .cmp(&b.document)
        .then(a.start.cmp(&b.start).then(ends))
}

/// Puts the intervals in order, each once.
fn list_intervals(intervals: &mut Vec<Interval>)
    ensures { IsListing interval_cmp (Contains (map interval_value intervals.old.items)) (map interval_value intervals.new.items) }
{
    intervals.sort_unstable_by(|a, b| order(a, b));
    intervals.dedup();
}

/// Whether the inner interval lies in the outer one: in the same document, and between its start
/// and its end.
fn encloses(outer: &Interval, inner: &Interval) -> bool
    ensures { result ≡ encloses (interval_value outer.now) (interval_value inner.now) }
{
    outer.document == inner.document && outer.start <= inner.start && inner.end <= outer.end
}

/// Of the intervals before this one, from the last outward, the first that it lies in. Each
/// interval's link leads to the one that it lies in itself. So the links are a stack of the open
/// intervals.
fn enclosing(intervals: &[Interval], links: &[Option<usize>], index: usize) -> Option<usize>
    requires index { index < length intervals.now }
    requires length { length links.now ≡ index }
    requires links { AreLinks (map interval_value intervals.now) links.now }
    requires intervals { AreIntervals (map interval_value intervals.now) }
    ensures { IsOpenBefore (map interval_value intervals.now) index result }
{
    let mut open = index.checked_sub(1);
    while let Some(outer) = open {
        if encloses(&intervals[outer], &intervals[index]) {
            return open;
        }
        open = links[outer];
    }
    None
}

/// Of each interval the index of the smallest that it lies in. The intervals are in order.
fn links(alloc: Global, intervals: &[Interval]) -> Result<Vec<Option<usize>>, AllocError>
    requires { AreIntervals (map interval_value intervals.now) }
    ensures links { IfOk result (λ links. AreLinks (map interval_value intervals.now) links.items) }
    ensures length { IfOk result (λ links. length links.items ≡ length intervals.now) }
{
    let mut links = Vec::with_capacity(alloc, intervals.len())?;
    for index in 0..intervals.len() {
        let open = enclosing(intervals, &links, index);
        links.push(open)?;
    }
    Ok(links)
}

/// The numbers of each interval's range with that of the smallest interval that it lies in.
fn link_pairs(
    alloc: Global,
    intervals: &[Interval],
    links: &[Option<usize>],
) -> Result<Vec<(u32, u32)>, AllocError>
    requires length { length links.now ≡ length intervals.now }
    requires links { AreLinks (map interval_value intervals.now) links.now }
    ensures { IfOk result (λ pairs. (p : ℕ × ℕ) → Contains pairs.items p ↔ IsLinkPair (map interval_value intervals.now) links.now (length links.now) p) }
{
    let mut pairs = Vec::with_capacity(alloc, links.len())?;
    for (inner, link) in links.iter().enumerate() {
        if let Some(outer) = link {
            pairs.push((intervals[inner].range, intervals[*outer].range))?;
        }
    }
    Ok(pairs)
}

/// The numbers of ranges and of the smallest other that each lies in, in the order of the first.
/// The intervals are those of the dump's ranges.
pub(crate) fn parents(
    alloc: Global,
    dump: &CheckedDump,
    intervals: Vec<Interval>,
) -> Result<Vec<(u32, u32)>, AllocError>
    requires intervals { map interval_value intervals.items ≡ flat_map (intervals_in dump.now.elements) dump.now.elements }
    requires within { All IsWithinLimit dump.now.elements }
    requires faultless { IsFaultless (map Ok dump.now.elements) }
    ensures sorted { IfOk result (λ pairs. IsNonDecreasingBy (λ p. p.0) pairs.items) }
    ensures parents { IfOk result (λ pairs. AreParents dump.now.elements pairs.items) }
{
    container_law();
    line_law();
    nesting_law();
    vertex_law();
    let mut intervals = intervals;
    list_intervals(&mut intervals);
    let links = links(alloc, &intervals)?;
    let mut pairs = link_pairs(alloc, &intervals, &links)?;
    sort_by_source(&mut pairs);
    Ok(pairs)
}
