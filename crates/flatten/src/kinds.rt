//! What rows are made of, gathered in one pass over the elements, so that each kind of row needn't
//! read the whole dump again.
ghost use Rattle.std.specs.Prelude.{◌≡◌, ◌++◌, IfOk, OnOk, map};
ghost use Rattle.std.specs.List.{All, flat_map};
ghost use Rattle.lsif.specs.Element.{element_value};
ghost use Rattle.dump.specs.Places.{IsListing};
ghost use Rattle.flatten.specs.Flat.{HasPositions, IsHoverRow, by_result};
ghost use Rattle.flatten.specs.Rows.{hover_value, range_value};
ghost use Rattle.flatten.specs.Steps.Kinds.{AreKinds, HasNone, Takes, is_document, is_moniker_edge, is_range, kept, said};
ghost use Rattle.flatten.specs.Steps.Parents.{IsWithinLimit, interval_value, intervals_in};
ghost use Rattle.flatten.specs.Steps.Ranges.{AreFoundRanges};

use crate::chains::Chains;
use crate::documents::add_hover;
use crate::items::{add_items, add_number, add_results};
use crate::parents::{Interval, add_interval};
use crate::places::Place;
use crate::ranges::add_found;
use crate::rows::{HoverRow, RangeRow};
use dump::{CheckedDump, Role, vertex_law};
use lsif::{Edge, Element, Vertex};
use std::alloc::{AllocError, Global};

/// What the rows of a dump are made of, in the order of the elements' lines: elements, kind by
/// kind; and by numbers the results, and what `item` edges join.
#[derive(Drop)]
pub(crate) struct Kinds<'a> {
    pub(crate) dump: &'a CheckedDump,
    pub(crate) documents: Vec<&'a Element>,
    pub(crate) ranges: Vec<&'a Element>,
    /// The results that `item` edges leave.
    pub(crate) results: Vec<u32>,
    /// The results that `item` edges with "referenceResults" join.
    pub(crate) result_pairs: Vec<(u32, u32)>,
    /// The results, and the places of the ranges, that `item` edges join, role by role.
    pub(crate) definitions: Vec<(u32, Place<'a>)>,
    pub(crate) references: Vec<(u32, Place<'a>)>,
    /// The edges `moniker` and `attach`.
    pub(crate) moniker_edges: Vec<&'a Element>,
}

fn is_document(element: &Element) -> bool
    ensures { result ≡ is_document (element_value element.now) }
{
    matches!(element, Element::Vertex(_, Vertex::Document(_)))
}

fn is_range(element: &Element) -> bool
    ensures { result ≡ is_range (element_value element.now) }
{
    matches!(element, Element::Vertex(_, Vertex::Range(_)))
}

/// Whether the element is an edge `moniker` or `attach`.
fn is_moniker_edge(element: &Element) -> bool
    ensures { result ≡ is_moniker_edge (element_value element.now) }
{
    matches!(
        element,
        Element::Edge(_, Edge::Moniker(_, _) | Edge::Attach(_, _))
    )
}

/// Adds the element to the list, where it's of the list's kind.
fn keep<'a>(
    list: &mut Vec<&'a Element>,
    element: &'a Element,
    is_kept: bool,
) -> Result<(), AllocError>
    ensures { OnOk result (map said list.new.items ≡ map said list.old.items ++ kept is_kept (element_value element.now)) }
{
    if is_kept {
        list.push(element)?;
    }
    Ok(())
}

/// Adds the element to the list of its kind, or what it says by numbers.
fn add<'a>(kinds: &mut Kinds<'a>, element: &'a Element) -> Result<(), AllocError>
    ensures takes { OnOk result (Takes kinds.old (element_value element.now) kinds.new) }
    ensures dump { kinds.new.dump ≡ kinds.old.dump }
{
    keep(&mut kinds.documents, element, is_document(element))?;
    keep(&mut kinds.ranges, element, is_range(element))?;
    keep(&mut kinds.moniker_edges, element, is_moniker_edge(element))?;
    let dump = kinds.dump;
    add_number(&mut kinds.results, dump, element)?;
    add_results(&mut kinds.result_pairs, dump, element)?;
    add_items(&mut kinds.definitions, dump, Role::Definitions, element)?;
    add_items(&mut kinds.references, dump, Role::References, element)
}

/// What the pass over the elements gathers: the elements kind by kind, the rows of hover results,
/// the ranges that documents contain, as rows without a parent, and those of them that aren't
/// empty, as intervals.
#[derive(Drop)]
pub(crate) struct Gathered<'a> {
    pub(crate) kinds: Kinds<'a>,
    pub(crate) hovers: Vec<HoverRow<'a>>,
    pub(crate) ranges: Vec<RangeRow<'a>>,
    pub(crate) intervals: Vec<Interval>,
}

/// Makes room for so many ranges and items of each role.
fn make_room(gathered: &mut Gathered<'_>, count: usize) -> Result<(), AllocError>
    ensures none { HasNone gathered.old → OnOk result (HasNone gathered.new) }
    ensures dump { gathered.new.kinds.dump.now ≡ gathered.old.kinds.dump.now }
{
    gathered.kinds.ranges.reserve(count)?;
    gathered.kinds.definitions.reserve(count)?;
    gathered.kinds.references.reserve(count)?;
    gathered.ranges.reserve(count)?;
    gathered.intervals.reserve(count)
}

/// Reads the elements once, and of each range the edges that leave it and what they lead to, which
/// are near it in memory. There's room for as many ranges and items as a quarter of the elements,
/// which is more than most dumps have; so these lists seldom grow.
fn add_all(alloc: Global, gathered: &mut Gathered<'_>) -> Result<(), AllocError>
    requires { HasNone gathered.old }
    ensures dump { OnOk result (gathered.new.kinds.dump.now ≡ gathered.old.kinds.dump.now) }
    ensures kinds { OnOk result (AreKinds gathered.new.kinds) }
    ensures hovers { OnOk result (IsListing by_result (IsHoverRow gathered.old.kinds.dump.now.elements) (map hover_value gathered.new.hovers.items)) }
    ensures ranges { OnOk result (AreFoundRanges gathered.old.kinds.dump.now.elements (map range_value gathered.new.ranges.items)) }
    ensures intervals { OnOk result (map interval_value gathered.new.intervals.items
        ≡ flat_map (intervals_in gathered.old.kinds.dump.now.elements) gathered.old.kinds.dump.now.elements) }
    ensures within { OnOk result (All IsWithinLimit gathered.old.kinds.dump.now.elements) }
    ensures located { OnOk result (HasPositions gathered.old.kinds.dump.now.elements) }
{
    vertex_law();
    let dump = gathered.kinds.dump;
    make_room(gathered, dump.elements().len() / 4)?;
    let mut chains = Chains::new(alloc, dump, Vec::new(alloc))?;
    for element in dump.elements() {
        add(&mut gathered.kinds, element)?;
        add_hover(&mut gathered.hovers, dump, element)?;
        add_found(alloc, &mut gathered.ranges, &mut chains, element)?;
        add_interval(&mut gathered.intervals, dump, element)?;
    }
    Ok(())
}

/// What a dump's rows are made of.
pub(crate) fn gather<'a>(alloc: Global, dump: &'a CheckedDump) -> Result<Gathered<'a>, AllocError>
    ensures kinds { IfOk result (λ gathered. AreKinds gathered.kinds) }
    ensures hovers { IfOk result (λ gathered. IsListing by_result (IsHoverRow dump.now.elements) (map hover_value gathered.hovers.items)) }
    ensures ranges { IfOk result (λ gathered. AreFoundRanges dump.now.elements (map range_value gathered.ranges.items)) }
    ensures intervals { IfOk result (λ gathered. map interval_value gathered.intervals.items ≡ flat_map (intervals_in dump.now.elements) dump.now.elements) }
    ensures within { IfOk result (λ gathered. All IsWithinLimit dump.now.elements) }
    ensures located { IfOk result (λ gathered. HasPositions dump.now.elements) }
    ensures dump { IfOk result (λ gathered. gathered.kinds.dump.now ≡ dump.now) }
{
    let mut gathered = Gathered {
        kinds: Kinds {
            dump,
            documents: Vec::new(alloc),
            ranges: Vec::new(alloc),
            results: Vec::new(alloc),
            result_pairs: Vec::new(alloc),
            definitions: Vec::new(alloc),
            references: Vec::new(alloc),
            moniker_edges: Vec::new(alloc),
        },
        hovers: Vec::new(alloc),
        ranges: Vec::new(alloc),
        intervals: Vec::new(alloc),
    };
    add_all(alloc, &mut gathered)?;
    Ok(gathered)
}
