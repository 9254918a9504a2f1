//! What forbids an element after the elements before it, and what forbids a whole dump: code by
//! code. The least code that holds is named. `specs/Conditions`.
ghost use Rattle.std.specs.Prelude.{◌≡◌, false, ◌<◌, ◌≤◌, ◌&&◌, ◌++◌, [], ◌∷◌, IfOk, IfNone, IfSome, OnErr, length, not};
ghost use Rattle.std.specs.List.{list_any};
ghost use Rattle.lsif.specs.Element.{edge_value, element_value};
ghost use Rattle.dump.specs.Conditions.{is_misplaced, joins_no_vertex, fits_row, may_not_join, is_contained_again, is_conflicting, leaves_again, closes_cycle, has_no_shard, is_misplaced_item, has_used_uri, order_code, is_uncontained, end_code, most_elements};
ghost use Rattle.dump.specs.Ended.{is_bad_event, is_closed, leaves_ended, is_late};
ghost use Rattle.dump.specs.Graph.{ends};
ghost use Rattle.dump.specs.Kinds.{item_rows, result_kind, rows_of};
ghost use Rattle.dump.specs.Progress.{end_fault_from, IsSound};

use crate::contained::{any_contained, are_in};
use crate::ended::{any_closed, is_bad_event};
use crate::fault::LineFault;
use crate::graph::Graph;
use crate::limits::MOST_ELEMENTS;
use crate::single::single_of;
use crate::vertices::{Kind, are_of_kind, is_of_kind};
use crate::walks::leads;
use lsif::{Code, Edge, Element, Property, RequestKind, Vertex};
use std::alloc::AllocError;

/// The first element isn't a supported metaData, or a later one is a metaData.
#[tactic(auto, unfolding(crate::specs::Conditions::is_misplaced))]
fn is_misplaced(graph: &Graph, element: &Element) -> bool
    ensures { result ≡ is_misplaced graph.now (element_value element.now) }
{
    match element {
        Element::Vertex(_, Vertex::MetaData(supported)) => !(graph.is_empty() && *supported),
        _ => graph.is_empty(),
    }
}

/// Whether the ends of an edge have the kinds of a row of the edge table.
fn fits_row(graph: &Graph, edge: &Edge, source_kind: Kind, target_kind: Kind) -> bool
    ensures { result ≡ fits_row graph.now (edge_value edge.now) (source_kind, target_kind) }
{
    let (source, targets) = edge.ends();
    is_of_kind(graph, source_kind, source) && are_of_kind(graph, target_kind, targets)
}

/// An end isn't the id of an earlier vertex.
fn joins_no_vertex(graph: &Graph, element: &Element) -> bool
    ensures { result ≡ joins_no_vertex graph.now (element_value element.now) }
{
    match element {
        Element::Vertex(_, _) => false,
        Element::Edge(_, edge) => !fits_row(graph, edge, Kind::Any, Kind::Any),
    }
}

const DEFINITION_RESULT: Kind = Kind::Result(RequestKind::Definition);

const REFERENCE_RESULT: Kind = Kind::Result(RequestKind::References);

/// The kind of what an edge of the request leads to.
fn result_kind(kind: RequestKind) -> Kind
    ensures { result ≡ result_kind kind }
{
    if kind.gives_places() {
        Kind::Result(kind)
    } else {
        Kind::HoverResult
    }
}

/// Whether an `item` edge with this property has the kinds of a row.
fn fits_item_row(graph: &Graph, edge: &Edge, property: Option<Property>) -> bool
    ensures { result ≡ list_any (fits_row graph.now (edge_value edge.now)) (item_rows property) }
{
    match property {
        None => {
            fits_row(graph, edge, Kind::OneRole, Kind::Range)
                || fits_row(graph, edge, Kind::Other, Kind::Any)
        }
        Some(Property::Definitions) => {
            fits_row(graph, edge, REFERENCE_RESULT, Kind::Range)
                || fits_row(graph, edge, DEFINITION_RESULT, Kind::Range)
                || fits_row(graph, edge, Kind::Other, Kind::Any)
        }
        Some(Property::References) => {
            fits_row(graph, edge, REFERENCE_RESULT, Kind::Range)
                || fits_row(graph, edge, Kind::Other, Kind::Any)
        }
        Some(Property::ReferenceResults) => {
            fits_row(graph, edge, REFERENCE_RESULT, REFERENCE_RESULT)
                || fits_row(graph, edge, Kind::Other, Kind::Any)
        }
    }
}

/// Whether an edge has the kinds of a row of the edge table.
fn fits_any_row(graph: &Graph, edge: &Edge) -> bool
    ensures { result ≡ list_any (fits_row graph.now (edge_value edge.now)) (rows_of (edge_value edge.now)) }
{
    match edge {
        Edge::Contains(_, _) => {
            fits_row(graph, edge, Kind::Document, Kind::Range)
                || fits_row(graph, edge, Kind::Project, Kind::Document)
        }
        Edge::Next(_, _) => fits_row(graph, edge, Kind::Asked, Kind::ResultSet),
        Edge::Request(kind, _, _) => fits_row(graph, edge, Kind::Asked, result_kind(*kind)),
        Edge::Moniker(_, _) => fits_row(graph, edge, Kind::Asked, Kind::Moniker),
        Edge::Package(_, _) => fits_row(graph, edge, Kind::Moniker, Kind::Package),
        Edge::Attach(_, _) => fits_row(graph, edge, Kind::Moniker, Kind::Moniker),
        Edge::Item(item) => fits_item_row(graph, edge, item.property),
        Edge::Other(_, _) => fits_row(graph, edge, Kind::Any, Kind::Any),
    }
}

/// Whether the ends are earlier vertices, and a row of the edge table has their kinds.
#[tactic(auto, using(crate::proofs::Rows::any_row_fits))]
fn fits(graph: &Graph, element: &Element) -> bool
    ensures { result ≡ (not (joins_no_vertex graph.now (element_value element.now)) && not (may_not_join graph.now (element_value element.now))) }
{
    match element {
        Element::Vertex(_, _) => true,
        Element::Edge(_, edge) => fits_any_row(graph, edge),
    }
}

/// A document contains a target already, or a target is named twice.
fn is_contained_again(graph: &Graph, element: &Element) -> Result<bool, AllocError>
    ensures { IfOk result (λ b. b ≡ is_contained_again graph.now (element_value element.now)) }
{
    match element {
        Element::Edge(_, Edge::Contains(from, to))
            if is_of_kind(graph, Kind::Document, from.lent()) => {
            Ok(any_contained(graph, to.iter()) || graph.is_repeating(to.iter())?)
        }
        _ => Ok(false),
    }
}

/// A target's span conflicts with one that the document contains already, or with another target's.
fn is_conflicting(graph: &Graph, element: &Element) -> Result<bool, AllocError>
    ensures { IfOk result (λ b. b ≡ is_conflicting graph.now (element_value element.now)) }
{
    match element {
        Element::Edge(_, Edge::Contains(from, to))
            if is_of_kind(graph, Kind::Document, from.lent()) => {
            graph.conflict(from.lent(), to.iter())
        }
        _ => Ok(false),
    }
}

/// An edge of this single label leaves the same vertex already.
fn leaves_again(graph: &Graph, element: &Element) -> bool
    ensures { result ≡ leaves_again graph.now (element_value element.now) }
{
    match single_of(element) {
        Some((label, from, _)) => graph.target_of(label, from.lent()).is_some(),
        _ => false,
    }
}

/// A path of `next` edges goes from the target to the source already.
fn closes_cycle(graph: &Graph, element: &Element) -> bool
    requires sound { IsSound graph.now }
    requires first { leaves_again graph.now (element_value element.now) ≡ false }
    ensures { result ≡ closes_cycle graph.now (element_value element.now) }
{
    match element {
        Element::Edge(_, Edge::Next(from, to)) => leads(graph, to.lent(), from.lent()),
        _ => false,
    }
}

/// The shard isn't an earlier document or project.
fn has_no_shard(graph: &Graph, element: &Element) -> bool
    ensures { result ≡ has_no_shard graph.now (element_value element.now) }
{
    match element {
        Element::Edge(_, Edge::Item(item)) => {
            !is_of_kind(graph, Kind::Shard, item.shard.lent())
                && !is_of_kind(graph, Kind::Other, item.source.lent())
        }
        _ => false,
    }
}

/// A `contains` edge leaves a document that has ended.
fn leaves_ended(graph: &Graph, element: &Element) -> bool
    ensures { result ≡ leaves_ended graph.now (element_value element.now) }
{
    match element {
        Element::Edge(_, Edge::Contains(from, _)) => graph.has_ended(from.lent()),
        _ => false,
    }
}

/// An end of an edge is a range that a document contains which has ended.
fn names_closed(graph: &Graph, element: &Element) -> bool
    requires { IsSound graph.now }
    ensures { result ≡ list_any (is_closed graph.now) (ends (element_value element.now)) }
{
    match element {
        Element::Vertex(_, _) => false,
        Element::Edge(_, edge) => {
            let (source, targets) = edge.ends();
            graph.is_closed(source) || any_closed(graph, targets)
        }
    }
}

/// A `contains` edge leaves a document that has ended, or an edge names a range that one contains.
fn is_late(graph: &Graph, element: &Element) -> bool
    requires { IsSound graph.now }
    ensures { result ≡ is_late graph.now (element_value element.now) }
{
    leaves_ended(graph, element) || names_closed(graph, element)
}

/// An earlier document has the same serialized URL.
fn has_used_uri(graph: &Graph, element: &Element) -> bool
    ensures { result ≡ has_used_uri graph.now (element_value element.now) }
{
    match element {
        Element::Vertex(_, Vertex::Document(uri)) => graph.has_document_of(uri.as_str()),
        _ => false,
    }
}

/// The least code whose condition holds of the element after those before it.
#[tactic(auto, unfolding(crate::specs::Conditions::order_code))]
fn order_code(graph: &Graph, element: &Element) -> Result<Option<Code>, AllocError>
    requires { IsSound graph.now }
    ensures value { IfOk result (λ code. code ≡ order_code graph.now (element_value element.now)) }
    ensures room { IfOk result (λ code. IfNone code (length graph.now < most_elements)) }
{
    let code = if graph.element_at(element.id().lent()).is_some() {
        Some(Code::L04)
    } else if is_misplaced(graph, element) {
        Some(Code::L06)
    } else if !fits(graph, element) {
        if joins_no_vertex(graph, element) {
            Some(Code::L09)
        } else {
            Some(Code::L10)
        }
    } else if is_contained_again(graph, element)? {
        Some(Code::L11)
    } else if is_conflicting(graph, element)? {
        Some(Code::L12)
    } else if leaves_again(graph, element) {
        Some(Code::L13)
    } else if closes_cycle(graph, element) {
        Some(Code::L14)
    } else if has_no_shard(graph, element) {
        Some(Code::L16)
    } else if is_bad_event(graph, element) {
        Some(Code::L17)
    } else if is_late(graph, element) {
        Some(Code::L18)
    } else if has_used_uri(graph, element) {
        Some(Code::L19)
    } else if graph.len() >= MOST_ELEMENTS {
        Some(Code::L20)
    } else {
        None
    };
    Ok(code)
}

/// Adds the element where those before it allow it, and answers its code where they don't. Where
/// memory is refused the elements stay as they are.
pub(crate) fn add(graph: &mut Graph, element: Element) -> Result<Option<Code>, AllocError>
    requires { IsSound graph.old }
    ensures code { IfOk result (λ code. code ≡ order_code graph.old (element_value element)) }
    ensures added { IfOk result (λ code. IfNone code (graph.new ≡ graph.old ++ element_value element ∷ [])) }
    ensures room { IfOk result (λ code. IfNone code (length graph.old < most_elements)) }
    ensures refused { IfOk result (λ code. IfSome code (λ c. graph.new ≡ graph.old)) }
    ensures kept { OnErr result (graph.new ≡ graph.old) }
{
    match order_code(graph, &element) {
        Ok(None) => {
            graph.push(element)?;
            Ok(None)
        }
        refused => {
            drop(element);
            refused
        }
    }
}

/// A range that no document contains.
fn is_uncontained(graph: &Graph, element: &Element) -> bool
    ensures { result ≡ is_uncontained graph.now (element_value element.now) }
{
    match element {
        Element::Vertex(id, Vertex::Range(_)) => !graph.is_contained(id.lent()),
        _ => false,
    }
}

/// The shard of an `item` edge is a document that doesn't contain a target range.
fn is_misplaced_item(graph: &Graph, element: &Element) -> bool
    requires { IsSound graph.now }
    ensures { result ≡ is_misplaced_item graph.now (element_value element.now) }
{
    match element {
        Element::Edge(_, Edge::Item(item)) => {
            !matches!(item.property, Some(Property::ReferenceResults))
                && is_of_kind(graph, Kind::Document, item.shard.lent())
                && !are_in(graph, item.shard.lent(), item.targets.iter())
                && !is_of_kind(graph, Kind::Other, item.source.lent())
        }
        _ => false,
    }
}

/// The least code whose condition holds of the element at the end of the dump.
#[tactic(auto, unfolding(crate::specs::Conditions::end_code))]
fn end_code(graph: &Graph, element: &Element) -> Option<Code>
    requires { IsSound graph.now }
    ensures { result ≡ end_code graph.now (element_value element.now) }
{
    if is_uncontained(graph, element) {
        Some(Code::E01)
    } else if is_misplaced_item(graph, element) {
        Some(Code::E02)
    } else {
        None
    }
}

/// The fault of the first element that has a code at the end of the dump.
pub(crate) fn end_fault(graph: &Graph) -> Option<LineFault>
    requires few { length graph.now ≤ most_elements }
    requires sound { IsSound graph.now }
    ensures { result ≡ end_fault_from graph.now 0 graph.now }
{
    let elements = graph.elements();
    for (k, element) in elements.iter().enumerate() {
        if let Some(code) = end_code(graph, element) {
            return Some(LineFault {
                line: k as u32 + 1,
                code,
            });
        }
    }
    None
}
