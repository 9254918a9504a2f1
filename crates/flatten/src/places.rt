//! The places by which rows are compared: the document's URL, the start and the end. The rows are
//! in `items.rt` and `ranges.rt`.
ghost use Rattle.std.specs.Prelude.{◌≡◌, option_map};
ghost use Rattle.lsif.specs.Lent.{lent_value};
ghost use Rattle.dump.specs.Graph.{vertex_at};
ghost use Rattle.flatten.specs.Steps.Places.{place_values, point_value, twice};
ghost use Rattle.flatten.specs.Steps.Tables.{container_uri, place_of, uri_of};

use dump::CheckedDump;
use lsif::{IdRef, Vertex};
use positions::{Position, Span};

/// A position, by plain numbers: the kit has no rule for a value that has a reference beside a
/// `Position`, which has an invariant.
#[derive(Clone, Copy, PartialEq, Eq, PartialOrd, Ord)]
pub(crate) struct Point {
    /// Zero-based.
    line: u32,
    /// Zero-based, in UTF-16 code units.
    character: u32,
}

/// What places are ordered by. It has copies of the numbers of a span, since a sort that followed a
/// reference to the span would read all over memory.
#[derive(Clone, Copy, PartialEq, Eq, PartialOrd, Ord)]
pub(crate) struct PlaceKey<'a> {
    /// The document's serialized URL.
    pub(crate) uri: &'a str,
    start: Point,
    end: Point,
}

/// A place in a document.
#[derive(Clone, Copy)]
pub(crate) struct Place<'a> {
    pub(crate) key: PlaceKey<'a>,
    /// In UTF-16 code units.
    pub(crate) span: &'a Span,
}

/// The numbers of a position.
fn point_of(position: Position) -> Point
    ensures { point_value result ≡ position }
{
    Point {
        line: position.line(),
        character: position.character(),
    }
}

/// The serialized URL of a document. None where the vertex is no document.
fn uri_of<'a>(dump: &'a CheckedDump, vertex: IdRef<'_>) -> Option<&'a str>
    ensures { option_map (λ s. s.now) result ≡ uri_of (vertex_at dump.now.elements (lent_value vertex.entry)) }
{
    match dump.vertex_at(vertex) {
        Some(Vertex::Document(uri)) => Some(uri.as_str()),
        _ => None,
    }
}

/// The serialized URL of the document that contains the range.
pub(crate) fn container_uri<'a>(dump: &'a CheckedDump, range: IdRef<'_>) -> Option<&'a str>
    ensures { option_map (λ s. s.now) result ≡ container_uri dump.now.elements (lent_value range.entry) }
{
    uri_of(dump, dump.container(range)?.lent())
}

/// The place of the vertex, where it's a range that a document contains.
pub(crate) fn place_of<'a>(dump: &'a CheckedDump, vertex: IdRef<'_>) -> Option<Place<'a>>
    ensures { option_map place_values result ≡ option_map twice (place_of dump.now.elements (lent_value vertex.entry)) }
{
    match dump.vertex_at(vertex) {
        Some(Vertex::Range(span)) => Some(Place {
            key: PlaceKey {
                uri: container_uri(dump, vertex)?,
                start: point_of(span.start()),
                end: point_of(span.end()),
            },
            span,
        }),
        _ => None,
    }
}
