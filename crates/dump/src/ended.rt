//! Which documents may begin and end, and whose ranges may not be named any more.
ghost use Rattle.std.specs.Prelude.{◌≡◌};
ghost use Rattle.std.specs.List.{list_any};
ghost use Rattle.lsif.specs.Element.{element_value};
ghost use Rattle.dump.specs.Ended.{is_bad_event, is_closed};
ghost use Rattle.dump.specs.Progress.{IsSound};

use crate::graph::Graph;
use crate::vertices::{Kind, is_of_kind};
use lsif::{Element, Event, IdsIter, Vertex};

/// The event isn't of an earlier document, comes a second time, or is an end without a begin.
pub(crate) fn is_bad_event(graph: &Graph, element: &Element) -> bool
    ensures { result ≡ is_bad_event graph.now (element_value element.now) }
{
    match element {
        Element::Vertex(_, Vertex::Event(Event::Begin(id))) => {
            !is_of_kind(graph, Kind::Document, id.lent()) || graph.has_begun(id.lent())
        }
        Element::Vertex(_, Vertex::Event(Event::End(id))) => {
            !is_of_kind(graph, Kind::Document, id.lent())
                || graph.has_ended(id.lent())
                || !graph.has_begun(id.lent())
        }
        _ => false,
    }
}

/// Whether a document that has ended contains one of the ranges.
pub(crate) fn any_closed(graph: &Graph, ranges: IdsIter<'_>) -> bool
    requires { IsSound graph.now }
    ensures { result ≡ list_any (is_closed graph.now) ranges.entry }
{
    for range in ranges {
        if graph.is_closed(range) {
            return true;
        }
    }
    false
}
