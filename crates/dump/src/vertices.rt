//! What the vertices of ids are, and of which kinds, as the checks of edges and events need it.
//! `specs/Kinds` has the kinds and the edge table; the test of its rows is in `order.rt`.
ghost use Rattle.std.specs.Prelude.{◌≡◌, option_map};
ghost use Rattle.lsif.specs.Element.{vertex_value};
ghost use Rattle.lsif.specs.Lent.{lent_value};
ghost use Rattle.std.specs.List.{list_all};
ghost use Rattle.dump.specs.Graph.{vertex_at};
ghost use Rattle.dump.specs.Kinds.{is_of_kind};

use crate::graph::Graph;
use lsif::{Element, IdRef, IdsIter, RequestKind, Vertex};

/// What the vertex of this id says.
pub(crate) fn vertex_at<'a>(graph: &'a Graph, id: IdRef<'_>) -> Option<&'a Vertex>
    ensures { option_map (λ v. vertex_value v.now) result ≡ vertex_at graph.now (lent_value id.entry) }
{
    match graph.element_at(id) {
        Some(Element::Vertex(_, vertex)) => Some(vertex),
        _ => None,
    }
}

/// What an edge or an event requires of a vertex.
#[derive(Clone, Copy)]
pub(crate) enum Kind {
    /// A vertex of any label.
    Any,
    Project,
    Document,
    Range,
    ResultSet,
    /// The result of this request, where it's answered by places.
    Result(RequestKind),
    /// A result of a request for definitions alone: `item` edges out of it need no property, since
    /// its places have one role.
    OneRole,
    HoverResult,
    Moniker,
    Package,
    /// A vertex of a label that isn't read.
    Other,
    /// A range or a result set: these have results of requests.
    Asked,
    /// A document or a project: these may be the shard of an `item` edge.
    Shard,
}

/// Whether the id is that of a vertex of this kind.
pub(crate) fn is_of_kind(graph: &Graph, kind: Kind, id: IdRef<'_>) -> bool
    ensures { result ≡ is_of_kind kind (vertex_at graph.now (lent_value id.entry)) }
{
    let vertex = vertex_at(graph, id);
    match kind {
        Kind::Any => vertex.is_some(),
        Kind::Project => matches!(vertex, Some(Vertex::Project)),
        Kind::Document => matches!(vertex, Some(Vertex::Document(_))),
        Kind::Range => matches!(vertex, Some(Vertex::Range(_))),
        Kind::ResultSet => matches!(vertex, Some(Vertex::ResultSet)),
        Kind::Result(kind) => matches!(vertex, Some(Vertex::Result(other)) if *other == kind),
        Kind::OneRole => matches!(vertex, Some(Vertex::Result(kind)) if !kind.asks_for_uses()),
        Kind::HoverResult => matches!(vertex, Some(Vertex::HoverResult(_))),
        Kind::Moniker => matches!(vertex, Some(Vertex::Moniker(_))),
        Kind::Package => matches!(vertex, Some(Vertex::Package(_))),
        Kind::Other => matches!(vertex, Some(Vertex::Other)),
        Kind::Asked => matches!(vertex, Some(Vertex::Range(_) | Vertex::ResultSet)),
        Kind::Shard => matches!(vertex, Some(Vertex::Project | Vertex::Document(_))),
    }
}

/// Whether each id is that of a vertex of this kind.
pub(crate) fn are_of_kind(graph: &Graph, kind: Kind, ids: IdsIter<'_>) -> bool
    ensures { result ≡ list_all (λ i. is_of_kind kind (vertex_at graph.now i)) ids.entry }
{
    for id in ids {
        if !is_of_kind(graph, kind, id) {
            return false;
        }
    }
    true
}
