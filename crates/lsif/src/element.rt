//! The types of elements: vertices, edges and what they hold. How a line spells them is in
//! `vertices.rt` and `edges.rt`; `specs/Element` has the same types as values, without how memory
//! holds them.
ghost use Rattle.std.specs.Prelude.{◌≡◌};
ghost use Rattle.lsif.specs.Element.{id_value, edge_value, element_value, element_id, ends_of};
ghost use Rattle.lsif.specs.Lent.{lent_value};

use crate::id::{Id, IdRef};
use crate::ids::{Ids, IdsIter};
use crate::request_kind::RequestKind;
use positions::Span;

/// Whether a symbol comes from another project, may be named in others, or is only known in its own
/// (LSIF 0.6.0, "moniker").
#[derive(Clone, Copy, Debug, PartialEq, Eq)]
pub enum MonikerKind {
    Import,
    Export,
    Local,
}

/// A `moniker`: the name of a symbol across projects. No text holds U+0000.
#[derive(Debug, Drop)]
pub struct Moniker {
    pub scheme: String,
    pub identifier: String,
    pub kind: MonikerKind,
}

/// A `packageInformation`: the package that a symbol is of. No text holds U+0000; a version may be
/// empty.
#[derive(Debug, Drop)]
pub struct Package {
    pub manager: String,
    pub name: String,
    pub version: String,
}

/// What an `$event` says (LSIF 0.6.0, "Events").
#[derive(Debug, Drop)]
pub enum Event {
    /// The document of this id begins.
    Begin(Id),
    /// The document of this id ends.
    End(Id),
    /// Something of another scope.
    Other,
}

/// What a vertex says (LSIF 0.6.0, "Vertices").
#[derive(Debug, Drop)]
pub enum Vertex {
    /// `metaData`, and whether its version and its position encoding are those that are read here.
    MetaData(bool),
    /// `project`.
    Project,
    /// `document`, and its serialized URL.
    Document(String),
    /// `range`, in UTF-16 code units.
    Range(Span),
    /// `resultSet`.
    ResultSet,
    /// The result of a request that is answered by places, as `definitionResult`. No line gives it
    /// of a hover, whose result is the next variant.
    Result(RequestKind),
    /// `hoverResult`, and its contents as compact JSON with the members of objects in the order of
    /// their names' bytes: a text; an object with `kind` and `value`, or with `language` and
    /// `value`; or an array of texts and of objects with `language` and `value` (Language Server
    /// Protocol 3.17, "Hover").
    HoverResult(String),
    /// `moniker`.
    Moniker(Moniker),
    /// `packageInformation`.
    Package(Package),
    /// `$event`.
    Event(Event),
    /// A vertex of another label.
    Other,
}

/// What the targets of an `item` edge are to its source (LSIF 0.6.0, "item").
#[derive(Clone, Copy, Debug, PartialEq, Eq)]
pub enum Property {
    Definitions,
    References,
    ReferenceResults,
}

/// An `item` edge (LSIF 0.6.0, "item").
#[derive(Debug, Drop)]
pub struct Item {
    /// The id of a result.
    pub source: Id,
    /// The ids of ranges or of results.
    pub targets: Ids,
    /// What the targets are to the source; an edge may leave it out.
    pub property: Option<Property>,
    /// The document or the project that holds the targets.
    pub shard: Id,
}

/// What an edge joins (LSIF 0.6.0, "Edges"): its source and its target or targets.
#[derive(Debug, Drop)]
pub enum Edge {
    /// `contains`.
    Contains(Id, Ids),
    /// `next`.
    Next(Id, Id),
    /// An edge that names the result of a request, as `textDocument/definition`.
    Request(RequestKind, Id, Id),
    /// `moniker`.
    Moniker(Id, Id),
    /// `packageInformation`.
    Package(Id, Id),
    /// `attach`.
    Attach(Id, Id),
    /// `item`.
    Item(Item),
    /// An edge of another label.
    Other(Id, Ids),
}

impl Edge {
    /// The source, and the target or the targets (LSIF 0.6.0, "Edges"). The shard of an `item` edge
    /// is none of them.
    pub fn ends(&self) -> (IdRef<'_>, IdsIter<'_>)
        ensures source { lent_value result.0 ≡ (ends_of (edge_value self.now)).0 }
        ensures targets { result.1 ≡ (ends_of (edge_value self.now)).1 }
    {
        match self {
            Edge::Contains(source, targets) | Edge::Other(source, targets) => {
                (source.lent(), targets.iter())
            }
            Edge::Next(source, target)
            | Edge::Request(_, source, target)
            | Edge::Moniker(source, target)
            | Edge::Package(source, target)
            | Edge::Attach(source, target) => (source.lent(), IdsIter::one(target.lent())),
            Edge::Item(item) => (item.source.lent(), item.targets.iter()),
        }
    }
}

/// One line of a dump: a vertex or an edge, and its id.
#[derive(Debug, Drop)]
pub enum Element {
    Vertex(Id, Vertex),
    Edge(Id, Edge),
}

impl Element {
    /// The element's own id.
    pub fn id(&self) -> &Id
        ensures { id_value result.now ≡ element_id (element_value self.now) }
    {
        match self {
            Element::Vertex(id, _) | Element::Edge(id, _) => id,
        }
    }
}
