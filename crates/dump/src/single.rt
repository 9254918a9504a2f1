//! The labels of which at most one edge leaves a vertex, and which edges have them. `single_of` in
//! `specs/Walks`.
ghost use Rattle.std.specs.Prelude.{◌≡◌, ◌<◌, option_map};
ghost use Rattle.lsif.specs.Element.{id_value, element_value};
ghost use Rattle.dump.specs.Steps.Links.{label_index, single_labels, single_target};
ghost use Rattle.dump.specs.Walks.{single_of};

use lsif::{Edge, Element, Id, REQUEST_KINDS, RequestKind};

/// A label of which at most one edge leaves a vertex (LSIF 0.6.0, "next", "Requests").
#[derive(Clone, Copy)]
pub enum SingleLabel {
    Next,
    PackageInformation,
    /// The label of the edges that name the results of a request.
    Request(RequestKind),
}

/// How many labels there are.
pub(crate) const SINGLE_LABELS: usize = 2 + REQUEST_KINDS;

impl SingleLabel {
    /// Its number, from 0.
    pub(crate) fn index(self) -> usize
        ensures value { result ≡ label_index self }
        ensures within { result < single_labels }
    {
        match self {
            SingleLabel::Next => 0,
            SingleLabel::PackageInformation => 1,
            SingleLabel::Request(kind) => 2 + kind.index(),
        }
    }
}

/// An edge of a single label: the label, the source and the target.
pub(crate) fn single_of(element: &Element) -> Option<(SingleLabel, &Id, &Id)>
    ensures { option_map (λ e. (e.0, (id_value e.1.now, id_value e.2.now))) result ≡ single_of (element_value element.now) }
{
    match element {
        Element::Edge(_, Edge::Next(from, to)) => Some((SingleLabel::Next, from, to)),
        Element::Edge(_, Edge::Request(kind, from, to)) => {
            Some((SingleLabel::Request(*kind), from, to))
        }
        Element::Edge(_, Edge::Package(from, to)) => {
            Some((SingleLabel::PackageInformation, from, to))
        }
        _ => None,
    }
}

/// The target of an edge of a single label.
pub(crate) fn target(element: &Element) -> Option<&Id>
    ensures { option_map (λ i. id_value i.now) result ≡ single_target (element_value element.now) }
{
    match single_of(element) {
        Some((_, _, target)) => Some(target),
        None => None,
    }
}
