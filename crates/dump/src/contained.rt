//! Which of some ranges the documents of a dump contain. The look-up of one range is in `graph.rt`.
//! `specs/Contained`.
ghost use Rattle.std.specs.Prelude.{◌≡◌};
ghost use Rattle.std.specs.List.{list_any};
ghost use Rattle.lsif.specs.Lent.{lent_value};
ghost use Rattle.dump.specs.Conditions.{are_in};
ghost use Rattle.dump.specs.Contained.{is_contained};
ghost use Rattle.dump.specs.Progress.{IsSound};

use crate::graph::Graph;
use lsif::{IdRef, IdsIter};

/// Whether a document contains one of the ranges.
pub(crate) fn any_contained(graph: &Graph, ranges: IdsIter<'_>) -> bool
    ensures { result ≡ list_any (is_contained graph.now) ranges.entry }
{
    for range in ranges {
        if graph.is_contained(range) {
            return true;
        }
    }
    false
}

/// Whether this document contains each of the ranges.
pub(crate) fn are_in(graph: &Graph, document: IdRef<'_>, ranges: IdsIter<'_>) -> bool
    requires { IsSound graph.now }
    ensures { result ≡ are_in graph.now (lent_value document.entry) ranges.entry }
{
    for range in ranges {
        if !graph.is_in(document, range) {
            return false;
        }
    }
    true
}
