//! Whether a path of `next` edges leads from one vertex to another, and the first result along a
//! chain of them. The path is tested by the chain's end (`chain_ends.rt`); the result is found by a
//! walk, one step a vertex. `specs/Walks`.
ghost use Rattle.std.specs.Prelude.{◌≡◌, List, None, option_map};
ghost use Rattle.lsif.specs.Element.{IdValue, id_value};
ghost use Rattle.lsif.specs.Lent.{lent_value};
ghost use Rattle.dump.specs.Progress.{IsSound};
ghost use Rattle.dump.specs.Walks.{IsChain, HasChain, first_to, first_of_list, reaches, next_pairs, single_pairs};

use crate::graph::Graph;
use crate::single::SingleLabel;
use lsif::{Id, IdRef};

/// Whether a path of `next` edges, of no step or more, goes from the one vertex to the other, which
/// no such edge leaves.
pub(crate) fn leads(graph: &Graph, from: IdRef<'_>, to: IdRef<'_>) -> bool
    requires sound { IsSound graph.now }
    requires last { first_to (next_pairs graph.now) (lent_value to) ≡ None }
    ensures { result ≡ reaches (next_pairs graph.now) (lent_value from.entry) (lent_value to.entry) }
{
    graph.end_of(from).is(to)
}

/// The target of the edge of this label out of the first vertex along the chain of `next` edges,
/// from this one on, that has one.
pub(crate) fn first_result<'a>(graph: &'a Graph, label: SingleLabel, from: &'a Id) -> Option<&'a Id>
    requires { HasChain (next_pairs graph.now) (id_value from.now) }
    ensures { (xs : List IdValue) → IsChain (next_pairs graph.now) (id_value from.now) xs
        → option_map (λ i. id_value i.now) result ≡ first_of_list (single_pairs label graph.now) xs }
{
    let mut vertex = from;
    for _step in 0..graph.len() {
        if let Some(result) = graph.target_of(label, vertex.lent()) {
            return Some(result);
        }
        match graph.target_of(SingleLabel::Next, vertex.lent()) {
            Some(more) => vertex = more,
            None => return None,
        }
    }
    graph.target_of(label, vertex.lent())
}
