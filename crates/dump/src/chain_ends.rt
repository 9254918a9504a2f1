//! Where chains of `next` edges end: union-find with path compression. So the test whether a `next`
//! edge closes a cycle takes O(log n) amortised, in whatever order the edges come.
//! `specs/Steps/Chains`.
ghost use Rattle.std.specs.Prelude.{◌≡◌, ◌<◌, ◌++◌, ◌∷◌, [], None, Some, map, vec_len, vec_capacity};
ghost use Rattle.lsif.specs.Element.{IdValue, element_value};
ghost use Rattle.dump.specs.Steps.Chains.{index_in, HasShortcuts, IsIndexIn, IsEnd, CanJoin, JoinsIndices};
ghost use Rattle.dump.specs.Conditions.{order_code};
ghost use Rattle.dump.specs.Progress.{IsSound};
ghost use Rattle.dump.specs.Walks.{next_pairs};

use lsif::Element;

/// The index of the last vertex of the chain from the vertex at this index. Of each vertex that a
/// `next` edge leaves, `shortcuts` has the index of one further on.
pub(crate) fn end_of(shortcuts: &[Option<usize>], elements: &[Element], index: usize) -> usize
    requires shortcuts { HasShortcuts (next_pairs (map element_value elements.now)) (map element_value elements.now) shortcuts.now }
    requires sound { IsSound (map element_value elements.now) }
    requires index { IsIndexIn (map element_value elements.now) index }
    ensures { IsEnd (next_pairs (map element_value elements.now)) (map element_value elements.now) index result }
{
    let mut at = index;
    for _step in 0..shortcuts.len() {
        match shortcuts[at] {
            Some(further) => at = further,
            None => return at,
        }
    }
    at
}

/// Makes the shortcuts from this index on lead to the end of the chain, so that the next walk along
/// them is short (path compression).
fn shorten(shortcuts: &mut Vec<Option<usize>>, elements: &[Element], index: usize, end: usize)
    requires shortcuts { HasShortcuts (next_pairs (map element_value elements.now)) (map element_value elements.now) shortcuts.old.items }
    requires sound { IsSound (map element_value elements.now) }
    requires last { IsEnd (next_pairs (map element_value elements.now)) (map element_value elements.now) index end }
    ensures shortcuts { HasShortcuts (next_pairs (map element_value elements.now)) (map element_value elements.now) shortcuts.new.items }
    ensures len { vec_len shortcuts.new ≡ vec_len shortcuts.old }
    ensures capacity { vec_capacity shortcuts.new ≡ vec_capacity shortcuts.old }
{
    let mut at = index;
    for _step in 0..shortcuts.len() {
        match shortcuts[at] {
            Some(further) => {
                shortcuts[at] = Some(end);
                at = further;
            }
            None => return,
        }
    }
}

/// Enters a `next` edge from the vertex at an index to that at another.
fn join(shortcuts: &mut Vec<Option<usize>>, elements: &[Element], from: usize, to: usize)
    requires shortcuts { HasShortcuts (next_pairs (map element_value elements.now)) (map element_value elements.now) shortcuts.old.items }
    requires sound { IsSound (map element_value elements.now) }
    requires joins { CanJoin (next_pairs (map element_value elements.now)) (map element_value elements.now) from to }
    ensures shortcuts { (a b : IdValue) → index_in (map element_value elements.now) a ≡ Some from → index_in (map element_value elements.now) b ≡ Some to
        → HasShortcuts (next_pairs (map element_value elements.now) ++ (a, b) ∷ []) (map element_value elements.now) shortcuts.new.items }
    ensures len { vec_len shortcuts.new ≡ vec_len shortcuts.old }
    ensures capacity { vec_capacity shortcuts.new ≡ vec_capacity shortcuts.old }
{
    let end = end_of(shortcuts, elements, to);
    shorten(shortcuts, elements, to, end);
    shortcuts[from] = Some(end);
}

/// Enters the element that follows these; it joins the vertices at these indices, where it's a
/// `next` edge.
pub(crate) fn follow(
    shortcuts: &mut Vec<Option<usize>>,
    elements: &[Element],
    element: &Element,
    joined: Option<(usize, usize)>,
)
    requires room { vec_len shortcuts.old < vec_capacity shortcuts.old }
    requires shortcuts { HasShortcuts (next_pairs (map element_value elements.now)) (map element_value elements.now) shortcuts.old.items }
    requires sound { IsSound (map element_value elements.now) }
    requires free { order_code (map element_value elements.now) (element_value element.now) ≡ None }
    requires joined { JoinsIndices (map element_value elements.now) (element_value element.now) joined }
    ensures { HasShortcuts (next_pairs (map element_value elements.now ++ element_value element.now ∷ []))
        (map element_value elements.now ++ element_value element.now ∷ []) shortcuts.new.items }
{
    if let Some((from, to)) = joined {
        join(shortcuts, elements, from, to);
    }
    shortcuts.push_reserved(None);
}
