//! For each vertex the index of the first element that names it, in each way in which elements do.
//! A look-up is one step, in place of a search through the dump.
ghost use Rattle.std.specs.Prelude.{◌≡◌, ◌<◌, ◌&&◌, [], ℕ, true, get_or, is_some, length, nat_eq};
ghost use Rattle.std.specs.List.{list_all};
ghost use Rattle.lsif.specs.Element.{IdValue, same_id};
ghost use Rattle.lsif.specs.Lent.{lent_value};
ghost use Rattle.dump.specs.Graph.{is_among};
ghost use Rattle.dump.specs.Steps.Ids.{index_at, entered, HasRows};
ghost use Rattle.dump.specs.Steps.Links.{link_index, links, same_link, cell, link_at};

use crate::index_map::{IndexMap, list_index};
use crate::single::{SINGLE_LABELS, SingleLabel};
use lsif::{IdRef, IdsIter};

/// A way in which an element names a vertex.
#[derive(Clone, Copy)]
pub(crate) enum Link {
    /// A `contains` edge out of a document has it as a target.
    Contained,
    /// An event begins it.
    Begun,
    /// An event ends it.
    Ended,
    /// An edge of this label leaves it.
    Single(SingleLabel),
}

/// How many ways there are.
pub(crate) const LINKS: usize = 3 + SINGLE_LABELS;

/// The index of the first element that names a vertex in each way.
pub(crate) type Row = [Option<u32>; LINKS];

impl Link {
    fn index(self) -> usize
        ensures value { result ≡ link_index self }
        ensures within { result < links }
    {
        match self {
            Link::Contained => 0,
            Link::Begun => 1,
            Link::Ended => 2,
            Link::Single(label) => 3 + label.index(),
        }
    }
}

/// What a row holds of this way.
pub(crate) fn cell(rows: &[Row], row: usize, link: Link) -> Option<usize>
    ensures { result ≡ cell rows.now row link }
{
    match rows.get(row) {
        Some(cells) => list_index(cells[link.index()]),
        None => None,
    }
}

fn row_at(rows: &[Row], row: usize) -> Row
    requires { row < length rows.now }
    ensures value { result ≡ get_or rows.now row [] }
    ensures length { length result ≡ links }
{
    rows[row]
}

/// Enters the index in a row, where the row has none of this way yet.
fn enter(rows: &mut Vec<Row>, row: usize, link: Link, index: u32)
    requires { row < length rows.old.items }
    ensures length { length rows.new.items ≡ length rows.old.items }
    ensures cells { (n : ℕ) (other : Link) → cell rows.new.items n other ≡ entered (nat_eq row n && same_link link other) index (cell rows.old.items n other) }
{
    let column = link.index();
    let mut cells = row_at(rows, row);
    if cells[column].is_none() {
        cells[column] = Some(index);
        rows[row] = cells;
    }
}

/// Enters the index in the row of this id, where it has none yet.
fn enter_at(rows: &mut Vec<Row>, indices: &IndexMap, link: Link, id: IdRef<'_>, index: u32)
    requires rows { HasRows indices.now (length rows.old.items) }
    requires known { is_some (index_at indices.now (lent_value id)) ≡ true }
    ensures length { length rows.new.items ≡ length rows.old.items }
    ensures links { (other : Link) (i : IdValue) → link_at indices.now rows.new.items other i
        ≡ entered (same_link link other && same_id (lent_value id.entry) i) index (link_at indices.now rows.old.items other i) }
{
    if let Some(row) = indices.get(id) {
        enter(rows, row, link, index);
    }
}

/// Enters the index in the rows of these ids, where they have none yet.
pub(crate) fn enter_all(
    rows: &mut Vec<Row>,
    indices: &IndexMap,
    link: Link,
    ids: IdsIter<'_>,
    index: u32,
)
    requires rows { HasRows indices.now (length rows.old.items) }
    requires known { list_all (λ i. is_some (index_at indices.now i)) ids ≡ true }
    ensures length { length rows.new.items ≡ length rows.old.items }
    ensures links { (other : Link) (i : IdValue) → link_at indices.now rows.new.items other i
        ≡ entered (same_link link other && is_among i ids.entry) index (link_at indices.now rows.old.items other i) }
{
    for id in ids {
        enter_at(rows, indices, link, id, index);
    }
}
