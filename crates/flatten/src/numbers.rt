//! The numbers by which rows refer to vertices: their lines in the dump, counted from 1.
//! `specs/Flat`.
ghost use Rattle.std.specs.Prelude.{◌≡◌, Some, option_map};
ghost use Rattle.lsif.specs.Element.{IdValue, id_value};
ghost use Rattle.lsif.specs.Lent.{lent_value};
ghost use Rattle.flatten.specs.Flat.{number_of};
ghost use Rattle.flatten.specs.Steps.Numbers.{both_numbers};

use dump::CheckedDump;
use lsif::{Id, IdRef};

/// The number of a vertex: its line, counted from 1.
pub(crate) fn number_of(dump: &CheckedDump, id: IdRef<'_>) -> Option<u32>
    ensures { result ≡ number_of dump.now.elements (lent_value id.entry) }
{
    let count = dump.elements().len();
    match dump.line_of(id) {
        Some(line) if (line as usize) < count => Some(line + 1),
        _ => None,
    }
}

/// The numbers of the two, where each has one.
pub(crate) fn number_pair(dump: &CheckedDump, from: IdRef<'_>, to: IdRef<'_>) -> Option<(u32, u32)>
    ensures { result ≡ both_numbers (number_of dump.now.elements (lent_value from.entry)) (number_of dump.now.elements (lent_value to.entry)) }
{
    match (number_of(dump, from), number_of(dump, to)) {
        (Some(from), Some(to)) => Some((from, to)),
        _ => None,
    }
}

/// The id of the element of this number.
pub(crate) fn id_of(dump: &CheckedDump, number: u32) -> Option<&Id>
    ensures { (x : IdValue) → number_of dump.now.elements x ≡ Some number → option_map (λ i. id_value i.now) result ≡ Some x }
{
    match dump.elements().get((number as usize).checked_sub(1)?) {
        Some(element) => Some(element.id()),
        None => None,
    }
}
