//! The monikers that vertices have themselves, over `attach` edges read both ways, and the marks of
//! these monikers. The walk over `attach` edges is that of `closure.rt`. What a range's chain has
//! is gathered in `marks.rt`.
ghost use Rattle.std.specs.Prelude.{◌≡◌, ◌↔◌, ◌++◌, ℕ, IfOk, OnOk, Contains, None, map, get_or, option_map};
ghost use Rattle.std.specs.List.Sorted.{IsNonDecreasingBy};
ghost use Rattle.lsif.specs.Element.{id_value, element_value, moniker_value, package_value};
ghost use Rattle.dump.specs.Monikers.{attach_pairs_of, package_of};
ghost use Rattle.flatten.specs.KeyTexts.{key_text, moniker_key};
ghost use Rattle.flatten.specs.Steps.Borne.{IsBorne, IsBorneBy, mark_text, mark_value, mark_values, text_of};
ghost use Rattle.flatten.specs.Steps.Marks.{marks_in};
ghost use Rattle.flatten.specs.Steps.Kinds.{AreKinds};
ghost use Rattle.flatten.specs.Steps.Numbers.{pairs_in, pairs_of};
ghost use Rattle.flatten.specs.Steps.Tables.{Adds};

use crate::budget::Budgets;
use crate::closure::{by_source, closed};
use crate::fault::FlattenFault;
use crate::keys::key_text;
use crate::kinds::Kinds;
use crate::numbers::number_pair;
use dump::{CheckedDump, ends_law, line_law};
use lsif::{Edge, Element, Id, Moniker, MonikerKind, Package, Vertex};
use std::alloc::{AllocError, Global};
use std::rc::RcStr;

/// Adds the numbers of the two monikers that the element, where it's an `attach` edge, joins: both
/// ways.
fn add_attached(
    pairs: &mut Vec<(u32, u32)>,
    dump: &CheckedDump,
    element: &Element,
) -> Result<(), AllocError>
    ensures { OnOk result (pairs.new.items ≡ pairs.old.items ++ pairs_in attach_pairs_of dump.now.elements (element_value element.now)) }
{
    if let Element::Edge(_, Edge::Attach(from, to)) = element {
        if let Some((from, to)) = number_pair(dump, from.lent(), to.lent()) {
            pairs.push((from, to))?;
            pairs.push((to, from))?;
        }
    }
    Ok(())
}

/// The numbers of the monikers that `attach` edges join, each edge read both ways.
fn attached(alloc: Global, kinds: &Kinds<'_>) -> Result<Vec<(u32, u32)>, AllocError>
    requires { AreKinds kinds.now }
    ensures { IfOk result (λ pairs. pairs.items ≡ pairs_of attach_pairs_of kinds.now.dump.now.elements) }
{
    let mut pairs = Vec::new(alloc);
    for element in &kinds.moniker_edges {
        add_attached(&mut pairs, kinds.dump, element)?;
    }
    Ok(pairs)
}

/// Adds the vertex with each of the monikers.
fn add_monikers(
    pairs: &mut Vec<(u32, u32)>,
    vertex: u32,
    monikers: &[u32],
) -> Result<(), AllocError>
    ensures { OnOk result (pairs.new.items ≡ pairs.old.items ++ map (λ m. (vertex, m)) monikers.now) }
{
    for moniker in monikers {
        pairs.push((vertex, *moniker))?;
    }
    Ok(())
}

/// Where the element is a `moniker` edge, adds the number of its source with each of the monikers
/// that `attach` edges join to its target.
fn add_borne(
    alloc: Global,
    pairs: &mut Vec<(u32, u32)>,
    dump: &CheckedDump,
    attached: &[(u32, u32)],
    element: &Element,
    budgets: &mut Budgets,
) -> Result<(), FlattenFault>
    requires { IsNonDecreasingBy (λ p. p.0) attached.now }
    ensures { OnOk result (Adds pairs.old.items (IsBorneBy dump.now.elements attached.now (element_value element.now)) pairs.new.items) }
{
    let Element::Edge(_, Edge::Moniker(from, to)) = element else {
        return Ok(());
    };
    let Some((vertex, moniker)) = number_pair(dump, from.lent(), to.lent()) else {
        return Ok(());
    };
    let near = closed(alloc, moniker, attached, &mut budgets.pairs)?;
    budgets.rows.take(near.numbers().len())?;
    add_monikers(pairs, vertex, near.numbers())?;
    Ok(())
}

/// The numbers of vertices with those of the monikers that they have themselves, in the order of
/// the vertices.
pub(crate) fn borne(
    alloc: Global,
    kinds: &Kinds<'_>,
    limit: usize,
) -> Result<Vec<(u32, u32)>, FlattenFault>
    requires { AreKinds kinds.now }
    ensures sorted { IfOk result (λ pairs. IsNonDecreasingBy (λ p. p.0) pairs.items) }
    ensures borne { IfOk result (λ pairs. (p : ℕ × ℕ) → Contains pairs.items p ↔ IsBorne kinds.now.dump.now.elements p) }
{
    ends_law();
    line_law();
    let attached = by_source(alloc, &attached(alloc, kinds)?)?;
    let mut budgets = Budgets::new(limit);
    let mut pairs = Vec::new(alloc);
    for element in &kinds.moniker_edges {
        add_borne(
            alloc,
            &mut pairs,
            kinds.dump,
            &attached,
            element,
            &mut budgets,
        )?;
    }
    Ok(by_source(alloc, &pairs)?)
}

/// The kind of a moniker, and the text of its key, which its rows share.
#[derive(Drop)]
pub(crate) struct Mark {
    pub(crate) kind: MonikerKind,
    pub(crate) key: RcStr,
}

/// The package that the moniker's `packageInformation` edge names.
fn package_of<'a>(dump: &'a CheckedDump, moniker: &Id) -> Option<&'a Package>
    ensures { option_map (λ p. package_value p.now) result ≡ package_of dump.now.elements (id_value moniker.now) }
{
    match dump.vertex_at(dump.package_of(moniker)?.lent()) {
        Some(Vertex::Package(package)) => Some(package),
        _ => None,
    }
}

/// The mark of the moniker of this id.
fn mark_of(
    alloc: Global,
    dump: &CheckedDump,
    id: &Id,
    moniker: &Moniker,
) -> Result<Mark, FlattenFault>
    ensures { IfOk result (λ mark. mark_value mark ≡ text_of dump.now.elements (id_value id.now) (moniker_value moniker.now)) }
{
    let key = key_text(alloc, moniker, package_of(dump, id))?;
    Ok(Mark {
        kind: moniker.kind,
        key: RcStr::from_string(key)?,
    })
}

/// The mark of the element, where it's a moniker.
fn mark_in(
    alloc: Global,
    dump: &CheckedDump,
    element: &Element,
) -> Result<Option<Mark>, FlattenFault>
    ensures { IfOk result (λ mark. option_map mark_value mark ≡ mark_text dump.now.elements (element_value element.now)) }
{
    match element {
        Element::Vertex(id, Vertex::Moniker(moniker)) => {
            Ok(Some(mark_of(alloc, dump, id, moniker)?))
        }
        _ => Ok(None),
    }
}

/// The marks of a dump's monikers, each at its element's number, and none at the numbers of other
/// elements. So the text of each key is made once.
pub(crate) fn moniker_marks(
    alloc: Global,
    dump: &CheckedDump,
) -> Result<Vec<Option<Mark>>, FlattenFault>
    ensures { IfOk result (λ marks. mark_values marks.items ≡ marks_in dump.now.elements) }
{
    let mut marks = Vec::new(alloc);
    marks.push(None)?;
    for element in dump.elements() {
        marks.push(mark_in(alloc, dump, element)?)?;
    }
    Ok(marks)
}

/// The mark of this number, which shares its key's text.
pub(crate) fn mark_at(marks: &[Option<Mark>], number: u32) -> Result<Option<Mark>, AllocError>
    ensures { IfOk result (λ mark. option_map mark_value mark ≡ get_or (mark_values marks.now) number None) }
{
    match marks.get(number as usize) {
        Some(Some(mark)) => Ok(Some(Mark {
            kind: mark.kind,
            key: mark.key.clone()?,
        })),
        _ => Ok(None),
    }
}
