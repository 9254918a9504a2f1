//! The rows of items: the places of each result in each role, over all results that it leads to
//! (`closure.rt`). The rows of one result are sorted by themselves and repeats dropped, so no sort
//! of all rows is needed. `IsItemRow` in `specs/Flat`.
ghost use Rattle.std.specs.Prelude.{◌≡◌, ◌++◌, Ok, IfOk, OnOk, Contains, map, option_map};
ghost use Rattle.std.specs.List.{All, flat_map};
ghost use Rattle.lsif.specs.Element.{element_value, vertex_value};
ghost use Rattle.lsif.specs.Lent.{lent_value};
ghost use Rattle.dump.specs.Fault.{IsFaultless};
ghost use Rattle.dump.specs.Places.{IsListing, result_pairs_of};
ghost use Rattle.flatten.specs.Flat.{IsItemRow, is_result, item_cmp, number_of, role_index};
ghost use Rattle.flatten.specs.Rows.{item_value};
ghost use Rattle.flatten.specs.Steps.Items.{AddsListing, AreItems, AreNumbered, AreNumberedRows, AreSorted, IsReachedRow, found_value, is_role, numbers_in, numbers_value, placed_in, placed_of_pair, result_number, row_of, rows_of_role, with_places};
ghost use Rattle.flatten.specs.Steps.Kinds.{AreKinds};
ghost use Rattle.flatten.specs.Steps.Numbers.{numbers_of_pair, pairs_in, pairs_of};
ghost use Rattle.flatten.specs.Steps.Places.{IsNumbered, placed_values, twice};
ghost use Rattle.flatten.specs.Steps.Tables.{Adds, place_of};

use crate::budget::{Budget, Budgets};
use crate::closure::{closed, pairs_from, sort_by_source};
use crate::fault::FlattenFault;
use crate::kinds::Kinds;
use crate::numbers::{number_of, number_pair};
use crate::places::{Place, place_of};
use crate::rows::ItemRow;
use dump::{CheckedDump, Role, container_law, ends_law, line_law, role_of, vertex_law};
use lsif::{Edge, Element, IdRef, IdsIter, Property, Vertex};
use std::alloc::{AllocError, Global};
use std::cmp::Ordering;

/// Whether the vertex is a result that `item` edges leave.
fn is_result(vertex: &Vertex) -> bool
    ensures { result ≡ is_result (Some (vertex_value vertex.now)) }
{
    matches!(vertex, Vertex::Result(_))
}

/// The number of the element, where it's such a result.
fn result_number(dump: &CheckedDump, element: &Element) -> Option<u32>
    ensures { result ≡ result_number dump.now.elements (element_value element.now) }
{
    match element {
        Element::Vertex(id, vertex) if is_result(vertex) => number_of(dump, id.lent()),
        _ => None,
    }
}

/// Adds the number of the element, where it's such a result.
pub(crate) fn add_number(
    numbers: &mut Vec<u32>,
    dump: &CheckedDump,
    element: &Element,
) -> Result<(), AllocError>
    ensures { OnOk result (numbers.new.items ≡ numbers.old.items ++ numbers_in dump.now.elements (element_value element.now)) }
{
    if let Some(number) = result_number(dump, element) {
        numbers.push(number)?;
    }
    Ok(())
}

/// Adds the numbers of the source with each target.
fn add_pairs(
    pairs: &mut Vec<(u32, u32)>,
    dump: &CheckedDump,
    source: IdRef<'_>,
    targets: IdsIter<'_>,
) -> Result<(), AllocError>
    ensures { OnOk result (pairs.new.items ≡ pairs.old.items ++ flat_map (numbers_of_pair dump.now.elements)
        (map (λ to. (lent_value source.entry, to)) targets.entry)) }
{
    for target in targets {
        if let Some(pair) = number_pair(dump, source, target) {
            pairs.push(pair)?;
        }
    }
    Ok(())
}

/// Adds the numbers of the results that the element, where it's an `item` edge with
/// "referenceResults", joins.
pub(crate) fn add_results(
    pairs: &mut Vec<(u32, u32)>,
    dump: &CheckedDump,
    element: &Element,
) -> Result<(), AllocError>
    ensures { OnOk result (pairs.new.items ≡ pairs.old.items ++ pairs_in result_pairs_of dump.now.elements (element_value element.now)) }
{
    match element {
        Element::Edge(_, Edge::Item(item))
            if matches!(item.property, Some(Property::ReferenceResults)) => {
            add_pairs(pairs, dump, item.source.lent(), item.targets.iter())
        }
        _ => Ok(()),
    }
}

/// Whether an `item` edge of this property has ranges of the role.
fn is_role(role: Role, property: Option<Property>) -> bool
    ensures { result ≡ is_role role property }
{
    role_of(property) == Some(role)
}

/// The number of the source with the place of the target, where each has one.
fn placed<'a>(
    dump: &'a CheckedDump,
    source: IdRef<'_>,
    target: IdRef<'_>,
) -> Option<(u32, Place<'a>)>
    ensures { option_map placed_values result ≡ with_places (number_of dump.now.elements (lent_value source.entry))
        (option_map twice (place_of dump.now.elements (lent_value target.entry))) }
{
    match (number_of(dump, source), place_of(dump, target)) {
        (Some(number), Some(place)) => Some((number, place)),
        _ => None,
    }
}

/// Adds the number of the source with the place of each target.
fn add_places<'a>(
    items: &mut Vec<(u32, Place<'a>)>,
    dump: &'a CheckedDump,
    source: IdRef<'_>,
    targets: IdsIter<'_>,
) -> Result<(), AllocError>
    ensures { OnOk result (map placed_values items.new.items ≡ map placed_values items.old.items
        ++ flat_map (placed_of_pair dump.now.elements) (map (λ to. (lent_value source.entry, to)) targets.entry)) }
{
    for target in targets {
        if let Some(item) = placed(dump, source, target) {
            items.push(item)?;
        }
    }
    Ok(())
}

/// Adds the number of the result with the place of each range that the element, where it's an
/// `item` edge of the role, joins to it.
pub(crate) fn add_items<'a>(
    items: &mut Vec<(u32, Place<'a>)>,
    dump: &'a CheckedDump,
    role: Role,
    element: &Element,
) -> Result<(), AllocError>
    ensures { OnOk result (map placed_values items.new.items ≡ map placed_values items.old.items
        ++ placed_in role dump.now.elements (element_value element.now)) }
{
    match element {
        Element::Edge(_, Edge::Item(item)) if is_role(role, item.property) => {
            add_places(items, dump, item.source.lent(), item.targets.iter())
        }
        _ => Ok(()),
    }
}

/// The results that `item` edges join, and the places of their items, by numbers: in the order of
/// the results.
#[derive(Clone, Copy)]
struct Items<'k, 'a> {
    results: &'k [(u32, u32)],
    definitions: &'k [(u32, Place<'a>)],
    references: &'k [(u32, Place<'a>)],
}

/// The row of a place, with what the rows are put in order by.
#[derive(Clone, Copy)]
struct FoundItem<'a> {
    result: u32,
    role: Role,
    place: Place<'a>,
}

/// Adds the rows of these places.
fn add_rows<'a>(
    rows: &mut Vec<FoundItem<'a>>,
    number: u32,
    role: Role,
    items: &[(u32, Place<'a>)],
) -> Result<(), AllocError>
    requires rows { AreNumberedRows rows.old.items }
    requires items { All (λ p. IsNumbered p.1) items.now }
    ensures rows { OnOk result (map found_value rows.new.items ≡ map found_value rows.old.items ++ map (row_of number role) items.now) }
    ensures numbered { OnOk result (AreNumberedRows rows.new.items) }
{
    for item in items {
        rows.push(FoundItem {
            result: number,
            role,
            place: item.1,
        })?;
    }
    Ok(())
}

/// Takes the documents' URLs of these places from the budget.
fn take_uris(items: &[(u32, Place<'_>)], budget: &mut Budget) -> Result<(), FlattenFault> {
    for item in items {
        budget.take_text(item.1.key.uri.len())?;
    }
    Ok(())
}

/// Adds the rows of the result of this number for the items in this role of the other. Each is
/// taken from the budget, with its text.
fn add_role<'a>(
    rows: &mut Vec<FoundItem<'a>>,
    items: &Items<'_, 'a>,
    number: u32,
    role: Role,
    other: u32,
    budget: &mut Budget,
) -> Result<(), FlattenFault>
    requires sorted { AreSorted items.now }
    requires items { AreNumbered items.now }
    requires rows { AreNumberedRows rows.old.items }
    ensures rows { OnOk result (map found_value rows.new.items ≡ map found_value rows.old.items ++ rows_of_role number role items.now other) }
    ensures numbered { OnOk result (AreNumberedRows rows.new.items) }
{
    let found = match role {
        Role::Definitions => pairs_from(items.definitions, other),
        Role::References => pairs_from(items.references, other),
    };
    budget.take(found.len())?;
    take_uris(found, budget)?;
    add_rows(rows, number, role, found)?;
    Ok(())
}

/// Adds the rows of the result of this number. It has its own items, and those of the results that
/// it leads to.
fn add_result<'a>(
    alloc: Global,
    rows: &mut Vec<FoundItem<'a>>,
    items: &Items<'_, 'a>,
    number: u32,
    budgets: &mut Budgets,
) -> Result<(), FlattenFault>
    requires sorted { AreSorted items.now }
    requires items { AreNumbered items.now }
    requires rows { AreNumberedRows rows.old.items }
    ensures rows { OnOk result (Adds (map found_value rows.old.items) (IsReachedRow number items.now) (map found_value rows.new.items)) }
    ensures numbered { OnOk result (AreNumberedRows rows.new.items) }
{
    let found = closed(alloc, number, items.results, &mut budgets.pairs)?;
    for other in found.numbers() {
        add_role(
            rows,
            items,
            number,
            Role::Definitions,
            *other,
            &mut budgets.rows,
        )?;
        add_role(
            rows,
            items,
            number,
            Role::References,
            *other,
            &mut budgets.rows,
        )?;
    }
    Ok(())
}

/// The place of a role in the order of roles, from 0: the number that rows have for it.
pub fn role_index(role: Role) -> u32
    ensures { result ≡ role_index role }
{
    match role {
        Role::Definitions => 0,
        Role::References => 1,
    }
}

/// By result, then role, then place.
fn order(a: &FoundItem<'_>, b: &FoundItem<'_>) -> Ordering
    ensures { result ≡ item_cmp (numbers_value a.now) (numbers_value b.now) }
{
    match a.result.cmp(&b.result) {
        Ordering::Equal => match role_index(a.role).cmp(&role_index(b.role)) {
            Ordering::Equal => a.place.key.cmp(&b.place.key),
            roles => roles,
        },
        results => results,
    }
}

/// Puts the rows in order, each once.
fn list_items(rows: &mut Vec<FoundItem<'_>>)
    requires { AreNumberedRows rows.old.items }
    ensures { IsListing item_cmp (Contains (map found_value rows.old.items)) (map found_value rows.new.items) }
{
    rows.sort_unstable_by(|a, b| order(a, b));
    rows.dedup_by(|later, earlier| order(later, earlier) == Ordering::Equal);
}

/// Adds the rows as they are kept.
fn add_item_rows<'a>(rows: &mut Vec<ItemRow<'a>>, found: &[FoundItem<'a>]) -> Result<(), AllocError>
    ensures { OnOk result (map item_value rows.new.items ≡ map item_value rows.old.items ++ map found_value found.now) }
{
    for item in found {
        rows.push(ItemRow {
            result: item.result,
            role: item.role,
            uri: item.place.key.uri,
            span: item.place.span,
        })?;
    }
    Ok(())
}

/// Adds the rows of the result of this number: in order, each once.
fn add_listed<'a>(
    alloc: Global,
    rows: &mut Vec<ItemRow<'a>>,
    items: &Items<'_, 'a>,
    number: u32,
    budgets: &mut Budgets,
) -> Result<(), FlattenFault>
    requires sorted { AreSorted items.now }
    requires items { AreNumbered items.now }
    ensures { OnOk result (AddsListing (IsReachedRow number items.now) (map item_value rows.old.items) (map item_value rows.new.items)) }
{
    let mut found = Vec::new(alloc);
    add_result(alloc, &mut found, items, number, budgets)?;
    list_items(&mut found);
    add_item_rows(rows, &found)?;
    Ok(())
}

/// The rows of the results of these numbers, which are all there are: in order, each once.
fn result_rows<'a>(
    alloc: Global,
    dump: &CheckedDump,
    items: &Items<'_, 'a>,
    results: &[u32],
    limit: usize,
) -> Result<Vec<ItemRow<'a>>, FlattenFault>
    requires items { AreItems dump.now.elements items.now }
    requires results { results.now ≡ flat_map (numbers_in dump.now.elements) dump.now.elements }
    requires faultless { IsFaultless (map Ok dump.now.elements) }
    ensures { IfOk result (λ rows. IsListing item_cmp (IsItemRow dump.now.elements) (map item_value rows.items)) }
{
    container_law();
    ends_law();
    line_law();
    vertex_law();
    let mut budgets = Budgets::new(limit);
    let count = items.definitions.len() + items.references.len();
    let mut rows = Vec::with_capacity(alloc, count)?;
    for number in results {
        add_listed(alloc, &mut rows, items, *number, &mut budgets)?;
    }
    Ok(rows)
}

/// The rows of the places of results: in order, each once. Puts what `item` edges join in the order
/// of the results.
pub(crate) fn item_rows<'a>(
    alloc: Global,
    kinds: &mut Kinds<'a>,
    limit: usize,
) -> Result<Vec<ItemRow<'a>>, FlattenFault>
    requires { AreKinds kinds.old }
    ensures { IfOk result (λ rows. IsListing item_cmp (IsItemRow kinds.old.dump.now.elements) (map item_value rows.items)) }
{
    sort_by_source(&mut kinds.result_pairs);
    sort_by_source(&mut kinds.definitions);
    sort_by_source(&mut kinds.references);
    let items = Items {
        results: &kinds.result_pairs,
        definitions: &kinds.definitions,
        references: &kinds.references,
    };
    result_rows(alloc, kinds.dump, &items, &kinds.results, limit)
}
