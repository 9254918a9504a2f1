//! The places of results in the roles that are asked for: those of the items that an index finds,
//! sorted, each once.
ghost use Rattle.std.specs.Prelude.{◌≡◌, Contains, IfOk, OnOk, map, string_bytes};
ghost use Rattle.dump.specs.Places.{IsListing, PlaceValue};
ghost use Rattle.machine.specs.Selections.{item_found};
ghost use Rattle.machine.specs.State.{State};
ghost use Rattle.desk.specs.Steps.Clauses.{OnlyReads};
ghost use Rattle.machine.specs.Answers.{found_cmp};
ghost use Rattle.machine.specs.Reply.{places_found};
ghost use Rattle.machine.specs.Steps.Places.{found_in};
ghost use Rattle.desk.specs.Steps.Rows.{Adds, IsPlaceOf, IsPlaceOfOne, IsRolePlace, project_result_value};
ghost use Rattle.desk.specs.Steps.RowPlaces.{item_place};

use crate::index::{Index, IndexFault};
use crate::rows::results::ProjectResult;
use dump::Role;
use machine::{END, FoundItem, FoundPlace, PLACES, Reply, add_place};
use positions::Span;
use std::alloc::{AllocError, Global};
use std::rc::RcStr;

/// A place in a project, whose uri other places of the same document may share.
#[derive(Debug, PartialEq, Eq, PartialOrd, Ord, Drop)]
pub(crate) struct ItemPlace<'a> {
    project: &'a str,
    uri: RcStr,
    span: Span,
}

/// Adds the items as places in the project.
fn add_items<'a>(
    found: &mut Vec<ItemPlace<'a>>,
    project: &'a str,
    mut items: Vec<FoundItem>,
) -> Result<(), AllocError>
    ensures { OnOk result (Adds (map item_place found.old.items) (map item_place found.new.items)
        (λ place. (item : PlaceValue) × Contains (map item_found items.items) item × (found_in project.now item ≡ place))) }
{
    while let Some(item) = items.pop() {
        found.push(ItemPlace {
            project,
            uri: item.uri,
            span: item.span,
        })?;
    }
    Ok(())
}

/// Adds the places of a result in a role.
fn add_role<'a, I: Index>(
    alloc: Global,
    index: &mut I,
    found: &mut Vec<ItemPlace<'a>>,
    project_result: &'a ProjectResult,
    role: Role,
) -> Result<(), IndexFault>
    ensures found { I.is_reliable index.new → (m : State) → I.stands index.old m
        → OnOk result (Adds (map item_place found.old.items) (map item_place found.new.items)
        (IsRolePlace m role (project_result_value project_result.now))) }
    ensures reads { OnlyReads I.Index result index.old index.new }
{
    let items = index.items(
        alloc,
        project_result.project.as_str(),
        project_result.number,
        role,
    )?;
    add_items(found, project_result.project.as_str(), items)?;
    Ok(())
}

/// Adds the places of a result in these roles.
fn add_roles<'a, I: Index>(
    alloc: Global,
    index: &mut I,
    found: &mut Vec<ItemPlace<'a>>,
    project_result: &'a ProjectResult,
    roles: &[Role],
) -> Result<(), IndexFault>
    ensures found { I.is_reliable index.new → (m : State) → I.stands index.old m
        → OnOk result (Adds (map item_place found.old.items) (map item_place found.new.items)
        (IsPlaceOf m roles.now (project_result_value project_result.now))) }
    ensures reads { OnlyReads I.Index result index.old index.new }
{
    for role in roles {
        add_role(alloc, index, found, project_result, *role)?;
    }
    Ok(())
}

/// Adds the places of these results in these roles.
fn add_results<'a, I: Index>(
    alloc: Global,
    index: &mut I,
    found: &mut Vec<ItemPlace<'a>>,
    project_results: &'a [ProjectResult],
    roles: &[Role],
) -> Result<(), IndexFault>
    ensures found { I.is_reliable index.new → (m : State) → I.stands index.old m
        → OnOk result (Adds (map item_place found.old.items) (map item_place found.new.items)
        (IsPlaceOfOne m roles.now (Contains (map project_result_value project_results.now)))) }
    ensures reads { OnlyReads I.Index result index.old index.new }
{
    for project_result in project_results {
        add_roles(alloc, index, found, project_result, roles)?;
    }
    Ok(())
}

/// The places of these results in these roles: in order, each once.
pub(crate) fn places_of<'a, I: Index>(
    alloc: Global,
    index: &mut I,
    project_results: &'a [ProjectResult],
    roles: &[Role],
) -> Result<Vec<ItemPlace<'a>>, IndexFault>
    ensures found { I.is_reliable index.new → (m : State) → I.stands index.old m
        → IfOk result (λ found. IsListing found_cmp
        (IsPlaceOfOne m roles.now (Contains (map project_result_value project_results.now))) (map item_place found.items)) }
    ensures reads { OnlyReads I.Index result index.old index.new }
{
    let mut found = Vec::new(alloc);
    add_results(alloc, index, &mut found, project_results, roles)?;
    found.sort_unstable();
    found.dedup();
    Ok(found)
}

/// The reply that has these places.
pub(crate) fn places_reply(alloc: Global, places: &[ItemPlace<'_>]) -> Result<Reply, AllocError>
    ensures { IfOk result (λ r. r ≡ places_found (map item_place places.now)) }
{
    let mut text = String::from_str(alloc, PLACES)?;
    let mut later = false;
    for place in places {
        let found = FoundPlace {
            project: place.project,
            uri: place.uri.as_str(),
            span: &place.span,
        };
        add_place(alloc, &mut text, later, &found)?;
        later = true;
    }
    text.push_str(END)?;
    Ok(Reply::made(200, text))
}
