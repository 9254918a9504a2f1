//! The edges that lines spell: their labels in each profile, and what they join. Whether they may
//! join it is checked in the crate `dump`. `specs/Edges`.
ghost use Rattle.std.specs.Prelude.{◌≡◌, IfOk, IfErr, option_map, codes};
ghost use Rattle.lsif.specs.Element.{id_value, item_value, edge_value};
ghost use Rattle.lsif.specs.Edges.{targets_in, ends_in, target_in, property_of, property_in, shard_in, item_in, edge_label, edge_from, edge_in};
ghost use Rattle.lsif.specs.Shape.{Gives, IsShapeFault, some_or};
ghost use Rattle.serde_json.specs.View.{view};

use crate::code::Code;
use crate::element::{Edge, Item, Property};
use crate::fault::ReadFault;
use crate::id::{Id, lent_member, member_id};
use crate::ids::{Ids, id_alone, read_ids};
use crate::profile::Profile;
use crate::request_kind::RequestKind;
use serde_json::Value;
use std::alloc::{AllocError, Global};

/// The label of an edge (LSIF 0.6.0, "Edges"): one that says something, or any other.
#[derive(Clone, Copy)]
pub(crate) enum EdgeLabel {
    Contains,
    Next,
    Request(RequestKind),
    Moniker,
    Package,
    Attach,
    Item,
    Other,
}

/// Which label a text is in a profile.
pub(crate) fn edge_label(profile: Profile, text: &str) -> EdgeLabel
    ensures { result ≡ edge_label profile text.now }
{
    if text == "contains" {
        EdgeLabel::Contains
    } else if text == "next" {
        EdgeLabel::Next
    } else if text == "moniker" {
        EdgeLabel::Moniker
    } else if text == "packageInformation" {
        EdgeLabel::Package
    } else if text == "attach" {
        EdgeLabel::Attach
    } else if text == "item" {
        EdgeLabel::Item
    } else {
        match RequestKind::named_by_edge(profile, text) {
            Some(kind) => EdgeLabel::Request(kind),
            None => EdgeLabel::Other,
        }
    }
}

/// The targets of an edge that names them in `inVs`. None where it doesn't, or names one in `inV`.
#[tactic(auto, unfolding(crate::specs::Edges::targets_in))]
fn targets(alloc: Global, value: &Value) -> Result<Option<Ids>, AllocError>
    ensures { IfOk result (λ o. o ≡ targets_in (view value.now)) }
{
    if value.get("inV").is_some() {
        return Ok(None);
    }
    match value.get("inVs").and_then(Value::as_array) {
        Some(values) => read_ids(alloc, values),
        None => Ok(None),
    }
}

/// The targets of an edge of another label, which names them in exactly one of `inV` and `inVs`.
#[tactic(auto, unfolding(crate::specs::Edges::ends_in))]
fn ends(alloc: Global, value: &Value) -> Result<Option<Ids>, AllocError>
    ensures { IfOk result (λ o. o ≡ ends_in (view value.now)) }
{
    if value.get("inVs").is_some() {
        return targets(alloc, value);
    }
    match lent_member(value, "inV") {
        Some(id) => Ok(Some(id_alone(alloc, id)?)),
        None => Ok(None),
    }
}

/// The target of an edge that names it in `inV`. None where it doesn't, or names some in `inVs`.
#[tactic(auto, unfolding(crate::specs::Edges::target_in))]
fn target(alloc: Global, value: &Value) -> Result<Option<Id>, AllocError>
    ensures { IfOk result (λ o. option_map id_value o ≡ target_in (view value.now)) }
{
    if value.get("inVs").is_some() {
        return Ok(None);
    }
    member_id(alloc, value, "inV")
}

fn property_of(text: &str) -> Option<Property>
    ensures { result ≡ property_of text.now }
{
    if text == "definitions" {
        Some(Property::Definitions)
    } else if text == "references" {
        Some(Property::References)
    } else if text == "referenceResults" {
        Some(Property::ReferenceResults)
    } else {
        None
    }
}

/// The property of an `item` edge, or that it has none. `L15` where it isn't one of the three.
#[tactic(auto, unfolding(crate::specs::Edges::property_in))]
fn property(value: &Value) -> Result<Option<Property>, ReadFault>
    ensures reading { Gives (λ property. property) result (some_or Code.L15 (property_in (view value.now))) }
    ensures shape { IfErr result IsShapeFault }
{
    let Some(found) = value.get("property") else {
        return Ok(None);
    };
    match found.as_str().and_then(property_of) {
        Some(property) => Ok(Some(property)),
        None => Err(ReadFault::Shape(Code::L15)),
    }
}

/// The place of an `item` edge's targets. None where it's no id.
#[tactic(auto, unfolding(crate::specs::Edges::shard_in))]
fn shard(alloc: Global, value: &Value) -> Result<Option<Id>, AllocError>
    ensures { IfOk result (λ o. option_map id_value o ≡ shard_in (view value.now)) }
{
    if value.get("shard").is_some() {
        member_id(alloc, value, "shard")
    } else {
        member_id(alloc, value, "document")
    }
}

/// An `item` edge out of this source.
#[tactic(auto, unfolding(crate::specs::Edges::item_in))]
fn item(alloc: Global, source: Id, value: &Value) -> Result<Item, ReadFault>
    ensures reading { Gives item_value result (item_in (id_value source) (view value.now)) }
    ensures shape { IfErr result IsShapeFault }
{
    let Some(targets) = targets(alloc, value)? else {
        return Err(ReadFault::Shape(Code::L08));
    };
    let property = property(value)?;
    let Some(shard) = shard(alloc, value)? else {
        return Err(ReadFault::Shape(Code::L15));
    };
    Ok(Item {
        source,
        targets,
        property,
        shard,
    })
}

/// What was read of an edge, or that its ends aren't of their form.
fn joined(edge: Option<Edge>) -> Result<Edge, ReadFault>
    ensures reading { Gives edge_value result (some_or Code.L08 (option_map edge_value edge)) }
    ensures shape { IfErr result IsShapeFault }
{
    match edge {
        Some(edge) => Ok(edge),
        None => Err(ReadFault::Shape(Code::L08)),
    }
}

/// What an edge of this label out of this source joins.
#[tactic(auto, unfolding(crate::specs::Edges::edge_from))]
fn edge_from(alloc: Global, label: EdgeLabel, from: Id, value: &Value) -> Result<Edge, ReadFault>
    ensures reading { Gives edge_value result (edge_from label (id_value from) (view value.now)) }
    ensures shape { IfErr result IsShapeFault }
{
    match label {
        EdgeLabel::Contains => joined(targets(alloc, value)?.map(|to| Edge::Contains(from, to))),
        EdgeLabel::Next => joined(target(alloc, value)?.map(|to| Edge::Next(from, to))),
        EdgeLabel::Request(kind) => {
            joined(target(alloc, value)?.map(|to| Edge::Request(kind, from, to)))
        }
        EdgeLabel::Moniker => joined(target(alloc, value)?.map(|to| Edge::Moniker(from, to))),
        EdgeLabel::Package => joined(target(alloc, value)?.map(|to| Edge::Package(from, to))),
        EdgeLabel::Attach => joined(target(alloc, value)?.map(|to| Edge::Attach(from, to))),
        EdgeLabel::Item => Ok(Edge::Item(item(alloc, from, value)?)),
        EdgeLabel::Other => joined(ends(alloc, value)?.map(|to| Edge::Other(from, to))),
    }
}

/// What an edge of this label joins, or the least fault of its shape.
#[tactic(auto, unfolding(crate::specs::Edges::edge_in))]
pub(crate) fn edge(alloc: Global, label: EdgeLabel, value: &Value) -> Result<Edge, ReadFault>
    ensures reading { Gives edge_value result (edge_in label (view value.now)) }
    ensures shape { IfErr result IsShapeFault }
{
    let Some(from) = member_id(alloc, value, "outV")? else {
        return Err(ReadFault::Shape(Code::L08));
    };
    edge_from(alloc, label, from, value)
}
