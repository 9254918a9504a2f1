//! The vertices that lines spell: their labels in each profile, and what they say. Hovers, monikers
//! and events have files of their own. `specs/Vertices`.
ghost use Rattle.std.specs.Prelude.{◌≡◌, IfOk, option_map, string_bytes, codes};
ghost use Rattle.lsif.specs.Element.{vertex_value};
ghost use Rattle.lsif.specs.Vertices.{coordinate_at, position_in, span_in, is_supported, uri_in, vertex_label, vertex_of};
ghost use Rattle.serde_json.specs.View.{view};

use crate::element::Vertex;
use crate::events::event;
use crate::hovers::hover;
use crate::monikers::{moniker, package};
use crate::profile::Profile;
use crate::request_kind::RequestKind;
use positions::{NUMBER_LIMIT, Position, Span};
use serde_json::Value;
use std::alloc::{AllocError, Global};
use url::{ParseError, Url};

fn coordinate(value: &Value, name: &str) -> Option<u32>
    ensures { result ≡ coordinate_at name.now (view value.now) }
{
    let n = value.get(name)?.as_u64()?;
    if n < u64::from(NUMBER_LIMIT) {
        Some(n as u32)
    } else {
        None
    }
}

#[tactic(auto, unfolding(crate::specs::Vertices::position_in))]
fn position(value: &Value) -> Option<Position>
    ensures { result ≡ position_in (view value.now) }
{
    let line = coordinate(value, "line")?;
    let character = coordinate(value, "character")?;
    Position::new(line, character)
}

#[tactic(auto, unfolding(crate::specs::Vertices::span_in))]
fn span(value: &Value) -> Option<Span>
    ensures { result ≡ span_in (view value.now) }
{
    let start = position(value.get("start")?)?;
    let end = position(value.get("end")?)?;
    Span::new(start, end)
}

/// Whether a `metaData` says that the dump is in the version and the encoding that are read here.
#[tactic(auto, unfolding(crate::specs::Vertices::is_supported))]
fn is_supported(value: &Value) -> bool
    ensures { result ≡ is_supported (view value.now) }
{
    let version = value.get("version").and_then(Value::as_str);
    if version.is_none_or(|v| v != "0.6.0") {
        return false;
    }
    match value.get("positionEncoding") {
        None => true,
        Some(encoding) => encoding.as_str() == Some("utf-16"),
    }
}

/// The serialized URL of a `document`.
#[tactic(auto, unfolding(crate::specs::Vertices::uri_in))]
fn uri(alloc: Global, value: &Value) -> Result<Option<String>, AllocError>
    ensures { IfOk result (λ o. option_map (λ s. string_bytes s) o ≡ uri_in (view value.now)) }
{
    let Some(text) = value.get("uri").and_then(Value::as_str) else {
        return Ok(None);
    };
    match Url::parse(alloc, text) {
        Ok(url) => Ok(Some(String::from_str(alloc, url.as_str())?)),
        Err(ParseError::OutOfMemory | ParseError::Overflow) => Err(AllocError),
        Err(_) => Ok(None),
    }
}

/// The label of a vertex (LSIF 0.6.0, "Vertices"): one that says something, or any other.
#[derive(Clone, Copy)]
pub(crate) enum VertexLabel {
    MetaData,
    Project,
    Document,
    Range,
    ResultSet,
    Result(RequestKind),
    Moniker,
    Package,
    Event,
    Other,
}

/// Which label a text is in a profile.
pub(crate) fn vertex_label(profile: Profile, text: &str) -> VertexLabel
    ensures { result ≡ vertex_label profile text.now }
{
    if text == "metaData" {
        VertexLabel::MetaData
    } else if text == "project" {
        VertexLabel::Project
    } else if text == "document" {
        VertexLabel::Document
    } else if text == "range" {
        VertexLabel::Range
    } else if text == "resultSet" {
        VertexLabel::ResultSet
    } else if text == "moniker" {
        VertexLabel::Moniker
    } else if text == "packageInformation" {
        VertexLabel::Package
    } else if text == "$event" {
        VertexLabel::Event
    } else {
        match RequestKind::named_by_vertex(profile, text) {
            Some(kind) => VertexLabel::Result(kind),
            None => VertexLabel::Other,
        }
    }
}

/// What a vertex of this label says. None where a member that is read isn't of its form.
#[tactic(auto, unfolding(crate::specs::Vertices::vertex_of))]
pub(crate) fn vertex(
    alloc: Global,
    label: VertexLabel,
    value: &Value,
) -> Result<Option<Vertex>, AllocError>
    ensures { IfOk result (λ o. option_map vertex_value o ≡ vertex_of label (view value.now)) }
{
    match label {
        VertexLabel::MetaData => Ok(Some(Vertex::MetaData(is_supported(value)))),
        VertexLabel::Project => Ok(Some(Vertex::Project)),
        VertexLabel::Document => Ok(uri(alloc, value)?.map(Vertex::Document)),
        VertexLabel::Range => Ok(span(value).map(Vertex::Range)),
        VertexLabel::ResultSet => Ok(Some(Vertex::ResultSet)),
        VertexLabel::Result(RequestKind::Hover) => {
            Ok(hover(alloc, value)?.map(Vertex::HoverResult))
        }
        VertexLabel::Result(kind) => Ok(Some(Vertex::Result(kind))),
        VertexLabel::Moniker => Ok(moniker(alloc, value)?.map(Vertex::Moniker)),
        VertexLabel::Package => Ok(package(alloc, value)?.map(Vertex::Package)),
        VertexLabel::Event => Ok(event(alloc, value)?.map(Vertex::Event)),
        VertexLabel::Other => Ok(Some(Vertex::Other)),
    }
}
