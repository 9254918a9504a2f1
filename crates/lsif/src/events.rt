//! The vertices that say that a document begins or ends. Whether it may is checked in the crate
//! `dump`. `specs/Events`.
ghost use Rattle.std.specs.Prelude.{◌≡◌, IfOk, codes, option_map};
ghost use Rattle.lsif.specs.Element.{id_value, event_value};
ghost use Rattle.lsif.specs.Events.{event_of, document_event_in, event_in};
ghost use Rattle.serde_json.specs.View.{view};

use crate::element::Event;
use crate::id::{Id, member_id};
use serde_json::Value;
use std::alloc::{AllocError, Global};

/// The event of this kind and document. None where the kind is neither of the two.
fn event_of(kind: &str, document: Id) -> Option<Event>
    ensures { option_map event_value result ≡ event_of kind.now (id_value document) }
{
    if kind == "begin" {
        Some(Event::Begin(document))
    } else if kind == "end" {
        Some(Event::End(document))
    } else {
        None
    }
}

/// The event of document scope that a value is. None where a member isn't of its form.
#[tactic(auto, unfolding(crate::specs::Events::document_event_in))]
fn document_event(alloc: Global, value: &Value) -> Result<Option<Event>, AllocError>
    ensures { IfOk result (λ o. option_map event_value o ≡ document_event_in (view value.now)) }
{
    let Some(kind) = value.get("kind").and_then(Value::as_str) else {
        return Ok(None);
    };
    match member_id(alloc, value, "data")? {
        Some(document) => Ok(event_of(kind, document)),
        None => Ok(None),
    }
}

/// What an `$event` says. None where a member that is read isn't of its form.
#[tactic(auto, unfolding(crate::specs::Events::event_in))]
pub(crate) fn event(alloc: Global, value: &Value) -> Result<Option<Event>, AllocError>
    ensures { IfOk result (λ o. option_map event_value o ≡ event_in (view value.now)) }
{
    let Some(scope) = value.get("scope").and_then(Value::as_str) else {
        return Ok(None);
    };
    if scope == "document" {
        document_event(alloc, value)
    } else {
        Ok(Some(Event::Other))
    }
}
