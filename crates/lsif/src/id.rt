//! Ids of vertices and edges: numbers and texts, how a line spells them and when two are the same.
//! What has an id is in `element.rt`; `specs/Ids` says which ids are read.
ghost use Rattle.std.specs.Prelude.{◌≡◌, IsTrue, ◌↔◌, IfOk, IfSome, option_map, codes};
ghost use Rattle.lsif.specs.Element.{id_value, same_id};
ghost use Rattle.lsif.specs.Lent.{lent_value};
ghost use Rattle.lsif.specs.IdValues.{IsWhole};
ghost use Rattle.lsif.specs.Ids.{id_in, id_at};
ghost use Rattle.serde_json.specs.View.{view};

use crate::limits::{GREATEST_ID, LONGEST_ID};
use serde_json::Value;
use std::alloc::{AllocError, Global};

/// The id of a vertex or an edge (LSIF 0.6.0, "Id"): a number up to 9007199254740991, or a text of
/// 1 to 128 bytes. The number 1 and the text "1" differ.
#[derive(Debug, PartialEq, Eq, Drop)]
pub enum Id {
    Number(u64),
    Text(String),
}

/// A borrowed id, which look-ups take so that no text is copied.
#[derive(Clone, Copy, Debug, PartialEq, Eq)]
pub enum IdRef<'a> {
    Number(u64),
    Text(&'a str),
}

impl Id {
    /// The same id, borrowed.
    pub fn lent(&self) -> IdRef<'_>
        ensures { lent_value result ≡ id_value self.now }
    {
        match self {
            Id::Number(n) => IdRef::Number(*n),
            Id::Text(text) => IdRef::Text(text.as_str()),
        }
    }
}

impl IdRef<'_> {
    /// Whether both are the same id: equal numbers, or equal texts.
    pub fn is(self, other: IdRef<'_>) -> bool
        ensures value { result ≡ same_id (lent_value self.entry) (lent_value other.entry) }
        ensures meaning { IsTrue result ↔ (lent_value self.entry ≡ lent_value other.entry) }
    {
        match (self, other) {
            (IdRef::Number(a), IdRef::Number(b)) => a == b,
            (IdRef::Text(a), IdRef::Text(b)) => a == b,
            _ => false,
        }
    }
}

/// The id that a JSON value is, borrowed from it. None where it's no id.
#[tactic(auto, unfolding(crate::specs::Ids::id_in))]
pub(crate) fn id_in(value: &Value) -> Option<IdRef<'_>>
    ensures id { option_map lent_value result ≡ id_in (view value.now) }
    ensures whole { IfSome result (λ id. IsWhole (lent_value id)) }
{
    if let Some(n) = value.as_u64() {
        return (n <= GREATEST_ID).then_some(IdRef::Number(n));
    }
    match value.as_str() {
        Some(text) if !text.is_empty() && text.len() <= LONGEST_ID => Some(IdRef::Text(text)),
        _ => None,
    }
}

/// The id that the member of this name is, borrowed from it. None where there is no such member, or
/// it's no id.
pub(crate) fn lent_member<'a>(value: &'a Value, name: &str) -> Option<IdRef<'a>>
    ensures id { option_map lent_value result ≡ id_at name.now (view value.now) }
    ensures whole { IfSome result (λ id. IsWhole (lent_value id)) }
{
    match value.get(name) {
        Some(found) => id_in(found),
        None => None,
    }
}

/// The id that the member of this name is. None where there is no such member, or it's no id.
pub(crate) fn member_id(alloc: Global, value: &Value, name: &str) -> Result<Option<Id>, AllocError>
    ensures { IfOk result (λ o. option_map id_value o ≡ id_at name.now (view value.now)) }
{
    match lent_member(value, name) {
        Some(IdRef::Number(n)) => Ok(Some(Id::Number(n))),
        Some(IdRef::Text(text)) => Ok(Some(Id::Text(String::from_str(alloc, text)?))),
        None => Ok(None),
    }
}
