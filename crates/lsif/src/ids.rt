//! Lists of ids, as edges name their targets. A number takes 8 bytes, and a text its own length
//! more, all in two allocations; so a list takes at most four times as much memory as the line that
//! spells it. `specs/Steps/IdLists` says what they hold.
ghost use Rattle.std.specs.Prelude.{◌≡◌, ◌<◌, ◌++◌, ◌∷◌, [], List, length, IfOk, OnOk, string_bytes};
ghost use Rattle.lsif.specs.Steps.IdLists.{AreCut, ids_of};
ghost use Rattle.lsif.specs.Lent.{ids_behind, lent_value};
ghost use Rattle.lsif.specs.IdValues.{IdValue, IsWhole, text as text_value};
ghost use Rattle.lsif.specs.Ids.{ids_in};
ghost use Rattle.serde_json.specs.View.{items_view};

use crate::id::{IdRef, id_in};
use crate::limits::GREATEST_ID;
use serde_json::Value;
use std::alloc::{AllocError, Global};
use std::fmt;
use std::marker::Model;

/// The ids of several vertices, in order.
#[derive(Drop)]
pub struct Ids {
    /// For each id its number; or, beyond the greatest, the length of its text in bytes.
    entries: Vec<u64>,
    /// The texts, one after the other.
    texts: String,
}

impl Model for Ids {
    ghost Value = { List IdValue };

    ghost view = { λ ids. ids_of ids.entries.items (string_bytes ids.texts) };

    ghost invariant = { λ ids. AreCut ids.entries.items (string_bytes ids.texts) };
}

impl Ids {
    #[tactic(auto, unfolding(crate::specs::Steps::IdLists::AreCut, crate::specs::Steps::IdLists::ids_of))]
    fn new(alloc: Global) -> Ids
        ensures { result ≡ [] }
    {
        Ids {
            entries: Vec::new(alloc),
            texts: String::new(alloc),
        }
    }

    /// Adds an id. Where memory is refused the list stays as it is.
    fn push(&mut self, id: IdRef<'_>) -> Result<(), AllocError>
        requires { IsWhole (lent_value id) }
        ensures { OnOk result (self.new ≡ self.old ++ lent_value id.entry ∷ []) }
    {
        match id {
            IdRef::Number(n) => self.entries.push(n)?,
            IdRef::Text(text) => self.push_text(text)?,
        }
        Ok(())
    }

    /// Adds a text that isn't empty.
    fn push_text(&mut self, text: &str) -> Result<(), AllocError>
        requires { 0 < length text.now }
        ensures { OnOk result (self.new ≡ self.old ++ text_value text.now ∷ []) }
    {
        self.entries.push(GREATEST_ID + text.len() as u64)?;
        if self.texts.push_str(text).is_err() {
            self.entries.pop();
            return Err(AllocError);
        }
        Ok(())
    }

    /// The ids, borrowed one after the other.
    pub fn iter(&self) -> IdsIter<'_>
        ensures { result ≡ self.now }
    {
        IdsIter {
            first: None,
            entries: self.entries.as_slice(),
            texts: self.texts.as_str(),
        }
    }
}

impl fmt::Debug for Ids {
    fn fmt<W: fmt::Write>(&self, f: &mut fmt::Formatter<W>) -> fmt::Result {
        f.debug_list().entries(self.iter()).finish()
    }
}

/// The ids that the values of an array are. None where one of them is no id.
pub(crate) fn read_ids(alloc: Global, values: &[Value]) -> Result<Option<Ids>, AllocError>
    ensures { IfOk result (λ found. found ≡ ids_in (items_view values.now)) }
{
    let mut found = Ids::new(alloc);
    found.entries.reserve(values.len())?;
    for value in values {
        let Some(id) = id_in(value) else {
            return Ok(None);
        };
        found.push(id)?;
    }
    Ok(Some(found))
}

/// The list of this id alone.
pub(crate) fn id_alone(alloc: Global, id: IdRef<'_>) -> Result<Ids, AllocError>
    requires { IsWhole (lent_value id) }
    ensures { IfOk result (λ found. found ≡ lent_value id.entry ∷ []) }
{
    let mut found = Ids::new(alloc);
    found.push(id)?;
    Ok(found)
}

/// Ids that are borrowed one after the other: of a list, or one alone.
#[derive(Drop)]
pub struct IdsIter<'a> {
    first: Option<IdRef<'a>>,
    entries: &'a [u64],
    texts: &'a str,
}

impl<'a> Model for IdsIter<'a> {
    ghost Value = { List IdValue };

    ghost view = { λ ids. ids_behind ids.first (ids_of ids.entries.now ids.texts.now) };

    ghost invariant = { λ ids. AreCut ids.entries.now ids.texts.now };
}

impl<'a> IdsIter<'a> {
    /// No id.
    #[tactic(auto, unfolding(crate::specs::Steps::IdLists::AreCut, crate::specs::Steps::IdLists::ids_of))]
    pub fn none() -> IdsIter<'a>
        ensures { result ≡ [] }
    {
        IdsIter {
            first: None,
            entries: &[],
            texts: "",
        }
    }

    /// This id alone.
    #[tactic(auto, unfolding(crate::specs::Steps::IdLists::AreCut, crate::specs::Steps::IdLists::ids_of))]
    pub fn one(id: IdRef<'a>) -> IdsIter<'a>
        ensures { result ≡ lent_value id.entry ∷ [] }
    {
        IdsIter {
            first: Some(id),
            entries: &[],
            texts: "",
        }
    }
}

impl<'a> Iterator for IdsIter<'a> {
    ghost use Rattle.std.specs.Iterator.{YieldsFirstBy, item_count};

    type Item = IdRef<'a>;

    ghost next_gives = { YieldsFirstBy lent_value (λ ids. ids) };

    ghost remaining = { item_count (λ ids. ids) };

    fn next(&mut self) -> Option<IdRef<'a>> {
        if let Some(id) = self.first.take() {
            return Some(id);
        }
        let (entry, later) = self.entries.split_first()?;
        if *entry <= GREATEST_ID {
            self.entries = later;
            return Some(IdRef::Number(*entry));
        }
        let (text, rest) = self
            .texts
            .split_at_checked((*entry - GREATEST_ID) as usize)?;
        self.entries = later;
        self.texts = rest;
        Some(IdRef::Text(text))
    }
}
