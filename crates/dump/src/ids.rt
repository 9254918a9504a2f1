//! Tables from ids to values: numbers and texts have an ordered map each. A look-up takes O(log n),
//! and no choice of ids makes it slower, as colliding keys would make a hash table.
//! `specs/Steps/Ids`.
ghost use Rattle.std.specs.Prelude.{◌≡◌, true, Some, None, IfOk, OnOk, OnErr, option_copied, if◌then◌else◌};
ghost use Rattle.lsif.specs.Element.{IdValue, same_id};
ghost use Rattle.lsif.specs.Lent.{lent_value};
ghost use Rattle.dump.specs.Graph.{has_repeated};
ghost use Rattle.dump.specs.Steps.Ids.{value_at, entered};

use lsif::{IdRef, IdsIter};
use std::alloc::{AllocError, Global};
use std::collections::BTreeMap;

/// A table from ids to values.
#[derive(Drop)]
pub(crate) struct IdMap<V> {
    alloc: Global,
    pub(crate) numbers: BTreeMap<u64, V>,
    pub(crate) texts: BTreeMap<String, V>,
}

impl<V> IdMap<V> {
    /// A table with no value.
    pub(crate) fn new(alloc: Global) -> IdMap<V>
        ensures { (i : IdValue) → value_at result i ≡ None }
    {
        IdMap {
            alloc,
            numbers: BTreeMap::new(alloc),
            texts: BTreeMap::new(alloc),
        }
    }

    /// The value at the id.
    pub(crate) fn get(&self, id: IdRef<'_>) -> Option<&V>
        ensures { option_copied result ≡ value_at self.now (lent_value id.entry) }
    {
        match id {
            IdRef::Number(n) => self.numbers.get(&n),
            IdRef::Text(text) => self.texts.get(text),
        }
    }
}

impl<V: Drop> IdMap<V> {
    /// Puts the value at the id, and returns the one that was there.
    pub(crate) fn insert(&mut self, id: IdRef<'_>, value: V) -> Result<Option<V>, AllocError>
        ensures old { IfOk result (λ old. old ≡ value_at self.old (lent_value id.entry)) }
        ensures ok { OnOk result ((i : IdValue) → value_at self.new i
            ≡ (if same_id (lent_value id.entry) i then Some value else value_at self.old i)) }
        ensures err { OnErr result ((i : IdValue) → value_at self.new i ≡ value_at self.old i) }
    {
        match id {
            IdRef::Number(n) => Ok(self.numbers.insert(n, value)?),
            IdRef::Text(text) => {
                let key = String::from_str(self.alloc, text)?;
                Ok(self.texts.insert(key, value)?)
            }
        }
    }

    /// Takes the value at the id out of the table.
    pub(crate) fn remove(&mut self, id: IdRef<'_>)
        ensures { (i : IdValue) → value_at self.new i ≡ (if same_id (lent_value id.entry) i then None else value_at self.old i) }
    {
        match id {
            IdRef::Number(n) => {
                self.numbers.remove(&n);
            }
            IdRef::Text(text) => {
                self.texts.remove(text);
            }
        }
    }

    /// Puts the value at the id where the table has none yet.
    pub(crate) fn enter(&mut self, id: IdRef<'_>, value: V) -> Result<(), AllocError>
        ensures ok { OnOk result ((i : IdValue) → value_at self.new i ≡ entered (same_id (lent_value id.entry) i) value (value_at self.old i)) }
        ensures err { OnErr result ((i : IdValue) → value_at self.new i ≡ value_at self.old i) }
    {
        match id {
            IdRef::Number(n) => {
                self.numbers.entry(n)?.or_insert(value);
            }
            IdRef::Text(text) => {
                let key = String::from_str(self.alloc, text)?;
                self.texts.entry(key)?.or_insert(value);
            }
        }
        Ok(())
    }
}

/// Whether an id is in the list twice.
pub(crate) fn is_repeating(alloc: Global, ids: IdsIter<'_>) -> Result<bool, AllocError>
    ensures { IfOk result (λ b. b ≡ has_repeated ids.entry) }
{
    let mut seen = IdMap::new(alloc);
    for id in ids {
        if seen.insert(id, ())?.is_some() {
            return Ok(true);
        }
    }
    Ok(false)
}
