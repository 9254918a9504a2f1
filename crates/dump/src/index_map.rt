//! Tables from ids to indices in a list. Numbers below a bound have a slot each (direct
//! addressing), so that dumps with ids counted from 1 are looked up in one step; all other ids are
//! in an ordered map (`ids.rt`). `specs/Steps/Ids`.
ghost use Rattle.std.specs.Prelude.{◌≡◌, ◌<◌, ◌^◌, ℕ, None, OnOk, OnErr, get_or, nat_eq, if◌then◌else◌};
ghost use Rattle.lsif.specs.Element.{IdValue, same_id};
ghost use Rattle.lsif.specs.Lent.{lent_value};
ghost use Rattle.dump.specs.Steps.Ids.{entered, index_at};

use crate::ids::IdMap;
use lsif::IdRef;
use std::alloc::{AllocError, Global};

/// A table from ids to indices in a list, counted from 0. Most dumps number their elements in turn;
/// so the slots of one line and the next are neighbours in memory.
#[derive(Drop)]
pub(crate) struct IndexMap {
    bound: u32,
    slots: Vec<Option<u32>>,
    others: IdMap<u32>,
}

/// The same index, as a list takes it.
pub(crate) fn list_index(index: Option<u32>) -> Option<usize>
    ensures { result ≡ index }
{
    match index {
        Some(index) => Some(index as usize),
        None => None,
    }
}

/// What the slot of a number holds.
fn slot(slots: &[Option<u32>], number: usize) -> Option<usize>
    ensures { result ≡ get_or slots.now number None }
{
    match slots.get(number) {
        Some(index) => list_index(*index),
        None => None,
    }
}

/// Enters the index in the slot of a number, where it has none yet.
fn enter_slot(slots: &mut Vec<Option<u32>>, number: usize, index: u32) -> Result<(), AllocError>
    requires { number < 2 ^ 32 }
    ensures ok { OnOk result ((n : ℕ) → get_or slots.new.items n None ≡ entered (nat_eq number n) index (get_or slots.old.items n None)) }
    ensures err { OnErr result (slots.new.items ≡ slots.old.items) }
{
    if number >= slots.len() {
        slots.resize(number + 1, None)?;
    }
    if slots[number].is_none() {
        slots[number] = Some(index);
    }
    Ok(())
}

/// Empties the slot of a number.
fn empty_slot(slots: &mut [Option<u32>], number: usize)
    ensures { (n : ℕ) → get_or slots.new n None ≡ (if nat_eq number n then None else get_or slots.old n None) }
{
    if number < slots.len() {
        slots[number] = None;
    }
}

impl IndexMap {
    /// A table with no index, and with slots for the numbers below the bound.
    pub(crate) fn new(alloc: Global, bound: u32) -> IndexMap
        ensures { (i : IdValue) → index_at result i ≡ None }
    {
        IndexMap {
            bound,
            slots: Vec::new(alloc),
            others: IdMap::new(alloc),
        }
    }

    /// The index at the id.
    pub(crate) fn get(&self, id: IdRef<'_>) -> Option<usize>
        ensures { result ≡ index_at self.now (lent_value id.entry) }
    {
        match id {
            IdRef::Number(n) if n < self.bound as u64 => slot(&self.slots, n as usize),
            _ => list_index(self.others.get(id).copied()),
        }
    }

    /// Enters the index at the id, where the table has none yet.
    pub(crate) fn enter(&mut self, id: IdRef<'_>, index: u32) -> Result<(), AllocError>
        ensures ok { OnOk result ((i : IdValue) → index_at self.new i ≡ entered (same_id (lent_value id.entry) i) index (index_at self.old i)) }
        ensures err { OnErr result ((i : IdValue) → index_at self.new i ≡ index_at self.old i) }
    {
        match id {
            IdRef::Number(n) if n < self.bound as u64 => {
                enter_slot(&mut self.slots, n as usize, index)
            }
            IdRef::Number(_) => self.others.enter(id, index),
            IdRef::Text(_) => self.others.enter(id, index),
        }
    }

    /// Takes the index at the id out of the table.
    pub(crate) fn remove(&mut self, id: IdRef<'_>)
        ensures { (i : IdValue) → index_at self.new i ≡ (if same_id (lent_value id.entry) i then None else index_at self.old i) }
    {
        match id {
            IdRef::Number(n) if n < self.bound as u64 => empty_slot(&mut self.slots, n as usize),
            IdRef::Number(_) => self.others.remove(id),
            IdRef::Text(_) => self.others.remove(id),
        }
    }
}
