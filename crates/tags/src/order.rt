//! What the lines before a line forbid: a pseudo-tag after a tag, names that descend, too many
//! lines. What a line says by itself is judged in `content.rt`. `specs/Fault`.
ghost use Rattle.std.specs.Prelude.{◌≡◌, ◌<◌, IfNone, OnErr, OnOk, Some, None, false, length, option_map, vec_capacity};
ghost use Rattle.tags.specs.Fault.{descends, most_lines, order_by, written_in};
ghost use Rattle.tags.specs.Values.{ContentValue};

use crate::code::Code;
use crate::limits::MOST_LINES;
use std::alloc::{AllocError, Global};

/// The name is less, by bytes, than the last one.
fn descends(last: Option<&[u8]>, written: &[u8]) -> bool
    ensures { result ≡ descends (option_map (λ name. name.now) last.entry) written.now }
{
    match last {
        Some(name) => written.cmp(&name).is_lt(),
        None => false,
    }
}

/// Replaces the bytes by others. An `Err` changes nothing.
fn replace(bytes: &mut Vec<u8>, others: &[u8]) -> Result<(), AllocError>
    ensures ok { OnOk result (bytes.new.items ≡ others.now) }
    ensures err { OnErr result (bytes.new.items ≡ bytes.old.items) }
    // Memory runs out only where the buffer had to grow.
    ensures grows { OnErr result (vec_capacity bytes.old < length others.now) }
{
    bytes.try_reserve(others.len().saturating_sub(bytes.len()))?;
    bytes.clear();
    bytes.extend_from_slice(others)
}

/// What has to be known of the lines so far for the order of lines.
#[derive(Drop)]
pub(crate) struct Order {
    /// How many lines there were.
    pub count: u32,
    /// The name of the last tag, as written.
    pub last: Option<Vec<u8>>,
    /// Whether the names may not descend.
    pub checked: bool,
}

impl Order {
    ghost use Rattle.tags.specs.Steps.Views.{last_of, room_of};

    /// The state before the first line.
    pub fn new() -> Order
        ensures { (result.count ≡ 0) × (last_of result ≡ None) × (result.checked ≡ false) }
    {
        Order {
            count: 0,
            last: None,
            checked: false,
        }
    }

    /// The least of T09 to T11 that holds of the next line, which has this name as written where
    /// it's an ordinary one.
    pub fn code(&self, written: Option<&[u8]>) -> Option<Code>
        ensures value { (x : ContentValue) → written_in x ≡ option_map (λ name. name.now) written.entry
            → result ≡ order_by (last_of self.now) self.now.checked self.now.count x }
        ensures room { IfNone result (self.now.count < most_lines) }
    {
        let last = self.last.as_deref();
        match written {
            Some(written) => {
                if self.checked && descends(last, written) {
                    return Some(Code::T10);
                }
            }
            None => {
                if last.is_some() {
                    return Some(Code::T09);
                }
            }
        }
        if self.count < MOST_LINES {
            None
        } else {
            Some(Code::T11)
        }
    }

    /// Keeps the name of a tag, as written. An `Err` changes nothing.
    pub fn rename(&mut self, alloc: Global, written: &[u8]) -> Result<(), AllocError>
        ensures ok { OnOk result (last_of self.new ≡ Some written.now) }
        ensures err { OnErr result (last_of self.new ≡ last_of self.old) }
        // Memory runs out only where the buffer of the last name had to grow.
        ensures grows { OnErr result (room_of self.old < length written.now) }
        ensures rest { (self.new.count ≡ self.old.count) × (self.new.checked ≡ self.old.checked) }
    {
        match &mut self.last {
            Some(name) => replace(name, written),
            None => {
                let mut name = Vec::new(alloc);
                replace(&mut name, written)?;
                self.last = Some(name);
                Ok(())
            }
        }
    }
}
