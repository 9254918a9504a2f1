//! How many rows or pairs there may still be: each takes one, and so does each 128 bytes of text.
//! The limits are in `limits.rt`.
ghost use Rattle.std.specs.Prelude.{◌≡◌, ◌↔◌, ◌+◌, ◌/◌, ◌≤◌, IsOk, OnOk};
ghost use Rattle.flatten.specs.Limits.{text_bytes};

use crate::fault::FlattenFault;
use crate::limits::TEXT_BYTES;

/// How many rows of a kind there may still be, or pairs that a walk follows.
#[derive(Drop)]
pub(crate) struct Budget {
    left: usize,
}

impl Budget {
    pub(crate) fn new(most: usize) -> Budget
        ensures { result.left ≡ most }
    {
        Budget { left: most }
    }

    /// Takes so many. Where there are too few, that counts as lack of memory.
    pub(crate) fn take(&mut self, count: usize) -> Result<(), FlattenFault>
        ensures left { OnOk result (self.old.left ≡ self.new.left + count) }
        ensures enough { IsOk result ↔ (count ≤ self.old.left) }
    {
        match self.left.checked_sub(count) {
            Some(left) => {
                self.left = left;
                Ok(())
            }
            None => Err(FlattenFault::Memory),
        }
    }

    /// Takes a text of a row, of so many bytes, beside the row: it counts as a row for each 128
    /// bytes.
    pub(crate) fn take_text(&mut self, len: usize) -> Result<(), FlattenFault>
        ensures left { OnOk result (self.old.left ≡ self.new.left + len / text_bytes) }
        ensures enough { IsOk result ↔ (len / text_bytes ≤ self.old.left) }
    {
        self.take(len / TEXT_BYTES)
    }
}

/// How many rows of a kind there may still be, and how many pairs walks may still follow for them.
#[derive(Drop)]
pub(crate) struct Budgets {
    pub(crate) rows: Budget,
    pub(crate) pairs: Budget,
}

impl Budgets {
    pub(crate) fn new(most: usize) -> Budgets
        ensures rows { result.rows.left ≡ most }
        ensures pairs { result.pairs.left ≡ most }
    {
        Budgets {
            rows: Budget::new(most),
            pairs: Budget::new(most),
        }
    }
}
