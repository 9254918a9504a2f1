//! A buffer of a fixed length before a reader: what was read and isn't used yet. What is left in it
//! is moved to its front only when the end is reached, and the read that follows fills the room.
//! Lines are split in `lines.rt`. `specs/Buffered` says what it holds.
ghost use Rattle.std.specs.Prelude.{◌≡◌, ℕ, ◌+◌, ◌-◌, ◌<◌, ◌≤◌, List, [], ◌++◌, drop, take, Option, Some, IfOk, length, vec_len, slice_range};
ghost use Rattle.streams.specs.Streams.{CountsFailure, IsCountable, Pulls};
ghost use Rattle.streams.specs.Buffered.{Fills};

use crate::counted::{Failed, Source};
use std::alloc::{AllocError, Global};
use std::marker::Model;

/// Bytes that were read and not yet used: at most as many as the buffer has room for.
#[derive(Drop)]
pub struct Buffer {
    bytes: Vec<u8>,
    start: usize,
    end: usize,
}

impl Model for Buffer {
    ghost use Rattle.std.specs.Prelude.{◌≤◌, vec_len, slice_range};
    ghost use Rattle.streams.specs.Buffered.{Buffered};

    ghost Value = { Buffered };

    ghost view = { λ b. record { pending = slice_range b.bytes.items b.start b.end; capacity = vec_len b.bytes } };

    ghost invariant = { λ b. (b.start ≤ b.end) × (b.end ≤ vec_len b.bytes) };
}

impl Buffer {
    /// An empty buffer with room for `capacity` bytes, which is never made larger.
    pub fn new(alloc: Global, capacity: usize) -> Result<Buffer, AllocError>
        ensures { IfOk result (λ b. (b.pending ≡ []) × (b.capacity ≡ capacity)) }
    {
        let bytes = Vec::from_elem(alloc, 0, capacity)?;
        Ok(Buffer {
            bytes,
            start: 0,
            end: 0,
        })
    }

    /// The buffered bytes.
    pub fn pending(&self) -> &[u8]
        ensures bytes { result.now ≡ self.now.pending }
        ensures fits { length result.now ≤ self.now.capacity }
    {
        &self.bytes[self.start..self.end]
    }

    /// Drops the first bytes.
    pub fn advance(&mut self, count: usize)
        requires { count ≤ length self.old.pending }
        ensures pending { self.new.pending ≡ drop count self.old.pending }
        ensures capacity { self.new.capacity ≡ self.old.capacity }
    {
        self.start += count;
    }

    /// Reads more bytes, and returns how many came: none only at the end of the input.
    pub fn fill<S: Source>(&mut self, source: &mut S) -> Result<usize, Failed>
        requires room { length self.old.pending < self.old.capacity }
        requires count { IsCountable (S.failed source.old) }
        ensures bytes { Fills self.old (S.left source.old) self.new (S.left source.new) result }
        ensures counted { CountsFailure (S.failed source.old) (S.failed source.new) result }
        ensures capacity { self.new.capacity ≡ self.old.capacity }
    {
        let (start, end) = make_room(&mut self.bytes, self.start, self.end);
        let pulled = pull_after(&mut self.bytes, end, source);
        self.start = start;
        self.end = end;
        let count = pulled?;
        self.end += count;
        Ok(count)
    }
}

/// Pulls bytes into the room after the first `end`.
fn pull_after<S: Source>(bytes: &mut Vec<u8>, end: usize, source: &mut S) -> Result<usize, Failed>
    requires room { end < vec_len bytes.old }
    requires count { IsCountable (S.failed source.old) }
    ensures kept { take end bytes.new.items ≡ take end bytes.old.items }
    ensures len { vec_len bytes.new ≡ vec_len bytes.old }
    ensures within { IfOk result (λ n. end + n ≤ vec_len bytes.old) }
    ensures pulled { Pulls (S.left source.old) (S.left source.new) result (drop end bytes.new.items) }
    ensures counted { CountsFailure (S.failed source.old) (S.failed source.new) result }
{
    source.pull(&mut bytes[end..])
}

/// Moves a range that doesn't fill the buffer to its front, where no room is after it. Returns the
/// range's new start and end.
fn make_room(bytes: &mut Vec<u8>, start: usize, end: usize) -> (usize, usize)
    requires ordered { start ≤ end }
    requires within { end ≤ vec_len bytes.old }
    requires room { end - start < vec_len bytes.old }
    ensures ordered { result.0 ≤ result.1 }
    ensures room { result.1 < vec_len bytes.new }
    ensures len { vec_len bytes.new ≡ vec_len bytes.old }
    ensures same { slice_range bytes.new.items result.0 result.1 ≡ slice_range bytes.old.items start end }
{
    if end < bytes.len() {
        return (start, end);
    }
    bytes.copy_within(start..end, 0);
    (0, end - start)
}
