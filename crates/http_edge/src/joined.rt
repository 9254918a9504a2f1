//! The first write of a reply: its head and the beginning of its body in one piece. A reply of at
//! most `FIRST_BYTES` is passed to the writer whole: where this takes all of it at once, no client
//! has a head without its body. What follows is in `reply.rt`.
ghost use Rattle.std.specs.Prelude.{◌≡◌, ℕ, ◌+◌, ◌≤◌, List, [], ◌++◌, take, IfOk, length, vec_capacity};
ghost use Rattle.http_edge.specs.Limits.{first_bytes};

use crate::limits::{FIRST_BYTES, REPLY_HEAD_LIMIT};
use std::alloc::{AllocError, Global};
use std::marker::Model;
use streams::append;

/// Room for the bytes of the first write. It's made once, so that no reply takes memory for it.
#[derive(Drop)]
pub(crate) struct Joined {
    bytes: Vec<u8>,
}

impl Model for Joined {
    ghost use Rattle.std.specs.Prelude.{ℕ, ◌≤◌, List, vec_capacity};
    ghost use Rattle.http_edge.specs.Limits.{first_bytes};

    ghost Value = { List ℕ };

    ghost view = { λ j. j.bytes.items };

    ghost invariant = { λ j. first_bytes ≤ vec_capacity j.bytes };
}

impl Joined {
    /// Room that holds no byte yet.
    pub(crate) fn new(alloc: Global) -> Result<Joined, AllocError>
        ensures { IfOk result (λ j. j ≡ []) }
    {
        let bytes = Vec::with_capacity(alloc, FIRST_BYTES)?;
        Ok(Joined { bytes })
    }

    /// The bytes that were joined.
    pub(crate) fn bytes(&self) -> &[u8]
        ensures { result.now ≡ self.now }
    {
        self.bytes.as_slice()
    }

    /// Joins a head and as many bytes of a body as there is room for, and returns how many these
    /// are. They are all, where both have at most `FIRST_BYTES`.
    pub(crate) fn join(&mut self, head: &[u8], body: &[u8]) -> usize
        requires { length head.now ≤ REPLY_HEAD_LIMIT }
        ensures within { result ≤ length body.now }
        ensures whole { length head.now + length body.now ≤ first_bytes → result ≡ length body.now }
        ensures bytes { self.new ≡ head.now ++ take result body.now }
    {
        let count = body.len().min(FIRST_BYTES - head.len());
        self.bytes.clear();
        append(&mut self.bytes, head);
        append(&mut self.bytes, &body[..count]);
        count
    }
}
