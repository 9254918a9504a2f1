//! The limits of requests and replies, each with the source of its number. `specs/Limits` says those
//! that contracts promise again, and `docs/API.md` those that a client meets.

/// The most bytes of a head, with the empty line that ends it; a longer one is H02. RFC 9112,
/// section 3, recommends 8,000 bytes at least for the request line.
pub(crate) const HEAD_LIMIT: usize = 8192;

/// The most lines of a head; one with more is H02.
pub(crate) const LINE_LIMIT: usize = 34;

/// The most fields of a head: of its lines one is the request line, and one is empty.
pub(crate) const FIELD_LIMIT: usize = LINE_LIMIT - 2;

/// The most bytes of a body, 32 MiB; a longer one is H04.
pub(crate) const BODY_LIMIT: usize = 33_554_432;

/// The most digits of `Content-Length`; more are H01. It's the greatest count of digits whose
/// numbers all fit a `u64`.
pub(crate) const LENGTH_DIGITS: usize = 19;

/// The bytes that the head of a reply has room for. It has at most 222 (`head` in `reply.rt`).
pub(crate) const REPLY_HEAD_LIMIT: usize = 256;

/// The most bytes of a reply that its first write takes, 64 KiB. No client depends on it;
/// `docs/inside/BENCH.md` has what one write in place of two saves.
pub(crate) const FIRST_BYTES: usize = 65_536;
