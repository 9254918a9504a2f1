//! The limits of lines and of what they spell, each with the source of its number. Coordinates have
//! that of `positions`.

/// The greatest length of a line of a dump, in bytes, without its line feed: 1 MiB, a limit of this
/// server.
pub const LONGEST_LINE: usize = 1048576;

/// The greatest number that is an id: `Number.MAX_SAFE_INTEGER` of JavaScript (ECMA-262), the last
/// of the numbers that it tells from their neighbours.
pub(crate) const GREATEST_ID: u64 = 9007199254740991;

/// The greatest length of an id's text, in bytes, a limit of this server.
pub(crate) const LONGEST_ID: usize = 128;
