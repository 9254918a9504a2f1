//! The limits of a tags file, each with the source of its number.

/// The most bytes of a line, with its CR and without its LF: 64 KiB, a limit of this server.
pub const LONGEST_LINE: usize = 65536;

/// The most lines of a tags file, a limit of this server.
pub(crate) const MOST_LINES: u32 = 100000;

/// The greatest number of a line in an address: tags(5) names none, so it's that of lines in
/// positions (Language Server Protocol 3.17, "uinteger").
pub(crate) const GREATEST_NUMBER: u64 = 2147483647;
