//! What bounds the memory of a reader of lines.

/// How many bytes a reader is asked for at a time, 64 KiB. No answer depends on it.
pub(crate) const BUFFER_LEN: usize = 65536;
