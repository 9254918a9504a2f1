//! The messages that errors of several crates share, as the program prints them.

/// Memory was refused.
pub const OUT_OF_MEMORY: &str = "out of memory";

/// A reader failed, or a file can't be opened.
pub const CANNOT_READ: &str = "cannot read the file";

/// A writer failed, or took no byte.
pub const CANNOT_WRITE: &str = "cannot write the output";
