//! The limits of the rows of a dump, which are this server's. `specs/Limits`.

/// How many rows of a kind there may be, and how many pairs the walks for them may follow. Each 128
/// bytes of the texts of rows, which the tables keep row by row, count as one more row. So the
/// texts of a kind have some 512 MB at most.
pub(crate) const MOST_ROWS: usize = 4000000;

/// How many bytes of the texts of rows count as a row.
pub(crate) const TEXT_BYTES: usize = 128;
