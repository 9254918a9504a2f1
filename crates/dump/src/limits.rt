//! The limits of a dump, each with the source of its number.

/// The most elements of a dump, a limit of this server; one with more is L20.
pub(crate) const MOST_ELEMENTS: usize = 100000;

/// Ids that are numbers below it have a slot each: the first power of two above the most elements,
/// so that a dump whose elements are numbered in turn needs no map.
pub(crate) const SLOTS: u32 = 131072;
