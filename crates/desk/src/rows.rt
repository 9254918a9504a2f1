//! Queries, answered by the rows that the selections of an index find: the range that answers a
//! request at a position, the vertices of other projects that are joined to it, the results of
//! both, and their places or contents. `specs/Answers` of the crate `machine` says what the answers
//! are; `specs/Steps/Rows` says which rows are meant in between.
pub(crate) mod bearers;
pub(crate) mod hovers;
pub(crate) mod places;
pub(crate) mod queries;
pub(crate) mod ranges;
pub(crate) mod results;
