//! What the selections of an index find: the ranges that cover a position, places, marks, and
//! bearers of keys. How an index keeps them isn't known here. `specs/Selections`.
use flatten::Results;
use lsif::MonikerKind;
use positions::Span;
use std::rc::RcStr;

/// A range that covers a position.
#[derive(Clone, Copy, Debug, PartialEq, Eq, Drop)]
pub struct FoundRange {
    /// The range's line in the dump, counted from 1.
    pub line: u32,
    /// Its start and its end, which is exclusive.
    pub span: Span,
    /// The number of its first result for the request.
    pub result: Option<u32>,
}

/// What covers a position of a document.
#[derive(Debug, PartialEq, Eq, Drop)]
pub enum Covering {
    /// The project has no dump.
    NoDump,
    /// The dump has no such document.
    NoDocument,
    /// The ranges of the document that cover the position, the smallest first.
    Ranges(Vec<FoundRange>),
}

/// A place of a result: that of a range that is an item of it, or of a result that it leads to.
/// Ordered by document and span.
#[derive(Debug, PartialEq, Eq, PartialOrd, Ord, Drop)]
pub struct FoundItem {
    /// The serialized URL of the document, shared among items of one answer.
    pub uri: RcStr,
    /// The start of the range and its end, which is exclusive.
    pub span: Span,
}

/// A mark of a range: the kind and the text of the key of a moniker that the range, or another
/// member of its chain, has.
#[derive(Debug, PartialEq, Eq, Drop)]
pub struct FoundMark {
    pub kind: MonikerKind,
    /// As `flatten::key_text` makes it.
    pub key: String,
}

/// A bearer of a key: a vertex of a project's dump that has a moniker with the key itself.
#[derive(Debug, PartialEq, Eq, Drop)]
pub struct FoundBearer {
    pub project: String,
    /// The vertex's line in the dump, counted from 1.
    pub line: u32,
    pub kind: MonikerKind,
    /// The numbers of its first results.
    pub results: Results,
}
