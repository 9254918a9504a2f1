//! The types of rows, and the rows of a whole dump. `specs/Flat` defines which rows a dump has,
//! `specs/Rows` their values.
use crate::results::Results;
use dump::Role;
use lsif::{MonikerKind, Profile};
use positions::Span;
use std::rc::RcStr;

/// A document.
#[derive(Clone, Copy, Debug, PartialEq, Eq, PartialOrd, Ord)]
pub struct DocRow<'a> {
    /// Its serialized URL.
    pub uri: &'a str,
}

/// A range that a document contains (LSIF 0.6.0, "range").
#[derive(Clone, Copy, Debug, PartialEq, Eq)]
pub struct RangeRow<'a> {
    /// Its line in the dump, counted from 1.
    pub line: u32,
    /// The serialized URL of the document.
    pub uri: &'a str,
    /// Its start and its end, which is exclusive.
    pub span: &'a Span,
    /// The line of the smallest other nonempty range of the document in which it nests, where it
    /// isn't empty itself.
    pub parent: Option<u32>,
    /// The numbers of its first results.
    pub results: Results,
}

/// A place of a result: that of a range that is an item of it, or of a result that it leads to.
#[derive(Clone, Copy, Debug, PartialEq, Eq)]
pub struct ItemRow<'a> {
    /// The result's number.
    pub result: u32,
    pub role: Role,
    /// The serialized URL of the document.
    pub uri: &'a str,
    /// The start of the range and its end, which is exclusive.
    pub span: &'a Span,
}

/// A hover result that a dump has (LSIF 0.6.0, "hoverResult").
#[derive(Clone, Copy, Debug, PartialEq, Eq)]
pub struct HoverRow<'a> {
    /// Its number.
    pub result: u32,
    /// Compact JSON.
    pub contents: &'a str,
}

/// A mark of a range: the kind and the key's text of a moniker that the range, or another member of
/// its chain, has.
#[derive(Debug, PartialEq, Eq, Drop)]
pub struct MarkRow {
    /// The range's line, counted from 1.
    pub range: u32,
    pub kind: MonikerKind,
    /// As `key_text` makes it, shared among the rows of a moniker.
    pub key: RcStr,
}

/// A mark that a vertex has itself, not along its chain, with the first results of the vertex. Such
/// a vertex is a bearer of the mark.
#[derive(Debug, PartialEq, Eq, Drop)]
pub struct BearerRow {
    /// The vertex's line, counted from 1.
    pub line: u32,
    /// As `key_text` makes it, shared among the rows of a moniker.
    pub key: RcStr,
    pub kind: MonikerKind,
    /// The numbers of its first results.
    pub results: Results,
}

/// What a dump says, as rows: those of each kind in order, each once.
#[derive(Debug, Drop)]
pub struct Rows<'a> {
    /// The profile that the dump was read by.
    pub profile: Profile,
    /// By uri (its bytes).
    pub documents: Vec<DocRow<'a>>,
    /// By line.
    pub ranges: Vec<RangeRow<'a>>,
    /// By result, role and place.
    pub items: Vec<ItemRow<'a>>,
    /// By result.
    pub hovers: Vec<HoverRow<'a>>,
    /// By range, kind and key.
    pub marks: Vec<MarkRow>,
    /// By line, kind and key.
    pub bearers: Vec<BearerRow>,
}
