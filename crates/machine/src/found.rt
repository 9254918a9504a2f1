//! What queries find, as replies are made of it: places, tags and projects. How they're found isn't
//! known here, so that each desk makes the same replies. `specs/Found`.
use positions::Span;
use tags::Tag;

/// A place in a project.
#[derive(Clone, Copy, Debug, PartialEq, Eq, PartialOrd, Ord)]
pub struct FoundPlace<'a> {
    pub project: &'a str,
    /// The document's serialized URL.
    pub uri: &'a str,
    /// The place in the document, in UTF-16 code units.
    pub span: &'a Span,
}

/// A tag of a project.
#[derive(Debug, PartialEq, Eq, Drop)]
pub struct FoundTag {
    pub project: String,
    pub tag: Tag,
}

/// A project with a dump or tags, and which of them it has.
#[derive(Debug, PartialEq, Eq, Drop)]
pub struct FoundProject {
    pub name: String,
    pub dump: bool,
    pub tags: bool,
}
