//! The rows of small dumps, and how many there may be.
use crate::asserts::{expect_equal, expect_equal_text};
use crate::plain::plain_rows;
use dump::CheckedDump;
use flatten::{FlattenFault, Rows, flatten, flatten_within};
use lsif::Profile;
use samples::named::{BASE, EXPORT, IMPORT, NESTED, RING, SAMPLES, TOUCHING};
use samples::{dump_of, made_dump, text_of};
use std::alloc::Global;
use std::process::Abort;
use std::test::Fail;

/// Two documents; ranges of three levels, and an empty one; a chain of result sets with results and
/// monikers.
const LEVELS: &str = "metaData 0.6.0
document file:///b.ts
document file:///a.ts
range 0:0 9:0
range 1:0 5:0
range 1:0 3:0
range 2:0 2:0
range 5:0 6:0
range 0:0 9:0
contains 2>[6,7,4,5,8]
contains 3>[9]
resultSet
resultSet
next 6>12
next 12>13
definitionResult
definitionResult
textDocument/definition 12>16
textDocument/definition 13>17
referenceResult
textDocument/references 13>20
moniker export s a
moniker local s a
moniker import s b
moniker 13>22
moniker 6>24
attach 22>23
item 16>[8,8,4] @2
item 16>[4] @2
item 20>[5] definitions @2
item 20>[5] references @2
moniker 13>23";

/// Two ranges whose chains lead to a vertex with a moniker: two marks of one vertex.
const MARKED: &str = "metaData 0.6.0
document file:///m.ts
range 0:0 0:1
range 1:0 1:1
resultSet
next 3>5
next 4>5
moniker local s a
moniker 5>8
contains 2>[3,4]";

/// A vertex with two monikers and no range: two bearers without a mark.
const BEARING: &str = "metaData 0.6.0
resultSet
moniker local s a
moniker local s b
moniker 2>3
moniker 2>4";

/// A vertex with a moniker to which another is attached twice: two bearers, and four pairs, since
/// each edge is read both ways.
const ATTACHED: &str = "metaData 0.6.0
resultSet
moniker local s a
moniker local s b
attach 3>4
attach 3>4
moniker 2>3";

/// Two reference results that lead to each other and have no item: two pairs of each.
const JOINED: &str = "metaData 0.6.0
document file:///j.ts
referenceResult
referenceResult
item 3>[4] referenceResults @2
item 4>[3] referenceResults @2";

/// These, and a dump of its first line alone.
const DUMPS: &[(&str, &str)] = &[
    ("metaData", "metaData 0.6.0"),
    ("levels", LEVELS),
    ("marked", MARKED),
    ("bearing", BEARING),
    ("attached", ATTACHED),
    ("joined", JOINED),
];

/// Whether both are the same rows.
fn are_same(found: &Rows<'_>, plain: &Rows<'_>) -> bool {
    found.profile == plain.profile
        && found.documents == plain.documents
        && found.ranges == plain.ranges
        && found.items == plain.items
        && found.hovers == plain.hovers
        && found.marks == plain.marks
        && found.bearers == plain.bearers
}

/// Whether these rows of the dump are those of a plain walk.
fn are_plain_rows(alloc: Global, dump: &CheckedDump, found: &Rows<'_>) -> Result<bool, Fail> {
    let plain = plain_rows(alloc, dump)?;
    Ok(are_same(found, &plain))
}

/// The same of the rows of a dump that is read by this profile.
fn are_plain(alloc: Global, profile: Profile, dump: &str) -> Result<bool, Fail> {
    let dump = made_dump(alloc, profile, text_of(alloc, dump))?;
    let found = flatten(alloc, &dump)?;
    are_plain_rows(alloc, &dump, &found)
}

/// Dumps, and what their rows say: the parents of ranges, the items, the marks and the bearers.
const WORKED: &[(&str, &str)] = &[
    (
        NESTED,
        "[(3, None), (4, Some(3))] [ItemRow { result: 5, role: Definitions, uri: \"file:///n.ts\", span: Span { start: Position { line: 0, character: 0 }, end: Position { line: 0, character: 20 } } }] [] []",
    ),
    (
        TOUCHING,
        "[(3, None), (4, None), (5, None)] [ItemRow { result: 6, role: Definitions, uri: \"file:///u.ts\", span: Span { start: Position { line: 0, character: 0 }, end: Position { line: 0, character: 5 } } }, ItemRow { result: 7, role: Definitions, uri: \"file:///u.ts\", span: Span { start: Position { line: 0, character: 5 }, end: Position { line: 0, character: 9 } } }, ItemRow { result: 8, role: Definitions, uri: \"file:///u.ts\", span: Span { start: Position { line: 0, character: 5 }, end: Position { line: 0, character: 5 } } }] [] []",
    ),
    (
        RING,
        "[(3, None), (4, None)] [ItemRow { result: 5, role: Definitions, uri: \"file:///c.ts\", span: Span { start: Position { line: 0, character: 0 }, end: Position { line: 0, character: 1 } } }, ItemRow { result: 5, role: References, uri: \"file:///c.ts\", span: Span { start: Position { line: 1, character: 0 }, end: Position { line: 1, character: 1 } } }, ItemRow { result: 6, role: Definitions, uri: \"file:///c.ts\", span: Span { start: Position { line: 0, character: 0 }, end: Position { line: 0, character: 1 } } }, ItemRow { result: 6, role: References, uri: \"file:///c.ts\", span: Span { start: Position { line: 1, character: 0 }, end: Position { line: 1, character: 1 } } }] [] []",
    ),
    (
        IMPORT,
        "[(3, None)] [] [MarkRow { range: 3, kind: Import, key: \"3:npm6:lib::f13:npm3:lib5:1.0.0\" }] [BearerRow { line: 3, key: \"3:npm6:lib::f13:npm3:lib5:1.0.0\", kind: Import, results: Results { numbers: [None, None, None, None, None] } }]",
    ),
    (
        EXPORT,
        "[(3, None)] [ItemRow { result: 8, role: Definitions, uri: \"file:///lib.ts\", span: Span { start: Position { line: 0, character: 9 }, end: Position { line: 0, character: 10 } } }] [MarkRow { range: 3, kind: Export, key: \"3:npm6:lib::f13:npm3:lib5:1.0.0\" }] [BearerRow { line: 3, key: \"3:npm6:lib::f13:npm3:lib5:1.0.0\", kind: Export, results: Results { numbers: [Some(8), None, None, None, None] } }]",
    ),
];

/// What these rows say.
fn rows_text(alloc: Global, rows: &Rows<'_>) -> Result<String, Fail> {
    let mut parents = Vec::new(alloc);
    for row in &rows.ranges {
        parents.push((row.line, row.parent))?;
    }
    Ok(format!(in alloc;
        "{parents:?} {:?} {:?} {:?}",
        rows.items, rows.marks, rows.bearers
    )?)
}

/// What the rows of the dump say.
fn said(alloc: Global, dump: &str) -> Result<String, Fail> {
    let dump = made_dump(alloc, Profile::One, text_of(alloc, dump))?;
    let rows = flatten(alloc, &dump)?;
    rows_text(alloc, &rows)
}

/// Asserts that the rows of these dumps are those of a plain walk, in both profiles. What doesn't
/// begin with metaData is none.
fn expect_plain<R: AllocGlobal + Abort>(rt: &R, dumps: &[(&str, &str)]) -> Result<(), Fail> {
    for (name, dump) in dumps {
        if dump.starts_with("metaData") {
            let one = are_plain(rt.alloc(), Profile::One, dump)?;
            let two = are_plain(rt.alloc(), Profile::Two, dump)?;
            expect_equal(rt, &(one, two), &(true, true), *name);
        }
    }
    Ok(())
}

#[test]
fn flat_rows(rt: HostRuntime) -> Result<(), Fail> {
    expect_plain(&rt, SAMPLES)?;
    expect_plain(&rt, DUMPS)
}

#[test]
fn worked_rows(rt: HostRuntime) -> Result<(), Fail> {
    for (dump, wanted) in WORKED {
        let found = said(rt.alloc(), *dump)?;
        expect_equal_text(&rt, found.as_str(), *wanted, *dump);
    }
    Ok(())
}

/// How many rows of each kind, and pairs of the walks for them, just do.
const LIMITS: &[(&str, usize)] = &[
    (BASE, 1),
    (RING, 6),
    (IMPORT, 1),
    (LEVELS, 6),
    (MARKED, 2),
    (BEARING, 2),
    (ATTACHED, 4),
    (JOINED, 4),
];

/// Whether the dump of this text is flattened within a limit.
fn is_enough(alloc: Global, text: &str, limit: usize) -> Result<bool, Fail> {
    let dump = dump_of(alloc, Profile::One, text)?;
    match flatten_within(alloc, &dump, limit) {
        Ok(_) => Ok(true),
        Err(FlattenFault::Memory) => Ok(false),
    }
}

/// The same where a text of 300 bytes comes after another. The text of a row counts as two more
/// rows then. Of the first dump the ranges are too much, of the second the items, and of the others
/// the marks and the bearers.
const LONG: &[(&str, &str, usize)] = &[
    (NESTED, "file:///", 4),
    (RING, "file:///", 18),
    (MARKED, "\"identifier\":\"", 6),
    (BEARING, "\"identifier\":\"", 6),
];

/// Asserts that so many rows just do for the dump of this text.
fn expect_enough<R: AllocGlobal + Abort>(rt: &R, text: &str, enough: usize) -> Result<(), Fail> {
    let less = is_enough(rt.alloc(), text, enough.saturating_sub(1))?;
    let found = is_enough(rt.alloc(), text, enough)?;
    expect_equal(rt, &(less, found), &(false, true), text);
    Ok(())
}

/// The text of a dump where 300 bytes more come after each text like this.
fn lengthened(alloc: Global, dump: &str, before: &str) -> Result<String, Fail> {
    let behind = "u".repeat(alloc, 300)?;
    let long = format!(in alloc; "{before}{behind}")?;
    let text = text_of(alloc, dump)?;
    Ok(text.replace(alloc, before, long.as_str())?)
}

#[test]
fn limits(rt: HostRuntime) -> Result<(), Fail> {
    let text = text_of(rt.alloc(), "metaData 0.6.0")?;
    assert!(rt; is_enough(rt.alloc(), text.as_str(), 0)?);
    for (dump, enough) in LIMITS {
        let text = text_of(rt.alloc(), *dump)?;
        expect_enough(&rt, text.as_str(), *enough)?;
    }
    for (dump, before, enough) in LONG {
        let text = lengthened(rt.alloc(), *dump, *before)?;
        expect_enough(&rt, text.as_str(), *enough)?;
    }
    Ok(())
}
