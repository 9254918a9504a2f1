//! Dumps that are fed or read, the faults that are returned for good, and the look-ups of a checked
//! dump. Reports of dumps of each label and each fault are in the crate `test_calls`
//! (`labels.rt`, `faults.rt`).
mod requests;
mod spans;

use crate::asserts::{expect_equal, expect_equal_text};
use dump::{
    CheckedDump, Checker, Role, chain_law, container_law, ends_law, fault_law, hover_law, line_law,
    listing_law, nesting_law, own_law, path_law, pick_law, read_dump, read_line, role_of, uri_law,
    vertex_law,
};
use lsif::{Id, IdRef, Profile, Property, REQUESTS, Vertex};
use samples::{made_dump, text_of};
use std::alloc::Global;
use std::process::Abort;
use std::test::Fail;
use streams::Counted;

const META_DATA: &str = r#"{"id":1,"type":"vertex","label":"metaData","version":"0.6.0"}"#;

const DOCUMENT: &str = r#"{"id":2,"type":"vertex","label":"document","uri":"file:///a.ts"}"#;

/// What is answered for an element, a fault of shape, another element and a line that is too long,
/// and at the end; and at the end of no line.
const FED: &str =
    "[Ok(()), Err(Line(LineFault { line: 2, code: L02 })), Err(Line(LineFault { line: 2, code: L02 })), Err(Line(LineFault { line: 2, code: L02 }))] \
Some(Line(LineFault { line: 2, code: L02 })) Some(Line(LineFault { line: 1, code: L06 }))";

/// The profile of a checker, and what it answers to the lines.
fn fed_to(alloc: Global, checker: &mut Checker) -> Result<String, Fail> {
    let profile = checker.profile();
    let mut answers = Vec::new(alloc);
    for &line in &[Some(META_DATA), Some("{"), Some(DOCUMENT), None] {
        let reading = read_line(alloc, profile, line.map(str::as_bytes))?;
        answers.push(checker.feed(reading))?;
    }
    Ok(format!(in alloc; "{profile:?} {answers:?}")?)
}

/// The same of a new checker, and what it answers at the end, and another at the end of no line.
fn fed(alloc: Global, profile: Profile) -> Result<String, Fail> {
    let mut checker = Checker::new(alloc, profile);
    let found = fed_to(alloc, &mut checker);
    let end = checker.finish().err();
    let of_none = Checker::new(alloc, profile).finish().err();
    Ok(format!(in alloc; "{} {end:?} {of_none:?}", found?)?)
}

/// The profile of the dump of a text, and how many elements it has; or its fault.
fn read(alloc: Global, profile: Profile, text: &str) -> Result<String, Fail> {
    match read_dump(alloc, profile, &mut Counted::new(text.as_bytes())) {
        Ok(dump) => {
            let text = format!(in alloc; "{:?} {}", dump.profile(), dump.elements().len());
            drop(dump);
            Ok(text?)
        }
        Err(fault) => Ok(format!(in alloc; "{fault:?}")?),
    }
}

/// Asserts what is read of a text.
fn expect_read<R: AllocGlobal + Abort>(
    rt: &R,
    profile: Profile,
    text: &str,
    wanted: &str,
) -> Result<(), Fail> {
    let found = read(rt.alloc(), profile, text)?;
    expect_equal_text(rt, found.as_str(), wanted, text);
    Ok(())
}

#[test]
fn fed_and_read_dumps(rt: HostRuntime) -> Result<(), Fail> {
    let sound = format!(in rt.alloc(); "{META_DATA}\n{DOCUMENT}")?;
    let faulty = format!(in rt.alloc(); "{META_DATA}\n\n{DOCUMENT}\n")?;
    for (profile, wanted) in &[(Profile::One, "One 2"), (Profile::Two, "Two 2")] {
        expect_read(&rt, *profile, sound.as_str(), *wanted)?;
        expect_read(
            &rt,
            *profile,
            faulty.as_str(),
            "Line(LineFault { line: 2, code: L02 })",
        )?;
        let found = fed(rt.alloc(), *profile)?;
        let wanted = format!(in rt.alloc(); "{profile:?} {FED}")?;
        expect_equal_text(&rt, found.as_str(), wanted.as_str(), "fed");
    }
    Ok(())
}

/// A dump with answers to all that is asked. Range 3 begins a chain of 5 and 6, of which either has
/// results. The last `contains` edge is the element of line 23.
const FULL: &str = r#"metaData 0.6.0
document file:///a.ts
range 0:4 0:7
#5 resultSet
#6 resultSet
#7 next 3>5
#'7' next 5>6
#8 definitionResult
#9 definitionResult
#10 textDocument/definition 6>9
#11 textDocument/definition 5>8
#20 referenceResult
#21 textDocument/references 6>20
#22 hoverResult "x"
#23 textDocument/hover 5>22
#24 moniker local s i
#25 packageInformation 'manager':'m','name':'n'
#26 packageInformation 24>25
#30 declarationResult
#31 textDocument/declaration 6>30
#32 implementationResult
#33 textDocument/implementation 5>32
#12 contains 2>[3]
#40 document file:///b.ts"#;

/// The number of the id that is found: 0 for none.
fn number(found: Option<&Id>) -> u64 {
    match found {
        Some(Id::Number(number)) => *number,
        Some(Id::Text(_)) => u64::MAX,
        None => 0,
    }
}

/// Of this vertex the first result for each request along its chain, and its package; what its
/// `next` edge leads to; and the results that it has itself.
fn found_of(alloc: Global, dump: &CheckedDump, vertex: u64) -> Result<String, Fail> {
    let id = Id::Number(vertex);
    let mut found = format!(in alloc; "{vertex}:")?;
    for request in REQUESTS {
        write!(found, " {}", number(dump.first(request, &id)))?;
    }
    let (package, next) = (number(dump.package_of(&id)), number(dump.next(&id)));
    write!(found, " {package}, next {next}, own")?;
    for request in REQUESTS {
        write!(found, " {}", number(dump.result(request, &id)))?;
    }
    found.push('\n')?;
    Ok(found)
}

/// In profile 1 nothing is a declaration or an implementation.
const FOUND_IN_ONE: &str = "\
3: 8 20 22 0 0 0, next 5, own 0 0 0 0 0
5: 8 20 22 0 0 0, next 6, own 8 0 22 0 0
6: 9 20 0 0 0 0, next 0, own 9 20 0 0 0
2: 0 0 0 0 0 0, next 0, own 0 0 0 0 0
24: 0 0 0 0 0 25, next 0, own 0 0 0 0 0
25: 0 0 0 0 0 0, next 0, own 0 0 0 0 0
document range none, true false, 2, 2 40 0";

const FOUND_IN_TWO: &str = "\
3: 8 20 22 30 32 0, next 5, own 0 0 0 0 0
5: 8 20 22 30 32 0, next 6, own 8 0 22 0 32
6: 9 20 0 30 0 0, next 0, own 9 20 0 30 0
2: 0 0 0 0 0 0, next 0, own 0 0 0 0 0
24: 0 0 0 0 0 25, next 0, own 0 0 0 0 0
25: 0 0 0 0 0 0, next 0, own 0 0 0 0 0
document range none, true false, 2, 2 40 0";

/// What kind of vertex the id of this number is.
fn kind(dump: &CheckedDump, id: u64) -> &'static str {
    match dump.vertex_at(IdRef::Number(id)) {
        Some(Vertex::Document(_)) => "document",
        Some(Vertex::Range(_)) => "range",
        Some(_) => "another",
        None => "none",
    }
}

/// The kinds of a document, a range and an edge; whether the range is in the document, and the
/// document in the range; the document that contains the range; and the documents of two serialized
/// URLs, and of one that no document has.
fn kinds_and_documents(alloc: Global, dump: &CheckedDump) -> Result<String, Fail> {
    let (document, range) = (IdRef::Number(2), IdRef::Number(3));
    let (inside, around) = (dump.is_in(document, range), dump.is_in(range, document));
    let container = number(dump.container(range));
    let (first, second, third) = (
        number(dump.document_of("file:///a.ts")),
        number(dump.document_of("file:///b.ts")),
        number(dump.document_of("file:///c.ts")),
    );
    Ok(format!(in alloc;
        "{} {} {}, {inside} {around}, {container}, {first} {second} {third}",
        kind(dump, 2),
        kind(dump, 3),
        kind(dump, 12)
    )?)
}

/// What is found in this dump, which has the vertices of the full dump.
fn found_in(alloc: Global, dump: &CheckedDump) -> Result<String, Fail> {
    let mut found = String::new(alloc);
    for vertex in &[3, 5, 6, 2, 24, 25] {
        found.push_str(found_of(alloc, dump, *vertex)?.as_str())?;
    }
    found.push_str(kinds_and_documents(alloc, dump)?.as_str())?;
    Ok(found)
}

/// What is found in the full dump.
fn look_up(alloc: Global, profile: Profile) -> Result<String, Fail> {
    let dump = made_dump(alloc, profile, text_of(alloc, FULL))?;
    found_in(alloc, &dump)
}

#[test]
fn look_ups(rt: HostRuntime) -> Result<(), Fail> {
    for &(profile, wanted) in &[(Profile::One, FOUND_IN_ONE), (Profile::Two, FOUND_IN_TWO)] {
        let found = look_up(rt.alloc(), profile)?;
        expect_equal_text(&rt, found.as_str(), wanted, "look-ups");
    }
    Ok(())
}

/// A dump of vertices and an edge whose ids are numbers and texts. Numbers below 131072 have a slot
/// in the table of ids.
const IDS: &str = "#3 metaData 0.6.0
#0 resultSet
#131071 resultSet
#131072 resultSet
#9007199254740991 resultSet
#'3' resultSet
#'131072' resultSet
#'x' resultSet
#7 next 0>131071";

/// Ids, a text after a quotation mark, and the index of the element that has each.
const INDEXES: &[(&str, Option<u32>)] = &[
    ("3", Some(0)),
    ("0", Some(1)),
    ("131071", Some(2)),
    ("131072", Some(3)),
    ("9007199254740991", Some(4)),
    ("'3", Some(5)),
    ("'131072", Some(6)),
    ("'x", Some(7)),
    ("7", Some(8)),
    ("'7", None),
    ("1", None),
    ("2", None),
    ("131070", None),
    ("131073", None),
    ("'0", None),
    ("'131071", None),
];

/// The id that is written so.
fn id(alloc: Global, short: &str) -> Result<Id, Fail> {
    match short.strip_prefix('\'') {
        Some(text) => Ok(Id::Text(String::from_str(alloc, text)?)),
        None => Ok(Id::Number(short.parse::<u64>()?)),
    }
}

/// The index of the element that has this id.
fn line_of(alloc: Global, dump: &CheckedDump, short: &str) -> Result<Option<u32>, Fail> {
    let id = id(alloc, short)?;
    Ok(dump.line_of(id.lent()))
}

/// Asserts the index of each.
fn expect_indexes<R: AllocGlobal + Abort>(rt: &R, dump: &CheckedDump) -> Result<(), Fail> {
    for (short, wanted) in INDEXES {
        let found = line_of(rt.alloc(), dump, *short)?;
        expect_equal(rt, &found, wanted, *short);
    }
    Ok(())
}

#[test]
fn index_of_each_id(rt: HostRuntime) -> Result<(), Fail> {
    let dump = made_dump(rt.alloc(), Profile::One, text_of(rt.alloc(), IDS))?;
    expect_indexes(&rt, &dump)
}

/// Properties of `item` edges with the role of their targets.
const ROLES: &[(Option<Property>, Option<Role>)] = &[
    (None, Some(Role::Definitions)),
    (Some(Property::Definitions), Some(Role::Definitions)),
    (Some(Property::References), Some(Role::References)),
    (Some(Property::ReferenceResults), None),
];

#[test]
fn roles_and_laws(rt: HostRuntime) -> Result<(), Fail> {
    for &(property, role) in ROLES {
        expect_equal(&rt, &(property, role_of(property)), &(property, role), "");
    }
    fault_law();
    path_law();
    chain_law();
    ends_law();
    line_law();
    container_law();
    nesting_law();
    vertex_law();
    uri_law();
    own_law();
    hover_law();
    listing_law();
    pick_law();
    Ok(())
}
