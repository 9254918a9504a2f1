//! Which ranges cover a position, as rows of ranges say it, and which rows are refused.
use crate::asserts::expect_equal;
use crate::selections::filled;
use lsif::{Profile, RequestKind};
use machine::{Covering, FoundRange};
use positions::Position;
use sample_stores::{opened, put_dump};
use samples::great::levels;
use samples::there;
use sqlite::{Connection, MemStore};
use std::alloc::Global;
use std::test::Fail;
use tables::{Tables, TablesFault};

/// `n` has a range of 0:0 to 0:20, and in it one of 0:5 to 0:8; `u` a range up to 0:5, one from
/// there, and an empty one at it; `b` a range of its line 0 and one of its line 2. `tagged` has
/// tags alone.
const PARTS: &str =
    "INSERT INTO slot (project, part) VALUES ('n', 1), ('u', 1), ('b', 1), ('tagged', 2);\
    INSERT INTO document (slot, uri) VALUES (1, 'n.ts'), (1, 'm.ts'), (2, 'u.ts'), (3, 'a.ts');\
    INSERT INTO range_row (slot, line, uri, first, last, parent, def, refs, hover) VALUES (1, 3, 'n.ts', 0, 20, NULL, 5, NULL, 6), (1, 4, 'n.ts', 5, 8, 3, NULL, 7, NULL),\
    (2, 3, 'u.ts', 0, 5, NULL, 6, NULL, NULL), (2, 4, 'u.ts', 5, 9, NULL, 7, NULL, NULL), (2, 5, 'u.ts', 5, 5, NULL, 8, NULL, NULL),\
    (3, 3, 'a.ts', 4, 7, NULL, 8, NULL, NULL), (3, 4, 'a.ts', 4294967296, 4294967299, NULL, 8, NULL, NULL);\
    INSERT INTO more (slot, line, decl, imp) VALUES (1, 3, 9, NULL), (1, 4, NULL, 10)";

/// A position of a document, and of each range that covers it the line, the characters of its start
/// and its end, and its result for the request; or what else is found. Declarations and
/// implementations alone are looked for in `more`.
#[derive(Drop)]
struct Row {
    /// A statement behind those of the parts.
    change: &'static str,
    request: RequestKind,
    project: &'static str,
    uri: &'static str,
    at: (u32, u32),
    found: &'static str,
}

const ROWS: &[Row] = &[
    Row {
        change: "",
        request: RequestKind::Definition,
        project: "n",
        uri: "n.ts",
        at: (0, 6),
        found: "[(4, 5, 8, None), (3, 0, 20, Some(5))]",
    },
    Row {
        change: "",
        request: RequestKind::Definition,
        project: "n",
        uri: "n.ts",
        at: (0, 10),
        found: "[(3, 0, 20, Some(5))]",
    },
    Row {
        change: "",
        request: RequestKind::Definition,
        project: "n",
        uri: "n.ts",
        at: (0, 30),
        found: "[]",
    },
    Row {
        change: "",
        request: RequestKind::Definition,
        project: "u",
        uri: "u.ts",
        at: (0, 5),
        found: "[(4, 5, 9, Some(7))]",
    },
    Row {
        change: "",
        request: RequestKind::Definition,
        project: "b",
        uri: "a.ts",
        at: (0, 3),
        found: "[]",
    },
    Row {
        change: "",
        request: RequestKind::Definition,
        project: "n",
        uri: "n.ts",
        at: (0, 5),
        found: "[(4, 5, 8, None), (3, 0, 20, Some(5))]",
    },
    Row {
        change: "",
        request: RequestKind::Definition,
        project: "n",
        uri: "n.ts",
        at: (0, 8),
        found: "[(3, 0, 20, Some(5))]",
    },
    Row {
        change: "",
        request: RequestKind::Definition,
        project: "n",
        uri: "n.ts",
        at: (1, 0),
        found: "[]",
    },
    Row {
        change: "",
        request: RequestKind::Definition,
        project: "n",
        uri: "m.ts",
        at: (0, 6),
        found: "[]",
    },
    Row {
        change: "",
        request: RequestKind::Definition,
        project: "u",
        uri: "u.ts",
        at: (0, 4),
        found: "[(3, 0, 5, Some(6))]",
    },
    Row {
        change: "",
        request: RequestKind::Definition,
        project: "b",
        uri: "a.ts",
        at: (2, 2),
        found: "[(4, 0, 3, Some(8))]",
    },
    Row {
        change: "",
        request: RequestKind::Definition,
        project: "b",
        uri: "a.ts",
        at: (1, 5),
        found: "[]",
    },
    Row {
        change: "",
        request: RequestKind::Definition,
        project: "n",
        uri: "a.ts",
        at: (0, 6),
        found: "no document",
    },
    Row {
        change: "",
        request: RequestKind::Definition,
        project: "zed",
        uri: "n.ts",
        at: (0, 6),
        found: "no dump",
    },
    Row {
        change: "",
        request: RequestKind::Definition,
        project: "tagged",
        uri: "n.ts",
        at: (0, 6),
        found: "no dump",
    },
    Row {
        change: "INSERT INTO range_row (slot, line, uri, first, last, parent) VALUES (1, 9, 'n.ts', 5, 6, 4)",
        request: RequestKind::Definition,
        project: "n",
        uri: "n.ts",
        at: (0, 5),
        found: "[(9, 5, 6, None), (4, 5, 8, None), (3, 0, 20, Some(5))]",
    },
    Row {
        change: "UPDATE range_row SET parent = 99 WHERE slot = 1 AND line = 4",
        request: RequestKind::Definition,
        project: "n",
        uri: "n.ts",
        at: (0, 6),
        found: "refused",
    },
    Row {
        change: "UPDATE range_row SET parent = 99 WHERE slot = 1 AND line = 4",
        request: RequestKind::Definition,
        project: "n",
        uri: "n.ts",
        at: (0, 4),
        found: "[(3, 0, 20, Some(5))]",
    },
    Row {
        change: "UPDATE range_row SET parent = 4 WHERE slot = 1",
        request: RequestKind::Definition,
        project: "n",
        uri: "n.ts",
        at: (0, 6),
        found: "refused",
    },
    Row {
        change: "UPDATE range_row SET parent = 4 WHERE slot = 1 AND line = 3",
        request: RequestKind::Definition,
        project: "n",
        uri: "n.ts",
        at: (0, 6),
        found: "refused",
    },
    Row {
        change: "UPDATE range_row SET uri = 'm.ts' WHERE slot = 1 AND line = 3",
        request: RequestKind::Definition,
        project: "n",
        uri: "n.ts",
        at: (0, 6),
        found: "refused",
    },
    Row {
        change: "UPDATE range_row SET first = -1 WHERE slot = 1 AND line = 3",
        request: RequestKind::Definition,
        project: "n",
        uri: "n.ts",
        at: (0, 6),
        found: "refused",
    },
    Row {
        change: "UPDATE range_row SET def = -1 WHERE slot = 1 AND line = 3",
        request: RequestKind::Definition,
        project: "n",
        uri: "n.ts",
        at: (0, 2),
        found: "refused",
    },
    Row {
        change: "",
        request: RequestKind::References,
        project: "n",
        uri: "n.ts",
        at: (0, 6),
        found: "[(4, 5, 8, Some(7)), (3, 0, 20, None)]",
    },
    Row {
        change: "",
        request: RequestKind::Hover,
        project: "n",
        uri: "n.ts",
        at: (0, 6),
        found: "[(4, 5, 8, None), (3, 0, 20, Some(6))]",
    },
    Row {
        change: "",
        request: RequestKind::Declaration,
        project: "n",
        uri: "n.ts",
        at: (0, 6),
        found: "[(4, 5, 8, None), (3, 0, 20, Some(9))]",
    },
    Row {
        change: "",
        request: RequestKind::Implementation,
        project: "n",
        uri: "n.ts",
        at: (0, 6),
        found: "[(4, 5, 8, Some(10)), (3, 0, 20, None)]",
    },
    Row {
        change: "UPDATE more SET imp = -1",
        request: RequestKind::Hover,
        project: "n",
        uri: "n.ts",
        at: (0, 6),
        found: "[(4, 5, 8, None), (3, 0, 20, Some(6))]",
    },
    Row {
        change: "UPDATE more SET imp = -1",
        request: RequestKind::Implementation,
        project: "n",
        uri: "n.ts",
        at: (0, 6),
        found: "refused",
    },
];

/// What is found of the ranges, as it's printed.
fn results_of(alloc: Global, ranges: &[FoundRange]) -> Result<String, Fail> {
    let mut results = Vec::new(alloc);
    for range in ranges {
        let (start, end) = (range.span.start(), range.span.end());
        results.push((range.line, start.character(), end.character(), range.result))?;
    }
    Ok(format!(in alloc; "{results:?}")?)
}

/// What is found at the position of a row, as it's printed.
fn found_at(alloc: Global, row: &Row) -> Result<String, Fail> {
    let mut tables = filled(alloc, PARTS, row.change)?;
    let (line, character) = row.at;
    let at = there(Position::new(line, character), "no position")?;
    let text = match tables.covering(alloc, row.request, row.project, row.uri, at) {
        Ok(Covering::Ranges(ranges)) => return results_of(alloc, &ranges),
        Ok(Covering::NoDump) => "no dump",
        Ok(Covering::NoDocument) => "no document",
        Err(TablesFault::Refused) => "refused",
        Err(_) => "another fault",
    };
    Ok(String::from_str(alloc, text)?)
}

#[test]
fn climb(rt: HostRuntime) -> Result<(), Fail> {
    for row in ROWS {
        let found = found_at(rt.alloc(), row)?;
        expect_equal(
            &rt,
            &(row.request, found.as_str()),
            &(row.request, row.found),
            row.change,
        );
    }
    Ok(())
}

/// The lines of the ranges that cover a position of the project `deep`.
fn lines_at(
    alloc: Global,
    tables: &mut Tables<MemStore>,
    character: u32,
) -> Result<Vec<u32>, Fail> {
    let at = there(Position::new(0, character), "no position")?;
    match tables.covering(alloc, RequestKind::Hover, "deep", "file:///a.ts", at) {
        Ok(Covering::Ranges(found)) => Ok(found.iter().map(|range| range.line).collect(alloc)?),
        Ok(Covering::NoDump | Covering::NoDocument) | Err(_) => Err("no ranges")?,
    }
}

/// Puts a dump with ranges of 10,000 levels.
fn put_levels(alloc: Global, tables: &mut Tables<MemStore>) -> Result<(), Fail> {
    let text = levels(alloc, false)?;
    Ok(put_dump(alloc, tables, "deep", "k", Profile::One, text.as_str())??)
}

#[test]
fn great_many_levels(rt: HostRuntime) -> Result<(), Fail> {
    let mut tables = opened(Connection::open_in_memory(rt.alloc())?)?;
    put_levels(rt.alloc(), &mut tables)?;
    let found = lines_at(rt.alloc(), &mut tables, 9_999)?;
    let wanted: Vec<u32> = (3..10_003).rev().collect(rt.alloc())?;
    assert!(rt; found.as_slice() == wanted.as_slice());
    Ok(())
}
