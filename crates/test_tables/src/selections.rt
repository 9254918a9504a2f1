//! What selections find in a database that statements filled, and which rows they refuse.
use crate::asserts::expect_equal_text;
use dump::Role;
use sample_stores::opened;
use sqlite::{Connection, MemStore};
use std::alloc::Global;
use std::fmt::Debug;
use std::rc::RcStr;
use std::test::Fail;
use tables::{Tables, TablesFault};

/// `app` has a dump of profile 2, `lib` a dump of profile 1 and tags, and `tagged` tags alone. A
/// reply is kept for `old`.
const PARTS: &str =
    "INSERT INTO slot (project, part) VALUES ('lib', 2), ('tagged', 2), ('app', 1), ('lib', 1);\
    INSERT INTO part_profile (slot, profile) VALUES (3, 2), (4, 1);\
    INSERT INTO keyed (project, cmdkey, reply) VALUES ('old', 'd1', '{\"removed\":true}');\
    INSERT INTO hover (slot, result, contents) VALUES (3, 7, '[1]'), (4, 7, '[2]');\
    INSERT INTO mark (slot, line, kind, keytext) VALUES (3, 5, 0, 'f'), (3, 5, 0, 'g'), (3, 5, 1, 'f'), (4, 5, 1, 'h');\
    INSERT INTO item (slot, result, role, uri, first, last) VALUES (3, 9, 0, 'a:b', 5, 8), (3, 9, 0, 'a:b', 4294967296, 4294967299), (3, 9, 1, 'a:b', 0, 3);\
    INSERT INTO bearer (slot, line, keytext, kind, def, refs, hover) VALUES (3, 12, 'f', 0, 2, 3, NULL), (3, 12, 'g', 0, 2, 3, NULL), (3, 13, 'f', 0, NULL, NULL, NULL), (4, 11, 'f', 1, 9, NULL, 7);\
    INSERT INTO more (slot, line, decl, imp) VALUES (3, 12, NULL, 4), (4, 11, 8, NULL)";

/// A call of the tables.
#[derive(Clone, Copy, Drop)]
enum Ask {
    Reply(&'static str, &'static str),
    Profile(&'static str),
    Projects,
    Hover(&'static str, u32),
    Marks(&'static str, u32),
    Items(&'static str, u32, Role),
    Bearers(&'static str),
}

/// A statement behind those of the parts, a call, and the text of what it finds, or none where it
/// is refused.
#[derive(Drop)]
struct Row {
    change: &'static str,
    ask: Ask,
    found: Option<&'static str>,
}

const ROWS: &[Row] = &[
    Row {
        change: "",
        ask: Ask::Reply("old", "d1"),
        found: Some("Some(\"{\\\"removed\\\":true}\")"),
    },
    Row {
        change: "",
        ask: Ask::Reply("d1", "old"),
        found: Some("None"),
    },
    Row {
        change: "",
        ask: Ask::Profile("app"),
        found: Some("Some(Two)"),
    },
    Row {
        change: "",
        ask: Ask::Profile("lib"),
        found: Some("Some(One)"),
    },
    Row {
        change: "",
        ask: Ask::Profile("tagged"),
        found: Some("None"),
    },
    Row {
        change: "UPDATE part_profile SET profile = 3",
        ask: Ask::Profile("app"),
        found: None,
    },
    Row {
        change: "DELETE FROM part_profile",
        ask: Ask::Profile("app"),
        found: None,
    },
    Row {
        change: "",
        ask: Ask::Projects,
        found: Some(
            "[FoundProject { name: \"app\", dump: true, tags: false }, FoundProject { name: \"lib\", dump: true, tags: true }, FoundProject { name: \"tagged\", dump: false, tags: true }]",
        ),
    },
    Row {
        change: "DELETE FROM slot",
        ask: Ask::Projects,
        found: Some("[]"),
    },
    Row {
        change: "UPDATE slot SET part = 7 WHERE project = 'app'",
        ask: Ask::Projects,
        found: None,
    },
    Row {
        change: "",
        ask: Ask::Hover("app", 7),
        found: Some("Some(\"[1]\")"),
    },
    Row {
        change: "",
        ask: Ask::Hover("lib", 7),
        found: Some("Some(\"[2]\")"),
    },
    Row {
        change: "",
        ask: Ask::Hover("app", 8),
        found: Some("None"),
    },
    Row {
        change: "",
        ask: Ask::Hover("tagged", 7),
        found: Some("None"),
    },
    Row {
        change: "",
        ask: Ask::Marks("app", 5),
        found: Some(
            "[FoundMark { kind: Import, key: \"f\" }, FoundMark { kind: Import, key: \"g\" }, FoundMark { kind: Export, key: \"f\" }]",
        ),
    },
    Row {
        change: "",
        ask: Ask::Marks("lib", 6),
        found: Some("[]"),
    },
    Row {
        change: "UPDATE mark SET kind = 3 WHERE kind = 1",
        ask: Ask::Marks("app", 5),
        found: None,
    },
    Row {
        change: "",
        ask: Ask::Items("app", 9, Role::Definitions),
        found: Some(
            "[FoundItem { uri: \"a:b\", span: Span { start: Position { line: 0, character: 5 }, end: Position { line: 0, character: 8 } } }, FoundItem { uri: \"a:b\", span: Span { start: Position { line: 2, character: 0 }, end: Position { line: 2, character: 3 } } }]",
        ),
    },
    Row {
        change: "",
        ask: Ask::Items("app", 9, Role::References),
        found: Some(
            "[FoundItem { uri: \"a:b\", span: Span { start: Position { line: 0, character: 0 }, end: Position { line: 0, character: 3 } } }]",
        ),
    },
    Row {
        change: "",
        ask: Ask::Items("lib", 9, Role::References),
        found: Some("[]"),
    },
    Row {
        change: "UPDATE item SET last = 4 WHERE first = 5",
        ask: Ask::Items("app", 9, Role::Definitions),
        found: None,
    },
    Row {
        change: "UPDATE item SET first = -1 WHERE first = 5",
        ask: Ask::Items("app", 9, Role::Definitions),
        found: None,
    },
    Row {
        change: "",
        ask: Ask::Bearers("f"),
        found: Some(
            "[FoundBearer { project: \"app\", line: 12, kind: Import, results: Results { numbers: [Some(2), Some(3), None, None, Some(4)] } }, FoundBearer { project: \"app\", line: 13, kind: Import, results: Results { numbers: [None, None, None, None, None] } }, FoundBearer { project: \"lib\", line: 11, kind: Export, results: Results { numbers: [Some(9), None, Some(7), Some(8), None] } }]",
        ),
    },
    Row {
        change: "",
        ask: Ask::Bearers("h"),
        found: Some("[]"),
    },
    Row {
        change: "UPDATE bearer SET def = 4294967296",
        ask: Ask::Bearers("f"),
        found: None,
    },
    Row {
        change: "UPDATE more SET imp = -1",
        ask: Ask::Bearers("f"),
        found: None,
    },
    Row {
        change: "DROP TABLE bearer;CREATE TABLE bearer (slot INTEGER, line INTEGER, keytext TEXT, kind INTEGER, def INTEGER, refs INTEGER, hover INTEGER) STRICT;INSERT INTO bearer (slot, line, keytext, kind) VALUES (9, 11, 'f', 1)",
        ask: Ask::Bearers("f"),
        found: None,
    },
    Row {
        change: "DELETE FROM slot WHERE project = 'app'",
        ask: Ask::Bearers("g"),
        found: Some("[]"),
    },
];

/// The text of what was found.
fn text_of<T: Debug + Drop>(
    alloc: Global,
    found: Result<T, TablesFault>,
) -> Result<String, TablesFault> {
    let found = found?;
    match format!(in alloc; "{found:?}") {
        Ok(text) => Ok(text),
        Err(_) => Err(TablesFault::Memory),
    }
}

/// The text of what a call finds.
fn answer(alloc: Global, tables: &mut Tables<MemStore>, ask: Ask) -> Result<String, TablesFault> {
    match ask {
        Ask::Reply(project, key) => text_of(alloc, tables.kept_reply(project, key)),
        Ask::Profile(project) => text_of(alloc, tables.profile(project)),
        Ask::Projects => text_of(alloc, tables.projects(alloc)),
        Ask::Hover(project, number) => text_of(alloc, tables.hover(project, number)),
        Ask::Marks(project, line) => text_of(alloc, tables.marks(alloc, project, line)),
        Ask::Items(project, number, role) => {
            text_of(alloc, tables.items(alloc, project, number, role))
        }
        Ask::Bearers(key) => text_of(alloc, tables.bearers(alloc, key)),
    }
}

/// Tables that the statements fill and change.
pub(crate) fn filled(alloc: Global, parts: &str, change: &str) -> Result<Tables<MemStore>, Fail> {
    let mut conn = opened(Connection::open_in_memory(alloc)?)?.into_connection();
    conn.execute_batch(parts)?;
    conn.execute_batch(change)?;
    opened(conn)
}

/// What is found in the tables of a row, or that they refuse.
fn found(alloc: Global, row: &Row) -> Result<String, Fail> {
    let mut tables = filled(alloc, PARTS, row.change)?;
    match answer(alloc, &mut tables, row.ask) {
        Ok(text) => Ok(text),
        Err(TablesFault::Refused) => Ok(String::from_str(alloc, "refused")?),
        Err(fault) => Err(Fail::from(fault)),
    }
}

#[test]
fn selects(rt: HostRuntime) -> Result<(), Fail> {
    for row in ROWS {
        let found = found(rt.alloc(), row)?;
        let wanted = row.found.unwrap_or("refused");
        expect_equal_text(&rt, found.as_str(), wanted, row.change);
    }
    Ok(())
}

/// The items of an answer share the text of their uri.
#[test]
fn shared_uri(rt: HostRuntime) -> Result<(), Fail> {
    let mut tables = filled(rt.alloc(), PARTS, "")?;
    let found = tables.items(rt.alloc(), "app", 9, Role::Definitions)?;
    let (Some(first), Some(last)) = (found.first(), found.last()) else {
        return Err("no items")?;
    };
    assert!(rt; found.len() == 2 && RcStr::ptr_eq(&first.uri, &last.uri));
    Ok(())
}
