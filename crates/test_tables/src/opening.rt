//! Which fault the opening and the migration of a database answer, and that tables of other names
//! don't count.
use crate::asserts::{expect_equal, expect_equal_text};
use sample_stores::opened;
use sqlite::{Alter, Connection};
use std::alloc::Global;
use std::test::Fail;
use tables::{Tables, TablesFault, migrate};

/// The tables of format 1, as they were made.
pub(crate) const FORMAT_ONE: &str = "CREATE TABLE format (version INTEGER PRIMARY KEY) STRICT;\
    CREATE TABLE slot (id INTEGER PRIMARY KEY, project TEXT NOT NULL, part INTEGER NOT NULL, UNIQUE (project, part)) STRICT;\
    CREATE TABLE keyed (project TEXT NOT NULL, cmdkey TEXT NOT NULL, reply TEXT NOT NULL, PRIMARY KEY (project, cmdkey)) STRICT;\
    CREATE TABLE document (slot INTEGER NOT NULL REFERENCES slot ON DELETE CASCADE, uri TEXT NOT NULL, PRIMARY KEY (slot, uri)) STRICT;\
    CREATE TABLE range_row (slot INTEGER NOT NULL REFERENCES slot ON DELETE CASCADE, line INTEGER NOT NULL, uri TEXT NOT NULL, first INTEGER NOT NULL, last INTEGER NOT NULL, parent INTEGER, def INTEGER, refs INTEGER, hover INTEGER, PRIMARY KEY (slot, line)) STRICT;\
    CREATE TABLE item (slot INTEGER NOT NULL REFERENCES slot ON DELETE CASCADE, result INTEGER NOT NULL, role INTEGER NOT NULL, uri TEXT NOT NULL, first INTEGER NOT NULL, last INTEGER NOT NULL, PRIMARY KEY (slot, result, role, uri, first, last)) STRICT;\
    CREATE TABLE hover (slot INTEGER NOT NULL REFERENCES slot ON DELETE CASCADE, result INTEGER NOT NULL, contents TEXT NOT NULL, PRIMARY KEY (slot, result)) STRICT;\
    CREATE TABLE mark (slot INTEGER NOT NULL REFERENCES slot ON DELETE CASCADE, line INTEGER NOT NULL, kind INTEGER NOT NULL, keytext TEXT NOT NULL, PRIMARY KEY (slot, line, kind, keytext)) STRICT;\
    CREATE TABLE bearer (slot INTEGER NOT NULL REFERENCES slot ON DELETE CASCADE, line INTEGER NOT NULL, keytext TEXT NOT NULL, kind INTEGER NOT NULL, def INTEGER, refs INTEGER, hover INTEGER, PRIMARY KEY (slot, line, keytext, kind)) STRICT;\
    CREATE TABLE tag (slot INTEGER NOT NULL REFERENCES slot ON DELETE CASCADE, line INTEGER NOT NULL, name TEXT NOT NULL, file TEXT NOT NULL, address TEXT NOT NULL, kind TEXT, fields TEXT NOT NULL, PRIMARY KEY (slot, line)) STRICT;\
    INSERT INTO format (version) VALUES (1)";

/// A text that makes a database, and the fault that its opening answers.
#[derive(Drop)]
struct Row {
    text: &'static str,
    fault: Option<TablesFault>,
}

const ROWS: &[Row] = &[
    Row {
        text: "",
        fault: None,
    },
    Row {
        text: "CREATE TABLE other (x INTEGER) STRICT;CREATE VIEW seen AS SELECT x FROM other;CREATE INDEX by_x ON other (x)",
        fault: None,
    },
    Row {
        text: "CREATE TABLE format (name TEXT) STRICT",
        fault: Some(TablesFault::Foreign),
    },
    Row {
        text: "CREATE TABLE format (version TEXT) STRICT",
        fault: Some(TablesFault::Foreign),
    },
    Row {
        text: "CREATE TABLE format (version INTEGER PRIMARY KEY) STRICT",
        fault: Some(TablesFault::Foreign),
    },
    Row {
        text: "CREATE TABLE Format (version INTEGER PRIMARY KEY) STRICT;INSERT INTO format (version) VALUES (3)",
        fault: Some(TablesFault::Foreign),
    },
    Row {
        text: "CREATE TABLE format (version INTEGER PRIMARY KEY) STRICT;INSERT INTO format (version) VALUES (1), (2)",
        fault: Some(TablesFault::Foreign),
    },
    Row {
        text: "CREATE TABLE format (version INTEGER PRIMARY KEY) STRICT;INSERT INTO format (version) VALUES (2), (3)",
        fault: Some(TablesFault::Foreign),
    },
    Row {
        text: "CREATE TABLE format (version TEXT) STRICT;INSERT INTO format (version) VALUES ('2')",
        fault: Some(TablesFault::Foreign),
    },
    Row {
        text: "CREATE TABLE TAG (x INTEGER) STRICT",
        fault: Some(TablesFault::Foreign),
    },
    Row {
        text: "CREATE TABLE other (x INTEGER) STRICT;CREATE INDEX slot ON other (x)",
        fault: Some(TablesFault::Foreign),
    },
    Row {
        text: "CREATE TABLE other (x INTEGER) STRICT;CREATE VIEW more AS SELECT x FROM other",
        fault: Some(TablesFault::Foreign),
    },
    Row {
        text: "CREATE VIEW format AS SELECT 1 AS version",
        fault: Some(TablesFault::Foreign),
    },
    Row {
        text: FORMAT_ONE,
        fault: Some(TablesFault::OldFormat),
    },
];

/// What the opening, or the migration, of the database that this text makes answers.
fn answered(alloc: Global, text: &str, migrates: bool) -> Result<Option<TablesFault>, Fail> {
    let mut conn = Connection::open_in_memory(alloc)?;
    conn.execute_batch(text)?;
    if !conn.is_autocommit() {
        return Err("in a transaction")?;
    }
    if migrates {
        return match migrate(conn) {
            Ok(_) => Ok(None),
            Err((fault, _)) => Ok(Some(fault)),
        };
    }
    match Tables::open(conn) {
        Ok(_) => Ok(None),
        Err((fault, _)) => Ok(Some(fault)),
    }
}

/// What the migration of the database of a row answers: it refuses what isn't of format 1.
fn migration_fault(row: &Row) -> Option<TablesFault> {
    match row.fault {
        Some(TablesFault::OldFormat) => None,
        _ => Some(TablesFault::Foreign),
    }
}

#[test]
fn opens_and_migrates(rt: HostRuntime) -> Result<(), Fail> {
    for row in ROWS {
        let opened = answered(rt.alloc(), row.text, false)?;
        let migrated = answered(rt.alloc(), row.text, true)?;
        expect_equal(
            &rt,
            &(opened, migrated),
            &(row.fault, migration_fault(row)),
            row.text,
        );
    }
    Ok(())
}

/// The names of the tables.
const NAMES: &[&str] = &[
    "format",
    "slot",
    "keyed",
    "document",
    "range_row",
    "item",
    "hover",
    "mark",
    "bearer",
    "tag",
    "part_profile",
    "more",
];

#[test]
fn each_name_is_looked_for(rt: HostRuntime) -> Result<(), Fail> {
    for name in NAMES {
        let text = format!(in rt.alloc(); "CREATE TABLE {name} (x INTEGER) STRICT")?;
        let opened = answered(rt.alloc(), &text, false)?;
        expect_equal(&rt, &opened, &Some(TablesFault::Foreign), name);
    }
    Ok(())
}

/// The faults, their codes and their messages.
const FAULTS: &[(TablesFault, &str, &str)] = &[
    (TablesFault::Refused, "S01", "store refused"),
    (TablesFault::Memory, "S02", "out of memory"),
    (TablesFault::Foreign, "S03", "not a codenav database"),
    (TablesFault::OldFormat, "S04", "database is of format 1"),
];

#[test]
fn names_and_messages_of_faults(rt: HostRuntime) -> Result<(), Fail> {
    for &(fault, name, message) in FAULTS {
        expect_equal_text(&rt, fault.name(), name, message);
        expect_equal_text(&rt, fault.to_string(rt.alloc())?.as_str(), message, name);
    }
    Ok(())
}

/// How many objects the schema has of the tables that are opened over a connection.
fn objects<S: Alter + Drop>(conn: Connection<S>) -> Result<usize, Fail> {
    let mut conn = opened(conn)?.into_connection();
    Ok(conn.query_all("SELECT name FROM sqlite_schema", &[])?.len())
}

/// There are 12 tables, 11 keys and 3 indexes.
#[test]
fn in_memory(rt: HostRuntime) -> Result<(), Fail> {
    assert_eq!(rt; objects(Connection::open_in_memory(rt.alloc())?)?, 26);
    Ok(())
}
