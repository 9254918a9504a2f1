//! Parts replaced and removed: what the tables hold then. Where the store stops is in `stops.rt`.
use lsif::Profile;
use sample_stores::{opened, put_dump, put_tags};
use samples::text_of;
use sqlite::{Alter, Connection, MemStore};
use std::alloc::Global;
use std::process::Abort;
use std::test::Fail;
use tables::{Tables, TablesFault};

/// A dump that has a row in each of its tables.
const FULL: &str = r#"metaData 0.6.0
document file:///a.ts
range 0:0 0:9
range 0:2 0:5
range 7:0 7:0
definitionResult
declarationResult
hoverResult "f"
moniker export npm f
resultSet
next 3>10
next 4>10
textDocument/definition 10>6
textDocument/declaration 10>7
textDocument/hover 3>8
moniker 10>9
item 6>[3,4] @2
item 7>[4] @2
moniker 3>9
contains 2>[3,4,5]"#;

/// A dump of one range.
const SMALL: &str = "metaData 0.6.0
document file:///b.ts
range 4:1 4:2
contains 2>[3]";

/// Two tags, of which one has a field beside its kind.
pub(crate) const TAGS: &str = "a\tf.c\t1;\"\tf\tclass:B\\tC\nb\tf.c\t/x/\n";

/// A change of the index, each under a key of its own.
#[derive(Clone, Copy)]
pub(crate) enum Step {
    /// Puts `FULL`, by profile 2.
    Full(&'static str),
    /// Puts `SMALL`, by profile 1.
    Small(&'static str),
    Tags(&'static str, &'static str),
    Remove(&'static str),
}

/// What the step answers: of a removal whether there was anything, and else true.
pub(crate) fn take<S: Alter>(
    alloc: Global,
    tables: &mut Tables<S>,
    step: Step,
    key: &str,
) -> Result<Result<bool, TablesFault>, Fail> {
    let put = match step {
        Step::Full(project) => {
            let text = text_of(alloc, FULL)?;
            put_dump(alloc, tables, project, key, Profile::Two, text.as_str())?
        }
        Step::Small(project) => {
            let text = text_of(alloc, SMALL)?;
            put_dump(alloc, tables, project, key, Profile::One, text.as_str())?
        }
        Step::Tags(project, text) => put_tags(alloc, tables, project, key, text)?,
        Step::Remove(project) => return Ok(tables.remove(project, key)),
    };
    match put {
        Ok(()) => Ok(Ok(true)),
        Err(fault) => Ok(Err(fault)),
    }
}

/// A step under a key, and how many rows the tables have before it.
#[derive(Clone, Copy)]
pub(crate) struct Row {
    pub(crate) step: Step,
    pub(crate) key: &'static str,
    before: [usize; 11],
}

pub(crate) const ROWS: &[Row] = &[
    Row {
        step: Step::Full("app"),
        key: "k1",
        before: [0, 0, 0, 0, 0, 0, 0, 0, 0, 0, 0],
    },
    Row {
        step: Step::Tags("app", TAGS),
        key: "k2",
        before: [1, 1, 1, 3, 3, 1, 2, 2, 0, 1, 3],
    },
    Row {
        step: Step::Tags("lib", ""),
        key: "k3",
        before: [2, 2, 1, 3, 3, 1, 2, 2, 2, 1, 3],
    },
    Row {
        step: Step::Small("app"),
        key: "k4",
        before: [3, 3, 1, 3, 3, 1, 2, 2, 2, 1, 3],
    },
    Row {
        step: Step::Full("lib"),
        key: "k5",
        before: [3, 4, 1, 1, 0, 0, 0, 0, 2, 1, 0],
    },
    Row {
        step: Step::Remove("app"),
        key: "k6",
        before: [4, 5, 2, 4, 3, 1, 2, 2, 2, 2, 3],
    },
    Row {
        step: Step::Remove("app"),
        key: "k7",
        before: [2, 6, 1, 3, 3, 1, 2, 2, 0, 1, 3],
    },
];

/// How many rows they have after the last step.
const AFTER: [usize; 11] = [2, 7, 1, 3, 3, 1, 2, 2, 0, 1, 3];

/// How many rows they have when so many steps were taken.
pub(crate) fn rows_after(steps: usize) -> [usize; 11] {
    match ROWS.get(steps) {
        Some(row) => row.before,
        None => AFTER,
    }
}

/// The tables whose rows are counted.
const COUNTED: &[&str] = &[
    "SELECT id FROM slot",
    "SELECT reply FROM keyed",
    "SELECT uri FROM document",
    "SELECT line FROM range_row",
    "SELECT result FROM item",
    "SELECT result FROM hover",
    "SELECT line FROM mark",
    "SELECT line FROM bearer",
    "SELECT line FROM tag",
    "SELECT slot FROM part_profile",
    "SELECT line FROM more",
];

/// The numbers of their rows.
pub(crate) fn held<S: Alter>(alloc: Global, conn: &mut Connection<S>) -> Result<Vec<usize>, Fail> {
    let mut counts = Vec::new(alloc);
    for query in COUNTED {
        counts.push(conn.query_all(*query, &[])?.len())?;
    }
    Ok(counts)
}

/// What single rows say after all steps.
const SAID: &[&str] = &[
    "SELECT line FROM range_row WHERE line = 4 AND uri = 'file:///a.ts' AND first = 2 AND last = 5 AND parent = 3 AND def = 6 AND refs IS NULL AND hover IS NULL",
    "SELECT line FROM range_row WHERE line = 5 AND first = 15032385536 AND last = first AND parent IS NULL AND def IS NULL",
    "SELECT slot FROM part_profile WHERE profile = 2",
    "SELECT line FROM more WHERE line = 10 AND decl = 7 AND imp IS NULL",
    "SELECT reply FROM keyed WHERE project = 'app' AND cmdkey = 'k6' AND reply = '{\"removed\":true}'",
    "SELECT reply FROM keyed WHERE project = 'app' AND cmdkey = 'k7' AND reply = '{\"removed\":false}'",
];

/// How many rows the tables have, and the tables again.
fn counted(
    alloc: Global,
    tables: Tables<MemStore>,
) -> Result<(Vec<usize>, Tables<MemStore>), Fail> {
    let mut conn = tables.into_connection();
    let counts = held(alloc, &mut conn)?;
    Ok((counts, opened(conn)?))
}

/// Takes the step of a row, where the tables have the rows that it says.
fn stepped<R: AllocGlobal + Abort>(
    rt: &R,
    tables: Tables<MemStore>,
    row: &Row,
) -> Result<Tables<MemStore>, Fail> {
    let (counts, mut tables) = counted(rt.alloc(), tables)?;
    assert!(rt; counts.as_slice() == row.before.as_slice());
    let answer = take(rt.alloc(), &mut tables, row.step, row.key)?;
    assert!(rt; answer == Ok(row.key != "k7"));
    Ok(tables)
}

/// The first query of single rows that doesn't find one.
fn unsaid(conn: &mut Connection<MemStore>) -> Result<Option<&'static str>, Fail> {
    for query in SAID {
        if conn.query_all(*query, &[])?.len() != 1 {
            return Ok(Some(*query));
        }
    }
    Ok(None)
}

/// Asserts the rows after the last step.
fn expect_rows<R: AllocGlobal + Abort>(
    rt: &R,
    conn: &mut Connection<MemStore>,
) -> Result<(), Fail> {
    let counts = held(rt.alloc(), conn)?;
    assert!(rt; counts.as_slice() == AFTER.as_slice());
    assert_eq!(rt; unsaid(conn)?, None);
    Ok(())
}

#[test]
fn replaced_and_removed(rt: HostRuntime) -> Result<(), Fail> {
    let mut tables = opened(Connection::open_in_memory(rt.alloc())?)?;
    for row in ROWS {
        tables = stepped(&rt, tables, row)?;
    }
    expect_rows(&rt, &mut tables.into_connection())
}
