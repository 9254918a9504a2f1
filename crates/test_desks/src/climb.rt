//! Ranges around ranges, and a row that isn't one of this product's.
use crate::asserts::expect_equal_text;
use crate::desks::{command, reply_to, table_desk, text_of};
use desk::{Desk, TableDesk};
use sample_stores::opened;
use samples::great::levels;
use sqlite::Alter;
use std::alloc::Global;
use std::test::Fail;

/// Rows that ask a desk over tables, what the store's rows are then changed to, where they are, and
/// the status and the body of the reply.
const ROWS: &[(&str, &str, &str)] = &[
    (
        "definition app file:///n.ts 0:6",
        "",
        r#"200 {"places":[{"end":{"character":20,"line":0},"project":"app","start":{"character":0,"line":0},"uri":"file:///n.ts"}]}"#,
    ),
    (
        "definition app file:///n.ts 0:10",
        "",
        r#"200 {"places":[{"end":{"character":20,"line":0},"project":"app","start":{"character":0,"line":0},"uri":"file:///n.ts"}]}"#,
    ),
    (
        "definition app file:///n.ts 0:30",
        "",
        r#"200 {"places":[]}"#,
    ),
    (
        "definition app file:///n.ts 0:6",
        "UPDATE range_row SET parent = 99 WHERE line = 4",
        r#"503 {"fault":"S01","text":"store refused"}"#,
    ),
    (
        "definition app file:///n.ts 0:4",
        "UPDATE range_row SET parent = 99 WHERE line = 4",
        r#"200 {"places":[{"end":{"character":20,"line":0},"project":"app","start":{"character":0,"line":0},"uri":"file:///n.ts"}]}"#,
    ),
    (
        "projects",
        "UPDATE slot SET part = 7",
        r#"503 {"fault":"S01","text":"store refused"}"#,
    ),
];

/// The desk over the tables in which this statement was run.
fn changed<S: Alter + Drop>(
    alloc: Global,
    desk: TableDesk<S>,
    sql: &str,
) -> Result<TableDesk<S>, Fail> {
    let mut conn = desk.into_tables().into_connection();
    if !sql.is_empty() {
        conn.execute(sql, &[])?;
    }
    Ok(TableDesk::new(alloc, opened(conn)?))
}

/// The reply to the request of a row, over the tables of a new desk in which this statement was run
/// once there is a dump.
fn found<S: Alter + Drop>(
    alloc: Global,
    mut desk: TableDesk<S>,
    row: &'static str,
    sql: &str,
) -> Result<String, Fail> {
    let accepted = reply_to(alloc, &mut desk, "put app k1 1 nested")?;
    if accepted.as_str() != r#"200 {"accepted":"lsif","count":8}"# {
        return Ok(accepted);
    }
    let mut desk = changed(alloc, desk, sql)?;
    reply_to(alloc, &mut desk, row)
}

#[test]
fn climb(rt: HostRuntime) -> Result<(), Fail> {
    for (row, sql, wanted) in ROWS {
        let found = found(rt.alloc(), table_desk(rt.alloc())?, *row, *sql)?;
        expect_equal_text(&rt, found.as_str(), *wanted, *row);
    }
    Ok(())
}

/// The reply to a query for the definition at the innermost range of a dump, where the desk is
/// given the dump first.
fn deepest<D: Desk>(alloc: Global, desk: &mut D, dump: &str) -> Result<String, Fail> {
    let upload = command(alloc, "put", "app k1 1", dump.as_bytes())?;
    let accepted = desk.apply(&upload);
    drop(upload);
    if accepted.status() != 200 {
        return text_of(alloc, &accepted);
    }
    reply_to(alloc, desk, "definition app file:///a.ts 0:9999")
}

/// The same of a desk over tables.
fn deepest_of_tables<S: Alter>(
    alloc: Global,
    desk: &mut TableDesk<S>,
    dump: &str,
) -> Result<String, Fail> {
    deepest(alloc, desk, dump)
}

#[test]
fn great_ten_thousand_levels(rt: HostRuntime) -> Result<(), Fail> {
    let dump = levels(rt.alloc(), false)?;
    let wanted =
        r#"200 {"places":[{"end":{"character":20000,"line":0},"project":"app","start":{"character":0,"line":0},"uri":"file:///a.ts"}]}"#;
    let mut desk = table_desk(rt.alloc())?;
    let found = deepest_of_tables(rt.alloc(), &mut desk, dump.as_str())?;
    expect_equal_text(&rt, found.as_str(), wanted, "deepest");
    Ok(())
}
