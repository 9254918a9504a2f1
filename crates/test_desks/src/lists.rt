//! Each list of four requests, and so each shorter one: it's the beginning of others. Both desks
//! give the same replies.
use crate::asserts::expect_equal;
use crate::desks::{requests, served, table_desk, uploads};
use desk::{Desk, PlainDesk, Request, TableDesk};
use samples::there;
use sqlite::Alter;
use std::ops::Range;
use std::process::Abort;
use std::test::Fail;

/// The commands, each kind with both keys; then a query at a position, and the list of the
/// projects.
const ROWS: &str = "put app k1 1 base
put app k2 1 base
put app k1 1 base | 11 -
put app k2 1 base | 11 -
tags app k1 x␉f.c␉1␊
tags app k2 x␉f.c␉1␊
remove app k1
remove app k2
definition app file:///a.ts 2:1
projects";

const DUMP_PUT: usize = 0;

const TAGS_PUT: usize = 1;

const REMOVED: usize = 2;

const NOTHING_REMOVED: usize = 3;

const REFUSED: usize = 4;

const NO_DUMP: usize = 5;

const PLACES: usize = 6;

const NO_PROJECT: usize = 7;

const WITH_TAGS: usize = 8;

const WITH_DUMP: usize = 9;

const WITH_BOTH: usize = 10;

/// The replies by these numbers.
const REPLIES: &[&str] = &[
    r#"200 {"accepted":"lsif","count":11}"#,
    r#"200 {"accepted":"tags","count":1}"#,
    r#"200 {"removed":true}"#,
    r#"200 {"removed":false}"#,
    r#"422 {"fault":"E01","line":3,"text":"range in no document"}"#,
    r#"404 {"fault":"D01","text":"project has no dump"}"#,
    r#"200 {"places":[{"end":{"character":7,"line":0},"project":"app","start":{"character":4,"line":0},"uri":"file:///a.ts"}]}"#,
    r#"200 {"projects":[]}"#,
    r#"200 {"projects":[{"dump":false,"name":"app","tags":true}]}"#,
    r#"200 {"projects":[{"dump":true,"name":"app","tags":false}]}"#,
    r#"200 {"projects":[{"dump":true,"name":"app","tags":true}]}"#,
];

/// What a project has: a dump, tags, and under each of the two keys the number of the reply that is
/// kept.
#[derive(Clone, Copy)]
struct Known {
    dump: bool,
    tags: bool,
    kept: [Option<usize>; 2],
}

/// What answers the list of the projects.
fn listed(known: Known) -> usize {
    match (known.dump, known.tags) {
        (false, false) => NO_PROJECT,
        (false, true) => WITH_TAGS,
        (true, false) => WITH_DUMP,
        (true, true) => WITH_BOTH,
    }
}

/// What a command of this kind does to the parts, and what answers it, where its key isn't kept.
fn act(known: &mut Known, kind: usize) -> usize {
    let before = *known;
    match kind {
        0 => known.dump = true,
        1 => {}
        2 => known.tags = true,
        _ => {
            known.dump = false;
            known.tags = false;
        }
    }
    match kind {
        0 => DUMP_PUT,
        1 => REFUSED,
        2 => TAGS_PUT,
        _ if before.dump || before.tags => REMOVED,
        _ => NOTHING_REMOVED,
    }
}

/// What answers a command: the kept reply and nothing else, where its key is kept. Else what it
/// does; and the key is kept, where it isn't refused.
fn command(known: &mut Known, kind: usize, key: usize) -> usize {
    if let Some(Some(kept)) = known.kept.get(key) {
        return *kept;
    }
    let reply = act(known, kind);
    if reply != REFUSED {
        if let Some(place) = known.kept.get_mut(key) {
            *place = Some(reply);
        }
    }
    reply
}

/// What answers the row of this number.
fn answer(known: &mut Known, row: usize) -> usize {
    match row {
        8 if known.dump => PLACES,
        8 => NO_DUMP,
        9 => listed(*known),
        _ => command(known, row / 2, row % 2),
    }
}

/// Asserts the reply to one of the requests of these rows.
fn expect_served<R: AllocGlobal + Abort, D: Desk>(
    rt: &R,
    desk: &mut D,
    request: &Request<'_>,
    rows: &[usize],
    wanted: &str,
) -> Result<(), Fail> {
    let found = served(rt.alloc(), desk, request)?;
    expect_equal(rt, &(found.as_str(), rows), &(wanted, rows), "");
    Ok(())
}

/// Asserts the replies of a new desk to the requests of these rows.
fn expect_list<R: AllocGlobal + Abort, D: Desk>(
    rt: &R,
    desk: &mut D,
    requests: &[Request<'_>],
    rows: &[usize],
) -> Result<(), Fail> {
    let mut known = Known {
        dump: false,
        tags: false,
        kept: [None, None],
    };
    for &row in rows {
        let request = there(requests.get(row), "no request")?;
        let wanted = there(REPLIES.get(answer(&mut known, row)), "no reply")?;
        expect_served(rt, desk, request, rows, *wanted)?;
    }
    Ok(())
}

/// The same of a new desk over tables.
fn expect_list_of_tables<R: AllocGlobal + Abort, S: Alter>(
    rt: &R,
    desk: &mut TableDesk<S>,
    requests: &[Request<'_>],
    rows: &[usize],
) -> Result<(), Fail> {
    expect_list(rt, desk, requests, rows)
}

/// Asserts the replies of both desks.
fn expect_both<R: AllocGlobal + Abort>(
    rt: &R,
    requests: &[Request<'_>],
    rows: &[usize],
) -> Result<(), Fail> {
    let mut desk = PlainDesk::new(rt.alloc());
    expect_list(rt, &mut desk, requests, rows)?;
    let mut desk = table_desk(rt.alloc())?;
    expect_list_of_tables(rt, &mut desk, requests, rows)
}

/// How many lists begin with the same request.
const BEGUN: usize = 9 * 9 * 9;

/// Asserts the replies of both desks to one in so many of these lists of four of the first nine
/// rows, each with the list of the projects after it. The rows are the digits of a list's number to
/// the base nine.
fn expect_lists<R: AllocGlobal + Abort>(
    rt: &R,
    lists: Range<usize>,
    each: usize,
) -> Result<(), Fail> {
    let uploads = uploads(rt.alloc(), ROWS)?;
    let requests = requests(rt.alloc(), ROWS, &uploads)?;
    for n in lists.step_by(each.max(1)) {
        expect_both(
            rt,
            &requests,
            &[n / BEGUN % 9, n / 81 % 9, n / 9 % 9, n % 9, 9],
        )?;
    }
    Ok(())
}

// One list in 29, which `./quick` tries too.
#[test]
fn two_desks(rt: HostRuntime) -> Result<(), Fail> {
    expect_lists(&rt, 0..9 * BEGUN, 29)
}

// All lists in one would take longer than a test may.
#[test]
fn great_two_desks_from_a_dump(rt: HostRuntime) -> Result<(), Fail> {
    expect_lists(&rt, 0..2 * BEGUN, 1)
}

#[test]
fn great_two_desks_from_a_refused_dump(rt: HostRuntime) -> Result<(), Fail> {
    expect_lists(&rt, 2 * BEGUN..4 * BEGUN, 1)
}

#[test]
fn great_two_desks_from_tags(rt: HostRuntime) -> Result<(), Fail> {
    expect_lists(&rt, 4 * BEGUN..6 * BEGUN, 1)
}

#[test]
fn great_two_desks_from_a_removal(rt: HostRuntime) -> Result<(), Fail> {
    expect_lists(&rt, 6 * BEGUN..8 * BEGUN, 1)
}

#[test]
fn great_two_desks_from_a_query(rt: HostRuntime) -> Result<(), Fail> {
    expect_lists(&rt, 8 * BEGUN..9 * BEGUN, 1)
}
