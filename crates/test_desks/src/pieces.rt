//! Uploads whose bodies come in pieces.
use crate::asserts::{expect_equal, expect_equal_text};
use crate::desks::{cut, project, reply_to, text_of, upload};
use desk::{Desk, Key, PlainDesk, Upload, UploadFault};
use lsif::Profile;
use samples::great::{filled, spaced};
use samples::there;
use std::alloc::Global;
use std::process::Abort;
use std::test::Fail;

/// The upload of a row, of whose body no byte has come.
fn begin(alloc: Global, row: &'static str) -> Result<Upload, Fail> {
    let (verb, rest) = cut(row);
    let (name, rest) = cut(rest);
    let (key, rest) = cut(rest);
    let project = project(alloc, name)?;
    let key = there(Key::read(alloc, key)?, "no key")?;
    let begun = match verb {
        "tags" => Upload::tags(alloc, project, key),
        _ if rest.starts_with('2') => Upload::dump(alloc, project, key, Profile::Two),
        _ => Upload::dump(alloc, project, key, Profile::One),
    };
    match begun {
        Ok(upload) => Ok(upload),
        Err(UploadFault::Memory) => Err(Fail::from("out of memory")),
    }
}

/// Takes a body of which the first bytes come as one piece, and then so many bytes at a time.
fn take_pieces(upload: &mut Upload, body: &[u8], first: usize, most: usize) -> Result<(), Fail> {
    let (front, rest) = body.split_at(first.min(body.len()));
    let mut taken = upload.piece(front);
    for piece in rest.chunks(most.max(1)) {
        taken = taken.and(upload.piece(piece));
    }
    match taken {
        Ok(()) => Ok(()),
        Err(UploadFault::Memory) => Err(Fail::from("out of memory")),
    }
}

/// The reply to the upload of a row whose body comes so.
fn reply_in_pieces(
    alloc: Global,
    desk: &mut PlainDesk,
    row: &'static str,
    body: &[u8],
    first: usize,
    most: usize,
) -> Result<String, Fail> {
    let mut upload = begin(alloc, row)?;
    match take_pieces(&mut upload, body, first, most) {
        Ok(()) => text_of(alloc, &desk.finish_upload(upload)),
        Err(fault) => {
            drop(upload);
            Err(fault)
        }
    }
}

/// The same of a new desk.
fn first_reply_in_pieces(
    alloc: Global,
    row: &'static str,
    body: &[u8],
    first: usize,
    most: usize,
) -> Result<String, Fail> {
    reply_in_pieces(alloc, &mut PlainDesk::new(alloc), row, body, first, most)
}

/// Asserts the reply of a new desk to a body that is cut at each byte, and that comes in pieces of
/// 1, 2 and 7 bytes.
fn expect_reply<R: AllocGlobal + Abort>(
    rt: &R,
    row: &'static str,
    body: &[u8],
    wanted: &str,
) -> Result<(), Fail> {
    for first in 0..=body.len() {
        let found = first_reply_in_pieces(rt.alloc(), row, body, first, body.len())?;
        expect_equal_text(rt, found.as_str(), wanted, row);
    }
    for &most in &[1, 2, 7] {
        let found = first_reply_in_pieces(rt.alloc(), row, body, 0, most)?;
        expect_equal_text(rt, found.as_str(), wanted, row);
    }
    Ok(())
}

/// Uploads, and the reply to each.
const ROWS: &[(&str, &str)] = &[
    ("put app k1 1 base", r#"200 {"accepted":"lsif","count":11}"#),
    ("put app k1 1 ring", r#"200 {"accepted":"lsif","count":13}"#),
    (
        "put app k1 1 base | 11 -",
        r#"422 {"fault":"E01","line":3,"text":"range in no document"}"#,
    ),
    (
        "put app k1 1 base | 3 { | 4 metaData 0.6.0 utf-16",
        r#"422 {"fault":"L02","line":3,"text":"not JSON"}"#,
    ),
    ("put app k1 2 ring", r#"200 {"accepted":"lsif","count":13}"#),
    (
        "put app k1 1 nothing",
        r#"422 {"fault":"L06","line":1,"text":"metaData missing, wrong or repeated"}"#,
    ),
    (
        "put app k1 1 brace",
        r#"422 {"fault":"L02","line":1,"text":"not JSON"}"#,
    ),
    (
        r#"tags app k1 a\x41\tb␉f.c␉/a\/b/;"␉f␊"#,
        r#"200 {"accepted":"tags","count":1}"#,
    ),
    (
        "tags app k1 x␉f.c␉1␍␊y␉f.c␉2",
        r#"200 {"accepted":"tags","count":2}"#,
    ),
    (
        "tags app k1 x␉f.c␉1␊y␉f.c␉2␍",
        r#"422 {"fault":"T03","line":2,"text":"control character"}"#,
    ),
    (
        r#"tags app k1 x␉f.c␉1␊\q␉f.c␉2␊y␊"#,
        r#"422 {"fault":"T05","line":2,"text":"bad escape"}"#,
    ),
    ("tags app k1 -", r#"200 {"accepted":"tags","count":0}"#),
    (
        "put app ABCDEFGHIJKLMNOPQRSTUVWXYZ0123456789_-ABCDEFGHIJKLMNOPQRSTUVWXY1 1 nothing | 1 metaData 0.6.0 utf-16",
        r#"200 {"accepted":"lsif","count":1}"#,
    ),
    (
        "tags app ABCDEFGHIJKLMNOPQRSTUVWXYZ0123456789_-ABCDEFGHIJKLMNOPQRSTUVWXY1 x␉f.c␉1␊",
        r#"200 {"accepted":"tags","count":1}"#,
    ),
];

/// Asserts the replies of the rows, and those of a dump without its last line feed.
#[test]
fn pieces(rt: HostRuntime) -> Result<(), Fail> {
    for (row, wanted) in ROWS {
        let body = upload(rt.alloc(), *row)?;
        expect_reply(&rt, *row, body.as_bytes(), *wanted)?;
    }
    let body = upload(rt.alloc(), "put app k1 1 base")?;
    let unended = body.as_bytes().strip_suffix(b"\n").unwrap_or(b"");
    let wanted = r#"200 {"accepted":"lsif","count":11}"#;
    expect_reply(&rt, "put app k1 1 base", unended, wanted)
}

/// The pieces of a dump and of tags files, and how many bytes are held after each.
const HELD: &[(&str, &str, &[(&str, usize)])] = &[
    (
        "put app k1 1",
        r#"422 {"fault":"L02","line":1,"text":"not JSON"}"#,
        &[("{", 1), ("}x", 3), ("\n{", 0), ("{", 0)],
    ),
    (
        "tags app k1",
        r#"200 {"accepted":"tags","count":2}"#,
        &[("x\tf", 3), (".c\t1\r", 8), ("\n", 0), ("y\tf.c\t2", 7)],
    ),
    (
        "tags app k2",
        r#"422 {"fault":"T04","line":2,"text":"fewer than three parts"}"#,
        &[("x\tf.c\t1\n\ny", 0), ("y", 0), ("\n", 0), ("", 0)],
    ),
];

/// Asserts how many bytes are held after each piece of an upload.
fn expect_pieces<R: AllocGlobal + Abort>(
    rt: &R,
    upload: &mut Upload,
    row: &str,
    pieces: &[(&str, usize)],
) {
    for (piece, held) in pieces {
        let taken = upload.piece(piece.as_bytes());
        expect_equal(rt, &(taken, upload.held()), &(Ok(()), *held), row);
    }
}

/// The same, and its reply: the fault of a line waits for the end.
fn expect_held<R: AllocGlobal + Abort>(
    rt: &R,
    row: &'static str,
    wanted: &str,
    pieces: &[(&str, usize)],
) -> Result<(), Fail> {
    let mut upload = begin(rt.alloc(), row)?;
    expect_pieces(rt, &mut upload, row, pieces);
    let reply = PlainDesk::new(rt.alloc()).finish_upload(upload);
    let found = text_of(rt.alloc(), &reply)?;
    expect_equal_text(rt, found.as_str(), wanted, row);
    Ok(())
}

/// A body under a kept key has the kept reply, whatever it is.
fn expect_kept<R: AllocGlobal + Abort>(rt: &R) -> Result<(), Fail> {
    let mut desk = PlainDesk::new(rt.alloc());
    let kept = reply_to(rt.alloc(), &mut desk, "put app k1 1 base")?;
    for (row, body) in &[
        ("put app k1 1", "{"),
        ("tags app k1", ""),
        ("tags app k1", "x"),
    ] {
        let found = reply_in_pieces(rt.alloc(), &mut desk, *row, body.as_bytes(), 0, 1)?;
        expect_equal_text(rt, found.as_str(), kept.as_str(), *row);
    }
    Ok(())
}

#[test]
fn held_bytes_and_kept_keys(rt: HostRuntime) -> Result<(), Fail> {
    for (row, wanted, pieces) in HELD {
        expect_held(&rt, *row, *wanted, *pieces)?;
    }
    expect_kept(&rt)
}

/// Asserts the reply of a new desk to a large body that comes in pieces of 8,192 bytes: a text, and
/// what is after it.
fn expect_large<R: AllocGlobal + Abort>(
    rt: &R,
    row: &'static str,
    text: &str,
    last: &str,
    wanted: &str,
) -> Result<(), Fail> {
    let whole = format!(in rt.alloc(); "{text}{last}")?;
    let found = first_reply_in_pieces(rt.alloc(), row, whole.as_bytes(), 0, 8192)?;
    expect_equal_text(rt, found.as_str(), wanted, row);
    Ok(())
}

#[test]
fn great_dumps_in_pieces(rt: HostRuntime) -> Result<(), Fail> {
    let dump = filled(rt.alloc(), "metaData 0.6.0", 40000)?;
    let wanted = r#"200 {"accepted":"lsif","count":40000}"#;
    expect_large(&rt, "put app k1 1", dump.as_str(), "", wanted)?;
    let line = filled(rt.alloc(), "metaData 0.6.0", 1)?;
    let accepted = r#"200 {"accepted":"lsif","count":1}"#;
    let refused = r#"422 {"fault":"L01","line":1,"text":"line too long"}"#;
    for &(len, last, wanted) in &[
        (1048576, "", accepted),
        (1048576, "\n", accepted),
        (1048577, "", refused),
        (1048576, "\r\n", refused),
    ] {
        let text = spaced(rt.alloc(), line.as_str(), len)?;
        expect_large(&rt, "put app k1 1", text.as_str(), last, wanted)?;
    }
    Ok(())
}

#[test]
fn large_tags(rt: HostRuntime) -> Result<(), Fail> {
    let accepted = r#"200 {"accepted":"tags","count":1}"#;
    let refused = r#"422 {"fault":"T01","line":1,"text":"line too long"}"#;
    for &(len, last, wanted) in &[
        (65535, "/", accepted),
        (65535, "/\n", accepted),
        (65536, "/", refused),
        (65535, "/\r\n", refused),
    ] {
        let text = spaced(rt.alloc(), "x\tf.c\t/", len)?;
        expect_large(&rt, "tags app k1", text.as_str(), last, wanted)?;
    }
    Ok(())
}
