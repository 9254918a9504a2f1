//! Reports of tags files.
use crate::check::{Kind, expect_text};
use std::process::Abort;
use std::test::Fail;

/// Asserts the report of these bytes, for several cuttings.
fn expect<R: AllocGlobal + Abort>(rt: &R, bytes: &[u8], wanted: &str) {
    for most in &[1, 2, 7, 1_000_000] {
        expect_text(rt, Kind::Tags, *most, bytes, wanted);
    }
}

fn long_lines<R: AllocGlobal + Abort>(rt: &R) -> Result<(), Fail> {
    let start = "x\tf.c\t1;\"\tf\tnote:";
    let note = "n".repeat(rt.alloc(), 65_535usize.saturating_sub(start.len()))?;
    let longest = format!(in rt.alloc(); "{start}{note}\r\n")?;
    expect(rt, longest.as_bytes(), "ok 1 tags\n");
    let longer = format!(in rt.alloc(); "{start}{note}n\r\ny\tf.c\t1\n")?;
    expect(rt, longer.as_bytes(), "line 1: T01 line too long\n");
    Ok(())
}

fn many_fields<R: AllocGlobal + Abort>(rt: &R) -> Result<(), Fail> {
    let mut fields = String::from_str(rt.alloc(), "x\tf.c\t1;\"\tf")?;
    for number in 1..71 {
        write!(fields, "\tk{number}:v{number}")?;
    }
    fields.push('\n')?;
    expect(rt, fields.as_bytes(), "ok 1 tags\n");
    Ok(())
}

fn many_lines<R: AllocGlobal + Abort>(rt: &R) -> Result<(), Fail> {
    let mut text = Vec::new(rt.alloc());
    for _ in 0..100_000 {
        text.extend_from_slice(b"x\tf\t1\n")?;
    }
    expect_text(rt, Kind::Tags, 4096, text.as_slice(), "ok 100000 tags\n");
    text.extend_from_slice(b"x\tf\t1")?;
    let wanted = "line 100001: T11 too many lines\n";
    expect_text(rt, Kind::Tags, 4096, text.as_slice(), wanted);
    Ok(())
}

/// Texts of a few lines, and their reports.
const ROWS: &[(&[u8], &str)] = &[
    (b"", "ok 0 tags\n"),
    (b"x\tf.c\t1\r\n", "ok 1 tags\n"),
    (b"x\tf.c\t1\r", "line 1: T03 control character\n"),
    (b"x\tf.c\t010\n", "line 1: T06 bad address\n"),
    (b"x\tf.c\t?a/b?\n", "ok 1 tags\n"),
    (b"x\tf.c\t1;\"\tf\tkind:g\n", "line 1: T07 bad field\n"),
    (b"x\tf.c\t1;\"\ta:\\q\t\n", "line 1: T05 bad escape\n"),
    (
        b"x\tf.c\t10;/x/;\"\tkind:f\tclass:\tline:10\n",
        "ok 1 tags\n",
    ),
    (
        b"!_TAG_FILE_SORTED\t1\t//\nb\tf.c\t2\na\tf.c\t1\n",
        "line 3: T10 names descend\n",
    ),
    (b"b\tf.c\t2\na\tf.c\t1\n", "ok 2 tags\n"),
    (b"b\tf.c\t2\na\tf.c\t1", "ok 2 tags\n"),
    (b"x\tf.c\t1\n\n", "line 2: T04 fewer than three parts\n"),
    (
        b"!_TAG_FILE_FORMAT\t1\t//\n",
        "line 1: T08 format is not 2\n",
    ),
    (
        b"x\tf.c\t1\n!_TAG_X\t1\t//\n",
        "line 2: T09 pseudo-tag after a tag\n",
    ),
    (b"!_TAG_FILE_FORMAT\t2\t//\n", "ok 0 tags\n"),
    (b"x\tf.c\t1\n\xff\tf.c\t1\n", "line 2: T02 not UTF-8\n"),
];

/// Files of a few lines, a long line, and a line of many fields; with a fault of each code.
#[test]
fn check_tags(rt: HostRuntime) -> Result<(), Fail> {
    for (text, wanted) in ROWS {
        expect(&rt, *text, *wanted);
    }
    long_lines(&rt)?;
    many_fields(&rt)
}

/// The most lines, and one more.
#[test]
fn great_number_of_lines(rt: HostRuntime) -> Result<(), Fail> {
    many_lines(&rt)
}
