//! Reports of dumps and of tags files: what the tables of other files are asserted by, and readers
//! and writers that fail.
use crate::asserts::expect_equal;
use calls::{CheckFault, Status, check_lsif, check_tags};
use lsif::Profile;
use samples::named::BASE;
use samples::{Marks, Pieces, Slow, changed, in_pieces, parted, slow_writer, text_of, there};
use std::alloc::Global;
use std::process::Abort;
use std::test::Fail;
use streams::Counted;

/// What a file is checked as: a dump, in a profile, or a tags file.
#[derive(Clone, Copy, Debug)]
pub(crate) enum Kind {
    Dump(Profile),
    Tags,
}

/// A dump in each profile.
pub(crate) const BOTH: &[Kind] = &[Kind::Dump(Profile::One), Kind::Dump(Profile::Two)];

/// The faults of a dump, as they are printed.
const FAULTS: &str = "L01 line too long
L02 not JSON
L03 no valid id
L04 id used before
L05 bad type or label
L06 metaData missing, wrong or repeated
L07 bad vertex member
L08 bad edge ends
L09 vertex not emitted before
L10 edge may not join these
L11 range contained before
L12 range equal to or overlapping another
L13 second edge of a single kind
L14 next closes a cycle
L15 bad item property or shard
L16 shard names no document or project
L17 bad document event
L18 named after its document ended
L19 document uri used before
L20 too many elements
E01 range in no document
E02 shard is not the document of a target";

/// The report that a row begins with: `ok 11`, or the line, the code and a remark, as `8 L09 before
/// L10`.
///
/// After ` | ` comes each change: a line's number and its new text, `-` for none. So in `8 L09 | 8
/// next 3>99 | 9 -` the eighth line is `next 3>99` and the ninth is left out. A line beyond the
/// last is added, and a number alone is of a line that is empty.
fn report(alloc: Global, row: &str) -> Result<String, Fail> {
    let (short, _) = row.split_once(" | ").unwrap_or((row, ""));
    let (first, rest) = parted(short, " ")?;
    if first == "ok" {
        return Ok(format!(in alloc; "ok {rest} elements\n")?);
    }
    let (code, _) = rest.split_once(' ').unwrap_or((rest, ""));
    let fault = fault_of(code)?;
    Ok(format!(in alloc; "line {first}: {fault}\n")?)
}

/// What is printed of the fault of this code.
fn fault_of(code: &str) -> Result<&'static str, Fail> {
    for fault in FAULTS.lines() {
        if fault.starts_with(code) {
            return Ok(fault);
        }
    }
    Err(Fail::from("no fault of this code"))
}

/// What is answered and written over a reader, where the writer takes so many bytes at a time and
/// fails at the write of that number.
fn checked(
    alloc: Global,
    kind: Kind,
    reader: Pieces<'_>,
    most: usize,
    fails_at: u32,
) -> (Result<Status, CheckFault>, Vec<u8>) {
    let mut r = Counted::new(reader);
    let mut w = Counted::new(slow_writer(alloc, most, fails_at));
    let answer = match kind {
        Kind::Dump(profile) => check_lsif(alloc, profile, &mut r, &mut w),
        Kind::Tags => check_tags(alloc, &mut r, &mut w),
    };
    let Slow { taken, .. } = w.into_inner();
    (answer, taken)
}

/// Asserts what is printed of a file that is read in pieces of so many bytes, and the exit status:
/// 0 where it's `ok`, else 1.
pub(crate) fn expect_text<R: AllocGlobal + Abort>(
    rt: &R,
    kind: Kind,
    most: usize,
    bytes: &[u8],
    wanted: &str,
) {
    let status = if wanted.starts_with("ok ") { 0 } else { 1 };
    let (answer, written) = checked(rt.alloc(), kind, in_pieces(bytes, most), 7, 0);
    let found = match answer {
        Ok(status) => Some(status.exit_code()),
        Err(_) => None,
    };
    expect_equal(
        rt,
        &(found, written.as_slice()),
        &(Some(status), wanted.as_bytes()),
        wanted,
    );
}

/// Asserts the report, which a row begins with, of a dump that is read in pieces of 4,096 bytes, in
/// both profiles.
pub(crate) fn expect_in<R: AllocGlobal + Abort>(rt: &R, text: &str, row: &str) -> Result<(), Fail> {
    let wanted = report(rt.alloc(), row)?;
    for &kind in BOTH {
        expect_text(rt, kind, 4096, text.as_bytes(), wanted.as_str());
    }
    Ok(())
}

/// Asserts a dump's report for each row: the report, and after ` | ` each change. The texts are
/// read in pieces of each of these sizes, as each of these kinds, and their ids are between these
/// marks.
pub(crate) fn expect_rows<R: AllocGlobal + Abort>(
    rt: &R,
    kinds: &[Kind],
    dump: &'static str,
    rows: &'static str,
    sizes: &[usize],
    marks: Marks,
) -> Result<(), Fail> {
    for row in rows.lines() {
        let (_, changes) = row.split_once(" | ").unwrap_or((row, ""));
        let text = changed(rt.alloc(), dump, changes, marks)?;
        let wanted = report(rt.alloc(), row)?;
        for kind in kinds {
            for most in sizes {
                expect_text(rt, *kind, *most, text.as_bytes(), wanted.as_str());
            }
        }
    }
    Ok(())
}

/// A text, of which so many bytes are read at a time, in so many reads, of which the last one finds
/// the end; and its report.
#[derive(Clone, Copy)]
struct Failing<'a> {
    kind: Kind,
    text: &'a str,
    most: usize,
    reads: u32,
    report: &'a str,
}

/// A reader that fails at each of its reads.
fn readers_that_fail<R: AllocGlobal + Abort>(rt: &R, row: &Failing<'_>) {
    for fails_at in 1..=row.reads {
        let mut reader = in_pieces(row.text.as_bytes(), row.most);
        reader.fails_at = fails_at;
        let (answer, written) = checked(rt.alloc(), row.kind, reader, 1, 0);
        expect_equal(
            rt,
            &(answer, written.as_slice()),
            &(Err(CheckFault::Read), b"".as_slice()),
            row.text,
        );
    }
}

/// A writer that takes so many bytes at a time and fails at this write, after so many bytes of the
/// report.
fn expect_taken<R: AllocGlobal + Abort>(
    rt: &R,
    row: &Failing<'_>,
    most: usize,
    fails_at: u32,
    before: usize,
) -> Result<(), Fail> {
    let taken = there(row.report.get(..before), "no such place")?;
    let reader = in_pieces(row.text.as_bytes(), row.most);
    let (answer, written) = checked(rt.alloc(), row.kind, reader, most, fails_at);
    expect_equal(
        rt,
        &(answer, written.as_slice()),
        &(Err(CheckFault::Write), taken.as_bytes()),
        row.text,
    );
    Ok(())
}

/// A writer that takes one byte at a time and fails at each of its writes, or takes none at all.
fn writers_that_fail<R: AllocGlobal + Abort>(rt: &R, row: &Failing<'_>) -> Result<(), Fail> {
    for before in 0..row.report.len() {
        let fails_at = u32::try_from(before)?.saturating_add(1);
        expect_taken(rt, row, 1, fails_at, before)?;
    }
    expect_taken(rt, row, 0, 0, 0)
}

#[test]
fn readers_and_writers_that_fail(rt: HostRuntime) -> Result<(), Fail> {
    let dump = text_of(rt.alloc(), BASE)?;
    for &row in &[
        Failing {
            kind: Kind::Dump(Profile::One),
            text: dump.as_str(),
            most: 64,
            reads: 14,
            report: "ok 11 elements\n",
        },
        Failing {
            kind: Kind::Tags,
            text: "a\tf.c\t1\nb\tf.c\t2\r\nc\tf.c\t3",
            most: 7,
            reads: 5,
            report: "ok 3 tags\n",
        },
    ] {
        readers_that_fail(&rt, &row);
        writers_that_fail(&rt, &row)?;
    }
    Ok(())
}
