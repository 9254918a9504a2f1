//! Lines of the greatest length and beyond it, and beyond the greatest number of lines.
use crate::check::expect_in;
use crate::faults::{EACH_ORDER, EACH_SHAPE, OVERLAPPING};
use samples::great::{filled, padded};
use samples::named::META_DATA;
use samples::{NUMBERS, parted, push_line};
use std::process::Abort;
use std::test::Fail;

/// Asserts the fault of line 100,001, which comes after this text: a row of the code and the line.
fn expect_after<R: AllocGlobal + Abort>(rt: &R, text: &String, row: &str) -> Result<(), Fail> {
    let (code, line) = parted(row, " ")?;
    let mut text = text.clone()?;
    push_line(&mut text, 100_001, line, NUMBERS)?;
    let wanted = format!(in rt.alloc(); "100001 {code}")?;
    expect_in(rt, text.as_str(), wanted.as_str())
}

/// Asserts the report of a metaData and this line, with spaces after it up to so many bytes.
fn expect_padded<R: AllocGlobal + Abort>(
    rt: &R,
    line: &str,
    bytes: usize,
    wanted: &str,
) -> Result<(), Fail> {
    let text = padded(rt.alloc(), META_DATA, line, bytes)?;
    expect_in(rt, text.as_str(), wanted)
}

/// A line of 1,048,576 bytes is the longest, and one that is longer is reported before each fault
/// of its shape.
#[test]
fn great_lines_beyond_the_length(rt: HostRuntime) -> Result<(), Fail> {
    expect_padded(&rt, "project", 1_048_576, "ok 2")?;
    for row in EACH_SHAPE.lines() {
        let (_, line) = parted(row, " ")?;
        expect_padded(&rt, line, 1_048_577, "2 L01")?;
    }
    Ok(())
}

/// A line beyond the greatest number is reported unless it has another fault.
#[test]
fn great_lines_beyond_the_number(rt: HostRuntime) -> Result<(), Fail> {
    let sound = filled(rt.alloc(), META_DATA, 100_000)?;
    expect_in(&rt, sound.as_str(), "ok 100000")?;
    expect_after(&rt, &sound, "L20 resultSet")?;
    expect_after(&rt, &sound, "L03 {}")?;
    let overlapping = filled(rt.alloc(), OVERLAPPING, 100_000)?;
    for row in EACH_ORDER.lines() {
        expect_after(&rt, &overlapping, row)?;
    }
    Ok(())
}
