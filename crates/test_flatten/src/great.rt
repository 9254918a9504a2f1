//! The rows of dumps with a long chain, a ring of results, many items and ranges of many levels.
use crate::asserts::expect_equal;
use flatten::{ItemRow, RangeRow, Rows, flatten};
use lsif::{Profile, RequestKind};
use samples::great::{contains, levels, long_chain, many_edges, ring};
use samples::{NUMBERS, dump_of, made_dump, parted, push_line, push_made, text_of};
use std::alloc::Global;
use std::process::Abort;
use std::test::Fail;

/// How many items the dump of this text has.
fn count_items(alloc: Global, text: &str) -> Result<usize, Fail> {
    let dump = dump_of(alloc, Profile::One, text)?;
    let rows = flatten(alloc, &dump)?;
    Ok(rows.items.len())
}

/// Asserts that there's one range, which has the definition of the chain's end, and one item.
fn expect_one<R: AllocGlobal + Abort>(rt: &R, rows: &Rows<'_>) {
    for row in &rows.ranges {
        expect_equal(
            rt,
            &(
                row.line,
                row.results.of(RequestKind::Definition),
                row.results.of(RequestKind::References),
            ),
            &(3, Some(99_996), None),
            "range",
        );
    }
    expect_equal(rt, &(rows.ranges.len(), rows.items.len()), &(1, 1), "rows");
}

#[test]
fn great_long_chain(rt: HostRuntime) -> Result<(), Fail> {
    let dump = made_dump(rt.alloc(), Profile::One, long_chain(rt.alloc()))?;
    let rows = flatten(rt.alloc(), &dump)?;
    expect_one(&rt, &rows);
    Ok(())
}

/// Asserts that each of the 100 results has an item on each of 100 lines.
fn expect_each_place<R: AllocGlobal + Abort>(rt: &R, items: &[ItemRow<'_>]) {
    assert_eq!(rt; items.len(), 10_000);
    for (index, row) in items.iter().enumerate() {
        let found = (row.result as usize, row.span.start().line() as usize);
        expect_equal(rt, &found, &(4 + 2 * (index / 100), index % 100), "item");
    }
}

#[test]
fn great_ring_of_results(rt: HostRuntime) -> Result<(), Fail> {
    let dump = made_dump(rt.alloc(), Profile::One, ring(rt.alloc()))?;
    let rows = flatten(rt.alloc(), &dump)?;
    expect_each_place(&rt, &rows.items);
    Ok(())
}

/// A reference result with 1,000 ranges as items, and 400 results that lead to it.
fn shared(alloc: Global) -> Result<String, Fail> {
    let mut text = text_of(alloc, "metaData 0.6.0\ndocument file:///a.ts")?;
    let contained = contains(alloc, 3, 1_003)?;
    let (_, ranges) = parted(contained.as_str(), ">")?;
    for k in 0..1_000usize {
        push_made(&mut text, k + 3, format!(in alloc; "range {k}:0 {k}:1"))?;
    }
    push_line(&mut text, 1_003, "referenceResult", NUMBERS)?;
    push_made(
        &mut text,
        1_004,
        format!(in alloc; "item 1003>{ranges} references @2"),
    )?;
    push_leading(&mut text)?;
    push_line(&mut text, 1_805, contained.as_str(), NUMBERS)?;
    Ok(text)
}

/// Adds 400 results that lead to that of line 1,003.
fn push_leading(text: &mut String) -> Result<(), Fail> {
    let alloc = *text.allocator();
    for k in 0..400usize {
        let result = 2 * k + 1_005;
        push_line(text, result, "referenceResult", NUMBERS)?;
        push_made(
            text,
            result + 1,
            format!(in alloc; "item {result}>[1003] referenceResults @2"),
        )?;
    }
    Ok(())
}

/// A tenth of the rows that there may be, and more: each of 401 results has the places of all
/// ranges.
#[test]
fn great_many_rows(rt: HostRuntime) -> Result<(), Fail> {
    let text = shared(rt.alloc())?;
    assert_eq!(rt; count_items(rt.alloc(), text.as_str())?, 401_000);
    Ok(())
}

#[test]
fn great_many_items(rt: HostRuntime) -> Result<(), Fail> {
    let text = many_edges(rt.alloc())?;
    assert_eq!(rt; count_items(rt.alloc(), text.as_str())?, 1);
    Ok(())
}

/// The line of the parent of a range, where each range but the outermost lies in the one before it,
/// or in the one after it.
fn parent_of(row: &RangeRow<'_>, is_falling: bool) -> Option<u32> {
    if is_falling {
        (row.line < 10_002).then_some(row.line.saturating_add(1))
    } else {
        (row.line > 3).then_some(row.line.saturating_sub(1))
    }
}

/// Asserts that there are 10,000 such ranges, each with its parent.
fn expect_parents<R: AllocGlobal + Abort>(rt: &R, ranges: &[RangeRow<'_>], is_falling: bool) {
    assert_eq!(rt; ranges.len(), 10_000);
    for row in ranges {
        expect_equal(rt, &row.parent, &parent_of(row, is_falling), "parent");
    }
}

/// The same of the rows of a dump of them.
fn expect_levels<R: AllocGlobal + Abort>(rt: &R, is_falling: bool) -> Result<(), Fail> {
    let dump = made_dump(rt.alloc(), Profile::One, levels(rt.alloc(), is_falling))?;
    let rows = flatten(rt.alloc(), &dump)?;
    expect_parents(rt, &rows.ranges, is_falling);
    Ok(())
}

#[test]
fn great_many_levels(rt: HostRuntime) -> Result<(), Fail> {
    expect_levels(&rt, false)?;
    expect_levels(&rt, true)
}
