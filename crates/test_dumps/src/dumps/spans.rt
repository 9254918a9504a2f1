//! The conflicts of spans with others and with each other.
use crate::asserts::expect_equal;
use dump::{DumpFault, LineFault, read_dump};
use lsif::{Code, Profile};
use samples::{NUMBERS, push_line, text_of};
use std::alloc::Global;
use std::process::Abort;
use std::test::Fail;
use streams::Counted;

/// From a line and a character up to a line and a character.
type Ends = (u32, u32, u32, u32);

/// Adds ranges after the line of this number, and an edge by which the document contains them. The
/// number of that edge.
fn push_contained(text: &mut String, last: usize, ranges: &[Ends]) -> Result<usize, Fail> {
    let alloc = *text.allocator();
    let mut number = last;
    let mut contained = String::new(alloc);
    for (line, from, last_line, to) in ranges {
        number = number.saturating_add(1);
        let range = format!(in alloc; "range {line}:{from} {last_line}:{to}")?;
        push_line(text, number, range.as_str(), NUMBERS)?;
        write!(contained, "{number},")?;
    }
    contained.pop();
    number = number.saturating_add(1);
    let edge = format!(in alloc; "contains 2>[{contained}]")?;
    push_line(text, number, edge.as_str(), NUMBERS)?;
    Ok(number)
}

/// A dump whose document contains the others, which so many edges name at once, and then the
/// targets; and the number of its last line.
fn dump_where(
    alloc: Global,
    others: &[Ends],
    at_once: usize,
    targets: &[Ends],
) -> Result<(String, usize), Fail> {
    let mut text = text_of(alloc, "metaData 0.6.0\ndocument file:///a.ts")?;
    let mut last = 2;
    for part in others.chunks(at_once.max(1)) {
        last = push_contained(&mut text, last, part)?;
    }
    last = push_contained(&mut text, last, targets)?;
    Ok((text, last))
}

/// Whether the targets of a `contains` edge conflict with the others, which so many edges before it
/// name at once, or with each other. The others don't conflict.
fn conflict_where(
    alloc: Global,
    others: &[Ends],
    at_once: usize,
    targets: &[Ends],
) -> Result<bool, Fail> {
    let (text, last) = dump_where(alloc, others, at_once, targets)?;
    match read_dump(alloc, Profile::One, &mut Counted::new(text.as_bytes())) {
        Ok(dump) => {
            drop(dump);
            Ok(false)
        }
        Err(DumpFault::Line(LineFault { line, code }))
            if line as usize == last && code == Code::L12 => { Ok(true) }
        Err(_) => Err(Fail::from("another fault")),
    }
}

/// As `conflict_where`, where the others come in one edge, and where each comes in an edge of its
/// own.
fn is_conflict(alloc: Global, others: &[Ends], targets: &[Ends]) -> Result<bool, Fail> {
    let found = conflict_where(alloc, others, 100, targets)?;
    if conflict_where(alloc, others, 1, targets)? != found {
        Err("another answer where the others come one by one")?
    }
    Ok(found)
}

const NESTED: &[Ends] = &[
    (0, 0, 9, 0),
    (1, 0, 3, 0),
    (1, 2, 1, 5),
    (2, 0, 2, 8),
    (4, 0, 4, 4),
];

/// A target in its relation to one other, and whether they conflict.
const PAIRS: &[(&str, Ends, bool)] = &[
    ("equal", (1, 4, 1, 9), true),
    ("within", (1, 5, 1, 8), false),
    ("around", (1, 3, 1, 10), false),
    ("around, over lines", (0, 9, 2, 0), false),
    ("of the same start, shorter", (1, 4, 1, 8), false),
    ("of the same start, longer", (1, 4, 2, 0), false),
    ("of the same end, shorter", (1, 5, 1, 9), false),
    ("of the same end, longer", (0, 0, 1, 9), false),
    ("across the start", (1, 3, 1, 5), true),
    ("across the start, from a line before", (0, 7, 1, 8), true),
    ("across the end", (1, 8, 1, 10), true),
    ("across the end, to a line after", (1, 5, 2, 0), true),
    ("up to the start", (1, 0, 1, 4), false),
    ("from the end on", (1, 9, 1, 12), false),
    ("before", (0, 4, 0, 9), false),
    ("after", (2, 4, 2, 9), false),
    ("empty, at the start", (1, 4, 1, 4), false),
    ("empty, within", (1, 6, 1, 6), false),
    ("empty, at the end", (1, 9, 1, 9), false),
];

/// What the document contains, what it is to contain besides, and whether that conflicts.
const SEVERAL: &[(&[Ends], &[Ends], bool)] = &[
    (&[], &[], false),
    (NESTED, &[], false),
    (&[], NESTED, false),
    (NESTED, &[(4, 4, 4, 9), (1, 5, 1, 7)], false),
    (NESTED, &[(2, 5, 3, 5)], true),
    (NESTED, &[(4, 2, 4, 9)], true),
    (NESTED, &[(2, 0, 2, 8)], true),
    (NESTED, &[(1, 3, 9, 1)], true),
    (NESTED, &[(5, 0, 5, 4), (5, 2, 5, 6)], true),
    (NESTED, &[(5, 0, 5, 0), (5, 0, 5, 0)], true),
    (NESTED, &[(8, 0, 8, 4), (5, 0, 5, 4), (8, 0, 8, 4)], true),
    (NESTED, &[(3, 0, 3, 0)], false),
    (NESTED, &[(8, 9, 9, 1)], true),
    (NESTED, &[(0, 0, 9, 0)], true),
    (NESTED, &[(0, 0, 8, 0)], false),
    (NESTED, &[(0, 0, 9, 1)], false),
];

/// Asserts whether these targets conflict with the others, or with each other.
fn expect_conflict<R: AllocGlobal + Abort>(
    rt: &R,
    name: &str,
    others: &[Ends],
    targets: &[Ends],
    wanted: bool,
) -> Result<(), Fail> {
    let found = is_conflict(rt.alloc(), others, targets)?;
    expect_equal(
        rt,
        &(others, targets, found),
        &(others, targets, wanted),
        name,
    );
    Ok(())
}

#[test]
fn conflicts(rt: HostRuntime) -> Result<(), Fail> {
    let other = (1, 4, 1, 9);
    for (name, target, wanted) in PAIRS {
        expect_conflict(&rt, *name, &[other], &[*target], *wanted)?;
        expect_conflict(&rt, *name, &[*target], &[other], *wanted)?;
        expect_conflict(&rt, *name, &[], &[*target, other], *wanted)?;
    }
    for (others, targets, wanted) in SEVERAL {
        expect_conflict(&rt, "several", *others, *targets, *wanted)?;
    }
    Ok(())
}

/// Spans of which no two conflict, in the order in which they come.
const COMING: &[Ends] = &[
    (0, 5, 0, 6),
    (0, 0, 0, 10),
    (0, 5, 0, 7),
    (1, 0, 1, 3),
    (0, 5, 0, 9),
    (2, 0, 9, 0),
    (0, 0, 0, 20),
    (0, 7, 0, 8),
];

/// However many spans come at once, each of them is known then: its like conflicts with it.
#[test]
fn spans_that_came(rt: HostRuntime) -> Result<(), Fail> {
    for at_once in 1..9 {
        for &like in COMING {
            assert!(rt; conflict_where(rt.alloc(), COMING, at_once, &[like])?);
        }
        assert!(rt; !conflict_where(rt.alloc(), COMING, at_once, &[(0, 0, 0, 5), (1, 0, 1, 2)])?);
    }
    Ok(())
}
