//! Dumps that are deep or long: a long chain, a ring of results, many edges of one result, and
//! ranges that lie in each other.
use crate::short::{NUMBERS, push_line, push_made, text_of};
use std::alloc::Global;
use std::test::Fail;

/// The text of a dump, and of result sets after it up to this line.
pub fn filled(alloc: Global, dump: &str, last: usize) -> Result<String, Fail> {
    let mut text = text_of(alloc, dump)?;
    for number in dump.lines().count()..last {
        push_line(&mut text, number + 1, "resultSet", NUMBERS)?;
    }
    Ok(text)
}

/// A line without its line feed, and spaces after it up to so many bytes.
pub fn spaced(alloc: Global, line: &str, bytes: usize) -> Result<String, Fail> {
    let line = line.trim_end();
    let spaces = " ".repeat(alloc, bytes.saturating_sub(line.len()))?;
    Ok(format!(in alloc; "{line}{spaces}")?)
}

/// A dump and a further line, with so many spaces after it that it has this many bytes.
pub fn padded(alloc: Global, dump: &str, line: &str, bytes: usize) -> Result<String, Fail> {
    let mut text = text_of(alloc, dump)?;
    let mut last = String::new(alloc);
    let number = dump.lines().count().saturating_add(1);
    push_line(&mut last, number, line, NUMBERS)?;
    text.push_str(spaced(alloc, last.as_str(), bytes)?.as_str())?;
    text.push('\n')?;
    Ok(text)
}

/// A `contains` edge of the ranges from the first number to before the last.
pub fn contains(alloc: Global, first: usize, last: usize) -> Result<String, Fail> {
    let mut edge = String::from_str(alloc, "contains 2>[")?;
    for number in first..last {
        write!(edge, "{number},")?;
    }
    edge.pop();
    edge.push(']')?;
    Ok(edge)
}

/// One range, a chain of 49,996 result sets each made before the edge that leads to it, and a
/// definition at the last, the range itself: 99,999 elements.
pub fn long_chain(alloc: Global) -> Result<String, Fail> {
    let mut text = text_of(
        alloc,
        "metaData 0.6.0\ndocument file:///a.ts\nrange 0:0 0:1",
    )?;
    let mut last = 3usize;
    for number in 0..49_996usize {
        let made = 2 * number + 4;
        push_line(&mut text, made, "resultSet", NUMBERS)?;
        push_made(&mut text, made + 1, format!(in alloc; "next {last}>{made}"))?;
        last = made;
    }
    for &(number, line) in &[
        (99_996, "definitionResult"),
        (99_997, "textDocument/definition 99994>99996"),
        (99_998, "item 99996>[3] @2"),
        (99_999, "contains 2>[3]"),
    ] {
        push_line(&mut text, number, line, NUMBERS)?;
    }
    Ok(text)
}

/// Adds the edges of a ring of 100 results, each with its own range.
fn push_ring_edges(text: &mut String) -> Result<(), Fail> {
    let alloc = *text.allocator();
    for k in 0..100 {
        let (range, result) = (k + 3, k + 1000);
        let next = if k == 99 { 1000 } else { result + 1 };
        push_made(
            text,
            k + 2000,
            format!(in alloc; "textDocument/references {range}>{result}"),
        )?;
        push_made(
            text,
            k + 3000,
            format!(in alloc; "item {result}>[{next}] referenceResults @2"),
        )?;
        push_made(
            text,
            k + 4000,
            format!(in alloc; "item {result}>[{range}] references @2"),
        )?;
    }
    Ok(())
}

/// 100 results of references in a ring, each with its own range, the first character of a line: 503
/// elements. The ranges are the elements 3, 5 and so on, the results those after them.
pub fn ring(alloc: Global) -> Result<String, Fail> {
    let mut text = text_of(alloc, "metaData 0.6.0\ndocument file:///a.ts")?;
    for k in 0..100 {
        push_made(&mut text, k + 3, format!(in alloc; "range {k}:0 {k}:1"))?;
        push_line(&mut text, k + 1000, "referenceResult", NUMBERS)?;
    }
    push_ring_edges(&mut text)?;
    let contained = contains(alloc, 3, 103)?;
    push_line(&mut text, 5000, contained.as_str(), NUMBERS)?;
    Ok(text)
}

/// A result of 10,000 `item` edges to one range: 10,006 elements.
pub fn many_edges(alloc: Global) -> Result<String, Fail> {
    let mut text = text_of(
        alloc,
        "metaData 0.6.0\ndocument file:///a.ts\nrange 0:0 0:1\ndefinitionResult\ntextDocument/definition 3>4",
    )?;
    for number in 6..10_006 {
        push_line(&mut text, number, "item 4>[3] @2", NUMBERS)?;
    }
    push_line(&mut text, 10_006, "contains 2>[3]", NUMBERS)?;
    Ok(text)
}

/// Ranges of 10,000 levels, of which the outermost, which is the first or the last, is defined at
/// itself: 10,006 elements. The one of level `k` goes from 0:`k` to 0:`20000-k`.
pub fn levels(alloc: Global, is_falling: bool) -> Result<String, Fail> {
    let mut text = text_of(alloc, "metaData 0.6.0\ndocument file:///a.ts")?;
    for k in 0..10_000usize {
        let level = if is_falling {
            9_999usize.saturating_sub(k)
        } else {
            k
        };
        let end = 20_000usize.saturating_sub(level);
        push_made(
            &mut text,
            k + 3,
            format!(in alloc; "range 0:{level} 0:{end}"),
        )?;
    }
    push_definition(&mut text, if is_falling { 10_002 } else { 3 })?;
    Ok(text)
}

/// Adds the definition of one of these ranges at itself, and the edge that contains them all.
fn push_definition(text: &mut String, range: u32) -> Result<(), Fail> {
    let alloc = *text.allocator();
    push_line(text, 10_003, "definitionResult", NUMBERS)?;
    push_made(
        text,
        10_004,
        format!(in alloc; "textDocument/definition {range}>10003"),
    )?;
    push_made(text, 10_005, format!(in alloc; "item 10003>[{range}] @2"))?;
    let contained = contains(alloc, 3, 10_003)?;
    push_line(text, 10_006, contained.as_str(), NUMBERS)
}
