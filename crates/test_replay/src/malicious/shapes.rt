//! The texts of dumps that are deep, long or of many elements. Those that other tests have too are
//! in `samples`.
use samples::great::{contains, filled, long_chain, many_edges, padded, ring};
use samples::named::META_DATA;
use samples::{NUMBERS, parted, push_line, push_made, text_of};
use std::alloc::Global;
use std::test::Fail;

/// A metaData, and a vertex with a member of so many nested arrays.
fn arrays(alloc: Global, depth: usize) -> Result<String, Fail> {
    let mut text = text_of(alloc, META_DATA)?;
    text.push_str(r#"{"id":2,"type":"vertex","label":"note","deep":"#)?;
    for _ in 0..depth {
        text.push('[')?;
    }
    for _ in 0..depth {
        text.push(']')?;
    }
    text.push('}')?;
    Ok(text)
}

/// A chain of 49,997 `next` edges, and then the edge that closes it, where there is one.
fn chain(alloc: Global, is_closed: bool) -> Result<String, Fail> {
    let mut text = filled(alloc, META_DATA, 49_999)?;
    for source in 2..49_999usize {
        let target = source + 1;
        push_made(
            &mut text,
            49_998 + source,
            format!(in alloc; "next {source}>{target}"),
        )?;
    }
    if is_closed {
        push_line(&mut text, 99_997, "next 49999>2", NUMBERS)?;
    }
    Ok(text)
}

/// A `contains` edge of 10,000 ranges.
fn long_list(alloc: Global) -> Result<String, Fail> {
    let mut text = text_of(alloc, "metaData 0.6.0\ndocument file:///a.ts")?;
    for number in 3..10_003usize {
        push_made(
            &mut text,
            number,
            format!(in alloc; "range {number}:0 {number}:1"),
        )?;
    }
    let edge = contains(alloc, 3, 10_003)?;
    push_line(&mut text, 10_003, edge.as_str(), NUMBERS)?;
    Ok(text)
}

/// Adds a range that lies in those of lesser depth, and one beside all of these.
fn push_nested(text: &mut String, number: usize, depth: usize) -> Result<(), Fail> {
    let alloc = *text.allocator();
    let end = 40_000usize.saturating_sub(depth);
    let line = depth.saturating_add(50_000);
    push_made(text, number, format!(in alloc; "range {depth}:0 {end}:0"))?;
    push_made(
        text,
        number.saturating_add(1),
        format!(in alloc; "range {line}:0 {line}:1"),
    )
}

/// 10,000 ranges that lie in each other, the outermost first or last, and as many beside them.
fn nested(alloc: Global, is_falling: bool) -> Result<String, Fail> {
    let mut text = text_of(alloc, "metaData 0.6.0\ndocument file:///a.ts")?;
    for k in 0..10_000usize {
        let depth = if is_falling {
            9_999usize.saturating_sub(k)
        } else {
            k
        };
        push_nested(&mut text, 2 * k + 3, depth)?;
    }
    Ok(text)
}

/// Each of the nested ranges has a `contains` edge of its own; and, where it is so, then comes one
/// that overlaps some of them.
fn an_edge_each(alloc: Global, is_falling: bool, overlaps: bool) -> Result<String, Fail> {
    let mut text = nested(alloc, is_falling)?;
    for number in 3..20_003usize {
        push_made(
            &mut text,
            number + 20_000,
            format!(in alloc; "contains 2>[{number}]"),
        )?;
    }
    if overlaps {
        push_line(&mut text, 40_003, "range 10:1 45000:0", NUMBERS)?;
        push_line(&mut text, 40_004, "contains 2>[40003]", NUMBERS)?;
    }
    Ok(text)
}

/// One `contains` edge has all of them.
fn one_edge(alloc: Global, is_falling: bool) -> Result<String, Fail> {
    let mut text = nested(alloc, is_falling)?;
    let edge = contains(alloc, 3, 20_003)?;
    push_line(&mut text, 20_003, edge.as_str(), NUMBERS)?;
    Ok(text)
}

/// A definition of four `item` edges with 400,000 targets each, all the one range.
fn many_targets(alloc: Global) -> Result<String, Fail> {
    let mut text = text_of(
        alloc,
        "metaData 0.6.0\ndocument file:///a.ts\nrange 0:0 0:1\ndefinitionResult\ntextDocument/definition 3>4",
    )?;
    let targets = "3,".repeat(alloc, 399_999)?;
    for number in 6..10 {
        push_made(
            &mut text,
            number,
            format!(in alloc; "item 4>[{targets}3] @2"),
        )?;
    }
    push_line(&mut text, 10, "contains 2>[3]", NUMBERS)?;
    Ok(text)
}

/// Result sets up to line 99,999, whose ids have 48 bytes.
fn long_ids(alloc: Global) -> Result<String, Fail> {
    let mut text = text_of(alloc, META_DATA)?;
    for number in 100_002..200_000usize {
        let line = format!(in alloc;
            "#'012345678901234567890123456789012345678901{number}' resultSet"
        );
        push_made(&mut text, number, line)?;
    }
    Ok(text)
}

/// 49,000 ranges whose chains lead to one moniker, which has an identifier of 1,000,000 bytes.
fn long_identifier(alloc: Global) -> Result<String, Fail> {
    let mut text = text_of(alloc, "metaData 0.6.0\ndocument file:///a.ts\nresultSet")?;
    let identifier = "i".repeat(alloc, 1_000_000)?;
    push_made(
        &mut text,
        4,
        format!(in alloc; "moniker export s {identifier}"),
    )?;
    push_line(&mut text, 5, "moniker 3>4", NUMBERS)?;
    for number in 6..49_006usize {
        push_made(
            &mut text,
            number,
            format!(in alloc; "range {number}:0 {number}:1"),
        )?;
        push_made(
            &mut text,
            number + 49_001,
            format!(in alloc; "next {number}>3"),
        )?;
    }
    let edge = contains(alloc, 6, 49_006)?;
    push_line(&mut text, 49_006, edge.as_str(), NUMBERS)?;
    Ok(text)
}

/// A document with a URL of 100,000 bytes, and 250 ranges that are the references of each other.
fn long_uri(alloc: Global) -> Result<String, Fail> {
    let name = "u".repeat(alloc, 99_992)?;
    let mut text = text_of(alloc, META_DATA)?;
    push_made(&mut text, 2, format!(in alloc; "document file:///{name}"))?;
    for k in 0..250usize {
        push_made(&mut text, k + 3, format!(in alloc; "range {k}:0 {k}:1"))?;
    }
    push_references(&mut text, 250)?;
    Ok(text)
}

/// Adds the edges that make so many ranges, from line 3 on, the references of each other.
fn push_references(text: &mut String, count: usize) -> Result<(), Fail> {
    let alloc = *text.allocator();
    let last = count.saturating_add(3);
    let contained = contains(alloc, 3, last)?;
    let (_, ranges) = parted(contained.as_str(), ">")?;
    push_line(text, last, "referenceResult", NUMBERS)?;
    push_made(
        text,
        last.saturating_add(1),
        format!(in alloc; "item {last}>{ranges} references @2"),
    )?;
    push_line(text, last.saturating_add(2), contained.as_str(), NUMBERS)
}

/// A dump that is deep, long or of many elements.
pub(crate) enum Shape {
    /// So many arrays in each other.
    Arrays(usize),
    /// A line of so many bytes.
    Bytes(usize),
    /// So many lines.
    Lines(usize),
    Chain { is_closed: bool },
    LongList,
    EdgeEach { is_falling: bool, overlaps: bool },
    OneEdge { is_falling: bool },
    LongChain,
    Ring,
    ManyEdges,
    ManyTargets,
    LongIds,
    LongIdentifier,
    LongUri,
}

/// The text of the dump.
pub(crate) fn text_of_shape(alloc: Global, shape: &Shape) -> Result<String, Fail> {
    match shape {
        Shape::Arrays(depth) => arrays(alloc, *depth),
        Shape::Bytes(bytes) => padded(alloc, "", META_DATA, *bytes),
        Shape::Lines(last) => filled(alloc, META_DATA, *last),
        Shape::Chain { is_closed } => chain(alloc, *is_closed),
        Shape::LongList => long_list(alloc),
        Shape::EdgeEach {
            is_falling,
            overlaps,
        } => an_edge_each(alloc, *is_falling, *overlaps),
        Shape::OneEdge { is_falling } => one_edge(alloc, *is_falling),
        Shape::LongChain => long_chain(alloc),
        Shape::Ring => ring(alloc),
        Shape::ManyEdges => many_edges(alloc),
        Shape::ManyTargets => many_targets(alloc),
        Shape::LongIds => long_ids(alloc),
        Shape::LongIdentifier => long_identifier(alloc),
        Shape::LongUri => long_uri(alloc),
    }
}
