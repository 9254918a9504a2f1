//! The rows of a dump by a plain walk, to compare with those of `flatten`. Whatever is looked up,
//! all elements are walked; so it's quadratic, for small dumps.
use dump::{CheckedDump, Role, role_of};
use flatten::{BearerRow, DocRow, HoverRow, ItemRow, MarkRow, RangeRow, Results, Rows, key_text};
use lsif::{
    Edge, Element, IdRef, Ids, MonikerKind, Package, Property, REQUESTS, RequestKind, Vertex,
};
use positions::Span;
use std::alloc::{AllocError, Global};
use std::rc::RcStr;
use std::test::Fail;

/// The line of the element of this id, counted from 1.
fn line_of(elements: &[Element], id: IdRef<'_>) -> Option<u32> {
    let mut line = 0u32;
    for element in elements {
        line = line.saturating_add(1);
        if element.id().lent().is(id) {
            return Some(line);
        }
    }
    None
}

fn vertex_of<'a>(elements: &'a [Element], id: IdRef<'_>) -> Option<&'a Vertex> {
    for element in elements {
        if let Element::Vertex(own, vertex) = element {
            if own.lent().is(id) {
                return Some(vertex);
            }
        }
    }
    None
}

/// The labels of edges that leave a vertex once at most.
#[derive(Clone, Copy, PartialEq, Eq)]
enum Label {
    Next,
    Package,
    Result(RequestKind),
}

/// The label of the edge, where it's one of these, and what it joins.
fn joined(edge: &Edge) -> Option<(Label, IdRef<'_>, IdRef<'_>)> {
    match edge {
        Edge::Next(from, to) => Some((Label::Next, from.lent(), to.lent())),
        Edge::Package(from, to) => Some((Label::Package, from.lent(), to.lent())),
        Edge::Request(kind, from, to) => Some((Label::Result(*kind), from.lent(), to.lent())),
        _ => None,
    }
}

/// What the edge of this label leads to from the vertex.
fn target<'a>(elements: &'a [Element], label: Label, vertex: IdRef<'_>) -> Option<IdRef<'a>> {
    for element in elements {
        if let Element::Edge(_, edge) = element {
            if let Some((found, from, to)) = joined(edge) {
                if found == label && from.is(vertex) {
                    return Some(to);
                }
            }
        }
    }
    None
}

/// The vertex, and those that `next` edges lead to from it, one after the other.
fn chain<'a>(
    alloc: Global,
    elements: &'a [Element],
    vertex: IdRef<'a>,
) -> Result<Vec<IdRef<'a>>, AllocError> {
    let mut members = Vec::new(alloc);
    let mut member = Some(vertex);
    for _ in elements {
        if let Some(id) = member {
            members.push(id)?;
            member = target(elements, Label::Next, id);
        }
    }
    Ok(members)
}

/// The number of the first result that the request has along the chain.
fn first(elements: &[Element], members: &[IdRef<'_>], request: RequestKind) -> Option<u32> {
    for member in members {
        if let Some(result) = target(elements, Label::Result(request), *member) {
            return line_of(elements, result);
        }
    }
    None
}

/// The numbers of the first results that requests have along the chain.
fn first_results(elements: &[Element], members: &[IdRef<'_>]) -> Results {
    let mut results = Results::none();
    for kind in REQUESTS {
        results = results.with(kind, first(elements, members, kind));
    }
    results
}

/// A range that a document contains.
#[derive(Clone, Copy)]
struct Range<'a> {
    line: u32,
    id: IdRef<'a>,
    uri: &'a str,
    span: &'a Span,
}

/// Whether the id is one of the list.
fn names(ids: &Ids, id: IdRef<'_>) -> bool {
    for other in ids.iter() {
        if other.is(id) {
            return true;
        }
    }
    false
}

/// The URL of the document that contains the range.
fn document_of<'a>(elements: &'a [Element], range: IdRef<'_>) -> Option<&'a str> {
    for element in elements {
        if let Element::Edge(_, Edge::Contains(from, ranges)) = element {
            if let (true, Some(Vertex::Document(uri))) = (
                names(ranges, range),
                vertex_of(elements, from.lent()),
            ) {
                return Some(uri.as_str());
            }
        }
    }
    None
}

/// The ranges that documents contain.
fn ranges_of<'a>(alloc: Global, elements: &'a [Element]) -> Result<Vec<Range<'a>>, AllocError> {
    let mut ranges = Vec::new(alloc);
    let mut line = 0u32;
    for element in elements {
        line = line.saturating_add(1);
        if let Element::Vertex(id, Vertex::Range(span)) = element {
            if let Some(uri) = document_of(elements, id.lent()) {
                ranges.push(Range {
                    line,
                    id: id.lent(),
                    uri,
                    span,
                })?;
            }
        }
    }
    Ok(ranges)
}

/// Whether the inner range nests in the outer, another of its document, and neither is empty.
fn lies_in(inner: &Range<'_>, outer: &Range<'_>) -> bool {
    inner.line != outer.line
        && inner.uri == outer.uri
        && inner.span.start() < inner.span.end()
        && outer.span.start() < outer.span.end()
        && inner.span.nests(*outer.span)
}

/// The line of the smallest range that this one lies in.
fn parent(ranges: &[Range<'_>], range: &Range<'_>) -> Option<u32> {
    let mut smallest: Option<&Range<'_>> = None;
    for outer in ranges {
        let is_smaller = match smallest {
            Some(found) => lies_in(outer, found),
            None => true,
        };
        if lies_in(range, outer) && is_smaller {
            smallest = Some(outer);
        }
    }
    Some(smallest?.line)
}

fn range_rows<'a>(
    alloc: Global,
    elements: &'a [Element],
    ranges: &[Range<'a>],
) -> Result<Vec<RangeRow<'a>>, AllocError> {
    let mut rows = Vec::new(alloc);
    for range in ranges {
        let members = chain(alloc, elements, range.id)?;
        rows.push(RangeRow {
            line: range.line,
            uri: range.uri,
            span: range.span,
            parent: parent(ranges, range),
            results: first_results(elements, &members),
        })?;
    }
    Ok(rows)
}

fn is_among(ids: &[IdRef<'_>], id: IdRef<'_>) -> bool {
    for other in ids {
        if other.is(id) {
            return true;
        }
    }
    false
}

/// Adds the id, where it isn't there yet.
fn add<'a>(found: &mut Vec<IdRef<'a>>, id: IdRef<'a>) -> Result<(), AllocError> {
    if !is_among(found, id) {
        found.push(id)?;
    }
    Ok(())
}

/// Adds what an edge joins to the vertex: an `item` edge with "referenceResults", or an `attach`
/// edge, which is read both ways.
fn add_joined<'a>(
    found: &mut Vec<IdRef<'a>>,
    edge: &'a Edge,
    vertex: IdRef<'_>,
) -> Result<(), AllocError> {
    match edge {
        Edge::Item(item)
            if item.property == Some(Property::ReferenceResults) && item.source.lent().is(vertex) =>
            {
                for target in item.targets.iter() {
                    add(found, target)?;
                }
                Ok(())
            }
        Edge::Attach(from, to) if from.lent().is(vertex) => add(found, to.lent()),
        Edge::Attach(from, to) if to.lent().is(vertex) => add(found, from.lent()),
        _ => Ok(()),
    }
}

/// Adds what all such edges join to the vertex.
fn add_all<'a>(
    found: &mut Vec<IdRef<'a>>,
    elements: &'a [Element],
    vertex: IdRef<'_>,
) -> Result<(), AllocError> {
    for element in elements {
        if let Element::Edge(_, edge) = element {
            add_joined(found, edge, vertex)?;
        }
    }
    Ok(())
}

/// These vertices, and all that such edges lead to from them.
fn closed<'a>(
    elements: &'a [Element],
    starts: Vec<IdRef<'a>>,
) -> Result<Vec<IdRef<'a>>, AllocError> {
    let mut found = starts;
    for k in 0..elements.len() {
        if let Some(vertex) = found.get(k).copied() {
            add_all(&mut found, elements, vertex)?;
        }
    }
    Ok(found)
}

/// Adds the places of those of the ranges that are among the targets.
fn add_places<'a>(
    places: &mut Vec<(&'a str, &'a Span)>,
    ranges: &[Range<'a>],
    targets: &Ids,
) -> Result<(), AllocError> {
    for range in ranges {
        if names(targets, range.id) {
            places.push((range.uri, range.span))?;
        }
    }
    Ok(())
}

/// The places of the items of these results in the role: in order, each once.
fn places<'a>(
    alloc: Global,
    elements: &'a [Element],
    ranges: &[Range<'a>],
    results: &[IdRef<'_>],
    role: Role,
) -> Result<Vec<(&'a str, &'a Span)>, AllocError> {
    let mut places = Vec::new(alloc);
    for element in elements {
        if let Element::Edge(_, Edge::Item(item)) = element {
            if is_among(results, item.source.lent()) && role_of(item.property) == Some(role) {
                add_places(&mut places, ranges, &item.targets)?;
            }
        }
    }
    places.sort()?;
    places.dedup();
    Ok(places)
}

/// Adds the rows of these places.
fn add_item_rows<'a>(
    rows: &mut Vec<ItemRow<'a>>,
    number: u32,
    role: Role,
    places: &[(&'a str, &'a Span)],
) -> Result<(), AllocError> {
    for &(uri, span) in places {
        rows.push(ItemRow {
            result: number,
            role,
            uri,
            span,
        })?;
    }
    Ok(())
}

/// Adds the rows of the result of this number.
fn add_items<'a>(
    alloc: Global,
    rows: &mut Vec<ItemRow<'a>>,
    elements: &'a [Element],
    ranges: &[Range<'a>],
    (number, id): (u32, IdRef<'a>),
) -> Result<(), AllocError> {
    let results = closed(elements, vec![in alloc; id]?)?;
    for &role in &[Role::Definitions, Role::References] {
        let places = places(alloc, elements, ranges, &results, role)?;
        add_item_rows(rows, number, role, &places)?;
    }
    Ok(())
}

/// The package that an edge names for the moniker.
fn package_of<'a>(elements: &'a [Element], moniker: IdRef<'_>) -> Option<&'a Package> {
    match vertex_of(elements, target(elements, Label::Package, moniker)?) {
        Some(Vertex::Package(package)) => Some(package),
        _ => None,
    }
}

/// The monikers that the vertex has: those of its `moniker` edges, and those that are attached to
/// them.
fn monikers<'a>(
    alloc: Global,
    elements: &'a [Element],
    vertex: IdRef<'_>,
) -> Result<Vec<IdRef<'a>>, AllocError> {
    let mut found = Vec::new(alloc);
    for element in elements {
        if let Element::Edge(_, Edge::Moniker(from, to)) = element {
            if from.lent().is(vertex) {
                add(&mut found, to.lent())?;
            }
        }
    }
    closed(elements, found)
}

/// Adds the texts of the keys of those of the monikers that are of this kind.
fn add_keys(
    alloc: Global,
    keys: &mut Vec<String>,
    elements: &[Element],
    monikers: &[IdRef<'_>],
    kind: MonikerKind,
) -> Result<(), Fail> {
    for id in monikers {
        if let Some(Vertex::Moniker(moniker)) = vertex_of(elements, *id) {
            if moniker.kind == kind {
                keys.push(key_text(alloc, moniker, package_of(elements, *id))?)?;
            }
        }
    }
    Ok(())
}

/// The texts of the keys of this kind that the vertices have: in order, each once.
fn keys_of(
    alloc: Global,
    elements: &[Element],
    vertices: &[IdRef<'_>],
    kind: MonikerKind,
) -> Result<Vec<String>, Fail> {
    let mut keys = Vec::new(alloc);
    for vertex in vertices {
        let monikers = monikers(alloc, elements, *vertex)?;
        add_keys(alloc, &mut keys, elements, &monikers, kind)?;
    }
    keys.sort()?;
    keys.dedup();
    Ok(keys)
}

/// The kinds in the order of the rows.
const KINDS: &[MonikerKind] = &[MonikerKind::Import, MonikerKind::Export, MonikerKind::Local];

/// Adds the rows of these keys.
fn add_marks(
    rows: &mut Vec<MarkRow>,
    range: u32,
    kind: MonikerKind,
    keys: Vec<String>,
) -> Result<(), AllocError> {
    for key in keys {
        let key = RcStr::from_string(key)?;
        rows.push(MarkRow { range, kind, key })?;
    }
    Ok(())
}

fn mark_rows(
    alloc: Global,
    elements: &[Element],
    ranges: &[Range<'_>],
) -> Result<Vec<MarkRow>, Fail> {
    let mut rows = Vec::new(alloc);
    for range in ranges {
        let members = chain(alloc, elements, range.id)?;
        for &kind in KINDS {
            let keys = keys_of(alloc, elements, &members, kind)?;
            add_marks(&mut rows, range.line, kind, keys)?;
        }
    }
    Ok(rows)
}

/// The row of a vertex of this line that has the key, and whose chain has these members.
fn bearer_row(
    elements: &[Element],
    members: &[IdRef<'_>],
    line: u32,
    kind: MonikerKind,
    key: RcStr,
) -> BearerRow {
    BearerRow {
        line,
        key,
        kind,
        results: first_results(elements, members),
    }
}

/// Adds the rows of the vertex of this line.
fn add_bearers(
    alloc: Global,
    rows: &mut Vec<BearerRow>,
    elements: &[Element],
    (line, id): (u32, IdRef<'_>),
) -> Result<(), Fail> {
    let members = chain(alloc, elements, id)?;
    for &kind in KINDS {
        for key in keys_of(alloc, elements, &[id], kind)? {
            let key = RcStr::from_string(key)?;
            rows.push(bearer_row(elements, &members, line, kind, key))?;
        }
    }
    Ok(())
}

/// Adds the rows that the vertex of this line has besides those of ranges and marks.
fn add_rows<'a>(
    alloc: Global,
    rows: &mut Rows<'a>,
    elements: &'a [Element],
    ranges: &[Range<'a>],
    (line, id, vertex): (u32, IdRef<'a>, &'a Vertex),
) -> Result<(), Fail> {
    match vertex {
        Vertex::Document(uri) => rows.documents.push(DocRow { uri: uri.as_str() })?,
        Vertex::HoverResult(contents) => rows.hovers.push(HoverRow {
            result: line,
            contents: contents.as_str(),
        })?,
        Vertex::Result(_) => {
            add_items(alloc, &mut rows.items, elements, ranges, (line, id))?;
        }
        _ => {}
    }
    add_bearers(alloc, &mut rows.bearers, elements, (line, id))
}

/// Adds the rows of all vertices, and puts those of documents in order.
fn add_all_rows<'a>(
    alloc: Global,
    rows: &mut Rows<'a>,
    elements: &'a [Element],
    ranges: &[Range<'a>],
) -> Result<(), Fail> {
    let mut line = 0u32;
    for element in elements {
        line = line.saturating_add(1);
        if let Element::Vertex(id, vertex) = element {
            add_rows(alloc, rows, elements, ranges, (line, id.lent(), vertex))?;
        }
    }
    Ok(rows.documents.sort()?)
}

/// The rows of the dump.
pub(super) fn plain_rows<'a>(alloc: Global, dump: &'a CheckedDump) -> Result<Rows<'a>, Fail> {
    let elements = dump.elements();
    let ranges = ranges_of(alloc, elements)?;
    let marks = mark_rows(alloc, elements, &ranges)?;
    let mut rows = Rows {
        profile: dump.profile(),
        documents: Vec::new(alloc),
        ranges: range_rows(alloc, elements, &ranges)?,
        items: Vec::new(alloc),
        hovers: Vec::new(alloc),
        marks,
        bearers: Vec::new(alloc),
    };
    add_all_rows(alloc, &mut rows, elements, &ranges)?;
    Ok(rows)
}
