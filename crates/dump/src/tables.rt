//! The tables that lead from ids to the elements of a dump, so that each check of a line is a
//! look-up: ids by `index_map.rt`, the elements that name a vertex by `links.rt`, spans by
//! `sorted_spans.rt`, URLs by an ordered map. They refer to elements by their indices, and so copy
//! none.
ghost use Rattle.std.specs.Prelude.{◌≡◌, ◌++◌, ◌∷◌, ◌||◌, [], ℕ, List, Some, None, bytes_eq, IfOk, OnOk, OnErr, find, map, option_and_then, option_map, slice_get, if◌then◌else◌};
ghost use Rattle.std.specs.BTreeMap.{get_by_text};
ghost use Rattle.std.specs.List.{list_any};
ghost use Rattle.lsif.specs.Element.{IdValue, id_value, element_value, element_id, same_id};
ghost use Rattle.lsif.specs.Lent.{lent_value};
ghost use Rattle.dump.specs.Steps.Chains.{index_in, JoinsIndices};
ghost use Rattle.dump.specs.Conditions.{is_document_of, order_code};
ghost use Rattle.dump.specs.Contained.{spans_of, spans_in, any_conflicts, has_conflict};
ghost use Rattle.dump.specs.Graph.{element_at, vertex_at};
ghost use Rattle.dump.specs.Kinds.{is_document};
ghost use Rattle.dump.specs.Steps.Ids.{value_at, index_at, entered};
ghost use Rattle.dump.specs.Steps.Tables.{AreTables, IsFilled, lists, kept, is_id};
ghost use Rattle.dump.specs.Contained.{contains_source};
ghost use Rattle.dump.specs.Steps.Links.{is_link, link_at, named_by, ranges_in};
ghost use Rattle.dump.specs.Progress.{IsSound};

use crate::ids::IdMap;
use crate::index_map::IndexMap;
use crate::limits::SLOTS;
use crate::links::{LINKS, Link, Row, cell, enter_all};
use crate::single::{SingleLabel, single_of};
use crate::sorted_spans::{SortedSpans, add, conflict_after};
use lsif::{Edge, Element, Event, Id, IdRef, IdsIter, Vertex};
use positions::Span;
use std::alloc::{AllocError, Global};
use std::collections::BTreeMap;

/// What is kept beside the elements of a dump, so that they are looked up without a search. The
/// tables have their indices in the list, counted from 0.
#[derive(Drop)]
pub(crate) struct Tables {
    alloc: Global,
    /// The index of the element of an id.
    indices: IndexMap,
    /// Of each element the elements that name it.
    rows: Vec<Row>,
    /// The spans of a document's ranges, in lists of which each is in order.
    spans: IdMap<Vec<SortedSpans>>,
    /// The index of the document of a serialized URL.
    documents: BTreeMap<String, usize>,
}

/// The spans that are kept of a document, in lists.
fn lists<'a>(table: &'a IdMap<Vec<SortedSpans>>, document: IdRef<'_>) -> &'a [SortedSpans]
    ensures { result.now ≡ lists (value_at table.now (lent_value document.entry)) }
{
    match table.get(document) {
        Some(lists) => lists,
        None => &[],
    }
}

/// Adds the spans to those that are kept of a document. Where memory is refused they stay as they
/// are.
fn fill(
    alloc: Global,
    table: &mut IdMap<Vec<SortedSpans>>,
    document: IdRef<'_>,
    spans: Vec<Span>,
) -> Result<(), AllocError>
    ensures ok { OnOk result ((i : IdValue) → IsFilled (is_id i (Some (lent_value document.entry))) spans.items (value_at table.old i) (value_at table.new i)) }
    ensures err { OnErr result ((i : IdValue) → kept (value_at table.new i) ≡ kept (value_at table.old i)) }
{
    match document {
        IdRef::Number(n) => {
            let lists = table.numbers.entry(n)?.or_insert(Vec::new(alloc));
            add(alloc, lists, spans)
        }
        IdRef::Text(text) => {
            let key = String::from_str(alloc, text)?;
            let lists = table.texts.entry(key)?.or_insert(Vec::new(alloc));
            add(alloc, lists, spans)
        }
    }
}

/// Enters a document by its serialized URL.
fn enter_document(
    alloc: Global,
    documents: &mut BTreeMap<String, usize>,
    uri: &str,
    index: usize,
) -> Result<(), AllocError>
    ensures ok { OnOk result ((other : List ℕ) → get_by_text documents.new other
        ≡ (if bytes_eq uri.now other then Some index else get_by_text documents.old other)) }
    ensures err { OnErr result ((other : List ℕ) → get_by_text documents.new other ≡ get_by_text documents.old other) }
{
    let uri = String::from_str(alloc, uri)?;
    documents.insert(uri, index)?;
    Ok(())
}

/// Keeps what an element says beside its own id: of a `contains` edge the spans of its targets, of
/// a document its serialized URL. Where memory is refused all stays as it is.
fn keep(
    alloc: Global,
    spans: &mut IdMap<Vec<SortedSpans>>,
    documents: &mut BTreeMap<String, usize>,
    element: &Element,
    targets: Vec<Span>,
    index: usize,
) -> Result<(), AllocError>
    ensures spans { OnOk result ((i : IdValue) → IsFilled (is_id i (contains_source (element_value element.now))) targets.items (value_at spans.old i)
        (value_at spans.new i)) }
    ensures documents { OnOk result ((uri : List ℕ) → get_by_text documents.new uri
        ≡ (if is_document_of uri (element_value element.now) then Some index else get_by_text documents.old uri)) }
    ensures spans_stay { OnErr result ((i : IdValue) → kept (value_at spans.new i) ≡ kept (value_at spans.old i)) }
    ensures documents_stay { OnErr result ((uri : List ℕ) → get_by_text documents.new uri ≡ get_by_text documents.old uri) }
{
    match element {
        Element::Edge(_, Edge::Contains(from, _)) => fill(alloc, spans, from.lent(), targets),
        Element::Vertex(_, Vertex::Document(uri)) => {
            enter_document(alloc, documents, uri.as_str(), index)
        }
        _ => Ok(()),
    }
}

/// The source of a `contains` edge.
pub(crate) fn contains_source(element: &Element) -> Option<&Id>
    ensures { option_map (λ i. id_value i.now) result ≡ contains_source (element_value element.now) }
{
    match element {
        Element::Edge(_, Edge::Contains(from, _)) => Some(from),
        _ => None,
    }
}

/// The element at an index.
fn at(elements: &[Element], index: Option<usize>) -> Option<&Element>
    ensures { option_map (λ e. element_value e.now) result ≡ option_and_then (slice_get (map element_value elements.now)) index }
{
    match index {
        Some(index) => elements.get(index),
        None => None,
    }
}

impl Tables {
    /// The tables of no element.
    pub(crate) fn new(alloc: Global) -> Tables
        ensures { AreTables result [] }
    {
        Tables {
            alloc,
            indices: IndexMap::new(alloc, SLOTS),
            rows: Vec::new(alloc),
            spans: IdMap::new(alloc),
            documents: BTreeMap::new(alloc),
        }
    }

    /// The element of this id.
    pub(crate) fn element_at<'a>(
        &self,
        elements: &'a [Element],
        id: IdRef<'_>,
    ) -> Option<&'a Element>
        requires { AreTables self.now (map element_value elements.now) }
        ensures { option_map (λ e. element_value e.now) result ≡ element_at (map element_value elements.now) (lent_value id.entry) }
    {
        at(elements, self.indices.get(id))
    }

    /// The index of the element of this id.
    pub(crate) fn index_of_id(&self, elements: &[Element], id: IdRef<'_>) -> Option<usize>
        requires { AreTables self.now (map element_value elements.now) }
        ensures { result ≡ index_in (map element_value elements.now) (lent_value id.entry) }
    {
        self.indices.get(id)
    }

    /// The indices of the source and the target of a `next` edge that follows these elements.
    pub(crate) fn joined_indices(
        &self,
        elements: &[Element],
        element: &Element,
    ) -> Option<(usize, usize)>
        requires tables { AreTables self.now (map element_value elements.now) }
        requires free { order_code (map element_value elements.now) (element_value element.now) ≡ None }
        ensures { JoinsIndices (map element_value elements.now) (element_value element.now) result }
    {
        match single_of(element) {
            Some((SingleLabel::Next, from, to)) => {
                Some((self.indices.get(from.lent())?, self.indices.get(to.lent())?))
            }
            _ => None,
        }
    }

    /// The index of the first element that names the vertex in this way.
    fn linked_index(&self, link: Link, id: IdRef<'_>) -> Option<usize>
        ensures { result ≡ link_at self.now.indices self.now.rows.items link (lent_value id.entry) }
    {
        match self.indices.get(id) {
            Some(row) => cell(&self.rows, row, link),
            None => None,
        }
    }

    /// Whether an element names the vertex in this way.
    pub(crate) fn is_linked(&self, elements: &[Element], link: Link, id: IdRef<'_>) -> bool
        requires { AreTables self.now (map element_value elements.now) }
        ensures { result ≡ list_any (is_link (map element_value elements.now) link (lent_value id.entry)) (map element_value elements.now) }
    {
        self.linked_index(link, id).is_some()
    }

    /// The first element that names the vertex in this way.
    pub(crate) fn linked<'a>(
        &self,
        elements: &'a [Element],
        link: Link,
        id: IdRef<'_>,
    ) -> Option<&'a Element>
        requires { AreTables self.now (map element_value elements.now) }
        ensures { option_map (λ e. element_value e.now) result ≡ find (is_link (map element_value elements.now) link (lent_value id.entry))
            (map element_value elements.now) }
    {
        at(elements, self.linked_index(link, id))
    }

    /// Whether a document has this serialized URL.
    pub(crate) fn has_document_of(&self, elements: &[Element], uri: &str) -> bool
        requires { AreTables self.now (map element_value elements.now) }
        ensures { result ≡ list_any (is_document_of uri.now) (map element_value elements.now) }
    {
        self.documents.contains_key(uri)
    }

    /// The first document of this serialized URL.
    pub(crate) fn document_of<'a>(&self, elements: &'a [Element], uri: &str) -> Option<&'a Element>
        requires { AreTables self.now (map element_value elements.now) }
        ensures { option_map (λ e. element_value e.now) result ≡ find (is_document_of uri.now) (map element_value elements.now) }
    {
        at(elements, self.documents.get(uri).copied())
    }

    /// Whether the id is that of a document.
    fn is_document(&self, elements: &[Element], id: IdRef<'_>) -> bool
        requires { AreTables self.now (map element_value elements.now) }
        ensures { result ≡ is_document (vertex_at (map element_value elements.now) (lent_value id.entry)) }
    {
        matches!(
            self.element_at(elements, id),
            Some(Element::Vertex(_, Vertex::Document(_)))
        )
    }

    /// The spans of the ranges among these ids.
    fn spans_of(&self, elements: &[Element], ids: IdsIter<'_>) -> Result<Vec<Span>, AllocError>
        requires { AreTables self.now (map element_value elements.now) }
        ensures { IfOk result (λ found. found.items ≡ spans_of (map element_value elements.now) ids.entry) }
    {
        let mut found = Vec::new(self.alloc);
        for id in ids {
            if let Some(Element::Vertex(_, Vertex::Range(span))) = self.element_at(elements, id) {
                found.push(*span)?;
            }
        }
        Ok(found)
    }

    /// Whether the span of one of these ranges conflicts with that of a range that the document
    /// contains, or with another's of them.
    pub(crate) fn conflict(
        &self,
        elements: &[Element],
        document: IdRef<'_>,
        ranges: IdsIter<'_>,
    ) -> Result<bool, AllocError>
        requires { AreTables self.now (map element_value elements.now) }
        ensures { IfOk result (λ b. b ≡ (any_conflicts (spans_of (map element_value elements.now) ranges.entry)
            (spans_in (map element_value elements.now) (lent_value document.entry))
            || has_conflict (spans_of (map element_value elements.now) ranges.entry))) }
    {
        let targets = self.spans_of(elements, ranges)?;
        conflict_after(self.alloc, lists(&self.spans, document), targets)
    }

    /// The ranges that the element names, where it's a `contains` edge out of a document.
    fn ranges_of<'a>(&self, elements: &[Element], element: &'a Element) -> IdsIter<'a>
        requires { AreTables self.now (map element_value elements.now) }
        ensures { result ≡ ranges_in (map element_value elements.now) (element_value element.now) }
    {
        if let Element::Edge(_, Edge::Contains(from, to)) = element {
            if self.is_document(elements, from.lent()) {
                return to.iter();
            }
        }
        IdsIter::none()
    }

    /// The way in which the element names vertices, and these.
    fn named_by<'a>(
        &self,
        elements: &[Element],
        element: &'a Element,
    ) -> Option<(Link, IdsIter<'a>)>
        requires { AreTables self.now (map element_value elements.now) }
        ensures { result ≡ named_by (map element_value elements.now) (element_value element.now) }
    {
        if let Some((label, from, _)) = single_of(element) {
            return Some((Link::Single(label), IdsIter::one(from.lent())));
        }
        match element {
            Element::Vertex(_, Vertex::Event(Event::Begin(document))) => {
                Some((Link::Begun, IdsIter::one(document.lent())))
            }
            Element::Vertex(_, Vertex::Event(Event::End(document))) => {
                Some((Link::Ended, IdsIter::one(document.lent())))
            }
            Element::Edge(_, Edge::Contains(_, _)) => {
                Some((Link::Contained, self.ranges_of(elements, element)))
            }
            _ => None,
        }
    }

    /// Enters the id of an element and what is kept of it. Where memory is refused all stays as it
    /// is.
    fn enter(&mut self, element: &Element, targets: Vec<Span>, index: u32) -> Result<(), AllocError>
        requires { index_at self.old.indices (element_id (element_value element.now)) ≡ None }
        ensures rows { self.new.rows ≡ self.old.rows }
        ensures indices { OnOk result ((i : IdValue) → index_at self.new.indices i
            ≡ entered (same_id (element_id (element_value element.now)) i) index (index_at self.old.indices i)) }
        ensures spans { OnOk result ((i : IdValue) → IsFilled (is_id i (contains_source (element_value element.now))) targets.items (value_at self.old.spans i)
            (value_at self.new.spans i)) }
        ensures documents { OnOk result ((uri : List ℕ) → get_by_text self.new.documents uri
            ≡ (if is_document_of uri (element_value element.now) then Some index else get_by_text self.old.documents uri)) }
        ensures indices_stay { OnErr result ((i : IdValue) → index_at self.new.indices i ≡ index_at self.old.indices i) }
        ensures spans_stay { OnErr result ((i : IdValue) → kept (value_at self.new.spans i) ≡ kept (value_at self.old.spans i)) }
        ensures documents_stay { OnErr result ((uri : List ℕ) → get_by_text self.new.documents uri ≡ get_by_text self.old.documents uri) }
    {
        self.indices.enter(element.id().lent(), index)?;
        let kept = keep(
            self.alloc,
            &mut self.spans,
            &mut self.documents,
            element,
            targets,
            index as usize,
        );
        if kept.is_err() {
            self.indices.remove(element.id().lent());
        }
        kept
    }

    /// Enters the element that follows these. Where memory is refused the tables stay those of
    /// these.
    pub(crate) fn add(&mut self, elements: &[Element], element: &Element) -> Result<(), AllocError>
        requires tables { AreTables self.old (map element_value elements.now) }
        requires sound { IsSound (map element_value elements.now) }
        requires free { order_code (map element_value elements.now) (element_value element.now) ≡ None }
        ensures ok { OnOk result (AreTables self.new (map element_value elements.now ++ element_value element.now ∷ [])) }
        ensures err { OnErr result (AreTables self.new (map element_value elements.now)) }
    {
        let index = elements.len() as u32;
        let named = self.named_by(elements, element);
        let targets = self.spans_of(elements, self.ranges_of(elements, element))?;
        self.rows.reserve(1)?;
        self.enter(element, targets, index)?;
        self.rows.push_reserved([None; LINKS]);
        if let Some((link, ids)) = named {
            enter_all(&mut self.rows, &self.indices, link, ids, index);
        }
        Ok(())
    }
}
