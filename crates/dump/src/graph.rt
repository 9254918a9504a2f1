//! The elements of a dump so far, and what is looked up among them: the tables of `tables.rt`, and
//! the ends of `next` chains (`chain_ends.rt`). Nothing here searches the list of elements.
ghost use Rattle.std.specs.Prelude.{◌≡◌, ◌++◌, ◌||◌, ◌==◌, ◌<◌, ◌∷◌, [], None, IfSome, IfOk, OnOk, OnErr, length, map, option_map, vec_capacity, vec_len};
ghost use Rattle.std.specs.List.{list_any};
ghost use Rattle.lsif.specs.Element.{id_value, element_value};
ghost use Rattle.lsif.specs.Lent.{lent_value};
ghost use Rattle.dump.specs.Conditions.{is_document_of, order_code};
ghost use Rattle.dump.specs.Contained.{is_contained, is_in, spans_of, spans_in, any_conflicts, has_conflict};
ghost use Rattle.dump.specs.Ended.{has_begun, has_ended, is_closed};
ghost use Rattle.dump.specs.Graph.{element_at, line_of, has_repeated};
ghost use Rattle.dump.specs.Steps.Chains.{HasShortcuts};
ghost use Rattle.dump.specs.Steps.Tables.{AreTables, document_id};
ghost use Rattle.dump.specs.Contained.{container};
ghost use Rattle.dump.specs.Progress.{IsSound};
ghost use Rattle.dump.specs.Walks.{Path, first_to, single_pairs, next_pairs};

use crate::chain_ends::{end_of, follow};
use crate::ids::is_repeating;
use crate::links::Link;
use crate::single::{SingleLabel, target};
use crate::tables::{Tables, contains_source};
use lsif::{Element, Id, IdRef, IdsIter};
use std::alloc::{AllocError, Global};
use std::marker::Model;

/// The elements of the lines so far, and tables that lead to them.
#[derive(Drop)]
pub(crate) struct Graph {
    elements: Vec<Element>,
    tables: Tables,
    /// Of each element a vertex further on in its chain of `next` edges.
    shortcuts: Vec<Option<usize>>,
}

impl Model for Graph {
    ghost use Rattle.std.specs.Prelude.{List, map};
    ghost use Rattle.lsif.specs.Element.{ElementValue, element_value};
    ghost use Rattle.dump.specs.Steps.Chains.{HasShortcuts};
    ghost use Rattle.dump.specs.Steps.Tables.{AreTables};
    ghost use Rattle.dump.specs.Walks.{next_pairs};

    ghost Value = { List ElementValue };

    ghost view = { λ g. map element_value g.elements.items };

    ghost invariant = { λ g. AreTables g.tables (map element_value g.elements.items)
        × HasShortcuts (next_pairs (map element_value g.elements.items)) (map element_value g.elements.items) g.shortcuts.items };
}

/// Makes room for one more element, and enters it in the tables and the shortcuts of those before
/// it. Where memory is refused these stay as they are.
fn enter(
    elements: &mut Vec<Element>,
    tables: &mut Tables,
    shortcuts: &mut Vec<Option<usize>>,
    element: &Element,
) -> Result<(), AllocError>
    requires tables { AreTables tables.old (map element_value elements.old.items) }
    requires shortcuts { HasShortcuts (next_pairs (map element_value elements.old.items)) (map element_value elements.old.items) shortcuts.old.items }
    requires sound { IsSound (map element_value elements.old.items) }
    requires free { order_code (map element_value elements.old.items) (element_value element.now) ≡ None }
    ensures same { elements.new.items ≡ elements.old.items }
    ensures room { OnOk result (vec_len elements.new < vec_capacity elements.new) }
    ensures tables { OnOk result (AreTables tables.new (map element_value elements.old.items ++ element_value element.now ∷ [])) }
    ensures shortcuts { OnOk result (HasShortcuts (next_pairs (map element_value elements.old.items ++ element_value element.now ∷ []))
        (map element_value elements.old.items ++ element_value element.now ∷ []) shortcuts.new.items) }
    ensures err_tables { OnErr result (AreTables tables.new (map element_value elements.old.items)) }
    ensures err_shortcuts { OnErr result (HasShortcuts (next_pairs (map element_value elements.old.items)) (map element_value elements.old.items)
        shortcuts.new.items) }
{
    elements.reserve(1)?;
    shortcuts.reserve(1)?;
    let joined = tables.joined_indices(elements, element);
    tables.add(elements, element)?;
    follow(shortcuts, elements, element, joined);
    Ok(())
}

impl Graph {
    /// A graph without elements.
    pub(crate) fn new(alloc: Global) -> Graph
        ensures { result ≡ [] }
    {
        Graph {
            elements: Vec::new(alloc),
            tables: Tables::new(alloc),
            shortcuts: Vec::new(alloc),
        }
    }

    pub(crate) fn elements(&self) -> &[Element]
        ensures { map element_value result.now ≡ self.now }
    {
        &self.elements
    }

    pub(crate) fn len(&self) -> usize
        ensures { result ≡ length self.now }
    {
        self.elements.len()
    }

    pub(crate) fn is_empty(&self) -> bool
        ensures { result ≡ (length self.now == 0) }
    {
        self.elements.is_empty()
    }

    /// Adds the element of the next line. Where memory is refused the elements stay as they are.
    pub(crate) fn push(&mut self, element: Element) -> Result<(), AllocError>
        requires sound { IsSound self.old }
        requires free { order_code self.old (element_value element) ≡ None }
        ensures ok { OnOk result (self.new ≡ self.old ++ element_value element ∷ []) }
        ensures err { OnErr result (self.new ≡ self.old) }
    {
        match enter(
            &mut self.elements,
            &mut self.tables,
            &mut self.shortcuts,
            &element,
        ) {
            Ok(()) => {
                self.elements.push_reserved(element);
                Ok(())
            }
            Err(refused) => {
                drop(element);
                Err(refused)
            }
        }
    }

    /// The last vertex of the chain of `next` edges from this one.
    pub(crate) fn end_of<'a>(&'a self, id: IdRef<'a>) -> IdRef<'a>
        requires { IsSound self.now }
        ensures path { Path (next_pairs self.now) (lent_value id.entry) (lent_value result) }
        ensures last { first_to (next_pairs self.now) (lent_value result) ≡ None }
    {
        match self.tables.index_of_id(&self.elements, id) {
            Some(index) => self.elements[end_of(&self.shortcuts, &self.elements, index)]
                .id()
                .lent(),
            None => id,
        }
    }

    /// The index of the element of this id.
    pub(crate) fn index_of(&self, id: IdRef<'_>) -> Option<usize>
        ensures value { result ≡ line_of self.now (lent_value id.entry) }
        ensures below { IfSome result (λ index. index < length self.now) }
    {
        self.tables.index_of_id(&self.elements, id)
    }

    /// The element of this id.
    pub(crate) fn element_at(&self, id: IdRef<'_>) -> Option<&Element>
        ensures { option_map (λ e. element_value e.now) result ≡ element_at self.now (lent_value id.entry) }
    {
        self.tables.element_at(&self.elements, id)
    }

    /// Whether a document contains the range.
    pub(crate) fn is_contained(&self, range: IdRef<'_>) -> bool
        ensures { result ≡ is_contained self.now (lent_value range.entry) }
    {
        self.tables
            .is_linked(&self.elements, Link::Contained, range)
    }

    /// The document that contains the range.
    pub(crate) fn container(&self, range: IdRef<'_>) -> Option<&Id>
        ensures { option_map (λ i. id_value i.now) result ≡ container self.now (lent_value range.entry) }
    {
        match self.tables.linked(&self.elements, Link::Contained, range) {
            Some(edge) => contains_source(edge),
            None => None,
        }
    }

    /// Whether this document contains the range.
    pub(crate) fn is_in(&self, document: IdRef<'_>, range: IdRef<'_>) -> bool
        requires { IsSound self.now }
        ensures { result ≡ is_in self.now (lent_value document.entry) (lent_value range.entry) }
    {
        match self.container(range) {
            Some(container) => container.lent().is(document),
            None => false,
        }
    }

    /// Whether an id is in the list twice.
    pub(crate) fn is_repeating(&self, ids: IdsIter<'_>) -> Result<bool, AllocError>
        ensures { IfOk result (λ b. b ≡ has_repeated ids.entry) }
    {
        is_repeating(*self.elements.allocator(), ids)
    }

    /// Whether the span of one of these ranges conflicts with that of a range that the document
    /// contains, or with another's of them.
    pub(crate) fn conflict(
        &self,
        document: IdRef<'_>,
        ranges: IdsIter<'_>,
    ) -> Result<bool, AllocError>
        ensures { IfOk result (λ b. b ≡ (any_conflicts (spans_of self.now ranges.entry) (spans_in self.now (lent_value document.entry))
            || has_conflict (spans_of self.now ranges.entry))) }
    {
        self.tables.conflict(&self.elements, document, ranges)
    }

    /// Whether this document has begun.
    pub(crate) fn has_begun(&self, document: IdRef<'_>) -> bool
        ensures { result ≡ has_begun self.now (lent_value document.entry) }
    {
        self.tables.is_linked(&self.elements, Link::Begun, document)
    }

    /// Whether this document has ended.
    pub(crate) fn has_ended(&self, document: IdRef<'_>) -> bool
        ensures { result ≡ has_ended self.now (lent_value document.entry) }
    {
        self.tables.is_linked(&self.elements, Link::Ended, document)
    }

    /// Whether a document that has ended contains the range.
    pub(crate) fn is_closed(&self, range: IdRef<'_>) -> bool
        requires { IsSound self.now }
        ensures { result ≡ is_closed self.now (lent_value range.entry) }
    {
        match self.container(range) {
            Some(document) => self.has_ended(document.lent()),
            None => false,
        }
    }

    /// Whether a document has this serialized URL.
    pub(crate) fn has_document_of(&self, uri: &str) -> bool
        ensures { result ≡ list_any (is_document_of uri.now) self.now }
    {
        self.tables.has_document_of(&self.elements, uri)
    }

    /// The first document of this serialized URL.
    pub(crate) fn document_of(&self, uri: &str) -> Option<&Id>
        ensures { option_map (λ i. id_value i.now) result ≡ document_id self.now uri.now }
    {
        match self.tables.document_of(&self.elements, uri) {
            Some(element) => Some(element.id()),
            None => None,
        }
    }

    /// The target of the edge of this label out of the vertex.
    pub(crate) fn target_of(&self, label: SingleLabel, id: IdRef<'_>) -> Option<&Id>
        ensures { option_map (λ i. id_value i.now) result ≡ first_to (single_pairs label self.now) (lent_value id.entry) }
    {
        match self.tables.linked(&self.elements, Link::Single(label), id) {
            Some(edge) => target(edge),
            None => None,
        }
    }
}
