//! The rows of documents and of hovers, which need nothing but the element itself. `IsHoverRow` in
//! `specs/Flat`.
ghost use Rattle.std.specs.Prelude.{◌≡◌, ◌++◌, IfOk, OnOk, Contains, map};
ghost use Rattle.std.specs.Cmp.Lexicographic.{slice_cmp};
ghost use Rattle.std.specs.Ordering.{nat_cmp};
ghost use Rattle.lsif.specs.Element.{element_value};
ghost use Rattle.dump.specs.Places.{HasDocument, IsListing};
ghost use Rattle.flatten.specs.Rows.{document_value, hover_value};
ghost use Rattle.flatten.specs.Steps.Documents.{documents_in, hovers_in};
ghost use Rattle.flatten.specs.Steps.Kinds.{AreKinds};

use crate::kinds::Kinds;
use crate::numbers::number_of;
use crate::rows::{DocRow, HoverRow};
use dump::{CheckedDump, vertex_law};
use lsif::{Element, Vertex};
use std::alloc::{AllocError, Global};

/// Adds the row of the element, where it's a document.
fn add_document<'a>(rows: &mut Vec<DocRow<'a>>, element: &'a Element) -> Result<(), AllocError>
    ensures { OnOk result (map document_value rows.new.items ≡ map document_value rows.old.items ++ documents_in (element_value element.now)) }
{
    if let Element::Vertex(_, Vertex::Document(uri)) = element {
        rows.push(DocRow { uri: uri.as_str() })?;
    }
    Ok(())
}

/// Puts the rows in order, each once.
fn list_documents(rows: &mut Vec<DocRow<'_>>)
    ensures { IsListing (slice_cmp nat_cmp) (Contains (map document_value rows.old.items)) (map document_value rows.new.items) }
{
    rows.sort_unstable();
    rows.dedup();
}

/// The rows of documents: in the order of their uris.
pub(crate) fn document_rows<'a>(
    alloc: Global,
    kinds: &Kinds<'a>,
) -> Result<Vec<DocRow<'a>>, AllocError>
    requires { AreKinds kinds.now }
    ensures { IfOk result (λ rows. IsListing (slice_cmp nat_cmp) (HasDocument kinds.now.dump.now.elements) (map document_value rows.items)) }
{
    vertex_law();
    let mut rows = Vec::new(alloc);
    for element in &kinds.documents {
        add_document(&mut rows, element)?;
    }
    list_documents(&mut rows);
    Ok(rows)
}

/// Adds the row of the element, where it's a hover result.
pub(crate) fn add_hover<'a>(
    rows: &mut Vec<HoverRow<'a>>,
    dump: &CheckedDump,
    element: &'a Element,
) -> Result<(), AllocError>
    ensures { OnOk result (map hover_value rows.new.items ≡ map hover_value rows.old.items ++ hovers_in dump.now.elements (element_value element.now)) }
{
    if let Element::Vertex(id, Vertex::HoverResult(contents)) = element {
        if let Some(number) = number_of(dump, id.lent()) {
            rows.push(HoverRow {
                result: number,
                contents: contents.as_str(),
            })?;
        }
    }
    Ok(())
}
