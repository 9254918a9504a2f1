//! Reads one line of a dump: the element that it spells in a profile, or the least code of its
//! shape. It doesn't know the lines before it: what these forbid is in the crate `dump`.
//! `specs/Reading`.
ghost use Rattle.std.specs.Prelude.{◌≡◌, ℕ, List, IfErr};
ghost use Rattle.lsif.specs.Element.{element_value};
ghost use Rattle.lsif.specs.Reading.{element_in, json_of, reading, IsAddedLabel, IsLabelInOne, IsOfProfileOne, IsOtherLabel, HasNoAddedLabel};
ghost use Rattle.lsif.specs.declared.request_kind.RequestKind.{RequestKind};
ghost use Rattle.lsif.specs.Shape.{Gives, IsShapeFault, some_or};
ghost use Rattle.serde_json.specs.View.{view};

use crate::code::Code;
use crate::edges::{edge, edge_label};
use crate::element::Element;
use crate::fault::ReadFault;
use crate::id::member_id;
use crate::limits::LONGEST_LINE;
use crate::profile::Profile;
use crate::vertices::{vertex, vertex_label};
use serde_json::{Category, Value};
use std::alloc::Global;

/// The element that a JSON value is.
#[tactic(auto, unfolding(crate::specs::Reading::element_in))]
fn element(alloc: Global, profile: Profile, value: &Value) -> Result<Element, ReadFault>
    ensures reading { Gives element_value result (element_in profile (view value.now)) }
    ensures shape { IfErr result IsShapeFault }
{
    let Some(id) = member_id(alloc, value, "id")? else {
        return Err(ReadFault::Shape(Code::L03));
    };
    let Some(kind) = value.get("type").and_then(Value::as_str) else {
        return Err(ReadFault::Shape(Code::L05));
    };
    let Some(label) = value.get("label").and_then(Value::as_str) else {
        return Err(ReadFault::Shape(Code::L05));
    };
    if kind == "vertex" {
        match vertex(alloc, vertex_label(profile, label), value)? {
            Some(vertex) => Ok(Element::Vertex(id, vertex)),
            None => Err(ReadFault::Shape(Code::L07)),
        }
    } else if kind == "edge" {
        let edge = edge(alloc, edge_label(profile, label), value)?;
        Ok(Element::Edge(id, edge))
    } else {
        Err(ReadFault::Shape(Code::L05))
    }
}

/// The JSON value that a line is.
#[tactic(auto, using(crate::proofs::Utf8::texts))]
fn json(alloc: Global, line: &[u8]) -> Result<Value, ReadFault>
    ensures reading { Gives view result (some_or Code.L02 (json_of line.now)) }
    ensures shape { IfErr result IsShapeFault }
{
    let Ok(text) = str::from_utf8(line) else {
        return Err(ReadFault::Shape(Code::L02));
    };
    match Value::from_str(alloc, text) {
        Ok(value) => Ok(value),
        Err(e) if matches!(e.classify(), Category::Memory) => Err(ReadFault::Memory),
        Err(_) => Err(ReadFault::Shape(Code::L02)),
    }
}

/// Profile 1 reads the labels of definitions, references and hovers, and of no other request: the
/// four labels that profile 2 adds are other labels to it. Each line that has none of the four is
/// read alike in both profiles.
pub fn profile_law()
    ensures base { (kind : RequestKind) (text : List ℕ) → IsLabelInOne kind text → IsOfProfileOne kind }
    ensures added { (text : List ℕ) → IsAddedLabel text → IsOtherLabel text }
    ensures alike { (line : List ℕ) → HasNoAddedLabel line → reading Profile.Two line ≡ reading Profile.One line }
{}

/// The element that a line of a dump is in a profile, given without its line feed, or the least
/// fault of its shape.
#[tactic(auto, unfolding(crate::specs::Reading::reading))]
pub fn read_element(alloc: Global, profile: Profile, line: &[u8]) -> Result<Element, ReadFault>
    ensures reading { Gives element_value result (reading profile line.now) }
    ensures shape { IfErr result IsShapeFault }
{
    if line.len() > LONGEST_LINE {
        return Err(ReadFault::Shape(Code::L01));
    }
    element(alloc, profile, &json(alloc, line)?)
}
