//! The bodies of replies, as `serde_json` writes them. Lists are made item by item, since a value
//! of all of them would take many times the memory of the text. What they say is in `specs/Reply`.
ghost use Rattle.std.specs.Prelude.{◌≡◌, ◌++◌, ◌∷◌, [], IfOk, OnOk, false, map, option_map, string_bytes};
ghost use Rattle.serde_json.specs.Data.{array};
ghost use Rattle.serde_json.specs.View.{view, items_of};
ghost use Rattle.serde_json.specs.Written.{comma_if, compact_text, has_float};
ghost use Rattle.tags.specs.Views.{field_value};
ghost use Rattle.machine.specs.Found.{place_found, tag_found, project_found};
ghost use Rattle.machine.specs.Reply.{written, fault_data, position_data, place_data, kind_data, tag_data, project_data, projects_data, profile_data, dump_accepted, tags_accepted, removed, dump_refused, tags_refused, hover_found, tags_found, projects_found, profile_found};
ghost use Rattle.machine.specs.Reply.{field_data};
ghost use Rattle.machine.specs.State.{accepted_text, count_data, parts_removed};

use crate::found::{FoundPlace, FoundProject, FoundTag};
use crate::reply::Reply;
use lsif::Profile;
use positions::Position;
use serde_json::{Value, json};
use std::alloc::{AllocError, Global};
use tags::Field;

/// A reply with this JSON value as its body.
fn written(alloc: Global, status: u16, body: &Value) -> Result<Reply, AllocError>
    requires { has_float (view body.now) ≡ false }
    ensures { IfOk result (λ r. r ≡ written status (view body.now)) }
{
    let text = body.to_string(alloc)?;
    Ok(Reply::made(status, text))
}

// ---- lists, whose text is made item by item: they may be long

/// What comes before the places of a reply. A desk adds each by `add_place`, and then `END`.
pub const PLACES: &str = "{\"places\":[";

/// What comes before its tags.
const TAGS: &str = "{\"tags\":[";

/// What comes after its items.
pub const END: &str = "]}";

/// Adds an item to the text of a list, after a comma where it isn't the first.
fn add_item(alloc: Global, text: &mut String, later: bool, item: &Value) -> Result<(), AllocError>
    requires { has_float (view item.now) ≡ false }
    ensures { OnOk result (string_bytes text.new ≡ string_bytes text.old ++ (comma_if later ++ compact_text (view item.now))) }
{
    if later {
        text.push_str(",")?;
    }
    let written = item.to_string(alloc)?;
    text.push_str(written.as_str())
}

// ---- commands

fn count_value(alloc: Global, part: &str, count: usize) -> Result<Value, AllocError>
    ensures { IfOk result (λ v. view v ≡ count_data part.now count) }
{
    json!(in alloc; {"accepted": part, "count": count})
}

/// The reply to an accepted dump, with the number of its elements.
pub fn dump_accepted(alloc: Global, elements: usize) -> Result<Reply, AllocError>
    ensures { IfOk result (λ r. r ≡ dump_accepted elements) }
{
    let body = count_value(alloc, "lsif", elements)?;
    let reply = written(alloc, 200, &body)?;
    Ok(reply)
}

/// The reply to an accepted tags file, with the number of its tags.
pub fn tags_accepted(alloc: Global, tags: usize) -> Result<Reply, AllocError>
    ensures { IfOk result (λ r. r ≡ tags_accepted tags) }
{
    let body = count_value(alloc, "tags", tags)?;
    let reply = written(alloc, 200, &body)?;
    Ok(reply)
}

/// The body of the reply to a removal, by whether the project had a part.
pub fn removal_text(was_there: bool) -> &'static str
    ensures { result.now ≡ accepted_text (parts_removed was_there) }
{
    if was_there {
        "{\"removed\":true}"
    } else {
        "{\"removed\":false}"
    }
}

/// The reply to a removal: whether anything was there. It takes no memory, so that it can't fail
/// once the parts are gone.
pub fn removed(was_there: bool) -> Reply
    ensures { result ≡ removed was_there }
{
    Reply::fixed(200, removal_text(was_there))
}

fn fault_value(alloc: Global, name: &str, line: u32, text: &str) -> Result<Value, AllocError>
    ensures { IfOk result (λ v. view v ≡ fault_data name.now line text.now) }
{
    json!(in alloc; {"fault": name, "line": line, "text": text})
}

/// The reply to a faulty dump.
pub(crate) fn dump_refused(alloc: Global, fault: dump::LineFault) -> Result<Reply, AllocError>
    ensures { IfOk result (λ r. r ≡ dump_refused fault) }
{
    let body = fault_value(alloc, fault.code.name(), fault.line, fault.code.text())?;
    let reply = written(alloc, 422, &body)?;
    Ok(reply)
}

/// The reply to a faulty tags file.
pub(crate) fn tags_refused(alloc: Global, fault: tags::LineFault) -> Result<Reply, AllocError>
    ensures { IfOk result (λ r. r ≡ tags_refused fault) }
{
    let body = fault_value(alloc, fault.code.name(), fault.line, fault.code.text())?;
    let reply = written(alloc, 422, &body)?;
    Ok(reply)
}

// ---- places

fn position(alloc: Global, position: Position) -> Result<Value, AllocError>
    ensures { IfOk result (λ v. view v ≡ position_data position) }
{
    json!(in alloc; {"character": position.character(), "line": position.line()})
}

fn place(alloc: Global, found: &FoundPlace<'_>) -> Result<Value, AllocError>
    ensures { IfOk result (λ v. view v ≡ place_data (place_found found.now)) }
{
    json!(in alloc; {
        "end": position(alloc, found.span.end())?,
        "project": found.project,
        "start": position(alloc, found.span.start())?,
        "uri": found.uri
    })
}

/// Adds a place to the text of a list of places, after a comma where it isn't the first.
pub fn add_place(
    alloc: Global,
    text: &mut String,
    later: bool,
    found: &FoundPlace<'_>,
) -> Result<(), AllocError>
    ensures { OnOk result (string_bytes text.new ≡ string_bytes text.old ++ (comma_if later ++ compact_text (place_data (place_found found.now)))) }
{
    let value = place(alloc, found)?;
    add_item(alloc, text, later, &value)
}

// ---- hover

/// The reply to a query that these contents, compact JSON, answer.
pub fn hover_found(alloc: Global, contents: Option<&str>) -> Result<Reply, AllocError>
    ensures { IfOk result (λ r. r ≡ hover_found (option_map (λ text. text.now) contents.entry)) }
{
    let mut text = String::from_str(alloc, "{\"contents\":")?;
    text.push_str(contents.unwrap_or("null"))?;
    text.push_str("}")?;
    Ok(Reply::made(200, text))
}

// ---- tags

fn field(alloc: Global, field: &Field) -> Result<Value, AllocError>
    ensures { IfOk result (λ v. view v ≡ field_data (field_value field.now)) }
{
    json!(in alloc; [&field.name, &field.value])
}

fn add_field(alloc: Global, of: &Field, list: &mut Vec<Value>) -> Result<(), AllocError>
    ensures { OnOk result (map view list.new.items ≡ map view list.old.items ++ field_data (field_value of.now) ∷ []) }
{
    let value = field(alloc, of)?;
    serde_json::push(list, value)
}

fn field_list(alloc: Global, fields: &[Field]) -> Result<Vec<Value>, AllocError>
    ensures { IfOk result (λ list. map view list.items ≡ map field_data (map field_value fields.now)) }
{
    let mut list = Vec::new(alloc);
    for field in fields {
        add_field(alloc, field, &mut list)?;
    }
    Ok(list)
}

/// The fields of a tag as JSON: an array with a pair of name and value for each.
pub fn fields_value(alloc: Global, fields: &[Field]) -> Result<Value, AllocError>
    ensures { IfOk result (λ v. view v ≡ array (items_of (map field_data (map field_value fields.now)))) }
{
    Ok(Value::Array(field_list(alloc, fields)?))
}

fn kind(alloc: Global, kind: &Option<String>) -> Result<Value, AllocError>
    ensures { IfOk result (λ v. view v ≡ kind_data (option_map (λ s. string_bytes s) kind.now)) }
{
    match kind {
        Some(kind) => Ok(Value::String(String::from_str(alloc, kind.as_str())?)),
        None => Ok(Value::Null),
    }
}

fn tag(alloc: Global, found: &FoundTag) -> Result<Value, AllocError>
    ensures { IfOk result (λ v. view v ≡ tag_data (tag_found found.now)) }
{
    let tag = &found.tag;
    json!(in alloc; {
        "address": &tag.address,
        "fields": fields_value(alloc, &tag.fields)?,
        "file": &tag.file,
        "kind": kind(alloc, &tag.kind)?,
        "line": tag.line,
        "name": &tag.name,
        "project": found.project.as_str()
    })
}

/// Adds a tag to the text of a list of tags, after a comma where it isn't the first.
fn add_tag(
    alloc: Global,
    text: &mut String,
    later: bool,
    found: &FoundTag,
) -> Result<(), AllocError>
    ensures { OnOk result (string_bytes text.new ≡ string_bytes text.old ++ (comma_if later ++ compact_text (tag_data (tag_found found.now)))) }
{
    let value = tag(alloc, found)?;
    add_item(alloc, text, later, &value)
}

/// The reply to a query that these tags answer.
pub fn tags_found(alloc: Global, tags: &[FoundTag]) -> Result<Reply, AllocError>
    ensures { IfOk result (λ r. r ≡ tags_found (map tag_found tags.now)) }
{
    let mut text = String::from_str(alloc, TAGS)?;
    let mut later = false;
    for found in tags {
        add_tag(alloc, &mut text, later, found)?;
        later = true;
    }
    text.push_str(END)?;
    Ok(Reply::made(200, text))
}

// ---- projects and profiles

fn project(alloc: Global, found: &FoundProject) -> Result<Value, AllocError>
    ensures { IfOk result (λ v. view v ≡ project_data (project_found found.now)) }
{
    json!(in alloc; {"dump": found.dump, "name": found.name.as_str(), "tags": found.tags})
}

fn add_project(alloc: Global, found: &FoundProject, list: &mut Vec<Value>) -> Result<(), AllocError>
    ensures { OnOk result (map view list.new.items ≡ map view list.old.items ++ project_data (project_found found.now) ∷ []) }
{
    let value = project(alloc, found)?;
    serde_json::push(list, value)
}

fn project_list(alloc: Global, projects: &[FoundProject]) -> Result<Vec<Value>, AllocError>
    ensures { IfOk result (λ list. map view list.items ≡ map project_data (map project_found projects.now)) }
{
    let mut list = Vec::new(alloc);
    for found in projects {
        add_project(alloc, found, &mut list)?;
    }
    Ok(list)
}

fn projects_value(alloc: Global, projects: &[FoundProject]) -> Result<Value, AllocError>
    ensures { IfOk result (λ v. view v ≡ projects_data (map project_found projects.now)) }
{
    let list = Value::Array(project_list(alloc, projects)?);
    json!(in alloc; {"projects": list})
}

/// The reply to the query for the projects, which are these.
pub fn projects_found(alloc: Global, projects: &[FoundProject]) -> Result<Reply, AllocError>
    ensures { IfOk result (λ r. r ≡ projects_found (map project_found projects.now)) }
{
    let body = projects_value(alloc, projects)?;
    let reply = written(alloc, 200, &body)?;
    Ok(reply)
}

fn profile_value(alloc: Global, profile: Profile) -> Result<Value, AllocError>
    ensures { IfOk result (λ v. view v ≡ profile_data profile) }
{
    json!(in alloc; {"profile": profile.number()})
}

/// The reply to the query for a dump's profile.
pub fn profile_found(alloc: Global, profile: Profile) -> Result<Reply, AllocError>
    ensures { IfOk result (λ r. r ≡ profile_found profile) }
{
    let body = profile_value(alloc, profile)?;
    let reply = written(alloc, 200, &body)?;
    Ok(reply)
}
