//! The contents of hover results: what is kept of them, and their text as compact JSON, so that a
//! reply copies it unchanged. The label that leads here is read in `vertices.rt`; `specs/Hovers`
//! says what is kept.
ghost use Rattle.std.specs.Prelude.{◌≡◌, IfOk, codes, option_map, string_bytes};
ghost use Rattle.lsif.specs.Hovers.{code_in, markup_in, marked_in, marked_strings_in, contents_in, hover_in};
ghost use Rattle.serde_json.specs.View.{view, items_view};
ghost use Rattle.serde_json.specs.Written.{compact_text};

use serde_json::{Value, json};
use std::alloc::{AllocError, Global};

/// A text in a language, with the language's name (Language Server Protocol 3.17, "MarkedString").
#[tactic(auto, unfolding(crate::specs::Hovers::code_in))]
fn code(alloc: Global, value: &Value) -> Result<Option<Value>, AllocError>
    ensures { IfOk result (λ o. option_map view o ≡ code_in (view value.now)) }
{
    let Some(language) = value.get("language").and_then(Value::as_str) else {
        return Ok(None);
    };
    let Some(text) = value.get("value").and_then(Value::as_str) else {
        return Ok(None);
    };
    let kept = json!(in alloc; {"language": language, "value": text})?;
    Ok(Some(kept))
}

/// A text, with whether it's Markdown (Language Server Protocol 3.17, "MarkupContent").
#[tactic(auto, unfolding(crate::specs::Hovers::markup_in))]
fn markup(alloc: Global, value: &Value) -> Result<Option<Value>, AllocError>
    ensures { IfOk result (λ o. option_map view o ≡ markup_in (view value.now)) }
{
    let Some(kind) = value.get("kind").and_then(Value::as_str) else {
        return Ok(None);
    };
    if kind != "plaintext" && kind != "markdown" {
        return Ok(None);
    }
    let Some(text) = value.get("value").and_then(Value::as_str) else {
        return Ok(None);
    };
    let kept = json!(in alloc; {"kind": kind, "value": text})?;
    Ok(Some(kept))
}

/// A text, or a text in a language (Language Server Protocol 3.17, "MarkedString").
#[tactic(auto, unfolding(crate::specs::Hovers::marked_in))]
fn marked(alloc: Global, value: &Value) -> Result<Option<Value>, AllocError>
    ensures { IfOk result (λ o. option_map view o ≡ marked_in (view value.now)) }
{
    match value.as_str() {
        Some(text) => Ok(Some(Value::try_from_str(alloc, text)?)),
        None => code(alloc, value),
    }
}

/// The texts that the values of an array are. None where one of them is none.
fn marked_strings(alloc: Global, values: &[Value]) -> Result<Option<Vec<Value>>, AllocError>
    ensures { IfOk result (λ o. option_map (λ found. items_view found.items) o ≡ marked_strings_in (items_view values.now)) }
{
    let mut found = Vec::new(alloc);
    for value in values {
        let Some(kept) = marked(alloc, value)? else {
            return Ok(None);
        };
        found.push(kept)?;
    }
    Ok(Some(found))
}

/// What is kept of the contents of a hover. None where they have none of the forms.
#[tactic(auto, unfolding(crate::specs::Hovers::contents_in))]
fn contents(alloc: Global, value: &Value) -> Result<Option<Value>, AllocError>
    ensures { IfOk result (λ o. option_map view o ≡ contents_in (view value.now)) }
{
    match value.as_array() {
        Some(values) => Ok(marked_strings(alloc, values)?.map(Value::Array)),
        None if value.get("kind").is_some() => markup(alloc, value),
        None => marked(alloc, value),
    }
}

/// The contents of a hover as compact JSON. None where they have none of the forms.
fn contents_text(alloc: Global, value: &Value) -> Result<Option<String>, AllocError>
    ensures { IfOk result (λ o. option_map (λ s. string_bytes s) o ≡ option_map compact_text (contents_in (view value.now))) }
{
    let Some(kept) = contents(alloc, value)? else {
        return Ok(None);
    };
    Ok(Some(kept.to_string(alloc)?))
}

/// The contents of a hover result as compact JSON, with the members that are named, in the order of
/// their names' bytes.
#[tactic(auto, unfolding(crate::specs::Hovers::hover_in))]
pub(crate) fn hover(alloc: Global, value: &Value) -> Result<Option<String>, AllocError>
    ensures { IfOk result (λ o. option_map (λ s. string_bytes s) o ≡ hover_in (view value.now)) }
{
    let Some(result) = value.get("result") else {
        return Ok(None);
    };
    let Some(found) = result.get("contents") else {
        return Ok(None);
    };
    contents_text(alloc, found)
}
