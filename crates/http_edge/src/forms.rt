//! The parameters of requests, each read by its form. None means that one is missing, there twice,
//! or not of its form.
ghost use Rattle.std.specs.Prelude.{◌≡◌, ◌<◌, IfOk, IfSome, option_map, string_bytes};
ghost use Rattle.positions.specs.Position.{number_limit};
ghost use Rattle.machine.specs.Names.{where_so, number_in};
ghost use Rattle.http_edge.specs.Parameters.{parameter};
ghost use Rattle.http_edge.specs.Requests.{declaration_in, is_tag_text, key_in, position_in, profile_in, required, searched_in, uri_in, yes_or_no};
ghost use Rattle.http_edge.specs.Steps.Requests.{searched_value};

use crate::parameters::{ParameterValue, Parameters};
use lsif::Profile;
use machine::{DocUri, Key, ProjectName, is_without_nul, read_number};
use positions::Position;
use std::alloc::{AllocError, Global};

pub(crate) fn read_key(
    alloc: Global,
    parameters: &Parameters<'_>,
) -> Result<Option<Key>, AllocError>
    ensures { IfOk result (λ o. o ≡ key_in parameters.now) }
{
    match parameters.value("key") {
        ParameterValue::Single(text) => Key::read(alloc, text),
        _ => Ok(None),
    }
}

/// The profile of a dump: 1 where none is named.
pub(crate) fn read_profile(parameters: &Parameters<'_>) -> Option<Profile>
    ensures { result ≡ profile_in parameters.now }
{
    match parameters.value("profile") {
        ParameterValue::Absent => Some(Profile::One),
        ParameterValue::Single(text) => Profile::named(text),
        ParameterValue::Several => None,
    }
}

#[tactic(auto, unfolding(crate::specs::Requests::url_in))]
pub(crate) fn read_uri(
    alloc: Global,
    parameters: &Parameters<'_>,
) -> Result<Option<DocUri>, AllocError>
    ensures { IfOk result (λ o. o ≡ uri_in parameters.now) }
{
    match parameters.value("uri") {
        ParameterValue::Single(text) => DocUri::read(alloc, text),
        _ => Ok(None),
    }
}

/// A line or a character of a position, zero-based, the character in UTF-16 code units.
fn read_coordinate(parameters: &Parameters<'_>, name: &str) -> Option<u32>
    ensures value { result ≡ required number_in (parameter name.now parameters.now) }
    ensures below { IfSome result (λ n. n < number_limit) }
{
    match parameters.value(name) {
        ParameterValue::Single(text) => read_number(text),
        _ => None,
    }
}

pub(crate) fn read_position(parameters: &Parameters<'_>) -> Option<Position>
    ensures { result ≡ position_in parameters.now }
{
    let line = read_coordinate(parameters, "line");
    let character = read_coordinate(parameters, "character");
    match (line, character) {
        (Some(line), Some(character)) => Position::new(line, character),
        _ => None,
    }
}

fn yes_or_no(text: &str) -> Option<bool>
    ensures { result ≡ yes_or_no text.now }
{
    if text == "yes" {
        Some(true)
    } else if text == "no" {
        Some(false)
    } else {
        None
    }
}

/// Whether references include the declaration. They do unless the parameter says otherwise.
pub(crate) fn read_declaration(parameters: &Parameters<'_>) -> Option<bool>
    ensures { result ≡ declaration_in parameters.now }
{
    match parameters.value("declaration") {
        ParameterValue::Absent => Some(true),
        ParameterValue::Single(text) => yes_or_no(text),
        ParameterValue::Several => None,
    }
}

/// The projects whose tags are searched.
#[derive(Drop)]
pub(crate) enum Searched {
    All,
    One(ProjectName),
}

impl Searched {
    /// The project that is searched alone.
    pub(crate) fn project(self) -> Option<ProjectName>
        ensures { result ≡ searched_value self }
    {
        match self {
            Searched::All => None,
            Searched::One(project) => Some(project),
        }
    }
}

/// The projects whose tags are searched: all where none is named.
pub(crate) fn read_searched(
    alloc: Global,
    parameters: &Parameters<'_>,
) -> Result<Option<Searched>, AllocError>
    ensures { IfOk result (λ o. option_map searched_value o ≡ searched_in parameters.now) }
{
    match parameters.value("project") {
        ParameterValue::Absent => Ok(Some(Searched::All)),
        ParameterValue::Single(text) => match ProjectName::read(alloc, text)? {
            Some(project) => Ok(Some(Searched::One(project))),
            None => Ok(None),
        },
        ParameterValue::Several => Ok(None),
    }
}

/// A name of tags, or the beginning of one: a text that isn't empty and has no U+0000.
pub(crate) fn read_tag_text(alloc: Global, text: &str) -> Result<Option<String>, AllocError>
    ensures { IfOk result (λ o. option_map string_bytes o ≡ where_so is_tag_text text.now) }
{
    if text.is_empty() || !is_without_nul(text) {
        return Ok(None);
    }
    let text = String::from_str(alloc, text)?;
    Ok(Some(text))
}
