//! The queries of routes. None means that a parameter is missing, there twice, or not of its form.
ghost use Rattle.std.specs.Prelude.{◌≡◌, Option, IfOk, codes, option_map, ℕ, List};
ghost use Rattle.machine.specs.Requests.{position_query, profile, query_value};
ghost use Rattle.http_edge.specs.Parameters.{parameter};
ghost use Rattle.http_edge.specs.Requests.{both, declaration_in, names_of, place_in, prefix_of, project_name, query_at, references_of, searched_in, tags_of, is_tag_text};
ghost use Rattle.machine.specs.Names.{where_so};
ghost use Rattle.http_edge.specs.Steps.Requests.{place_value};

use crate::forms::{read_declaration, read_position, read_searched, read_tag_text, read_uri};
use crate::parameters::{ParameterValue, Parameters};
use lsif::RequestKind;
use machine::{DocUri, ProjectName, Query};
use positions::Position;
use std::alloc::{AllocError, Global};

/// A position in a document of a project.
#[derive(Drop)]
struct DocumentPosition {
    project: ProjectName,
    uri: DocUri,
    position: Position,
}

fn read_place(
    alloc: Global,
    project: &str,
    parameters: &Parameters<'_>,
) -> Result<Option<DocumentPosition>, AllocError>
    ensures { IfOk result (λ o. option_map place_value o ≡ place_in project.now parameters.now) }
{
    let project = ProjectName::read(alloc, project)?;
    let uri = read_uri(alloc, parameters)?;
    let position = read_position(parameters);
    match (project, uri, position) {
        (Some(project), Some(uri), Some(position)) => Ok(Some(DocumentPosition {
            project,
            uri,
            position,
        })),
        _ => Ok(None),
    }
}

fn read_position_query(
    alloc: Global,
    kind: RequestKind,
    project: &str,
    parameters: &Parameters<'_>,
) -> Result<Option<Query>, AllocError>
    ensures { IfOk result (λ o. option_map query_value o ≡ option_map (position_query kind) (place_in project.now parameters.now)) }
{
    match read_place(alloc, project, parameters)? {
        Some(place) => Ok(Some(Query::At {
            kind,
            project: place.project,
            uri: place.uri,
            at: place.position,
        })),
        None => Ok(None),
    }
}

fn read_references(
    alloc: Global,
    project: &str,
    parameters: &Parameters<'_>,
) -> Result<Option<Query>, AllocError>
    ensures { IfOk result (λ o. option_map query_value o ≡ option_map references_of
        (both (place_in project.now parameters.now) (declaration_in parameters.now))) }
{
    let place = read_place(alloc, project, parameters)?;
    let declaration = read_declaration(parameters);
    match (place, declaration) {
        (Some(place), Some(declaration)) => Ok(Some(Query::References {
            project: place.project,
            uri: place.uri,
            at: place.position,
            declaration,
        })),
        _ => Ok(None),
    }
}

/// The query of that kind at a position. One for references has a parameter more.
pub(crate) fn read_query_at(
    alloc: Global,
    kind: RequestKind,
    project: &str,
    parameters: &Parameters<'_>,
) -> Result<Option<Query>, AllocError>
    ensures { IfOk result (λ o. option_map query_value o ≡ query_at kind project.now parameters.now) }
{
    match kind {
        RequestKind::References => read_references(alloc, project, parameters),
        _ => read_position_query(alloc, kind, project, parameters),
    }
}

pub(crate) fn read_profile_query(alloc: Global, project: &str) -> Result<Option<Query>, AllocError>
    ensures { IfOk result (λ o. option_map query_value o ≡ option_map profile (project_name project.now)) }
{
    match ProjectName::read(alloc, project)? {
        Some(project) => Ok(Some(Query::Profile { project })),
        None => Ok(None),
    }
}

/// The tags of a name, in one project or in all.
fn read_names(
    alloc: Global,
    name: &str,
    parameters: &Parameters<'_>,
) -> Result<Option<Query>, AllocError>
    ensures { IfOk result (λ o. option_map query_value o ≡ option_map names_of (both (where_so is_tag_text name.now) (searched_in parameters.now))) }
{
    let name = read_tag_text(alloc, name)?;
    let searched = read_searched(alloc, parameters)?;
    match (name, searched) {
        (Some(name), Some(searched)) => Ok(Some(Query::Names {
            name,
            project: searched.project(),
        })),
        _ => Ok(None),
    }
}

/// The tags whose names begin with a text, in one project or in all.
fn read_prefix(
    alloc: Global,
    prefix: &str,
    parameters: &Parameters<'_>,
) -> Result<Option<Query>, AllocError>
    ensures { IfOk result (λ o. option_map query_value o ≡ option_map prefix_of (both (where_so is_tag_text prefix.now) (searched_in parameters.now))) }
{
    let prefix = read_tag_text(alloc, prefix)?;
    let searched = read_searched(alloc, parameters)?;
    match (prefix, searched) {
        (Some(prefix), Some(searched)) => Ok(Some(Query::Prefix {
            prefix,
            project: searched.project(),
        })),
        _ => Ok(None),
    }
}

/// The tags of a name or of a prefix: exactly one of the two must be there.
pub(crate) fn read_tags_query(
    alloc: Global,
    parameters: &Parameters<'_>,
) -> Result<Option<Query>, AllocError>
    ensures { IfOk result (λ o. option_map query_value o ≡ tags_of (parameter (codes "name") parameters.now) (parameter (codes "prefix") parameters.now)
        (searched_in parameters.now)) }
{
    match (parameters.value("name"), parameters.value("prefix")) {
        (ParameterValue::Single(name), ParameterValue::Absent) => {
            read_names(alloc, name, parameters)
        }
        (ParameterValue::Absent, ParameterValue::Single(prefix)) => {
            read_prefix(alloc, prefix, parameters)
        }
        _ => Ok(None),
    }
}
