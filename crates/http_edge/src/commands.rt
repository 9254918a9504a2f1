//! The commands of routes. None means that a parameter is missing, there twice, or not of its form.
ghost use Rattle.std.specs.Prelude.{◌≡◌, ℕ, List, [], IfOk, IfSome, option_map};
ghost use Rattle.machine.specs.Requests.{command, command_value, put_tags, remove};
ghost use Rattle.machine.specs.Uploads.{HasRead, empty, no_dump_line, no_tags_line};
ghost use Rattle.http_edge.specs.Requests.{both, command_of, dump_put, key_in, profile_in, project_name};
ghost use Rattle.http_edge.specs.Steps.Requests.{upload_request};

use crate::forms::{read_key, read_profile};
use crate::parameters::Parameters;
use lsif::Profile;
use machine::{Command, Key, ProjectName, Upload, UploadFault};
use std::alloc::{AllocError, Global};

/// A dump that is put. Its body comes later.
pub(crate) fn read_dump(
    alloc: Global,
    project: &str,
    parameters: &Parameters<'_>,
) -> Result<Option<Upload>, AllocError>
    ensures asks { IfOk result (λ o. (body : List ℕ)
        → option_map (upload_request body) o ≡ option_map (dump_put body)
        (both (project_name project.now) (both (key_in parameters.now) (profile_in parameters.now)))) }
    ensures stands { IfOk result (λ o. IfSome o (λ u. HasRead u.body [])) }
{
    let project = ProjectName::read(alloc, project)?;
    let key = read_key(alloc, parameters)?;
    let profile = read_profile(parameters);
    match (project, key, profile) {
        (Some(project), Some(key), Some(profile)) => {
            match Upload::dump(alloc, project, key, profile) {
                Ok(upload) => Ok(Some(upload)),
                Err(UploadFault::Memory) => Err(AllocError),
            }
        }
        _ => Ok(None),
    }
}

/// A tags file that is put. Its body comes later.
pub(crate) fn read_tags(
    alloc: Global,
    project: &str,
    parameters: &Parameters<'_>,
) -> Result<Option<Upload>, AllocError>
    ensures asks { IfOk result (λ o. (body : List ℕ)
        → option_map (upload_request body) o ≡ option_map (command_of (put_tags body)) (both (project_name project.now) (key_in parameters.now))) }
    ensures stands { IfOk result (λ o. IfSome o (λ u. HasRead u.body [])) }
{
    let project = ProjectName::read(alloc, project)?;
    let key = read_key(alloc, parameters)?;
    match (project, key) {
        (Some(project), Some(key)) => match Upload::tags(alloc, project, key) {
            Ok(upload) => Ok(Some(upload)),
            Err(UploadFault::Memory) => Err(AllocError),
        },
        _ => Ok(None),
    }
}

/// The removal of a project's parts.
pub(crate) fn read_removal<'b>(
    alloc: Global,
    project: &str,
    parameters: &Parameters<'_>,
) -> Result<Option<Command<'b>>, AllocError>
    ensures { IfOk result (λ o. option_map (λ c. command (command_value c)) o
        ≡ option_map (command_of remove) (both (project_name project.now) (key_in parameters.now))) }
{
    let project = ProjectName::read(alloc, project)?;
    let key = read_key(alloc, parameters)?;
    match (project, key) {
        (Some(project), Some(key)) => Ok(Some(Command::Remove { project, key })),
        _ => Ok(None),
    }
}
