//! What an index in memory keeps of all projects, looked up by the name of one in an ordered map.
ghost use Rattle.std.specs.Prelude.{◌≡◌, ◌||◌, is_some, option_map};
ghost use Rattle.desk.specs.Steps.Plain.{dump_in, tags_in, kept_in};

use crate::project::Project;
use dump::CheckedDump;
use std::collections::BTreeMap;

/// The dump of a project.
pub(crate) fn dump_in<'a>(
    projects: &'a BTreeMap<String, Project>,
    project: &str,
) -> Option<&'a CheckedDump>
    ensures { option_map (λ d. d.now) result ≡ dump_in projects.now project.now }
{
    match projects.get(project) {
        Some(found) => found.dump.as_ref(),
        None => None,
    }
}

/// The text of the reply that is kept under a key of a project.
pub(crate) fn kept_in<'a>(
    projects: &'a BTreeMap<String, Project>,
    project: &str,
    key: &str,
) -> Option<&'a str>
    ensures { option_map (λ t. t.now) result ≡ kept_in projects.now project.now key.now }
{
    let found = projects.get(project)?;
    match found.kept.get(key) {
        Some(text) => Some(text.as_str()),
        None => None,
    }
}

/// Whether a project has a dump or tags.
pub(crate) fn has_part(projects: &BTreeMap<String, Project>, project: &str) -> bool
    ensures { result ≡ (is_some (dump_in projects.now project.now) || is_some (tags_in projects.now project.now)) }
{
    projects
        .get(project)
        .is_some_and(|found| found.dump.is_some() || found.tags.is_some())
}
