//! The projects and the tags that an index in memory lists: a scan of its ordered map of projects.
//! What is selected of dumps is in `selected.rt`.
ghost use Rattle.std.specs.Prelude.{◌≡◌, ◌++◌, IfOk, OnOk, map, option_map, string_bytes};
ghost use Rattle.std.specs.BTreeMap.{IsOrdered};
ghost use Rattle.std.specs.String.{string_cmp};
ghost use Rattle.tags.specs.Views.{field_value, tag_value};
ghost use Rattle.machine.specs.FoundTags.{name_cmp};
ghost use Rattle.machine.specs.Found.{project_found, tag_found};
ghost use Rattle.desk.specs.Steps.Listed.{is_wanted, by_value, project_tags, projects_of, tags_of, tags_so, AllRise, AreOrdered, TagsRise};

use crate::index::Wanted;
use crate::project::Project;
use machine::{FoundProject, FoundTag};
use std::alloc::{AllocError, Global};
use std::cmp::Ordering;
use std::collections::BTreeMap;
use tags::Tag;

fn is_wanted(wanted: Wanted<'_>, name: &str) -> bool
    ensures { result ≡ is_wanted wanted.entry name.now }
{
    match wanted {
        Wanted::Name(text) => name == text,
        Wanted::Prefix(text) => name.as_bytes().starts_with(text.as_bytes()),
    }
}

/// Adds the tags of a project with the names that are asked for.
fn add_tags(
    found: &mut Vec<FoundTag>,
    alloc: Global,
    wanted: Wanted<'_>,
    project: &str,
    tags: &[Tag],
) -> Result<(), AllocError>
    ensures { OnOk result (map tag_found found.new.items ≡ map tag_found found.old.items
        ++ tags_so (is_wanted wanted.entry) project.now (map tag_value tags.now)) }
{
    for tag in tags {
        if is_wanted(wanted, tag.name.as_str()) {
            let project = String::from_str(alloc, project)?;
            let tag = tag.clone()?;
            found.push(FoundTag { project, tag })?;
        }
    }
    Ok(())
}

/// Adds those of a project, where its tags are asked for.
fn add_project(
    found: &mut Vec<FoundTag>,
    alloc: Global,
    wanted: Wanted<'_>,
    asked: Option<&str>,
    name: &str,
    project: &Project,
) -> Result<(), AllocError>
    ensures found { OnOk result (map tag_found found.new.items
        ≡ map tag_found found.old.items ++ project_tags (is_wanted wanted.entry) (option_map (λ p. p.now) asked.entry) name.now project.now.tags) }
    ensures rising { TagsRise project.now.tags }
{
    match &project.tags {
        Some(part) => {
            let tags = part.tags();
            if asked.is_none_or(|asked| asked == name) {
                add_tags(found, alloc, wanted, name, tags)
            } else {
                Ok(())
            }
        }
        None => Ok(()),
    }
}

/// The tags with the names that are asked for, of all projects or of one, in the order of projects
/// and lines.
pub(crate) fn list_tags(
    alloc: Global,
    projects: &BTreeMap<String, Project>,
    wanted: Wanted<'_>,
    asked: Option<&str>,
) -> Result<Vec<FoundTag>, AllocError>
    ensures found { IfOk result (λ found. map tag_found found.items
        ≡ tags_of (is_wanted wanted.entry) (option_map (λ p. p.now) asked.entry) projects.now.entries) }
    ensures rising { OnOk result (AllRise projects.now.entries) }
    ensures ordered { IsOrdered string_cmp projects.now }
{
    let mut found = Vec::new(alloc);
    for (name, project) in projects {
        add_project(&mut found, alloc, wanted, asked, name.as_str(), project)?;
    }
    Ok(found)
}

/// The order of names, projects and lines.
fn by_name(a: &FoundTag, b: &FoundTag) -> Ordering
    ensures { result ≡ by_value name_cmp a.now b.now }
{
    let lines = a.tag.line.cmp(&b.tag.line);
    let names = a.tag.name.as_str().cmp(b.tag.name.as_str());
    let projects = a.project.as_str().cmp(b.project.as_str());
    names.then(projects.then(lines))
}

/// Puts tags that are in the order of projects and lines into the order that is asked for. Those of
/// a prefix are sorted by their names first.
pub(crate) fn order_tags(found: &mut Vec<FoundTag>, wanted: Wanted<'_>)
    ensures { AreOrdered wanted.entry found.old.items found.new.items }
{
    if let Wanted::Prefix(_) = wanted {
        found.sort_unstable_by(|a, b| by_name(a, b));
    }
}

/// The projects that have a dump or tags, in the order of their names.
pub(crate) fn list_projects(
    alloc: Global,
    projects: &BTreeMap<String, Project>,
) -> Result<Vec<FoundProject>, AllocError>
    ensures found { IfOk result (λ found. map project_found found.items ≡ projects_of projects.now.entries) }
    ensures ordered { IsOrdered string_cmp projects.now }
{
    let mut found = Vec::new(alloc);
    for (name, project) in projects {
        let (dump, tags) = (project.dump.is_some(), project.tags.is_some());
        if dump || tags {
            let name = String::from_str(alloc, name.as_str())?;
            found.push(FoundProject { name, dump, tags })?;
        }
    }
    Ok(found)
}
