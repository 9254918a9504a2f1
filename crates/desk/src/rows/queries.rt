//! The replies to queries, each made of what the selections of an index find, whether that is in a
//! database or in memory.
ghost use Rattle.std.specs.Prelude.{◌≡◌, ◌≢◌, IfOk};
ghost use Rattle.lsif.specs.declared.request_kind.RequestKind.TheVariants as requests;
ghost use Rattle.machine.specs.State.{State};
ghost use Rattle.desk.specs.Steps.Clauses.{OnlyReads};
ghost use Rattle.machine.specs.Answers.{Answers, AnswersAt, AnswersKind, AnswersPlaces, reference_roles};
ghost use Rattle.machine.specs.Requests.{at_value, query_value};
ghost use Rattle.machine.specs.Requests as queries;
ghost use Rattle.desk.specs.Steps.Listed.{tags_query};

use crate::index::{Index, IndexFault, Wanted};
use crate::rows::hovers::hover;
use crate::rows::places::{places_of, places_reply};
use crate::rows::ranges::{Picked, pick};
use crate::rows::results::answering_results;
use dump::{Role, roles_of};
use lsif::RequestKind;
use machine::{Code, DocUri, ProjectName, Query, Reply, profile_found, projects_found, tags_found};
use positions::Position;
use std::alloc::{AllocError, Global};

/// The roles of the places that answer a references query.
fn reference_roles(declaration: bool) -> &'static [Role]
    ensures { result.now ≡ reference_roles declaration }
{
    if declaration {
        roles_of(RequestKind::References)
    } else {
        &[Role::References]
    }
}

/// Answers a query for places.
pub(crate) fn places<I: Index>(
    alloc: Global,
    index: &mut I,
    request: RequestKind,
    roles: &[Role],
    project: &ProjectName,
    uri: &DocUri,
    at: Position,
) -> Result<Reply, IndexFault>
    ensures found { I.is_reliable index.new → (m : State) → I.stands index.old m → request ≢ requests.Hover
        → IfOk result (λ r. AnswersAt m (at_value project.now uri.now at) (AnswersPlaces m request roles.now (at_value project.now uri.now at)) r) }
    ensures reads { OnlyReads I.Index result index.old index.new }
{
    let (project, uri) = (project.as_str(), uri.as_str());
    match pick(alloc, index, request, project, uri, at)? {
        Picked::NoDump => Ok(Reply::refused(Code::D01)),
        Picked::NoDocument => Ok(Reply::refused(Code::D02)),
        Picked::NoRange => Ok(places_reply(alloc, &[])?),
        Picked::Range(range) => {
            let project_results = answering_results(alloc, index, request, project, &range)?;
            let found = places_of(alloc, index, &project_results, roles)?;
            Ok(places_reply(alloc, &found)?)
        }
    }
}

/// Answers a query for tags.
pub(crate) fn tags<I: Index>(
    alloc: Global,
    index: &mut I,
    wanted: Wanted<'_>,
    project: &Option<ProjectName>,
) -> Result<Reply, IndexFault>
    ensures found { I.is_reliable index.new → (m : State) → I.stands index.old m → IfOk result (λ r. Answers m (tags_query wanted.entry project.now) r) }
    ensures reads { OnlyReads I.Index result index.old index.new }
{
    let name = project.as_ref().map(ProjectName::as_str);
    let found = index.tags(alloc, wanted, name)?;
    Ok(tags_found(alloc, &found)?)
}

/// Answers the query for the projects.
pub(crate) fn projects<I: Index>(alloc: Global, index: &mut I) -> Result<Reply, IndexFault>
    ensures found { I.is_reliable index.new → (m : State) → I.stands index.old m → IfOk result (λ r. Answers m queries.projects r) }
    ensures reads { OnlyReads I.Index result index.old index.new }
{
    let found = index.projects(alloc)?;
    Ok(projects_found(alloc, &found)?)
}

/// Answers the query for the profile of a project's dump.
pub(crate) fn profile<I: Index>(
    alloc: Global,
    index: &mut I,
    project: &ProjectName,
) -> Result<Reply, IndexFault>
    ensures found { I.is_reliable index.new → (m : State) → I.stands index.old m → IfOk result (λ r. Answers m (queries.profile project.now) r) }
    ensures reads { OnlyReads I.Index result index.old index.new }
{
    match index.profile(project.as_str())? {
        Some(profile) => Ok(profile_found(alloc, profile)?),
        None => Ok(Reply::refused(Code::D01)),
    }
}

/// Answers a query at a position.
fn answer_at<I: Index>(
    alloc: Global,
    index: &mut I,
    kind: RequestKind,
    project: &ProjectName,
    uri: &DocUri,
    at: Position,
) -> Result<Reply, IndexFault>
    ensures found { I.is_reliable index.new → (m : State) → I.stands index.old m
        → IfOk result (λ r. AnswersAt m (at_value project.now uri.now at) (AnswersKind m kind (at_value project.now uri.now at)) r) }
    ensures reads { OnlyReads I.Index result index.old index.new }
{
    if kind.gives_places() {
        places(alloc, index, kind, roles_of(kind), project, uri, at)
    } else {
        hover(alloc, index, project, uri, at)
    }
}

/// Answers a query.
pub(crate) fn answer<I: Index>(
    alloc: Global,
    index: &mut I,
    query: &Query,
) -> Result<Reply, IndexFault>
    ensures found { I.is_reliable index.new → (m : State) → I.stands index.old m → IfOk result (λ r. Answers m (query_value query.now) r) }
    ensures reads { OnlyReads I.Index result index.old index.new }
{
    match query {
        Query::At {
            kind,
            project,
            uri,
            at,
        } => answer_at(alloc, index, *kind, project, uri, *at),
        Query::References {
            project,
            uri,
            at,
            declaration,
        } => {
            let roles = reference_roles(*declaration);
            places(
                alloc,
                index,
                RequestKind::References,
                roles,
                project,
                uri,
                *at,
            )
        }
        Query::Names { name, project } => tags(alloc, index, Wanted::Name(name.as_str()), project),
        Query::Prefix {
            prefix: start,
            project,
        } => tags(alloc, index, Wanted::Prefix(start.as_str()), project),
        Query::Projects => projects(alloc, index),
        Query::Profile { project } => profile(alloc, index, project),
    }
}
