//! What a request asks of the desk, by its method and its target. It's read before the body comes,
//! since an upload takes its body in pieces.
ghost use Rattle.std.specs.Prelude.{◌≡◌, ℕ, List, [], Some, IfOk, IfSome, option_map};
ghost use Rattle.std.specs.Str.{bytes_eq};
ghost use Rattle.machine.specs.Requests.{command, command_value, query, query_value};
ghost use Rattle.machine.specs.Uploads.{HasRead};
ghost use Rattle.http_edge.specs.Requests.{path_in, query_in, request_of, route_in};
ghost use Rattle.http_edge.specs.Steps.Requests.{Asks, AsksFor, upload_request};
ghost use Rattle.http_edge.specs.Routes.{method_of};
ghost use Rattle.http_edge.specs.Steps.Routes.{named_route, routes};

use crate::commands::{read_dump, read_removal, read_tags};
use crate::parameters::Parameters;
use crate::queries::{read_profile_query, read_query_at, read_tags_query};
use crate::refusal::Refusal;
use crate::route::{Route, find_route};
use machine::{Command, Query, Request, Upload};
use matchit::Router;
use std::alloc::{AllocError, Global};
use std::str;

/// What is asked: an upload, whose body follows, another request of the desk, or what is refused
/// before it.
#[derive(Drop)]
pub(crate) enum Asked<'b> {
    Upload(Upload),
    Request(Request<'b>),
    Refused(Refusal),
}

/// A target up to its first `?`, and what follows that.
fn split_target(target: &[u8]) -> (&[u8], &[u8])
    ensures path { result.0.now ≡ path_in target.now }
    ensures query { result.1.now ≡ query_in target.now }
{
    for i in 0..target.len() {
        if target[i] == b'?' {
            return (&target[..i], &target[i + 1..]);
        }
    }
    (target, &[])
}

/// The route of a path that is text.
fn route_in<'p>(router: &Router<Route>, path: &'p [u8]) -> Option<(Route, &'p str)>
    requires { router.now ≡ routes }
    ensures { option_map named_route result ≡ route_in path.now }
{
    match str::from_utf8(path) {
        Ok(path) => find_route(router, path),
        Err(_) => None,
    }
}

/// Whether this is the route's method. Methods are compared as written (RFC 9110, section 9.1).
fn is_method(method: &[u8], route: Route) -> bool
    ensures { result ≡ bytes_eq method.now (method_of route) }
{
    method == route.method().as_str().as_bytes()
}

/// The upload, or the refusal of its parameters.
fn asked_upload<'b>(upload: Option<Upload>) -> Asked<'b>
    requires { IfSome upload (λ u. HasRead u.body []) }
    ensures { AsksFor result (λ body. option_map (upload_request body) upload) }
{
    match upload {
        Some(upload) => Asked::Upload(upload),
        None => Asked::Refused(Refusal::BadParameter),
    }
}

/// The command, or the refusal of its parameters.
fn asked_command(asked: Option<Command<'_>>) -> Asked<'_>
    ensures { AsksFor result (λ _. option_map (λ c. command (command_value c)) asked.entry) }
{
    match asked {
        Some(command) => Asked::Request(Request::Command(command)),
        None => Asked::Refused(Refusal::BadParameter),
    }
}

/// The query, or the refusal of its parameters.
fn asked_query<'b>(asked: Option<Query>) -> Asked<'b>
    ensures { AsksFor result (λ _. option_map query (option_map query_value asked)) }
{
    match asked {
        Some(query) => Asked::Request(Request::Query(query)),
        None => Asked::Refused(Refusal::BadParameter),
    }
}

/// What a route asks with its project's name and its parameters. Refused where one of these is
/// missing, there twice, or not of its form.
#[tactic(auto, unfolding(crate::specs::Requests::request_of))]
fn read_route<'b>(
    alloc: Global,
    route: Route,
    project: &str,
    parameters: &Parameters<'_>,
) -> Result<Asked<'b>, AllocError>
    ensures { IfOk result (λ asked. AsksFor asked (request_of route project.now parameters.now)) }
{
    match route {
        Route::Lsif => Ok(asked_upload(read_dump(alloc, project, parameters)?)),
        Route::Tags => Ok(asked_upload(read_tags(alloc, project, parameters)?)),
        Route::Project => Ok(asked_command(read_removal(alloc, project, parameters)?)),
        Route::At(kind) => Ok(asked_query(read_query_at(alloc, kind, project, parameters)?)),
        Route::Profile => Ok(asked_query(read_profile_query(alloc, project)?)),
        Route::Names => Ok(asked_query(read_tags_query(alloc, parameters)?)),
        Route::Projects => Ok(asked_query(Some(Query::Projects))),
    }
}

/// What a method and a target ask: by the path's route, then its method, then the parameters. An
/// upload's body hasn't come yet.
pub(crate) fn read_request<'b>(
    alloc: Global,
    router: &Router<Route>,
    method: &[u8],
    target: &[u8],
) -> Result<Asked<'b>, AllocError>
    requires { router.now ≡ routes }
    ensures { IfOk result (λ asked. Asks asked method.now target.now) }
{
    let (path, query) = split_target(target);
    let (route, project) = match route_in(router, path) {
        Some(found) => found,
        None => return Ok(Asked::Refused(Refusal::NoSuchRoute)),
    };
    if !is_method(method, route) {
        return Ok(Asked::Refused(Refusal::MethodNotAllowed(route)));
    }
    let parameters = Parameters::read(alloc, query)?;
    read_route(alloc, route, project, &parameters)
}
