//! The routes: their paths, over `matchit`, and the method of each. What a route asks is read in
//! `request.rt`. `specs/Routes`.
ghost use Rattle.std.specs.Prelude.{◌≡◌, ◌≤◌, ◌↔◌, ℕ, length, List, IfOk, Some, option_map};
ghost use Rattle.http_edge.specs.Steps.Routes.{routes, named_route, template_of};
ghost use Rattle.http_edge.specs.Routes.{method_of, route_of, IsPathOf};

use http::Method;
use lsif::RequestKind;
use matchit::{InsertError, Router};
use std::alloc::Global;

/// What a path names (RFC 9110, section 3.1: a resource).
#[derive(Clone, Copy, Debug, PartialEq, Eq)]
pub(crate) enum Route {
    /// `/projects/{p}/lsif`, where a dump is put.
    Lsif,
    /// `/projects/{p}/tags`, where a tags file is put.
    Tags,
    /// `/projects/{p}`, which is removed.
    Project,
    /// `/projects/{p}/` and a segment of the kind's own, which answers requests of that kind.
    At(RequestKind),
    /// `/projects/{p}/profile`, which answers the profile of the project's dump.
    Profile,
    /// `/names`, which answers tags by their names.
    Names,
    /// `/projects`, which lists the projects.
    Projects,
}

/// The routes.
const ROUTES: [Route; 11] = [
    Route::Lsif,
    Route::Tags,
    Route::Project,
    Route::At(RequestKind::Definition),
    Route::At(RequestKind::References),
    Route::At(RequestKind::Hover),
    Route::At(RequestKind::Declaration),
    Route::At(RequestKind::Implementation),
    Route::Profile,
    Route::Names,
    Route::Projects,
];

impl Route {
    /// The method that the route takes (RFC 9110, section 9).
    pub(crate) fn method(self) -> Method
        ensures value { result ≡ method_of self }
        ensures short { length result ≤ 6 }
    {
        match self {
            Route::Lsif | Route::Tags => Method::PUT,
            Route::Project => Method::DELETE,
            _ => Method::GET,
        }
    }

    /// The form of the route's paths, as the router reads it.
    fn template(self) -> &'static str
        ensures { result.now ≡ template_of self }
    {
        match self {
            Route::Lsif => "/projects/{p}/lsif",
            Route::Tags => "/projects/{p}/tags",
            Route::Project => "/projects/{p}",
            Route::At(RequestKind::Definition) => "/projects/{p}/definition",
            Route::At(RequestKind::References) => "/projects/{p}/references",
            Route::At(RequestKind::Hover) => "/projects/{p}/hover",
            Route::At(RequestKind::Declaration) => "/projects/{p}/declaration",
            Route::At(RequestKind::Implementation) => "/projects/{p}/implementation",
            Route::Profile => "/projects/{p}/profile",
            Route::Names => "/names",
            Route::Projects => "/projects",
        }
    }
}

/// The routes, in a router.
pub(crate) fn router(alloc: Global) -> Result<Router<Route>, InsertError>
    ensures { IfOk result (λ r. r ≡ routes) }
{
    let mut router = Router::new(alloc);
    for route in ROUTES {
        router.insert(route.template(), route)?;
    }
    Ok(router)
}

/// The route of a path, and the segment of the path that names the project, which is empty where
/// the route has none. None where the path has no route.
pub(crate) fn find_route<'p>(router: &Router<Route>, path: &'p str) -> Option<(Route, &'p str)>
    requires { router.now ≡ routes }
    ensures { option_map named_route result ≡ route_of path.now }
{
    match router.at(path) {
        Ok(found) => Some((*found.value, found.params.get("p").unwrap_or(""))),
        Err(_) => None,
    }
}

/// A path has a route exactly where it has the form of that route's paths.
pub fn route_law()
    ensures { (path : List ℕ) (route : Route) (project : List ℕ) → (route_of path ≡ Some (route, project)) ↔ IsPathOf route project path }
{}
