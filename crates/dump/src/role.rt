//! What the ranges that an `item` edge joins to a result are to it: definitions or references, and
//! which of these a request asks for. `role_of` in `specs/Places`, `roles_of` in `specs/Requests`.
ghost use Rattle.std.specs.Prelude.{◌≡◌};
ghost use Rattle.dump.specs.Places.{role_of};
ghost use Rattle.dump.specs.Requests.{roles_of};

use lsif::{Property, RequestKind};

/// What the ranges that an `item` edge joins to a result are to it (LSIF 0.6.0, "item").
#[derive(Clone, Copy, Debug, PartialEq, Eq)]
pub enum Role {
    Definitions,
    References,
}

/// The role of an `item` edge's targets. None where they are results, and not ranges.
pub fn role_of(property: Option<Property>) -> Option<Role>
    ensures { result ≡ role_of property }
{
    match property {
        None | Some(Property::Definitions) => Some(Role::Definitions),
        Some(Property::References) => Some(Role::References),
        Some(Property::ReferenceResults) => None,
    }
}

/// The roles of the places that a request returns. One for references returns definitions too,
/// unless it excludes them.
pub fn roles_of(request: RequestKind) -> &'static [Role]
    ensures { result.now ≡ roles_of request }
{
    if request.asks_for_uses() {
        &[Role::Definitions, Role::References]
    } else {
        &[Role::Definitions]
    }
}
