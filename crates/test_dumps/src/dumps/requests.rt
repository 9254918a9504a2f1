//! By which monikers requests join dumps, and what they ask for (LSIF 0.6.0, "Multiple Projects").
use crate::asserts::expect_equal;
use dump::{Role, roles_of};
use lsif::{MonikerKind, RequestKind};
use std::test::Fail;

/// A request and a kind of monikers: whether the request goes on to other projects by them, and
/// whether it looks for them there.
const JOINS: &[(RequestKind, MonikerKind, bool, bool)] = &[
    (RequestKind::Definition, MonikerKind::Import, true, false),
    (RequestKind::Definition, MonikerKind::Export, false, true),
    (RequestKind::Definition, MonikerKind::Local, false, false),
    (RequestKind::References, MonikerKind::Import, true, true),
    (RequestKind::References, MonikerKind::Export, true, true),
    (RequestKind::References, MonikerKind::Local, false, false),
    (RequestKind::Hover, MonikerKind::Import, true, false),
    (RequestKind::Hover, MonikerKind::Export, false, true),
    (RequestKind::Hover, MonikerKind::Local, false, false),
    (RequestKind::Declaration, MonikerKind::Import, true, false),
    (RequestKind::Declaration, MonikerKind::Export, false, true),
    (RequestKind::Declaration, MonikerKind::Local, false, false),
    (
        RequestKind::Implementation,
        MonikerKind::Import,
        true,
        false,
    ),
    (
        RequestKind::Implementation,
        MonikerKind::Export,
        false,
        true,
    ),
    (
        RequestKind::Implementation,
        MonikerKind::Local,
        false,
        false,
    ),
];

/// The roles of the places that a request asks for.
const ROLES: &[(RequestKind, &[Role])] = &[
    (RequestKind::Definition, &[Role::Definitions]),
    (
        RequestKind::References,
        &[Role::Definitions, Role::References],
    ),
    (RequestKind::Declaration, &[Role::Definitions]),
    (RequestKind::Implementation, &[Role::Definitions]),
];

#[test]
fn joined_by_kind(rt: HostRuntime) -> Result<(), Fail> {
    for (request, kind, follows, finds) in JOINS {
        let found = (request.follows(*kind), request.finds(*kind));
        expect_equal(
            &rt,
            &(*request, *kind, found),
            &(*request, *kind, (*follows, *finds)),
            "",
        );
    }
    for (request, roles) in ROLES {
        expect_equal(
            &rt,
            &(*request, roles_of(*request)),
            &(*request, *roles),
            "",
        );
    }
    Ok(())
}
