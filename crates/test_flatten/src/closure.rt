//! What pairs of numbers lead to, the texts of keys, and the numbers that rows have for roles and
//! kinds.
use crate::asserts::{expect_equal, expect_equal_text};
use dump::Role;
use flatten::{key_law, key_text, kind_index, reach, role_index};
use lsif::{Moniker, MonikerKind, Package};
use std::alloc::Global;
use std::process::Abort;
use std::test::Fail;

/// Starts and pairs, and what is reached.
struct Row {
    starts: &'static [u32],
    pairs: &'static [(u32, u32)],
    reached: &'static [u32],
}

const ROWS: &[Row] = &[
    Row {
        starts: &[5],
        pairs: &[(5, 6), (6, 5)],
        reached: &[5, 6],
    },
    Row {
        starts: &[],
        pairs: &[(1, 2)],
        reached: &[],
    },
    Row {
        starts: &[],
        pairs: &[],
        reached: &[],
    },
    Row {
        starts: &[7, 3, 7],
        pairs: &[],
        reached: &[3, 7],
    },
    Row {
        starts: &[4],
        pairs: &[(3, 2), (5, 6)],
        reached: &[4],
    },
    Row {
        starts: &[5],
        pairs: &[(1, 0), (2, 1), (3, 2), (4, 3), (5, 4)],
        reached: &[0, 1, 2, 3, 4, 5],
    },
    Row {
        starts: &[5],
        pairs: &[(5, 4), (4, 3), (3, 2), (2, 1), (1, 0)],
        reached: &[0, 1, 2, 3, 4, 5],
    },
    Row {
        starts: &[1],
        pairs: &[(1, 2), (1, 2), (1, 1)],
        reached: &[1, 2],
    },
    Row {
        starts: &[10],
        pairs: &[(20, 21), (10, 11), (21, 20), (11, 12), (12, 10)],
        reached: &[10, 11, 12],
    },
    Row {
        starts: &[20, 10],
        pairs: &[(20, 21), (10, 11), (9, 8), (21, 11)],
        reached: &[10, 11, 20, 21],
    },
    Row {
        starts: &[4294967295],
        pairs: &[(4294967295, 0), (0, 4294967294)],
        reached: &[0, 4294967294, 4294967295],
    },
];

#[test]
fn reached_numbers(rt: HostRuntime) -> Result<(), Fail> {
    for row in ROWS {
        let reached = reach(rt.alloc(), row.starts, row.pairs)?;
        expect_equal(
            &rt,
            &(row.pairs, reached.as_slice()),
            &(row.pairs, row.reached),
            "",
        );
    }
    Ok(())
}

/// A manager, a name and a version.
type Parts = (&'static str, &'static str, &'static str);

/// A scheme, an identifier, and a package or none; and the text of the key.
type KeyRow = (&'static str, &'static str, Option<Parts>, &'static str);

const KEYS: &[KeyRow] = &[
    (
        "npm",
        "lib::f",
        Some(("npm", "lib", "1.0.0")),
        "3:npm6:lib::f13:npm3:lib5:1.0.0",
    ),
    ("npm", "lib::f", None, "3:npm6:lib::f0"),
    ("", "", None, "0:0:0"),
    ("", "", Some(("", "", "")), "0:0:10:0:0:"),
    ("é", "0123456789", None, "2:é10:01234567890"),
    ("ab", "c", None, "2:ab1:c0"),
    ("a", "bc", None, "1:a2:bc0"),
    ("a", "b", Some(("c", "d", "")), "1:a1:b11:c1:d0:"),
    ("a", "b", Some(("c", "", "d")), "1:a1:b11:c0:1:d"),
    ("a", "b", Some(("", "c", "d")), "1:a1:b10:1:c1:d"),
    ("a", "b1", None, "1:a2:b10"),
    ("1:a", "b", None, "3:1:a1:b0"),
];

/// The package of these parts.
fn package(alloc: Global, (manager, name, version): Parts) -> Result<Package, Fail> {
    Ok(Package {
        manager: String::from_str(alloc, manager)?,
        name: String::from_str(alloc, name)?,
        version: String::from_str(alloc, version)?,
    })
}

/// The text of the key of this moniker.
fn text(alloc: Global, moniker: &Moniker, parts: Option<Parts>) -> Result<String, Fail> {
    match parts {
        Some(parts) => {
            let package = package(alloc, parts)?;
            Ok(key_text(alloc, moniker, Some(&package))?)
        }
        None => Ok(key_text(alloc, moniker, None)?),
    }
}

/// Asserts the text of the key of a moniker of this kind.
fn expect_key<R: AllocGlobal + Abort>(rt: &R, kind: MonikerKind, row: KeyRow) -> Result<(), Fail> {
    let (scheme, identifier, parts, wanted) = row;
    let scheme = String::from_str(rt.alloc(), scheme)?;
    let identifier = String::from_str(rt.alloc(), identifier)?;
    let moniker = Moniker {
        scheme,
        identifier,
        kind,
    };
    let found = text(rt.alloc(), &moniker, parts)?;
    expect_equal_text(rt, found.as_str(), wanted, wanted);
    Ok(())
}

#[test]
fn key_texts(rt: HostRuntime) -> Result<(), Fail> {
    key_law();
    for row in KEYS {
        expect_key(&rt, MonikerKind::Import, *row)?;
        expect_key(&rt, MonikerKind::Export, *row)?;
    }
    Ok(())
}

#[test]
fn numbers_of_roles_and_kinds(rt: HostRuntime) -> Result<(), Fail> {
    let roles = [role_index(Role::Definitions), role_index(Role::References)];
    expect_equal(&rt, &roles, &[0, 1], "roles");
    let kinds = [
        kind_index(MonikerKind::Import),
        kind_index(MonikerKind::Export),
        kind_index(MonikerKind::Local),
    ];
    expect_equal(&rt, &kinds, &[0, 1, 2], "kinds");
    Ok(())
}
