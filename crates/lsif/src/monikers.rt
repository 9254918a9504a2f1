//! Monikers and packages: the names of symbols across projects, and what lines spell of them. What
//! they join is checked in the crate `dump`. `specs/Monikers`.
ghost use Rattle.std.specs.Prelude.{◌≡◌, IfOk, codes, option_map, string_bytes};
ghost use Rattle.lsif.specs.Element.{moniker_value, package_value};
ghost use Rattle.lsif.specs.Monikers.{holds_nul, name_in, name_at, kind_of, kind_in, version_in, moniker_in, package_in};
ghost use Rattle.serde_json.specs.View.{view};

use crate::element::{Moniker, MonikerKind, Package};
use serde_json::Value;
use std::alloc::{AllocError, Global};

/// Whether the text holds U+0000.
fn holds_nul(text: &str) -> bool
    ensures { result ≡ holds_nul text.now }
{
    text.as_bytes().contains(&0)
}

/// A copy of the text that a value is. None where it's no text, or holds U+0000.
#[tactic(auto, unfolding(crate::specs::Monikers::name_in))]
fn name(alloc: Global, value: &Value) -> Result<Option<String>, AllocError>
    ensures { IfOk result (λ o. option_map (λ s. string_bytes s) o ≡ name_in (view value.now)) }
{
    let Some(text) = value.as_str() else {
        return Ok(None);
    };
    if holds_nul(text) {
        return Ok(None);
    }
    Ok(Some(String::from_str(alloc, text)?))
}

/// A copy of the text that the member of this name is. None where there is no such member, or it's
/// no text or holds U+0000.
fn member_name(alloc: Global, value: &Value, member: &str) -> Result<Option<String>, AllocError>
    ensures { IfOk result (λ o. option_map (λ s. string_bytes s) o ≡ name_at member.now (view value.now)) }
{
    match value.get(member) {
        Some(found) => name(alloc, found),
        None => Ok(None),
    }
}

fn kind_of(text: &str) -> Option<MonikerKind>
    ensures { result ≡ kind_of text.now }
{
    if text == "import" {
        Some(MonikerKind::Import)
    } else if text == "export" {
        Some(MonikerKind::Export)
    } else if text == "local" {
        Some(MonikerKind::Local)
    } else {
        None
    }
}

/// The kind of a `moniker`: local where it has none. None where it isn't one of the three.
#[tactic(auto, unfolding(crate::specs::Monikers::kind_in))]
fn kind(value: &Value) -> Option<MonikerKind>
    ensures { result ≡ kind_in (view value.now) }
{
    match value.get("kind") {
        None => Some(MonikerKind::Local),
        Some(found) => found.as_str().and_then(kind_of),
    }
}

/// What a `moniker` says. None where a member isn't of its form.
#[tactic(auto, unfolding(crate::specs::Monikers::moniker_in))]
pub(crate) fn moniker(alloc: Global, value: &Value) -> Result<Option<Moniker>, AllocError>
    ensures { IfOk result (λ o. option_map moniker_value o ≡ moniker_in (view value.now)) }
{
    let Some(scheme) = member_name(alloc, value, "scheme")? else {
        return Ok(None);
    };
    let Some(identifier) = member_name(alloc, value, "identifier")? else {
        return Ok(None);
    };
    let Some(kind) = kind(value) else {
        return Ok(None);
    };
    Ok(Some(Moniker {
        scheme,
        identifier,
        kind,
    }))
}

/// The version of a package: the empty text where it has none. None where it's no text, or holds
/// U+0000.
#[tactic(auto, unfolding(crate::specs::Monikers::version_in))]
fn version(alloc: Global, value: &Value) -> Result<Option<String>, AllocError>
    ensures { IfOk result (λ o. option_map (λ s. string_bytes s) o ≡ version_in (view value.now)) }
{
    match value.get("version") {
        None => Ok(Some(String::new(alloc))),
        Some(found) => name(alloc, found),
    }
}

/// What a `packageInformation` says. None where a member isn't of its form.
#[tactic(auto, unfolding(crate::specs::Monikers::package_in))]
pub(crate) fn package(alloc: Global, value: &Value) -> Result<Option<Package>, AllocError>
    ensures { IfOk result (λ o. option_map package_value o ≡ package_in (view value.now)) }
{
    let Some(manager) = member_name(alloc, value, "manager")? else {
        return Ok(None);
    };
    let Some(name) = member_name(alloc, value, "name")? else {
        return Ok(None);
    };
    let Some(version) = version(alloc, value)? else {
        return Ok(None);
    };
    Ok(Some(Package {
        manager,
        name,
        version,
    }))
}
