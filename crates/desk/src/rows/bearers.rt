//! The vertices of other projects that are joined to a range: those that have a moniker with one of
//! its keys (`IsJoined` of `specs/Joins`). They are found by the rows of the bearers, one selection
//! for each key.
ghost use Rattle.std.specs.Prelude.{◌≡◌, Contains, IfOk, IfSome, IfNone, OnOk, map, string_bytes};
ghost use Rattle.machine.specs.Selections.{BearerFound, bearer_found};
ghost use Rattle.machine.specs.State.{State};
ghost use Rattle.desk.specs.Steps.Clauses.{OnlyReads};
ghost use Rattle.desk.specs.Steps.Rows.{Adds, AreJoined, AreThose, IsKeyJoined, JoinedValue, OfBearer, joined_value};

use crate::index::{Index, IndexFault};
use lsif::RequestKind;
use machine::FoundBearer;
use std::alloc::{AllocError, Global};

/// A vertex of another project that is joined to a range, and has a first result.
#[derive(Debug, PartialEq, Eq, PartialOrd, Ord, Drop)]
pub(crate) struct JoinedBearer {
    pub(crate) project: String,
    /// The vertex's line in the dump, counted from 1.
    pub(crate) line: u32,
    /// The number of its first result.
    pub(crate) number: u32,
}

/// The joined vertex of a bearer's row. None where it's of the project itself, or of a kind that
/// the request doesn't look for there, or has no result.
fn joined_of(request: RequestKind, own: &str, bearer: FoundBearer) -> Option<JoinedBearer>
    ensures some { IfSome result (λ j. OfBearer request own.now (bearer_found bearer) (joined_value j)) }
    ensures none { IfNone result ((j : JoinedValue) → OfBearer request own.now (bearer_found bearer) j → ⊥) }
{
    if bearer.project.as_str() == own || !request.finds(bearer.kind) {
        return None;
    }
    match bearer.results.of(request) {
        Some(number) => Some(JoinedBearer {
            project: bearer.project,
            line: bearer.line,
            number,
        }),
        None => None,
    }
}

/// Adds the bearers that are joined.
fn add_bearers(
    found: &mut Vec<JoinedBearer>,
    request: RequestKind,
    own: &str,
    mut bearers: Vec<FoundBearer>,
) -> Result<(), AllocError>
    ensures { OnOk result (Adds (map joined_value found.old.items) (map joined_value found.new.items)
        (λ j. (b : BearerFound) × Contains (map bearer_found bearers.items) b × OfBearer request own.now b j)) }
{
    while let Some(bearer) = bearers.pop() {
        if let Some(row) = joined_of(request, own, bearer) {
            found.push(row)?;
        }
    }
    Ok(())
}

/// Adds those that have a mark with this key.
fn add_key<I: Index>(
    alloc: Global,
    index: &mut I,
    found: &mut Vec<JoinedBearer>,
    request: RequestKind,
    own: &str,
    key: &str,
) -> Result<(), IndexFault>
    ensures found { I.is_reliable index.new → (m : State) → I.stands index.old m
        → OnOk result (Adds (map joined_value found.old.items) (map joined_value found.new.items) (IsKeyJoined m request own.now key.now)) }
    ensures reads { OnlyReads I.Index result index.old index.new }
{
    let bearers = index.bearers(alloc, key)?;
    add_bearers(found, request, own, bearers)?;
    Ok(())
}

/// The vertices of other projects that have a mark with one of these keys, which the request looks
/// for there, and have a result.
pub(crate) fn joined_bearers<I: Index>(
    alloc: Global,
    index: &mut I,
    request: RequestKind,
    own: &str,
    keys: &[String],
) -> Result<Vec<JoinedBearer>, IndexFault>
    ensures found { I.is_reliable index.new → (m : State) → I.stands index.old m
        → IfOk result (λ found. AreThose (AreJoined m request own.now (map string_bytes keys.now)) (map joined_value found.items)) }
    ensures reads { OnlyReads I.Index result index.old index.new }
{
    let mut found = Vec::new(alloc);
    for key in keys {
        add_key(alloc, index, &mut found, request, own, key.as_str())?;
    }
    Ok(found)
}
