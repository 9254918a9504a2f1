//! The results that answer a query at a position: the first result of the range and those of the
//! vertices that are joined to it. A result is named by its project and by its number, which is its
//! line in the project's dump.
ghost use Rattle.std.specs.Prelude.{◌≡◌, Contains, IfOk, OnOk, map};
ghost use Rattle.dump.specs.Places.{IsListing};
ghost use Rattle.machine.specs.Selections.{range_found};
ghost use Rattle.machine.specs.State.{State};
ghost use Rattle.desk.specs.Steps.Clauses.{OnlyReads};
ghost use Rattle.desk.specs.Steps.Rows.{Adds, AreThose, IsAnsweringResult, IsOwnResult, JoinedValue, joined_value, project_result_cmp, project_result_value, result_of_joined};

use crate::index::{Index, IndexFault};
use crate::rows::bearers::{JoinedBearer, joined_bearers};
use crate::rows::ranges::keys_at;
use lsif::RequestKind;
use machine::FoundRange;
use std::alloc::{AllocError, Global};

/// A result, by its number in the dump of a project.
#[derive(Debug, PartialEq, Eq, PartialOrd, Ord, Drop)]
pub(crate) struct ProjectResult {
    pub(crate) project: String,
    pub(crate) number: u32,
}

/// The range's own first result, where it has one.
fn own_result(
    alloc: Global,
    own: &str,
    range: &FoundRange,
) -> Result<Vec<ProjectResult>, AllocError>
    ensures { IfOk result (λ results. AreThose (IsOwnResult own.now (range_found range.now)) (map project_result_value results.items)) }
{
    let mut project_results = Vec::new(alloc);
    if let Some(number) = range.result {
        let project = String::from_str(alloc, own)?;
        project_results.push(ProjectResult { project, number })?;
    }
    Ok(project_results)
}

/// Adds the results of vertices that are joined.
fn add_joined(
    project_results: &mut Vec<ProjectResult>,
    mut joined: Vec<JoinedBearer>,
) -> Result<(), AllocError>
    ensures { OnOk result (Adds (map project_result_value project_results.old.items) (map project_result_value project_results.new.items)
        (λ t. (j : JoinedValue) × Contains (map joined_value joined.items) j × (result_of_joined j ≡ t))) }
{
    while let Some(row) = joined.pop() {
        project_results.push(ProjectResult {
            project: row.project,
            number: row.number,
        })?;
    }
    Ok(())
}

/// The results whose places answer a query at the range of this row: in order, each once.
pub(crate) fn answering_results<I: Index>(
    alloc: Global,
    index: &mut I,
    request: RequestKind,
    own: &str,
    range: &FoundRange,
) -> Result<Vec<ProjectResult>, IndexFault>
    ensures found { I.is_reliable index.new → (m : State) → I.stands index.old m
        → IfOk result (λ results. IsListing project_result_cmp
        (IsAnsweringResult m request own.now (range_found range.now)) (map project_result_value results.items)) }
    ensures reads { OnlyReads I.Index result index.old index.new }
{
    let keys = keys_at(alloc, index, request, own, range.line)?;
    let joined = joined_bearers(alloc, index, request, own, &keys)?;
    let mut project_results = own_result(alloc, own, range)?;
    add_joined(&mut project_results, joined)?;
    project_results.sort_unstable();
    project_results.dedup();
    Ok(project_results)
}
