//! The projects with a part, as they are selected, by name. `FindsProjects` in
//! `machine/specs/Selections`.
ghost use Rattle.std.specs.Prelude.{◌≡◌, Contains, is_some, map, string_bytes, IfOk};
ghost use Rattle.sqlite.specs.State.{HasCleanDisk};
ghost use Rattle.sqlite.specs.Held.{state};
ghost use Rattle.dump.specs.Places.{IsListing};
ghost use Rattle.tables.specs.Schema.{schema_two};
ghost use Rattle.tables.specs.Contents.{Contents, Replies, Keeps};
ghost use Rattle.machine.specs.State.{State};
ghost use Rattle.tables.specs.Stands.{OnlySelects, Rests};
ghost use Rattle.machine.specs.Projects.{text_cmp};
ghost use Rattle.machine.specs.Found.{project_found};
ghost use Rattle.machine.specs.Selections.{FindsProjects};
ghost use Rattle.tables.specs.Steps.Slots.{HasPart, IsTold};
ghost use Rattle.tables.specs.Steps.Clauses.{OfState, OnlyReads};

use crate::fault::{Refusal, TablesFault};
use crate::parts::find_slot;
use crate::selection::select_all;
use crate::slots::Part;
use crate::tables::Tables;
use machine::FoundProject;
use sqlite::{Alter, Connection};
use std::alloc::Global;

/// Whether the project has the part.
fn has_part<S: Alter>(conn: &mut Connection<S>, project: &str, part: Part) -> Result<bool, Refusal>
    ensures part { HasCleanDisk (state S.Store conn.new) → (state S.Store conn.old).now.schema ≡ schema_two → (parts : Contents) (replies : Replies)
        → Keeps (state S.Store conn.old).now.trees parts replies
        → IfOk result (λ has. has ≡ is_some (parts project.now part)) }
    ensures reads { OnlyReads S.Store result conn.old conn.new }
{
    let slot = find_slot(conn, project, part)?;
    Ok(slot.is_some())
}

/// The project of this name, and which parts it has. It's `Row` where it has neither: the row of a
/// slot that named it is of another part.
fn project_of<S: Alter>(conn: &mut Connection<S>, name: String) -> Result<FoundProject, Refusal>
    ensures name { IfOk result (λ project. string_bytes project.name ≡ string_bytes name) }
    ensures told { OfState S.Store conn.old conn.new (λ m. IfOk result (λ project. IsTold m (project_found project))) }
    ensures reads { OnlyReads S.Store result conn.old conn.new }
{
    let dump = has_part(conn, name.as_str(), Part::Dump)?;
    let tags = has_part(conn, name.as_str(), Part::Tags)?;
    if !dump && !tags {
        return Err(Refusal::Row);
    }
    Ok(FoundProject { name, dump, tags })
}

/// Puts the names in order, each once.
fn list_names(names: &mut Vec<String>)
    ensures { IsListing text_cmp (Contains (map string_bytes names.old.items)) (map string_bytes names.new.items) }
{
    names.sort_unstable();
    names.dedup();
}

const SELECT_PROJECTS: &str = "SELECT project FROM slot";

/// The names of the projects with a part.
fn select_names<S: Alter>(alloc: Global, conn: &mut Connection<S>) -> Result<Vec<String>, Refusal>
    ensures names { HasCleanDisk (state S.Store conn.new) → (state S.Store conn.old).now.schema ≡ schema_two → (parts : Contents) (replies : Replies)
        → Keeps (state S.Store conn.old).now.trees parts replies
        → IfOk result (λ names. IsListing text_cmp (HasPart parts) (map string_bytes names.items)) }
    ensures reads { OnlyReads S.Store result conn.old conn.new }
{
    let mut names = select_all(alloc, conn, SELECT_PROJECTS, &[])?;
    list_names(&mut names);
    Ok(names)
}

/// The projects with a part.
fn list_projects<S: Alter>(
    alloc: Global,
    conn: &mut Connection<S>,
) -> Result<Vec<FoundProject>, Refusal>
    ensures found { OfState S.Store conn.old conn.new (λ m. IfOk result (λ found. FindsProjects m (map project_found found.items))) }
    ensures reads { OnlyReads S.Store result conn.old conn.new }
{
    let mut left = select_names(alloc, conn)?;
    left.reverse();
    let mut found = Vec::new(alloc);
    while let Some(name) = left.pop() {
        let project = project_of(conn, name)?;
        if found.push(project).is_err() {
            return Err(Refusal::Memory);
        }
    }
    Ok(found)
}

impl<S: Alter> Tables<S> {
    /// The projects with a part: each once, by name (its bytes). Errors: `Refused` and `Memory`
    /// (`TablesFault`).
    pub fn projects(&mut self, alloc: Global) -> Result<Vec<FoundProject>, TablesFault>
        ensures found { HasCleanDisk (state S.Store self.new) → (m : State) → Rests (state S.Store self.old) m
            → IfOk result (λ found. FindsProjects m (map project_found found.items)) }
        ensures selects { OnlySelects result (state S.Store self.old) (state S.Store self.new) }
    {
        self.slot = None;
        match list_projects(alloc, &mut self.conn) {
            Ok(found) => Ok(found),
            Err(refusal) => Err(refusal.fault(self.is_in_memory)),
        }
    }
}
