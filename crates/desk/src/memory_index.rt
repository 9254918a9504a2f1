//! An index in memory, for tests and for reading: the plainest body of each selection. It keeps no
//! row of a dump: a selection flattens the dump and looks at each row (`selected.rt`, `listed.rt`).
//! A dump with more rows than `flatten` makes is kept here, and each query of it answers that
//! memory ran out.
ghost use Rattle.std.specs.Prelude.{◌≡◌, OnOk, OnErr};
ghost use Rattle.machine.specs.State.{State, changed, nothing, text_after};
ghost use Rattle.machine.specs.Steps.Changes.{change_value};
ghost use Rattle.desk.specs.Steps.Plain.{Stands};

use crate::index::{Index, IndexFault, Wanted};
use crate::kept::{dump_in, has_part, kept_in};
use crate::listed::{list_projects, list_tags, order_tags};
use crate::project::Project;
use crate::selected::{bearers_in, covering_of, hover_of, items_of, marks_of};
use dump::{CheckedDump, Role};
use lsif::{Profile, RequestKind};
use machine::{
    Change, Covering, FoundBearer, FoundItem, FoundMark, FoundProject, FoundTag, TagsPart,
    removal_text,
};
use positions::Position;
use std::alloc::{AllocError, Global};
use std::collections::BTreeMap;

/// Keeps in memory the dump and the tags that each project has, and the replies of accepted
/// commands under their keys. A dump or tags that are replaced are dropped.
#[derive(Drop)]
pub struct MemoryIndex {
    alloc: Global,
    projects: BTreeMap<String, Project>,
}

impl MemoryIndex {
    /// An index that represents the state of an empty database. It takes no memory.
    pub fn new(alloc: Global) -> MemoryIndex
        ensures { ⟦<MemoryIndex as Index>⟧.stands result nothing }
    {
        MemoryIndex {
            alloc,
            projects: BTreeMap::new(alloc),
        }
    }

    /// Makes a change of the project of this name, and keeps the text of its reply under the key.
    /// Nothing changes where memory is refused.
    fn make(
        &mut self,
        project: &str,
        key: &str,
        reply: &str,
        made: Change,
    ) -> Result<(), AllocError>
        ensures ok { (m : State) → Stands self.old.projects m → reply.now ≡ text_after m project.now (change_value made)
            → OnOk result (Stands self.new.projects (changed m project.now key.now (change_value made))) }
        ensures err { (m : State) → Stands self.old.projects m → OnErr result (Stands self.new.projects m) }
    {
        let name = String::from_str(self.alloc, project)?;
        let key = String::from_str(self.alloc, key)?;
        let reply = String::from_str(self.alloc, reply)?;
        let found = self
            .projects
            .entry(name)?
            .or_insert(Project::new(self.alloc));
        found.change(key, made, reply)
    }
}

impl Index for MemoryIndex {
    ghost use Rattle.std.specs.Prelude.{false};
    ghost use Rattle.desk.specs.Steps.Plain.{StandsFaultless};

    ghost stands = { λ i m. StandsFaultless i.projects m };

    ghost is_reliable = { λ i. Unit {0} };

    ghost may_leave = { λ i states. Unit {0} };

    ghost may_refuse = { false };

    fn kept_reply(&mut self, project: &str, key: &str) -> Result<Option<String>, IndexFault> {
        match kept_in(&self.projects, project, key) {
            Some(text) => Ok(Some(String::from_str(self.alloc, text)?)),
            None => Ok(None),
        }
    }

    #[tactic(auto, using(crate::proofs::MemoryStates::finds_hover))]
    fn hover(&mut self, project: &str, result_number: u32) -> Result<Option<String>, IndexFault> {
        match dump_in(&self.projects, project) {
            Some(dump) => Ok(hover_of(self.alloc, dump, result_number)?),
            None => Ok(None),
        }
    }

    fn covering(
        &mut self,
        alloc: Global,
        request: RequestKind,
        project: &str,
        uri: &str,
        at: Position,
    ) -> Result<Covering, IndexFault> {
        let Some(dump) = dump_in(&self.projects, project) else {
            return Ok(Covering::NoDump);
        };
        if dump.document_of(uri).is_none() {
            return Ok(Covering::NoDocument);
        }
        Ok(Covering::Ranges(covering_of(alloc, dump, request, uri, at)?))
    }

    fn items(
        &mut self,
        alloc: Global,
        project: &str,
        result_number: u32,
        role: Role,
    ) -> Result<Vec<FoundItem>, IndexFault> {
        match dump_in(&self.projects, project) {
            Some(dump) => Ok(items_of(alloc, dump, result_number, role)?),
            None => Ok(Vec::new(alloc)),
        }
    }

    fn marks(
        &mut self,
        alloc: Global,
        project: &str,
        line: u32,
    ) -> Result<Vec<FoundMark>, IndexFault> {
        match dump_in(&self.projects, project) {
            Some(dump) => Ok(marks_of(alloc, dump, line)?),
            None => Ok(Vec::new(alloc)),
        }
    }

    fn bearers(&mut self, alloc: Global, key: &str) -> Result<Vec<FoundBearer>, IndexFault> {
        Ok(bearers_in(alloc, &self.projects, key)?)
    }

    fn tags(
        &mut self,
        alloc: Global,
        wanted: Wanted<'_>,
        project: Option<&str>,
    ) -> Result<Vec<FoundTag>, IndexFault> {
        let mut found = list_tags(alloc, &self.projects, wanted, project)?;
        order_tags(&mut found, wanted);
        Ok(found)
    }

    fn projects(&mut self, alloc: Global) -> Result<Vec<FoundProject>, IndexFault> {
        Ok(list_projects(alloc, &self.projects)?)
    }

    fn profile(&mut self, project: &str) -> Result<Option<Profile>, IndexFault> {
        match dump_in(&self.projects, project) {
            Some(dump) => Ok(Some(dump.profile())),
            None => Ok(None),
        }
    }

    fn replace_dump(
        &mut self,
        _alloc: Global,
        project: &str,
        key: &str,
        reply: &str,
        dump: CheckedDump,
    ) -> Result<(), IndexFault> {
        let _faultless = dump.elements();
        self.make(project, key, reply, Change::SetDump(dump))?;
        Ok(())
    }

    fn replace_tags(
        &mut self,
        _alloc: Global,
        project: &str,
        key: &str,
        reply: &str,
        part: TagsPart,
    ) -> Result<(), IndexFault> {
        self.make(project, key, reply, Change::SetTags(part))?;
        Ok(())
    }

    fn remove(&mut self, project: &str, key: &str) -> Result<bool, IndexFault> {
        let was_there = has_part(&self.projects, project);
        self.make(project, key, removal_text(was_there), Change::Clear)?;
        Ok(was_there)
    }

    ghost weaker = { λ index states n leaves. tt };
}
