//! Tables are an index. Each call first asks whether their store is open, since nothing is known of
//! a store that a fault has shut, and then makes one selection or one change. `specs/TableStates`
//! says which states the tables then represent.
ghost use Rattle.std.specs.Prelude.{◌≡◌, IfOk};
ghost use Rattle.flatten.specs.Rows.{rows_value};
ghost use Rattle.desk.specs.Steps.Indexes.{fault_of};
ghost use Rattle.tables.specs.Columns.{dump_rows};
ghost use Rattle.tables.specs.Stands.{IsDump};

use crate::index::{Index, IndexFault, Wanted};
use dump::{CheckedDump, Role};
use flatten::{FlattenFault, Rows, flatten};
use lsif::{Profile, RequestKind};
use machine::{Covering, FoundBearer, FoundItem, FoundMark, FoundProject, FoundTag, TagsPart};
use positions::Position;
use sqlite::Alter;
use std::alloc::Global;
use tables::{Tables, TablesFault};

impl From<TablesFault> for IndexFault {
    ghost from_gives = { λ fault given. given ≡ fault_of fault };

    fn from(fault: TablesFault) -> IndexFault {
        match fault {
            TablesFault::Memory => IndexFault::Memory,
            TablesFault::Refused | TablesFault::Foreign | TablesFault::OldFormat => {
                IndexFault::Refused
            }
        }
    }
}

/// The rows of a dump, as tables keep them.
fn rows_of<'a>(alloc: Global, dump: &'a CheckedDump) -> Result<Rows<'a>, FlattenFault>
    ensures { IfOk result (λ rows. IsDump dump.now (dump_rows rows.profile (rows_value rows))) }
{
    let _elements = dump.elements();
    flatten(alloc, dump)
}

impl<S: Alter> Index for Tables<S> {
    ghost use Rattle.std.specs.Prelude.{true};
    ghost use Rattle.sqlite.specs.Held.{state};
    ghost use Rattle.sqlite.specs.State.{HasCleanDisk};
    ghost use Rattle.desk.specs.TableStates.{LeavesOneOf, ServesFor, leaves_more};

    ghost stands = { λ t m. ServesFor (state S.Store t) m };

    ghost is_reliable = { λ t. HasCleanDisk (state S.Store t) };

    ghost may_leave = { λ t states. LeavesOneOf (state S.Store t) states };

    ghost may_refuse = { true };

    fn kept_reply(&mut self, project: &str, key: &str) -> Result<Option<String>, IndexFault> {
        self.check()?;
        Ok(Tables::kept_reply(self, project, key)?)
    }

    fn covering(
        &mut self,
        alloc: Global,
        request: RequestKind,
        project: &str,
        uri: &str,
        at: Position,
    ) -> Result<Covering, IndexFault> {
        self.check()?;
        Ok(Tables::covering(self, alloc, request, project, uri, at)?)
    }

    fn marks(
        &mut self,
        alloc: Global,
        project: &str,
        line: u32,
    ) -> Result<Vec<FoundMark>, IndexFault> {
        self.check()?;
        Ok(Tables::marks(self, alloc, project, line)?)
    }

    fn items(
        &mut self,
        alloc: Global,
        project: &str,
        result_number: u32,
        role: Role,
    ) -> Result<Vec<FoundItem>, IndexFault> {
        self.check()?;
        Ok(Tables::items(self, alloc, project, result_number, role)?)
    }

    fn bearers(&mut self, alloc: Global, key: &str) -> Result<Vec<FoundBearer>, IndexFault> {
        self.check()?;
        Ok(Tables::bearers(self, alloc, key)?)
    }

    fn hover(&mut self, project: &str, result_number: u32) -> Result<Option<String>, IndexFault> {
        self.check()?;
        Ok(Tables::hover(self, project, result_number)?)
    }

    fn tags(
        &mut self,
        alloc: Global,
        wanted: Wanted<'_>,
        project: Option<&str>,
    ) -> Result<Vec<FoundTag>, IndexFault> {
        self.check()?;
        match wanted {
            Wanted::Name(name) => Ok(self.names_exact(alloc, name, project)?),
            Wanted::Prefix(prefix) => Ok(self.names_prefix(alloc, prefix, project)?),
        }
    }

    fn projects(&mut self, alloc: Global) -> Result<Vec<FoundProject>, IndexFault> {
        self.check()?;
        Ok(Tables::projects(self, alloc)?)
    }

    fn profile(&mut self, project: &str) -> Result<Option<Profile>, IndexFault> {
        self.check()?;
        Ok(Tables::profile(self, project)?)
    }

    fn replace_dump(
        &mut self,
        alloc: Global,
        project: &str,
        key: &str,
        reply: &str,
        dump: CheckedDump,
    ) -> Result<(), IndexFault> {
        let rows = rows_of(alloc, &dump)?;
        self.check()?;
        Tables::replace_dump(self, project, key, reply, &rows)?;
        Ok(())
    }

    fn replace_tags(
        &mut self,
        alloc: Global,
        project: &str,
        key: &str,
        reply: &str,
        part: TagsPart,
    ) -> Result<(), IndexFault> {
        self.check()?;
        Tables::replace_tags(self, alloc, project, key, reply, part.tags())?;
        Ok(())
    }

    fn remove(&mut self, project: &str, key: &str) -> Result<bool, IndexFault> {
        self.check()?;
        Ok(Tables::remove(self, project, key)?)
    }

    ghost weaker = { λ index states n leaves. leaves_more states n leaves };
}
