//! A desk over an index: commands, each served by the reply that is kept under its key or else by
//! one change of the index, and queries. What the index is and where it keeps its rows isn't known
//! here. The answers to queries are made in `rows`; the machine that is served is `specs/Machine`
//! of the crate `machine`.
ghost use Rattle.std.specs.Prelude.{◌≡◌, ℕ, true, List, None, Err, IfErr};
ghost use Rattle.machine.specs.State.{State};
ghost use Rattle.machine.specs.Reply.{removed};
ghost use Rattle.machine.specs.Requests.{CommandValue, command_value};
ghost use Rattle.desk.specs.Steps.Indexes.{IsAccepted, IsServed, refused_by};
ghost use Rattle.machine.specs.Steps.Changes.{change_value};
ghost use Rattle.desk.specs.Steps.Plain.{Concludes};
ghost use Rattle.machine.specs.Uploads.{HasRead, command_of};
ghost use Rattle.desk.specs.declared.index.IndexFault.TheVariants.{Refused, Memory};

use crate::index::{Index, IndexFault};
use crate::rows::queries::answer;
use machine::{
    Change, Code, Command, Desk, Key, ProjectName, Query, Reply, Upload, dump_accepted, judge,
    removed, tags_accepted,
};
use std::alloc::Global;

/// The reply where an index refuses: S01 where its store refused, and S02 where memory was. It
/// takes no memory.
fn refusal(fault: IndexFault) -> Reply
    ensures { result ≡ refused_by fault }
{
    match fault {
        IndexFault::Refused => Reply::refused(Code::S01),
        IndexFault::Memory => Reply::out_of_memory(),
    }
}

// ---- commands

/// Makes a change under a key that isn't kept. The reply is made before, so that no memory is asked
/// for once the change is made.
fn accept<I: Index>(
    alloc: Global,
    index: &mut I,
    project: &str,
    key: &str,
    change: Change,
) -> Result<Reply, IndexFault>
    ensures reliable { I.is_reliable index.new → I.is_reliable index.old }
    ensures accepted { I.is_reliable index.new → (m : State) → I.stands index.old m → m.kept project.now key.now ≡ None
        → IsAccepted I.stands I.may_leave index.old index.new m project.now key.now (change_value change) result }
    ensures refused { IfErr result (λ fault. fault ≡ Refused → I.may_refuse ≡ true) }
{
    match change {
        Change::SetDump(dump) => {
            let reply = dump_accepted(alloc, dump.elements().len())?;
            index.replace_dump(alloc, project, key, reply.body(), dump)?;
            Ok(reply)
        }
        Change::SetTags(part) => {
            let reply = tags_accepted(alloc, part.tags().len())?;
            index.replace_tags(alloc, project, key, reply.body(), part)?;
            Ok(reply)
        }
        Change::Clear => {
            let was_there = index.remove(project, key)?;
            Ok(removed(was_there))
        }
    }
}

/// Answers a command on whose body this is the verdict: by the kept reply, where its key is kept.
fn conclude<I: Index>(
    alloc: Global,
    index: &mut I,
    project: &str,
    key: &str,
    said: Result<Change, Reply>,
) -> Result<Reply, IndexFault>
    ensures reliable { I.is_reliable index.new → I.is_reliable index.old }
    ensures served { I.is_reliable index.new → (m : State) (c : CommandValue) → I.stands index.old m → Concludes c project.now key.now said
        → IsServed I.stands I.may_leave index.old index.new m c result }
    ensures refused { IfErr result (λ fault. fault ≡ Refused → I.may_refuse ≡ true) }
{
    if let Some(text) = index.kept_reply(project, key)? {
        return Ok(Reply::made(200, text));
    }
    match said {
        Ok(change) => accept(alloc, index, project, key, change),
        Err(fault) => Ok(fault),
    }
}

// ---- the desk

/// A desk over an index: what it accepts is kept there alone.
#[derive(Drop)]
pub struct IndexDesk<I: Index> {
    alloc: Global,
    pub(crate) index: I,
}

impl<I: Index> IndexDesk<I> {
    /// A desk that represents what the index represents, and of which a crash leaves what it would
    /// leave of the index. It takes no memory.
    pub(crate) fn over(alloc: Global, index: I) -> IndexDesk<I>
        ensures { result.index ≡ index }
    {
        IndexDesk { alloc, index }
    }

    /// Serves a command.
    fn serve(&mut self, command: &Command<'_>) -> Result<Reply, IndexFault>
        ensures reliable { I.is_reliable self.new.index → I.is_reliable self.old.index }
        ensures served { I.is_reliable self.new.index → (m : State) → I.stands self.old.index m
            → IsServed I.stands I.may_leave self.old.index self.new.index m (command_value command.now) result }
        ensures refused { IfErr result (λ fault. fault ≡ Refused → I.may_refuse ≡ true) }
    {
        let said = judge(self.alloc, command)?;
        let (project, key) = (command.project().as_str(), command.key().as_str());
        conclude(self.alloc, &mut self.index, project, key, said)
    }

    /// Serves the command that an upload is.
    fn finish(&mut self, upload: Upload) -> Result<Reply, IndexFault>
        ensures reliable { I.is_reliable self.new.index → I.is_reliable self.old.index }
        ensures served { I.is_reliable self.new.index → (m : State) (body : List ℕ) → I.stands self.old.index m → HasRead upload.body body
            → IsServed I.stands I.may_leave self.old.index self.new.index m (command_of upload body) result }
        ensures memory { upload.body.is_out_of_memory ≡ true → result ≡ Err Memory }
        ensures refused { IfErr result (λ fault. fault ≡ Refused → I.may_refuse ≡ true) }
    {
        let Upload { project, key, body } = upload;
        let said = body.finish()?;
        let (project, key) = (project.as_str(), key.as_str());
        conclude(self.alloc, &mut self.index, project, key, said)
    }
}

impl<I: Index> Desk for IndexDesk<I> {
    ghost stands = { λ d m. I.stands d.index m };

    ghost may_leave = { λ d states. I.may_leave d.index states };

    ghost store_may_refuse = { I.may_refuse };

    ghost is_reliable = { λ d. I.is_reliable d.index };

    fn apply(&mut self, command: &Command<'_>) -> Reply {
        match self.serve(command) {
            Ok(reply) => reply,
            Err(fault) => refusal(fault),
        }
    }

    fn kept_reply(&mut self, project: &ProjectName, key: &Key) -> Option<Reply> {
        match self.index.kept_reply(project.as_str(), key.as_str()) {
            Ok(Some(text)) => Some(Reply::made(200, text)),
            Ok(None) => None,
            Err(fault) => Some(refusal(fault)),
        }
    }

    fn finish_upload(&mut self, upload: Upload) -> Reply {
        match self.finish(upload) {
            Ok(reply) => reply,
            Err(fault) => refusal(fault),
        }
    }

    fn ask(&mut self, query: &Query) -> Reply {
        match answer(self.alloc, &mut self.index, query) {
            Ok(reply) => reply,
            Err(fault) => refusal(fault),
        }
    }

    ghost weaker = { λ desk states n leaves. I.weaker desk.index states n leaves };
}
