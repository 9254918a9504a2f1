//! What the index in memory keeps of a project: its dump, its tags and the replies under their
//! keys, and how a change alters them.
ghost use Rattle.std.specs.Prelude.{◌≡◌, ℕ, List, OnOk, OnErr, Some, None, bytes_eq, string_bytes, if◌then◌else◌};
ghost use Rattle.std.specs.BTreeMap.{get_by_text};
ghost use Rattle.machine.specs.State.{dump_after, tags_after};
ghost use Rattle.machine.specs.Steps.Changes.{change_value};

use dump::CheckedDump;
use machine::{Change, TagsPart};
use std::alloc::{AllocError, Global};
use std::collections::BTreeMap;

/// What is kept of a project: its dump and its tags, where it has them, and under the keys of its
/// accepted commands the texts of their replies.
#[derive(Drop)]
pub(crate) struct Project {
    pub(crate) dump: Option<CheckedDump>,
    pub(crate) tags: Option<TagsPart>,
    pub(crate) kept: BTreeMap<String, String>,
}

impl Project {
    /// Nothing is kept.
    pub(crate) fn new(alloc: Global) -> Project
        ensures dump { result.dump ≡ None }
        ensures tags { result.tags ≡ None }
        ensures kept { (key : List ℕ) → get_by_text result.kept key ≡ None }
    {
        Project {
            dump: None,
            tags: None,
            kept: BTreeMap::new(alloc),
        }
    }

    /// Makes a change, and keeps the text of its reply under a key. Nothing changes where memory is
    /// refused. The dump or the tags that it replaces are dropped.
    pub(crate) fn change(
        &mut self,
        key: String,
        change: Change,
        reply: String,
    ) -> Result<(), AllocError>
        ensures dump { OnOk result (self.new.dump ≡ dump_after (change_value change) self.old.dump) }
        ensures tags { OnOk result (self.new.tags ≡ tags_after (change_value change) self.old.tags) }
        ensures kept { OnOk result ((k : List ℕ)
            → get_by_text self.new.kept k ≡ (if bytes_eq (string_bytes key) k then Some reply else get_by_text self.old.kept k)) }
        ensures same_dump { OnErr result (self.new.dump ≡ self.old.dump) }
        ensures same_tags { OnErr result (self.new.tags ≡ self.old.tags) }
        ensures same_kept { OnErr result ((k : List ℕ) → get_by_text self.new.kept k ≡ get_by_text self.old.kept k) }
    {
        self.kept.insert(key, reply)?;
        match change {
            Change::SetDump(dump) => self.dump = Some(dump),
            Change::SetTags(tags) => self.tags = Some(tags),
            Change::Clear => {
                self.dump = None;
                self.tags = None;
            }
        }
        Ok(())
    }
}
