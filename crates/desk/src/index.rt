//! What a desk needs of an index: the selections of which its answers are made, and the changes
//! that commands make. A desk over a database and one in memory differ in nothing else.
//! `machine/specs/Selections` says what selections find, `specs/Indexes` what calls leave. `Tables`
//! are an index (`table_index`).
ghost use Rattle.std.specs.Prelude.{◌≡◌};
ghost use Rattle.desk.specs.declared.index.IndexFault.TheVariants.{Memory};

use dump::{CheckedDump, Role};
use flatten::FlattenFault;
use lsif::{Profile, RequestKind};
use machine::{
    Covering, FoundBearer, FoundItem, FoundMark, FoundProject, FoundTag, STORE_REFUSED, TagsPart,
};
use positions::Position;
use std::alloc::{AllocError, Global};
use streams::OUT_OF_MEMORY;
use thiserror::Error;

/// Why an index refuses: S01 and S02 of a reply.
#[derive(Clone, Copy, Debug, PartialEq, Eq, Error)]
pub enum IndexFault {
    /// The store refused for another cause than memory, or a row isn't one that this product
    /// writes.
    #[error("{}", STORE_REFUSED)]
    Refused,
    /// Memory was refused, also to a database in memory.
    #[error("{}", OUT_OF_MEMORY)]
    Memory,
}

impl From<AllocError> for IndexFault {
    ghost from_gives = { λ _ fault. fault ≡ Memory };

    fn from(_: AllocError) -> IndexFault {
        IndexFault::Memory
    }
}

impl From<FlattenFault> for IndexFault {
    ghost from_gives = { λ _ fault. fault ≡ Memory };

    fn from(_: FlattenFault) -> IndexFault {
        IndexFault::Memory
    }
}

/// Which names of tags are asked for: those that are equal to a text, or that begin with it.
#[derive(Clone, Copy)]
pub enum Wanted<'a> {
    Name(&'a str),
    Prefix(&'a str),
}

/// Keeps the dump and the tags of each project, where it has them, and the replies of accepted
/// commands under their keys. It represents states of the abstract machine. What a call promises
/// holds where the index is reliable after it. A call that refuses changes nothing.
pub trait Index {
    ghost use Rattle.std.specs.Prelude.{◌≡◌, Bool, true, ◌||◌, ◌∷◌, [], ◌++◌, List, None, IfOk, IfErr, OnOk, is_some, map, option_map, string_bytes};
    ghost use Rattle.machine.specs.Found.{project_found, tag_found};
    ghost use Rattle.machine.specs.State.{IsNew, State, changed, clear, set_dump, set_tags};
    ghost use Rattle.machine.specs.Selections.{FindsBearers, FindsCovering, FindsHover, FindsItems, FindsMarks, FindsProjects, bearer_found, item_found, mark_found};
    ghost use Rattle.desk.specs.Indexes.{AreFaultless, Changes, FindsTags, Reads, kept_text};
    ghost use Rattle.desk.specs.declared.index.IndexFault.TheVariants.{Refused};

    /// The states that it represents: every state where it serves no more.
    ghost stands: { Self → State → Type 0 };

    /// So far its store returned what was written to it. Nothing is promised of an index of which
    /// this isn't true.
    ghost is_reliable: { Self → Type 0 };

    /// The lists of states of which a crash now leaves one.
    ghost may_leave: { Self → List State → Type 0 };

    /// Whether it keeps its state in a store, which may refuse.
    ghost may_refuse: { Bool };

    /// The text of the reply that is kept for the project under the key.
    fn kept_reply(&mut self, project: &str, key: &str) -> Result<Option<String>, IndexFault>
        ensures found { is_reliable self.new → (m : State) → stands self.old m
            → IfOk result (λ text. option_map string_bytes text ≡ kept_text m project.now key.now) }
        ensures reads { Reads stands may_leave is_reliable may_refuse result self.old self.new };

    /// The ranges of the document of this URL that cover the position, the smallest first, with
    /// their results for the request. A dump that answers has no fault.
    fn covering(
        &mut self,
        alloc: Global,
        request: RequestKind,
        project: &str,
        uri: &str,
        at: Position,
    ) -> Result<Covering, IndexFault>
        ensures found { is_reliable self.new → (m : State) → stands self.old m → IfOk result (FindsCovering m request project.now uri.now at) }
        ensures faultless { is_reliable self.new → (m : State) → stands self.old m → OnOk result (AreFaultless m) }
        ensures reads { Reads stands may_leave is_reliable may_refuse result self.old self.new };

    /// The marks of the range at this line of the project's dump, counted from 1.
    fn marks(
        &mut self,
        alloc: Global,
        project: &str,
        line: u32,
    ) -> Result<Vec<FoundMark>, IndexFault>
        ensures found { is_reliable self.new → (m : State) → stands self.old m
            → IfOk result (λ found. FindsMarks m project.now line (map mark_found found.items)) }
        ensures reads { Reads stands may_leave is_reliable may_refuse result self.old self.new };

    /// The places of a result of the project's dump in a role, by the result's number.
    fn items(
        &mut self,
        alloc: Global,
        project: &str,
        result_number: u32,
        role: Role,
    ) -> Result<Vec<FoundItem>, IndexFault>
        ensures found { is_reliable self.new → (m : State) → stands self.old m
            → IfOk result (λ found. FindsItems m project.now result_number role (map item_found found.items)) }
        ensures reads { Reads stands may_leave is_reliable may_refuse result self.old self.new };

    /// The vertices of all projects that have a mark with the key of this text.
    fn bearers(&mut self, alloc: Global, key: &str) -> Result<Vec<FoundBearer>, IndexFault>
        ensures found { is_reliable self.new → (m : State) → stands self.old m → IfOk result (λ found. FindsBearers m key.now (map bearer_found found.items)) }
        ensures reads { Reads stands may_leave is_reliable may_refuse result self.old self.new };

    /// The contents of a hover result of the project's dump, by the result's number.
    fn hover(&mut self, project: &str, result_number: u32) -> Result<Option<String>, IndexFault>
        ensures found { is_reliable self.new → (m : State) → stands self.old m
            → IfOk result (λ found. FindsHover m project.now result_number (option_map string_bytes found)) }
        ensures reads { Reads stands may_leave is_reliable may_refuse result self.old self.new };

    /// The tags with the names that are asked for, of all projects or of one.
    fn tags(
        &mut self,
        alloc: Global,
        wanted: Wanted<'_>,
        project: Option<&str>,
    ) -> Result<Vec<FoundTag>, IndexFault>
        ensures found { is_reliable self.new → (m : State) → stands self.old m
            → IfOk result (λ found. FindsTags m (option_map (λ p. p.now) project.entry) wanted.entry (map tag_found found.items)) }
        ensures reads { Reads stands may_leave is_reliable may_refuse result self.old self.new };

    /// The projects that have a dump or tags.
    fn projects(&mut self, alloc: Global) -> Result<Vec<FoundProject>, IndexFault>
        ensures found { is_reliable self.new → (m : State) → stands self.old m → IfOk result (λ found. FindsProjects m (map project_found found.items)) }
        ensures reads { Reads stands may_leave is_reliable may_refuse result self.old self.new };

    /// The profile that the project's dump was read by.
    fn profile(&mut self, project: &str) -> Result<Option<Profile>, IndexFault>
        ensures found { is_reliable self.new → (m : State) → stands self.old m
            → IfOk result (λ found. found ≡ option_map (λ d. d.profile) (m.dump project.now)) }
        ensures reads { Reads stands may_leave is_reliable may_refuse result self.old self.new };

    /// Replaces the dump of the project, where it has one, and keeps the text of the reply under
    /// the key, which must not be kept yet.
    fn replace_dump(
        &mut self,
        alloc: Global,
        project: &str,
        key: &str,
        reply: &str,
        dump: CheckedDump,
    ) -> Result<(), IndexFault>
        ensures reliable { is_reliable self.new → is_reliable self.old }
        ensures changes { is_reliable self.new → (m : State) → stands self.old m → IsNew m project.now key.now reply.now (set_dump dump)
            → Changes stands may_leave self.old self.new m (changed m project.now key.now (set_dump dump)) result }
        ensures refused { IfErr result (λ fault. fault ≡ Refused → may_refuse ≡ true) };

    /// Replaces the tags of the project, where it has some, and keeps the text of the reply under
    /// the key, which must not be kept yet.
    fn replace_tags(
        &mut self,
        alloc: Global,
        project: &str,
        key: &str,
        reply: &str,
        part: TagsPart,
    ) -> Result<(), IndexFault>
        ensures reliable { is_reliable self.new → is_reliable self.old }
        ensures changes { is_reliable self.new → (m : State) → stands self.old m → IsNew m project.now key.now reply.now (set_tags part)
            → Changes stands may_leave self.old self.new m (changed m project.now key.now (set_tags part)) result }
        ensures refused { IfErr result (λ fault. fault ≡ Refused → may_refuse ≡ true) };

    /// Removes the dump and the tags of the project, and keeps the text of the reply under the key,
    /// which must not be kept yet. Returns whether either was there.
    fn remove(&mut self, project: &str, key: &str) -> Result<bool, IndexFault>
        ensures reliable { is_reliable self.new → is_reliable self.old }
        ensures found { is_reliable self.new → (m : State) → stands self.old m → m.kept project.now key.now ≡ None
            → IfOk result (λ was_there. was_there ≡ (is_some (m.dump project.now) || is_some (m.tags project.now))) }
        ensures changes { is_reliable self.new → (m : State) → stands self.old m → m.kept project.now key.now ≡ None
            → Changes stands may_leave self.old self.new m (changed m project.now key.now clear) result }
        ensures refused { IfErr result (λ fault. fault ≡ Refused → may_refuse ≡ true) };

    /// A crash leaves one of these states, so it leaves one of these and another.
    ghost weaker: { (index : Self) (states : List State) (n : State) → may_leave index states → may_leave index (states ++ n ∷ []) };
}
