//! The types of requests: commands, which change a project, and queries. How they're read from a
//! stream is known in the crate `http_edge`. `specs/Requests`.
ghost use Rattle.std.specs.Prelude.{◌≡◌};
ghost use Rattle.machine.specs.Requests.{command_value};

use crate::names::{DocUri, Key, ProjectName};
use lsif::{Profile, RequestKind};
use positions::Position;

/// What changes a project. A command whose key is kept for its project is a repeat: it has the kept
/// reply.
#[derive(Drop)]
pub enum Command<'a> {
    /// Puts a dump (LSIF 0.6.0, one element on each line), read by a profile, in the place of the
    /// one that the project has.
    PutDump {
        project: ProjectName,
        key: Key,
        profile: Profile,
        body: &'a [u8],
    },
    /// Puts a tags file (Universal Ctags, tags(5), format 2) in the place of the one that the
    /// project has.
    PutTags {
        project: ProjectName,
        key: Key,
        body: &'a [u8],
    },
    /// Removes the project's dump and its tags.
    Remove {
        project: ProjectName,
        key: Key,
    },
}

impl Command<'_> {
    /// The project that the command changes.
    pub fn project(&self) -> &ProjectName
        ensures { result.now ≡ (command_value self.now).project }
    {
        match self {
            Command::PutDump { project, .. }
            | Command::PutTags { project, .. }
            | Command::Remove { project, .. } => project,
        }
    }

    /// The key under which its reply is kept.
    pub fn key(&self) -> &Key
        ensures { result.now ≡ (command_value self.now).key }
    {
        match self {
            Command::PutDump { key, .. }
            | Command::PutTags { key, .. }
            | Command::Remove { key, .. } => key,
        }
    }
}

/// What is asked of the projects. A position is in the document of a serialized URL (Language
/// Server Protocol 3.17).
#[derive(Drop)]
pub enum Query {
    /// What a request of this kind finds at a position ("textDocument/definition" and the like).
    /// For references: where the symbol is named and where it's defined.
    At {
        kind: RequestKind,
        project: ProjectName,
        uri: DocUri,
        at: Position,
    },
    /// Where the symbol at a position is named ("textDocument/references"), and where it's defined
    /// too, if the declaration is asked for.
    References {
        project: ProjectName,
        uri: DocUri,
        at: Position,
        declaration: bool,
    },
    /// The tags of a name, in all projects or in one.
    Names {
        name: String,
        project: Option<ProjectName>,
    },
    /// The tags whose names begin with a text, in all projects or in one.
    Prefix {
        prefix: String,
        project: Option<ProjectName>,
    },
    /// The projects that have a dump or tags.
    Projects,
    /// The profile that a project's dump was read by.
    Profile {
        project: ProjectName,
    },
}

/// A command or a query.
#[derive(Drop)]
pub enum Request<'a> {
    Command(Command<'a>),
    Query(Query),
}
