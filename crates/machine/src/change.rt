//! What a command asks for, judged by its body alone: the change that it makes, or the reply that
//! refuses it. Each desk judges by it, before it looks at what it keeps.
ghost use Rattle.std.specs.Prelude.{◌≡◌, [], IfOk};
ghost use Rattle.machine.specs.Judging.{judged};
ghost use Rattle.machine.specs.Uploads.{HasRead, action_of};
ghost use Rattle.machine.specs.Requests.{command_value};
ghost use Rattle.machine.specs.Steps.Changes.{said_value};

use crate::reply::Reply;
use crate::request::Command;
use crate::tags_part::TagsPart;
use crate::upload::BodyReader;
use dump::CheckedDump;
use std::alloc::{AllocError, Global};

/// What an accepted command does to a project: it has this dump, or these tags, from then on; or
/// neither.
#[derive(Drop)]
pub enum Change {
    SetDump(CheckedDump),
    SetTags(TagsPart),
    Clear,
}

/// The verdict on a body that is one piece: the change that its command makes, or its fault.
fn judge_body(mut reader: BodyReader, body: &[u8]) -> Result<Result<Change, Reply>, AllocError>
    requires { HasRead reader [] }
    ensures { IfOk result (λ answer. said_value answer ≡ judged (action_of reader.lines body.now)) }
{
    reader.piece(body)?;
    reader.finish()
}

/// The verdict on a command: the change that it makes, or the fault of its body.
pub fn judge(alloc: Global, command: &Command<'_>) -> Result<Result<Change, Reply>, AllocError>
    ensures { IfOk result (λ said. said_value said ≡ judged (command_value command.now).action) }
{
    match command {
        Command::PutDump { profile, body, .. } => {
            judge_body(BodyReader::dump(alloc, *profile)?, body)
        }
        Command::PutTags { body, .. } => judge_body(BodyReader::tags(alloc)?, body),
        Command::Remove { .. } => Ok(Ok(Change::Clear)),
    }
}
