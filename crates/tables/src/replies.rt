//! The kept replies, as they are selected: the text under a project and a key.
ghost use Rattle.std.specs.Prelude.{◌≡◌, IfOk, option_map, string_bytes};
ghost use Rattle.sqlite.specs.State.{HasCleanDisk};
ghost use Rattle.sqlite.specs.Held.{state};
ghost use Rattle.machine.specs.State.{State, accepted_text};
ghost use Rattle.tables.specs.Stands.{OnlySelects, Rests};
ghost use Rattle.tables.specs.Steps.Clauses.{OfState, OnlyReads};

use crate::fault::{Refusal, TablesFault};
use crate::selection::select_first;
use crate::tables::Tables;
use sqlite::{Alter, Connection, params};

const SELECT_REPLY: &str = "SELECT reply FROM keyed WHERE project = ?1 AND cmdkey = ?2";

/// The text of a kept reply.
fn find_reply<S: Alter>(
    conn: &mut Connection<S>,
    project: &str,
    key: &str,
) -> Result<Option<String>, Refusal>
    ensures found { OfState S.Store conn.old conn.new (λ m. IfOk result
        (λ reply. option_map string_bytes reply ≡ option_map accepted_text (m.kept project.now key.now))) }
    ensures reads { OnlyReads S.Store result conn.old conn.new }
{
    select_first(conn, SELECT_REPLY, params![project, key])
}

impl<S: Alter> Tables<S> {
    /// The text of the reply that is kept for the project under the key, or none where none is.
    /// Errors: `Refused` and `Memory` (`TablesFault`).
    pub fn kept_reply(&mut self, project: &str, key: &str) -> Result<Option<String>, TablesFault>
        ensures found { HasCleanDisk (state S.Store self.new) → (m : State) → Rests (state S.Store self.old) m
            → IfOk result (λ reply. option_map string_bytes reply ≡ option_map accepted_text (m.kept project.now key.now)) }
        ensures selects { OnlySelects result (state S.Store self.old) (state S.Store self.new) }
    {
        self.slot = None;
        match find_reply(&mut self.conn, project, key) {
            Ok(found) => Ok(found),
            Err(refusal) => Err(refusal.fault(self.is_in_memory)),
        }
    }
}
