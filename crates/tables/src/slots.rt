//! The slots, of which each part of a project has one, and the kept replies: put and removed.
//! `specs/Parts` has the parts' numbers.
ghost use Rattle.std.specs.Prelude.{◌≡◌, ◌∷◌, [], ◌↔◌, None, IsTrue, IfOk, OnOk};
ghost use Rattle.sqlite_value.specs.declared.value.Value.TheVariants.{Int, Text, Null};
ghost use Rattle.sqlite.specs.State.{HasCleanDisk};
ghost use Rattle.sqlite.specs.Held.{state};
ghost use Rattle.tables.specs.Schema.{schema_two};
ghost use Rattle.tables.specs.Contents.{Contents, Replies, Keeps, changed};
ghost use Rattle.tables.specs.Databases.{IsListed};
ghost use Rattle.tables.specs.Parts.{part_number};
ghost use Rattle.tables.specs.Steps.Puts.{Puts, PutsAll, Steps, GoesOn};
ghost use Rattle.tables.specs.Steps.Clauses.{CommitsNothing, Edits};
ghost use Rattle.tables.specs.TableTrees.{keyed_tree, slot_tree};

use crate::statements::run;
use sqlite::{Alter, Error, Transaction, params};

/// A kind of part of a project.
#[derive(Clone, Copy, Drop)]
pub(crate) enum Part {
    Dump,
    Tags,
}

/// The number of a kind of part in `slot`.
pub(crate) fn part_number(part: Part) -> i64
    ensures { result ≡ part_number part }
{
    match part {
        Part::Dump => 1,
        Part::Tags => 2,
    }
}

const DELETE_FROM_SLOT: &str = "DELETE FROM slot WHERE project = ?1 AND part = ?2";

/// Removes the slot of a part, and with it the part's rows, and returns how many slots there were.
pub(crate) fn remove_slot<S: Alter>(
    tx: &mut Transaction<'_, S>,
    project: &str,
    part: Part,
) -> Result<usize, Error>
    ensures gone { HasCleanDisk (state S.Store tx.new.conn.now) → IsTrue tx.old.conn.now.in_transaction
        → (state S.Store tx.old.conn.now).now.schema ≡ schema_two
        → (parts : Contents) (replies : Replies) → Keeps (state S.Store tx.old.conn.now).now.trees parts replies
        → IfOk result (λ count. GoesOn (state S.Store tx.old.conn.now) (state S.Store tx.new.conn.now)
        × Keeps (state S.Store tx.new.conn.now).now.trees (changed parts project.now part None) replies
        × ((count ≡ 0) ↔ (parts project.now part ≡ None))) }
    ensures uncommitted { CommitsNothing S.Store tx.old.conn tx.new.conn }
{
    let number = part_number(part);
    run(tx, DELETE_FROM_SLOT, params![project, number])
}

const INSERT_INTO_SLOT: &str = "INSERT INTO slot (project, part) VALUES (?1, ?2)";

/// Makes a slot for a part: its id.
pub(crate) fn insert_slot<S: Alter>(
    tx: &mut Transaction<'_, S>,
    project: &str,
    part: Part,
) -> Result<i64, Error>
    ensures put { HasCleanDisk (state S.Store tx.new.conn.now) → IsTrue tx.old.conn.now.in_transaction
        → (state S.Store tx.old.conn.now).now.schema ≡ schema_two
        → IfOk result (λ id. Steps (Puts slot_tree id (Null ∷ Text project.now ∷ Int (part_number part) ∷ [])) (state S.Store tx.old.conn.now)
        (state S.Store tx.new.conn.now)) }
    ensures uncommitted { CommitsNothing S.Store tx.old.conn tx.new.conn }
{
    let number = part_number(part);
    run(tx, INSERT_INTO_SLOT, params![project, number])?;
    Ok(tx.last_insert_rowid())
}

const INSERT_INTO_KEYED: &str = "INSERT INTO keyed (project, cmdkey, reply) VALUES (?1, ?2, ?3)";

/// Keeps the text of a reply under a key.
pub(crate) fn insert_reply<S: Alter>(
    tx: &mut Transaction<'_, S>,
    project: &str,
    key: &str,
    reply: &str,
) -> Result<usize, Error>
    ensures put { Edits S.Store result tx.old.conn tx.new.conn (PutsAll keyed_tree ((Text project.now ∷ Text key.now ∷ Text reply.now ∷ []) ∷ [])) }
    ensures listed { HasCleanDisk (state S.Store tx.new.conn.now) → IsTrue tx.old.conn.now.in_transaction
        → (state S.Store tx.old.conn.now).now.schema ≡ schema_two
        → OnOk result (IsListed schema_two (state S.Store tx.new.conn.now).now.trees) }
    ensures uncommitted { CommitsNothing S.Store tx.old.conn tx.new.conn }
{
    run(tx, INSERT_INTO_KEYED, params![project, key, reply])
}
