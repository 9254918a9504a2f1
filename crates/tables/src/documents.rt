//! The documents of dumps, as they are selected: whether a dump has one of this URL.
ghost use Rattle.std.specs.Prelude.{◌↔◌, IsTrue, IfOk};
ghost use Rattle.dump.specs.Places.{HasDocument};
ghost use Rattle.tables.specs.Steps.Clauses.{OfDump, OnlyReads};

use crate::fault::Refusal;
use crate::selection::select_first;
use sqlite::{Alter, Connection, params};

const SELECT_DOCUMENT: &str = "SELECT slot FROM document WHERE slot = ?1 AND uri = ?2";

/// Whether the dump that has this slot has a document of this serialized URL.
pub(crate) fn has_document<S: Alter>(
    conn: &mut Connection<S>,
    slot: i64,
    uri: &str,
) -> Result<bool, Refusal>
    ensures found { OfDump S.Store conn.old conn.new slot (λ dump. IfOk result (λ found. IsTrue found ↔ HasDocument dump.elements uri.now)) }
    ensures reads { OnlyReads S.Store result conn.old conn.new }
{
    let found: Option<i64> = select_first(conn, SELECT_DOCUMENT, params![slot, uri])?;
    Ok(found.is_some())
}
