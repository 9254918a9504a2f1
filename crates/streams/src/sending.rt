//! Writing all of some bytes to a sink that may take a part of them at a time. It stops at the
//! first write that fails or takes none, so that no caller loops for ever. `specs/Sending` says
//! what was written then.
ghost use Rattle.streams.specs.Sending.{Sends};
ghost use Rattle.streams.specs.Streams.{CanCount};

use crate::counted::{Failed, Sink};

/// Writes all of the bytes, one part after another. Fails where a push failed, or took no byte:
/// then a beginning of the bytes was written, but not all of them.
pub fn push_all<W: Sink>(w: &mut W, bytes: &[u8]) -> Result<(), Failed>
    requires { CanCount (W.output w.old) }
    ensures { Sends (W.output w.old) bytes.now result (W.output w.new) }
{
    let mut sent = 0;
    'sending: while sent < bytes.len() {
        match w.push(&bytes[sent..]) {
            Ok(0) => return Err(Failed),
            Ok(count) => sent += count,
            Err(e) => return Err(e),
        }
    }
    Ok(())
}
