//! The codes of faults that no line has, each with its status and its body, in one table.
//! `specs/Reply`.
ghost use Rattle.std.specs.Prelude.{◌≡◌};
ghost use Rattle.machine.specs.Reply.{row_of, fault_text};

/// The message of errors where a store refused, for another cause than memory.
pub const STORE_REFUSED: &str = "store refused";

/// Why a request has no answer, where that is no line's fault.
#[derive(Clone, Copy, Debug, PartialEq, Eq)]
pub enum Code {
    /// The project has no dump.
    D01,
    /// The project's dump has no document of this URL.
    D02,
    /// The store refused.
    S01,
    /// Memory was refused.
    S02,
}

impl Code {
    /// The status of its reply (RFC 9110, section 15).
    pub fn status(self) -> u16
        ensures { result ≡ (row_of self).status }
    {
        self.reply().0
    }

    /// The status of its reply, and the body.
    pub(crate) fn reply(self) -> (u16, &'static str)
        ensures status { result.0 ≡ (row_of self).status }
        ensures body { result.1.now ≡ fault_text self }
    {
        match self {
            Code::D01 => (404, r#"{"fault":"D01","text":"project has no dump"}"#),
            Code::D02 => (404, r#"{"fault":"D02","text":"no such document"}"#),
            Code::S01 => (503, r#"{"fault":"S01","text":"store refused"}"#),
            Code::S02 => (503, r#"{"fault":"S02","text":"out of memory"}"#),
        }
    }
}
