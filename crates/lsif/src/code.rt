//! The codes of a dump's faults, each with its name and its text, in one table. `specs/Shape`,
//! `specs/Reading` and the crate `dump` say when each holds; `specs/Code` has the table.
ghost use Rattle.std.specs.Prelude.{◌≡◌};
ghost use Rattle.lsif.specs.Code.{name_of, text_of};

use std::error::Error;
use std::fmt;

/// What is wrong with a line of a dump, or with the dump at its end. Where two codes hold of one
/// line, the lesser one is named: first the codes of the lines, then those of the end.
#[derive(Clone, Copy, Debug, PartialEq, Eq, PartialOrd, Ord)]
pub enum Code {
    L01,
    L02,
    L03,
    L04,
    L05,
    L06,
    L07,
    L08,
    L09,
    L10,
    L11,
    L12,
    L13,
    L14,
    L15,
    L16,
    L17,
    L18,
    L19,
    L20,
    E01,
    E02,
}

impl Code {
    /// The code and what it says, as they are printed.
    fn printed(self) -> (&'static str, &'static str)
        ensures name { result.0.now ≡ name_of self }
        ensures text { result.1.now ≡ text_of self }
    {
        match self {
            Code::L01 => ("L01", "line too long"),
            Code::L02 => ("L02", "not JSON"),
            Code::L03 => ("L03", "no valid id"),
            Code::L04 => ("L04", "id used before"),
            Code::L05 => ("L05", "bad type or label"),
            Code::L06 => ("L06", "metaData missing, wrong or repeated"),
            Code::L07 => ("L07", "bad vertex member"),
            Code::L08 => ("L08", "bad edge ends"),
            Code::L09 => ("L09", "vertex not emitted before"),
            Code::L10 => ("L10", "edge may not join these"),
            Code::L11 => ("L11", "range contained before"),
            Code::L12 => ("L12", "range equal to or overlapping another"),
            Code::L13 => ("L13", "second edge of a single kind"),
            Code::L14 => ("L14", "next closes a cycle"),
            Code::L15 => ("L15", "bad item property or shard"),
            Code::L16 => ("L16", "shard names no document or project"),
            Code::L17 => ("L17", "bad document event"),
            Code::L18 => ("L18", "named after its document ended"),
            Code::L19 => ("L19", "document uri used before"),
            Code::L20 => ("L20", "too many elements"),
            Code::E01 => ("E01", "range in no document"),
            Code::E02 => ("E02", "shard is not the document of a target"),
        }
    }

    /// The code as it is printed, as `L09`.
    pub fn name(self) -> &'static str
        ensures { result.now ≡ name_of self }
    {
        self.printed().0
    }

    /// What the code says, as it is printed after its name.
    pub fn text(self) -> &'static str
        ensures { result.now ≡ text_of self }
    {
        self.printed().1
    }
}

impl fmt::Display for Code {
    fn fmt<W: fmt::Write>(&self, f: &mut fmt::Formatter<W>) -> fmt::Result {
        write!(f, "{} {}", self.name(), self.text())
    }
}

impl Error for Code {}
