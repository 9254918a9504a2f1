//! The codes of a tags file's faults, each with its name and its text, in one table, and the faults
//! that name them. `specs/Codes` has the table; `specs/Conditions` says when each holds.
ghost use Rattle.std.specs.Prelude.{◌≡◌};
ghost use Rattle.tags.specs.Codes.{name_of, text_of};
ghost use Rattle.tags.specs.declared.code.TagsFault.TheVariants as tags_fault;
ghost use Rattle.tags.specs.declared.code.SplitFault.TheVariants as split_fault;

use std::alloc::{AllocError, AllocFailed};
use std::error::Error;
use std::fmt;

/// What may be wrong with a line of a tags file. Of a faulty line the least code that holds is
/// named.
#[derive(Clone, Copy, Debug, PartialEq, Eq)]
pub enum Code {
    /// The line, with its CR, is longer than 65,536 bytes.
    T01,
    /// The line isn't UTF-8.
    T02,
    /// A control character other than Tab, LF and a CR before LF.
    T03,
    /// Fewer than two Tabs, or an ordinary tag's name or file is empty.
    T04,
    /// A backslash that begins no escape, in a name, a file, a kind or a field's value.
    T05,
    /// The address, or what follows it, is of no form.
    T06,
    /// An empty field, a bad field name, an empty kind or a second kind.
    T07,
    /// A pseudo-tag `!_TAG_FILE_FORMAT` whose value isn't `2`.
    T08,
    /// A pseudo-tag after an ordinary tag.
    T09,
    /// The file is sorted, and the name is less than the one before.
    T10,
    /// The line's number is over 100,000.
    T11,
}

impl Code {
    /// The code and what it says, as they are printed.
    fn printed(self) -> (&'static str, &'static str)
        ensures name { result.0.now ≡ name_of self }
        ensures text { result.1.now ≡ text_of self }
    {
        match self {
            Code::T01 => ("T01", "line too long"),
            Code::T02 => ("T02", "not UTF-8"),
            Code::T03 => ("T03", "control character"),
            Code::T04 => ("T04", "fewer than three parts"),
            Code::T05 => ("T05", "bad escape"),
            Code::T06 => ("T06", "bad address"),
            Code::T07 => ("T07", "bad field"),
            Code::T08 => ("T08", "format is not 2"),
            Code::T09 => ("T09", "pseudo-tag after a tag"),
            Code::T10 => ("T10", "names descend"),
            Code::T11 => ("T11", "too many lines"),
        }
    }

    /// The code as it is printed, as `T05`.
    pub fn name(self) -> &'static str
        ensures { result.now ≡ name_of self }
    {
        self.printed().0
    }

    /// The text that reports and replies print for the code.
    pub fn text(self) -> &'static str
        ensures { result.now ≡ text_of self }
    {
        self.printed().1
    }
}

impl fmt::Display for Code {
    fn fmt<W: fmt::Write>(&self, f: &mut fmt::Formatter<W>) -> fmt::Result {
        write!(f, "{} {}", self.name(), self.text())
    }
}

impl Error for Code {}

/// A line of a tags file, counted from 1, and what is wrong with it.
#[derive(Clone, Copy, Debug, PartialEq, Eq, thiserror::Error)]
#[error("line {line}: {code}")]
pub struct LineFault {
    pub line: u32,
    pub code: Code,
}

/// Why a tags file was refused.
#[derive(Debug, PartialEq, Eq, Drop, thiserror::Error)]
pub enum TagsFault {
    /// Memory was refused.
    #[error("{}", AllocError)]
    Memory,
    /// The first line that is faulty.
    #[error(transparent)]
    Line(LineFault),
}

/// Why a line has no parts.
#[derive(Debug, PartialEq, Eq, Drop, thiserror::Error)]
pub enum SplitFault {
    /// Memory was refused.
    #[error("{}", AllocError)]
    Memory,
    /// What is wrong with the line.
    #[error(transparent)]
    Line(Code),
}

impl From<LineFault> for TagsFault {
    ghost from_gives = { λ fault e. e ≡ tags_fault.Line fault };

    fn from(fault: LineFault) -> TagsFault {
        TagsFault::Line(fault)
    }
}

impl From<AllocError> for TagsFault {
    ghost from_gives = { λ _ e. e ≡ tags_fault.Memory };

    fn from(_e: AllocError) -> TagsFault {
        TagsFault::Memory
    }
}

impl<T: Drop> From<AllocFailed<T>> for TagsFault {
    ghost from_gives = { λ _ e. e ≡ tags_fault.Memory };

    fn from(_e: AllocFailed<T>) -> TagsFault {
        TagsFault::Memory
    }
}

impl From<AllocError> for SplitFault {
    ghost from_gives = { λ _ e. e ≡ split_fault.Memory };

    fn from(_e: AllocError) -> SplitFault {
        SplitFault::Memory
    }
}

impl<T: Drop> From<AllocFailed<T>> for SplitFault {
    ghost from_gives = { λ _ e. e ≡ split_fault.Memory };

    fn from(_e: AllocFailed<T>) -> SplitFault {
        SplitFault::Memory
    }
}
