//! The reports of the checks: the count of a sound file, or the fault of a line.
ghost use Rattle.std.specs.Prelude.{◌≡◌, IfOk, string_bytes};
ghost use Rattle.streams.specs.Streams.{CanCount};
ghost use Rattle.calls.specs.Report.{exit_code_of, report_text, status_of};
ghost use Rattle.calls.specs.Steps.Judging.{Sends};

use std::alloc::{AllocError, Global};
use streams::{CANNOT_READ, CANNOT_WRITE, OUT_OF_MEMORY, Sink, push_all};
use thiserror::Error;

/// A faulty line, and its code as it's printed with its text.
#[derive(Clone, Copy, Debug, PartialEq, Eq)]
pub struct FaultyLine {
    pub line: u32,
    pub name: &'static str,
    pub text: &'static str,
}

/// What a check found.
#[derive(Clone, Copy, Debug, PartialEq, Eq)]
pub enum Report {
    /// A dump without fault, and how many elements it has.
    Elements(u32),
    /// A tags file without fault, and how many ordinary tags it has.
    Tags(u32),
    /// The fault.
    Faulty(FaultyLine),
}

/// Whether what was checked is sound.
#[derive(Clone, Copy, Debug, PartialEq, Eq)]
pub enum Status {
    Sound,
    Faulty,
}

impl Status {
    /// The exit status of the program.
    pub fn exit_code(self) -> u8
        ensures { result ≡ exit_code_of self }
    {
        match self {
            Status::Sound => 0,
            Status::Faulty => 1,
        }
    }
}

/// Why there is no report.
#[derive(Clone, Copy, Debug, PartialEq, Eq, Error)]
pub enum CheckFault {
    /// Memory was refused.
    #[error("{}", OUT_OF_MEMORY)]
    Memory,
    /// The reader failed.
    #[error("{}", CANNOT_READ)]
    Read,
    /// The writer failed, or took no byte.
    #[error("{}", CANNOT_WRITE)]
    Write,
}

impl From<AllocError> for CheckFault {
    ghost use Rattle.calls.specs.declared.report.CheckFault.TheVariants.{Memory};

    ghost from_gives = { λ _ fault. fault ≡ Memory };

    fn from(_: AllocError) -> CheckFault {
        CheckFault::Memory
    }
}

impl Report {
    /// Whether what was checked is sound.
    pub fn status(self) -> Status
        ensures { result ≡ status_of self }
    {
        match self {
            Report::Elements(_) | Report::Tags(_) => Status::Sound,
            Report::Faulty(_) => Status::Faulty,
        }
    }
}

/// The line that is printed, with its line feed.
fn report_text(alloc: Global, report: Report) -> Result<String, AllocError>
    ensures { IfOk result (λ text. string_bytes text ≡ report_text report) }
{
    match report {
        Report::Elements(elements) => format!(in alloc; "ok {elements} elements\n"),
        Report::Tags(tags) => format!(in alloc; "ok {tags} tags\n"),
        Report::Faulty(FaultyLine { line, name, text }) => {
            format!(in alloc; "line {line}: {name} {text}\n")
        }
    }
}

/// Writes the line of a report, and answers its status. Refuses where memory was refused, or the
/// writer failed or took no byte.
pub(crate) fn send<W: Sink>(alloc: Global, report: Report, w: &mut W) -> Result<Status, CheckFault>
    requires { CanCount (W.output w.old) }
    ensures { Sends report (W.output w.old) result (W.output w.new) }
{
    let text = report_text(alloc, report)?;
    match push_all(w, text.as_bytes()) {
        Ok(()) => Ok(report.status()),
        Err(_) => Err(CheckFault::Write),
    }
}
