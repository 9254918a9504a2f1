//! The dump that a reader's bytes are: each line is read and passed to the checker (`checker.rt`).
//! Lines of an upload come from the crate `machine`, which calls `read_line` too.
ghost use Rattle.std.specs.Prelude.{◌≡◌, [], ℕ, List, Err, IfOk, IfErr, OnOk, option_map, true};
ghost use Rattle.std.specs.Result.{ForErr};
ghost use Rattle.lsif.specs.Code.{is_shape_code};
ghost use Rattle.lsif.specs.Element.{reading_value};
ghost use Rattle.lsif.specs.Reading.{longest_line, reading};
ghost use Rattle.streams.specs.Buffered.{unread};
ghost use Rattle.dump.specs.Judging.{CountsRead, IsHanded, ReadsDump, as_dump_fault};
ghost use Rattle.dump.specs.Progress.{running};
ghost use Rattle.dump.specs.Steps.Judging.{GoesOn, HasTakenAll, IsOutside, IsReady, ReadsNext};
ghost use Rattle.streams.specs.Streams.{IsCountable};

use crate::checker::{CheckedDump, Checker};
use crate::fault::{FeedFault, LineFault};
use crate::laws::fault_law;
use lsif::{Code, Element, LONGEST_LINE, Profile, ReadFault, read_element};
use std::alloc::{AllocError, Global};
use streams::{CANNOT_READ, LineBuffer, LinesFault, OUT_OF_MEMORY, Source};
use thiserror::Error;

/// Why a reader's bytes give no dump.
#[derive(Clone, Copy, Debug, PartialEq, Eq, Error)]
pub enum DumpFault {
    /// Memory was refused.
    #[error("{}", OUT_OF_MEMORY)]
    Memory,
    /// The reader failed.
    #[error("{}", CANNOT_READ)]
    Read,
    /// The dump is faulty.
    #[error(transparent)]
    Line(LineFault),
}

impl From<FeedFault> for DumpFault {
    ghost from_gives = { λ e fault. fault ≡ as_dump_fault e };

    fn from(e: FeedFault) -> DumpFault {
        match e {
            FeedFault::Memory => DumpFault::Memory,
            FeedFault::Line(fault) => DumpFault::Line(fault),
        }
    }
}

/// What is read of a line: its element, or the code of its shape.
pub type Reading = Result<Element, Code>;

/// What is read of a line of a dump by a profile. A line that isn't given, since it's longer than
/// the longest, has L01.
pub fn read_line(
    alloc: Global,
    profile: Profile,
    line: Option<&[u8]>,
) -> Result<Reading, AllocError>
    ensures reading { (bytes : List ℕ) → IsHanded longest_line line.entry bytes → IfOk result (λ r. reading_value r ≡ reading profile bytes) }
    ensures shape { IfOk result (λ r. ForErr r (λ code. is_shape_code code ≡ true)) }
{
    let Some(line) = line else {
        return Ok(Err(Code::L01));
    };
    match read_element(alloc, profile, line) {
        Ok(element) => Ok(Ok(element)),
        Err(ReadFault::Shape(code)) => Ok(Err(code)),
        Err(ReadFault::Memory) => Err(AllocError),
    }
}

/// The reading of the next line by a profile. None at the end.
fn next_reading<R: Source>(
    alloc: Global,
    profile: Profile,
    lines: &mut LineBuffer,
    r: &mut R,
) -> Result<Option<Reading>, DumpFault>
    requires count { IsCountable (R.failed r.old) }
    requires ready { IsReady lines.old }
    ensures read { IfOk result (λ next. ReadsNext profile (unread lines.old.pending (R.left r.old)) (option_map reading_value next)
        (unread lines.new.pending (R.left r.new))) }
    ensures goes_on { IfOk result (λ next. GoesOn next lines.new) }
    ensures unfaulty { IfErr result IsOutside }
    ensures counted { CountsRead (R.failed r.old) (R.failed r.new) result }
{
    match lines.advance(r) {
        Ok(false) => Ok(None),
        Ok(true) => match read_line(alloc, profile, Some(lines.line())) {
            Ok(reading) => Ok(Some(reading)),
            Err(_) => Err(DumpFault::Memory),
        },
        Err(LinesFault::TooLong) => Ok(Some(Err(Code::L01))),
        Err(LinesFault::Read) => Err(DumpFault::Read),
        Err(LinesFault::Memory) => Err(DumpFault::Memory),
    }
}

/// Passes the lines of a reader to a new checker, to the reader's end or up to the first faulty
/// line.
fn take_lines<R: Source>(alloc: Global, checker: &mut Checker, r: &mut R) -> Result<(), DumpFault>
    requires count { IsCountable (R.failed r.old) }
    requires fresh { checker.old.progress ≡ running [] }
    ensures profile { checker.new.profile ≡ checker.old.profile }
    ensures taken { OnOk result (HasTakenAll checker.old.profile (R.left r.old) checker.new.progress) }
    ensures fault { IfErr result (λ fault. ReadsDump checker.old.profile (R.left r.old) (Err fault)) }
    ensures counted { CountsRead (R.failed r.old) (R.failed r.new) result }
{
    fault_law();
    let profile = checker.profile();
    let Ok(mut lines) = LineBuffer::new(alloc, LONGEST_LINE) else {
        return Err(DumpFault::Memory);
    };
    'reading: while let Some(reading) = next_reading(alloc, profile, &mut lines, r)? {
        match checker.feed(reading) {
            Ok(()) => {}
            Err(fault) => return Err(DumpFault::from(fault)),
        }
    }
    Ok(())
}

/// Reads a dump by a profile from a reader to its end, or up to its first faulty line: the dump
/// where it has no fault, else its fault. Keeps the dump's elements, and of its bytes one line.
pub fn read_dump<R: Source>(
    alloc: Global,
    profile: Profile,
    r: &mut R,
) -> Result<CheckedDump, DumpFault>
    requires { IsCountable (R.failed r.old) }
    ensures dump { ReadsDump profile (R.left r.old) result }
    ensures profile { IfOk result (λ dump. dump.profile ≡ profile) }
    ensures counted { CountsRead (R.failed r.old) (R.failed r.new) result }
{
    fault_law();
    let mut checker = Checker::new(alloc, profile);
    match take_lines(alloc, &mut checker, r) {
        Ok(()) => Ok(checker.finish()?),
        Err(fault) => {
            drop(checker);
            Err(fault)
        }
    }
}
