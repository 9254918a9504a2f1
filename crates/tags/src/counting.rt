//! The number of the tags of a reader's bytes: each line is read and passed to the checker
//! (`checker.rt`), and no tag is kept. `specs/Counting`.
ghost use Rattle.std.specs.Prelude.{◌≡◌};
ghost use Rattle.streams.specs.Buffered.{unread};
ghost use Rattle.streams.specs.Streams.{IsCountable};
ghost use Rattle.tags.specs.Counting.{CountsRead, CountsTags};
ghost use Rattle.tags.specs.Faults.{result_map};
ghost use Rattle.tags.specs.States.{counted, next};
ghost use Rattle.tags.specs.Steps.Counting.{Concludes, Feeds, IsReady, Takes};
ghost use Rattle.tags.specs.Steps.Readings.{handed};

use crate::checker::TagChecker;
use crate::code::{Code, LineFault, TagsFault};
use crate::limits::LONGEST_LINE;
use std::alloc::Global;
use streams::{CANNOT_READ, LineBuffer, LinesFault, OUT_OF_MEMORY, Source};

/// Why the tags of a reader's bytes have no number.
#[derive(Clone, Copy, Debug, PartialEq, Eq, thiserror::Error)]
pub enum CountFault {
    /// Memory was refused.
    #[error("{}", OUT_OF_MEMORY)]
    Memory,
    /// The reader failed.
    #[error("{}", CANNOT_READ)]
    Read,
    /// The tags file is faulty.
    #[error(transparent)]
    Line(LineFault),
}

/// Passes a line to the checker, or the code of one that was too long. An `Ok` is true.
fn feed(
    checker: &mut TagChecker,
    line: Result<&[u8], Code>,
    has_feed: bool,
) -> Result<bool, CountFault>
    ensures { Feeds result checker.new (next counted checker.old (handed (result_map (λ bytes. bytes.now) line.entry) has_feed)) }
{
    match checker.feed(line, has_feed) {
        Ok(()) => Ok(true),
        Err(TagsFault::Line(fault)) => Err(CountFault::Line(fault)),
        Err(TagsFault::Memory) => Err(CountFault::Memory),
    }
}

/// Takes the next line, and says whether there is one.
fn take_line<R: Source>(
    lines: &mut LineBuffer,
    r: &mut R,
    checker: &mut TagChecker,
) -> Result<bool, CountFault>
    requires count { IsCountable (R.failed r.old) }
    requires ready { IsReady lines.old }
    ensures takes { Takes (unread lines.old.pending (R.left r.old)) checker.old result checker.new lines.new (unread lines.new.pending (R.left r.new)) }
    ensures counted { CountsRead (R.failed r.old) (R.failed r.new) result }
{
    match lines.advance(r) {
        Ok(true) => feed(checker, Ok(lines.line()), lines.has_feed()),
        Ok(false) => Ok(false),
        Err(LinesFault::TooLong) => feed(checker, Err(Code::T01), false),
        Err(LinesFault::Read) => Err(CountFault::Read),
        Err(LinesFault::Memory) => unreachable!(),
    }
}

/// What the end of the lines says.
fn conclude(checker: TagChecker) -> Result<u32, CountFault>
    ensures { Concludes checker result }
{
    match checker.finish() {
        Ok(tags) => Ok(tags),
        Err(TagsFault::Line(fault)) => Err(CountFault::Line(fault)),
        Err(TagsFault::Memory) => unreachable!(),
    }
}

/// Reads a tags file from a reader to its end, or up to its first faulty line: the number of its
/// ordinary tags where it has no fault, else its fault. Keeps of its bytes one line, and the last
/// tag's name.
pub fn count_tags<R: Source>(alloc: Global, r: &mut R) -> Result<u32, CountFault>
    requires { IsCountable (R.failed r.old) }
    ensures tags { CountsTags (R.left r.old) result }
    ensures counted { CountsRead (R.failed r.old) (R.failed r.new) result }
{
    let Ok(mut lines) = LineBuffer::new(alloc, LONGEST_LINE) else {
        return Err(CountFault::Memory);
    };
    let mut checker = TagChecker::new(alloc);
    'reading: loop {
        match take_line(&mut lines, r, &mut checker) {
            Ok(true) => {}
            Ok(false) => return conclude(checker),
            Err(fault) => return Err(fault),
        }
    }
}
