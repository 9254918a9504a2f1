//! What takes the lines of a body: those of a dump or of a tags file, each to its checker. So no
//! body is held whole. The pieces are split into lines in `upload.rt`.
ghost use Rattle.std.specs.Prelude.{◌≡◌, ℕ, List, IfOk, true};
ghost use Rattle.machine.specs.Steps.Changes.{said_value};
ghost use Rattle.dump.specs.Judging.{IsHanded};
ghost use Rattle.machine.specs.Steps.Uploads.{Judges, Rises, emptied, next, said, taken};
ghost use Rattle.lsif.specs.Reading as dumps;
ghost use Rattle.tags.specs.Lines as tags;
ghost use Rattle.machine.specs.Uploads.{dump_lines, longest_of, tags_lines};

use crate::bodies::{dump_refused, tags_refused};
use crate::change::Change;
use crate::reply::Reply;
use crate::tags_part::TagsPart;
use dump::{Checker, FeedFault, read_line};
use std::alloc::{AllocError, Global};
use tags::{Code as TagsCode, TagReader, TagsFault, reading_law};

/// How far the reading of lines is.
#[derive(Clone, Copy, PartialEq, Eq)]
pub(crate) enum ReadingState {
    /// No line has a fault.
    Running,
    /// A line has a fault: what follows it doesn't count.
    Faulty,
    /// Memory was refused.
    OutOfMemory,
}

/// Takes the lines of a dump or of a tags file.
#[derive(Drop)]
pub(crate) enum LineReader {
    Dump(Checker),
    Tags(TagReader),
}

/// Takes the next line of a dump.
fn feed_dump(checker: &mut Checker, alloc: Global, line: Option<&[u8]>) -> ReadingState
    ensures judged { (bytes : List ℕ) → IsHanded dumps.longest_line line.entry bytes
        → Judges result (next (dump_lines checker.old.profile checker.old.progress) bytes true) (dump_lines checker.new.profile checker.new.progress) }
    ensures profile { checker.new.profile ≡ checker.old.profile }
{
    let Ok(reading) = read_line(alloc, checker.profile(), line) else {
        return ReadingState::OutOfMemory;
    };
    match checker.feed(reading) {
        Ok(()) => ReadingState::Running,
        Err(FeedFault::Line(_)) => ReadingState::Faulty,
        Err(FeedFault::Memory) => ReadingState::OutOfMemory,
    }
}

/// Takes the next line of a tags file.
fn feed_tags(reader: &mut TagReader, line: Option<&[u8]>, is_ended: bool) -> ReadingState
    ensures { (bytes : List ℕ) → IsHanded tags.longest_line line.entry bytes
        → Judges result (next (tags_lines reader.old) bytes is_ended) (tags_lines reader.new) }
{
    reading_law();
    match reader.feed(line.ok_or(TagsCode::T01), is_ended) {
        Ok(()) => ReadingState::Running,
        Err(TagsFault::Line(_)) => ReadingState::Faulty,
        Err(TagsFault::Memory) => ReadingState::OutOfMemory,
    }
}

impl LineReader {
    /// Takes the next line without its line feed; none where it's too long. `is_ended` says whether
    /// a line feed follows.
    pub(crate) fn feed(
        &mut self,
        alloc: Global,
        line: Option<&[u8]>,
        is_ended: bool,
    ) -> ReadingState
        ensures judged { (bytes : List ℕ) → IsHanded (longest_of (taken self.old)) line.entry bytes
            → Judges result (next (taken self.old) bytes is_ended) (taken self.new) }
        ensures same { emptied (taken self.new) ≡ emptied (taken self.old) }
    {
        match self {
            LineReader::Dump(checker) => feed_dump(checker, alloc, line),
            LineReader::Tags(reader) => feed_tags(reader, line, is_ended),
        }
    }

    /// The verdict on the lines: the change that they make, or their fault.
    pub(crate) fn finish(self, alloc: Global) -> Result<Result<Change, Reply>, AllocError>
        requires { Rises (taken self) }
        ensures { IfOk result (λ answer. said_value answer ≡ said (taken self)) }
    {
        match self {
            LineReader::Dump(checker) => match checker.finish() {
                Ok(dump) => Ok(Ok(Change::SetDump(dump))),
                Err(FeedFault::Line(fault)) => Ok(Err(dump_refused(alloc, fault)?)),
                Err(FeedFault::Memory) => Err(AllocError),
            },
            LineReader::Tags(reader) => match reader.finish() {
                Ok(tags) => Ok(Ok(Change::SetTags(TagsPart::new(tags)))),
                Err(TagsFault::Line(fault)) => Ok(Err(tags_refused(alloc, fault)?)),
                Err(TagsFault::Memory) => Err(AllocError),
            },
        }
    }
}
