//! Uploads, whose bodies come in pieces: they are judged line by line and never held whole. What
//! takes the lines is in `line_reader.rt`. `specs/Uploads`.
ghost use Rattle.std.specs.Prelude.{◌≡◌, ◌≢◌, ◌<◌, ◌≤◌, ◌++◌, ℕ, List, [], IfOk, MatchResult, is_err, length, take, true, false};
ghost use Rattle.machine.specs.Judging.{judged};
ghost use Rattle.machine.specs.Steps.Changes.{said_value};
ghost use Rattle.machine.specs.Steps.Uploads.{HasState, Says, StandsBy, TookBody, body_value, emptied, taken};
ghost use Rattle.streams.specs.Pieces.{begun};
ghost use Rattle.machine.specs.Uploads.{HasRead, action_of, command_of, empty, longest_of, no_dump_line, no_tags_line};

use crate::change::Change;
use crate::line_reader::{LineReader, ReadingState};
use crate::names::{Key, ProjectName};
use crate::reply::Reply;
use dump::{Checker, fault_law};
use lsif::{LONGEST_LINE, Profile};
use std::alloc::{AllocError, Global};
use std::marker::Model;
use streams::{Cutter, OUT_OF_MEMORY, lines_law as cuts_law};
use tags::{
    LONGEST_LINE as LONGEST_TAG_LINE, TagReader, lines_law, reading_law, state_law, text_law,
};
use thiserror::Error;

/// Why a piece isn't taken.
#[derive(Clone, Copy, Debug, PartialEq, Eq, Error)]
pub enum UploadFault {
    /// Memory was refused. From then on this is the answer for good.
    #[error("{}", OUT_OF_MEMORY)]
    Memory,
}

impl From<AllocError> for UploadFault {
    ghost use Rattle.std.specs.Prelude.{◌≡◌};
    ghost use Rattle.machine.specs.declared.upload.UploadFault.TheVariants.{Memory};

    ghost from_gives = { λ _ fault. fault ≡ Memory };

    fn from(_: AllocError) -> UploadFault {
        UploadFault::Memory
    }
}

/// Reads a body that comes in pieces. Each line is judged when it has come, and of the bytes one
/// line is kept.
#[derive(Drop)]
pub struct BodyReader {
    alloc: Global,
    lines: LineReader,
    cutter: Cutter,
    state: ReadingState,
}

impl Model for BodyReader {
    ghost use Rattle.std.specs.Prelude.{◌≡◌, ℕ, List};
    ghost use Rattle.machine.specs.Steps.Uploads.{HasState, Says, StandsBy, body_value, taken};
    ghost use Rattle.machine.specs.Uploads.{BodyValue, longest_of};

    ghost Value = { BodyValue };

    ghost view = { λ b. body_value (taken b.lines) b.cutter b.state };

    ghost invariant = { λ b. (b.cutter.longest ≡ longest_of (taken b.lines)) × HasState b.state (taken b.lines) b.cutter × (body : List ℕ)
        × StandsBy (body_value (taken b.lines) b.cutter b.state) body };
}

/// How many bytes of a piece were taken, and how far the reading is then.
#[derive(Clone, Copy)]
struct Taken {
    count: usize,
    state: ReadingState,
}

/// Takes the beginning of a piece up to and with its first line feed, or all of it, where no line
/// has had a fault.
fn take_line(alloc: Global, cutter: &mut Cutter, lines: &mut LineReader, piece: &[u8]) -> Taken
    requires running { HasState ReadingState.Running (taken lines.old) cutter.old }
    requires longest { cutter.old.longest ≡ longest_of (taken lines.old) }
    ensures some { length piece.now ≢ 0 → 0 < result.count }
    ensures within { result.count ≤ length piece.now }
    ensures stands { (body : List ℕ) → TookBody (taken lines.old) (begun cutter.old) body
        → StandsBy (body_value (taken lines.new) cutter.new result.state) (body ++ take result.count piece.now) }
    ensures state { HasState result.state (taken lines.new) cutter.new }
    ensures longest { cutter.new.longest ≡ cutter.old.longest }
    ensures same { emptied (taken lines.new) ≡ emptied (taken lines.old) }
{
    match cutter.take(piece) {
        Ok(count) => match cutter.line() {
            Some(line) => Taken {
                count,
                state: lines.feed(alloc, Some(line), true),
            },
            None => Taken {
                count,
                state: ReadingState::Running,
            },
        },
        Err(_) => Taken {
            count: piece.len(),
            state: lines.feed(alloc, None, true),
        },
    }
}

/// Takes the last line, which no line feed ends, where it isn't empty and no line has had a fault.
fn end_line(
    alloc: Global,
    cutter: &Cutter,
    lines: &mut LineReader,
    state: ReadingState,
) -> ReadingState
    requires state { HasState state (taken lines.old) cutter.now }
    requires longest { cutter.now.longest ≡ longest_of (taken lines.old) }
    ensures said { (body : List ℕ) → StandsBy (body_value (taken lines.old) cutter.now state) body
        → Says result (taken lines.new) (judged (action_of (taken lines.old) body)) }
    ensures refused { state ≡ ReadingState.OutOfMemory → result ≡ ReadingState.OutOfMemory }
{
    cuts_law();
    lines_law();
    match state {
        ReadingState::Running => match cutter.rest() {
            Some(line) => lines.feed(alloc, Some(line), false),
            None => ReadingState::Running,
        },
        ReadingState::Faulty | ReadingState::OutOfMemory => state,
    }
}

impl BodyReader {
    /// Reads with this, from the first byte on.
    fn new(alloc: Global, lines: LineReader, longest: usize) -> Result<BodyReader, AllocError>
        requires longest { longest ≡ longest_of (taken lines) }
        requires none { taken lines ≡ emptied (taken lines) }
        ensures { IfOk result (λ b. b ≡ empty (taken lines)) }
    {
        let Ok(cutter) = Cutter::new(alloc, longest) else {
            return Err(AllocError);
        };
        Ok(BodyReader {
            alloc,
            lines,
            cutter,
            state: ReadingState::Running,
        })
    }

    /// Reads a dump by a profile.
    pub(crate) fn dump(alloc: Global, profile: Profile) -> Result<BodyReader, AllocError>
        ensures value { IfOk result (λ b. b ≡ empty (no_dump_line profile)) }
        ensures stands { IfOk result (λ b. HasRead b []) }
    {
        let checker = Checker::new(alloc, profile);
        BodyReader::new(alloc, LineReader::Dump(checker), LONGEST_LINE)
    }

    /// Reads a tags file.
    pub(crate) fn tags(alloc: Global) -> Result<BodyReader, AllocError>
        ensures value { IfOk result (λ b. b ≡ empty no_tags_line) }
        ensures stands { IfOk result (λ b. HasRead b []) }
    {
        let reader = TagReader::new(alloc);
        BodyReader::new(alloc, LineReader::Tags(reader), LONGEST_TAG_LINE)
    }

    /// Takes the beginning of a piece up to and with its first line feed, or all of it, and says
    /// how many bytes it took.
    fn take(&mut self, piece: &[u8]) -> usize
        ensures some { length piece.now ≢ 0 → 0 < result }
        ensures within { result ≤ length piece.now }
        ensures stands { (body : List ℕ) → StandsBy self.old body → StandsBy self.new (body ++ take result piece.now) }
        ensures same { emptied self.new.lines ≡ emptied self.old.lines }
        ensures for_good { self.old.is_out_of_memory ≡ true → self.new.is_out_of_memory ≡ true }
    {
        match self.state {
            ReadingState::Running => {
                let taken = take_line(self.alloc, &mut self.cutter, &mut self.lines, piece);
                self.state = taken.state;
                taken.count
            }
            ReadingState::Faulty | ReadingState::OutOfMemory => piece.len(),
        }
    }

    /// Takes the next piece of the body.
    pub(crate) fn piece(&mut self, bytes: &[u8]) -> Result<(), AllocError>
        ensures stands { (body : List ℕ) → HasRead self.old body → HasRead self.new (body ++ bytes.now) }
        ensures same { emptied self.new.lines ≡ emptied self.old.lines }
        ensures answer { MatchResult result (λ _. self.new.is_out_of_memory ≡ false) (λ _. self.new.is_out_of_memory ≡ true) }
        ensures for_good { self.old.is_out_of_memory ≡ true → self.new.is_out_of_memory ≡ true }
    {
        fault_law();
        state_law();
        reading_law();
        let mut rest = bytes;
        while !rest.is_empty() {
            let taken = self.take(rest);
            rest = &rest[taken..];
        }
        match self.state {
            ReadingState::Running | ReadingState::Faulty => Ok(()),
            ReadingState::OutOfMemory => Err(AllocError),
        }
    }

    /// How many bytes came after the last line feed.
    pub(crate) fn held(&self) -> usize
        ensures value { result ≡ length self.now.last }
        ensures within { result ≤ longest_of self.now.lines }
    {
        match self.cutter.rest() {
            Some(line) => line.len(),
            None => 0,
        }
    }

    /// The verdict on the body: the change that its command makes, or its fault.
    pub fn finish(self) -> Result<Result<Change, Reply>, AllocError>
        ensures said { (body : List ℕ) → HasRead self body → IfOk result (λ answer. said_value answer ≡ judged (action_of self.lines body)) }
        ensures memory { self.is_out_of_memory ≡ true → is_err result ≡ true }
    {
        fault_law();
        state_law();
        reading_law();
        text_law();
        let BodyReader {
            alloc,
            mut lines,
            cutter,
            state,
        } = self;
        match end_line(alloc, &cutter, &mut lines, state) {
            ReadingState::OutOfMemory => Err(AllocError),
            ReadingState::Running | ReadingState::Faulty => lines.finish(alloc),
        }
    }
}

/// A dump or a tags file that is put in a project under a key. Its body comes in pieces: each line
/// is judged when it has come, and of the bytes one line is kept. The verdict comes at the end.
#[derive(Drop)]
pub struct Upload {
    pub project: ProjectName,
    pub key: Key,
    pub body: BodyReader,
}

impl Model for Upload {
    ghost use Rattle.machine.specs.Uploads.{UploadValue};

    ghost Value = { UploadValue };

    ghost view = { λ u. record { project = u.project; key = u.key; body = u.body } };
}

impl Upload {
    /// Puts a dump, whose lines are read by a profile. No byte of its body has come.
    pub fn dump(
        alloc: Global,
        project: ProjectName,
        key: Key,
        profile: Profile,
    ) -> Result<Upload, UploadFault>
        ensures value { IfOk result (λ u. u ≡ record { project = project; key = key; body = empty (no_dump_line profile) }) }
        ensures stands { IfOk result (λ u. HasRead u.body []) }
    {
        let body = BodyReader::dump(alloc, profile)?;
        Ok(Upload { project, key, body })
    }

    /// Puts a tags file. No byte of its body has come.
    pub fn tags(alloc: Global, project: ProjectName, key: Key) -> Result<Upload, UploadFault>
        ensures value { IfOk result (λ u. u ≡ record { project = project; key = key; body = empty no_tags_line }) }
        ensures stands { IfOk result (λ u. HasRead u.body []) }
    {
        let body = BodyReader::tags(alloc)?;
        Ok(Upload { project, key, body })
    }

    /// Takes the next piece of the body. The fault of a line waits for the end. Where memory is
    /// refused, that is the answer for good.
    pub fn piece(&mut self, bytes: &[u8]) -> Result<(), UploadFault>
        ensures stands { (body : List ℕ) → HasRead self.old.body body → HasRead self.new.body (body ++ bytes.now) }
        ensures same { (body : List ℕ) → command_of self.new body ≡ command_of self.old body }
        ensures answer { MatchResult result (λ _. self.new.body.is_out_of_memory ≡ false) (λ fault. (fault ≡ UploadFault.Memory)
            × (self.new.body.is_out_of_memory ≡ true)) }
        ensures for_good { self.old.body.is_out_of_memory ≡ true → self.new.body.is_out_of_memory ≡ true }
    {
        self.body.piece(bytes)?;
        Ok(())
    }

    /// How many bytes are held: those after the last line feed, at most 1,048,576 of a dump and
    /// 65,536 of a tags file.
    pub fn held(&self) -> usize
        ensures value { result ≡ length self.now.body.last }
        ensures within { result ≤ longest_of self.now.body.lines }
    {
        self.body.held()
    }
}
