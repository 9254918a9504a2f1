//! The lines of a reader, of at most so many bytes each. The reader is asked for up to 65,536 bytes
//! at a time, and `cutter.rt` splits them; so the memory is that of one block and one line, and the
//! time is linear in the bytes. `specs/Lines` says which lines a text has.
ghost use Rattle.std.specs.Prelude.{◌≡◌, ◌≢◌, ℕ, ◌<◌, List, [], ◌++◌, None, MatchResult, false};
ghost use Rattle.streams.specs.Pieces.{begun};
ghost use Rattle.streams.specs.Steps.Cutting.{CountsRead, CutsLine, NextTaken};
ghost use Rattle.streams.specs.declared.cutter.LineState.TheVariants as LineState;
ghost use Rattle.streams.specs.Buffered.{unread};
ghost use Rattle.streams.specs.Lines.{Cuts, NextLine, lent, lines_of, over, shown};
ghost use Rattle.streams.specs.contracts.lines.Lines.{the_row as lines_row};
ghost use Rattle.std.specs.Io.BufRead.{Rests};
ghost use types.Logic.{sem};
ghost use Rattle.streams.specs.Streams.{IsCountable};

use crate::buffer::Buffer;
use crate::counted::Source;
use crate::cutter::Cutter;
use crate::limits::BUFFER_LEN;
use crate::messages::{CANNOT_READ, OUT_OF_MEMORY};
use std::alloc::{AllocError, Global};
use std::marker::Model;
use thiserror::Error;

/// Why no line came.
#[derive(Clone, Copy, Debug, PartialEq, Eq, Error)]
pub enum LinesFault {
    /// The memory for the buffer was refused. Only a constructor returns it.
    #[error("{}", OUT_OF_MEMORY)]
    Memory,
    /// The line is longer than the caller allows.
    #[error("line too long")]
    TooLong,
    /// The reader failed.
    #[error("{}", CANNOT_READ)]
    Read,
}

impl From<AllocError> for LinesFault {
    ghost use Rattle.std.specs.Prelude.{◌≡◌};
    ghost use Rattle.streams.specs.declared.lines.LinesFault.TheVariants.{Memory};

    ghost from_gives = { λ _ fault. fault ≡ Memory };

    fn from(_: AllocError) -> LinesFault {
        LinesFault::Memory
    }
}

/// A text has one list of lines: the one that splits it.
pub fn lines_law()
    ensures cut { (text : List ℕ) → Cuts text (lines_of text) }
    ensures only { (text : List ℕ) (lines : List (List ℕ)) → Cuts text lines → lines ≡ lines_of text }
{}

/// Splits the bytes of a reader, which each call borrows, into lines of at most so many bytes.
#[derive(Drop)]
pub struct LineBuffer {
    buffer: Buffer,
    cutter: Cutter,
    /// Whether a line feed ended the line that came last.
    has_feed: bool,
    fault: Option<LinesFault>,
}

impl Model for LineBuffer {
    ghost use Rattle.std.specs.Prelude.{◌≡◌, ◌≢◌, ◌++◌, ◌<◌, None};
    ghost use Rattle.streams.specs.Lines.{LineBufferValue, IsLater};
    ghost use Rattle.streams.specs.Pieces.{begun, last_line};
    ghost use Rattle.streams.specs.declared.cutter.LineState.TheVariants.{TooLong};

    ghost Value = { LineBufferValue };

    ghost view = { λ l. record {
      pending = begun l.cutter ++ l.buffer.pending;
      longest = l.cutter.longest;
      fault = l.fault;
      line = last_line l.cutter;
      has_feed = l.has_feed;
    } };

    ghost invariant = { λ l. (0 < l.buffer.capacity) × IsLater l.fault × (l.fault ≡ None → l.cutter.state ≢ TooLong) };
}

/// The lines of a reader, each of at most so many bytes.
#[derive(Drop)]
pub struct Lines<S: Source> {
    source: S,
    lines: LineBuffer,
}

impl<S: Source> Model for Lines<S> {
    ghost use Rattle.streams.specs.Lines.{Reader, over};

    ghost Value = { Reader };

    ghost view = { λ l. over l.lines (S.left l.source) (S.failed l.source) };
}

/// Takes the next line from the buffered bytes, and reads more until it has ended. Returns whether
/// a line feed ended it; none where there is no line.
fn cut_line<S: Source>(
    source: &mut S,
    buffer: &mut Buffer,
    cutter: &mut Cutter,
) -> Result<Option<bool>, LinesFault>
    requires count { IsCountable (S.failed source.old) }
    requires room { 0 < buffer.old.capacity }
    requires begun { cutter.old.state ≢ LineState.TooLong }
    ensures cut { CutsLine (unread (begun cutter.old ++ buffer.old.pending) (S.left source.old)) cutter.new result
        (unread (begun cutter.new ++ buffer.new.pending) (S.left source.new)) }
    ensures counted { CountsRead (S.failed source.old) (S.failed source.new) result }
    ensures capacity { buffer.new.capacity ≡ buffer.old.capacity }
    ensures longest { cutter.new.longest ≡ cutter.old.longest }
{
    'filling: loop {
        let taken = cutter.take(buffer.pending())?;
        buffer.advance(taken);
        if cutter.line().is_some() {
            return Ok(Some(true));
        }
        match buffer.fill(source) {
            Ok(0) => return Ok(if cutter.end() { Some(false) } else { None }),
            Ok(_) => {}
            Err(_) => return Err(LinesFault::Read),
        }
    }
}

impl LineBuffer {
    /// Room for lines of at most `longest` bytes, each without its line feed.
    pub fn new(alloc: Global, longest: usize) -> Result<LineBuffer, LinesFault>
        ensures { MatchResult result (λ l. l ≡ record { pending = []; longest = longest; fault = None; line = []; has_feed = false })
            (λ fault. fault ≡ LinesFault.Memory) }
    {
        let cutter = Cutter::new(alloc, longest)?;
        let buffer = Buffer::new(alloc, BUFFER_LEN)?;
        Ok(LineBuffer {
            buffer,
            cutter,
            has_feed: false,
            fault: None,
        })
    }

    /// Takes the next line, where there was no fault before.
    fn take_next<S: Source>(&mut self, source: &mut S) -> Result<bool, LinesFault>
        requires failures { IsCountable (S.failed source.old) }
        requires sound { self.old.fault ≡ None }
        ensures { NextTaken (over self.old (S.left source.old) (S.failed source.old)) (shown result self.new.line)
            (over self.new (S.left source.new) (S.failed source.new)) }
    {
        match cut_line(source, &mut self.buffer, &mut self.cutter) {
            Ok(None) => Ok(false),
            Ok(Some(has_feed)) => {
                self.has_feed = has_feed;
                Ok(true)
            }
            Err(fault) => {
                self.fault = Some(fault);
                Err(fault)
            }
        }
    }

    /// Goes on to the next line, and says whether there is one. It takes no memory. After a fault
    /// it returns the same fault for good.
    pub fn advance<S: Source>(&mut self, source: &mut S) -> Result<bool, LinesFault>
        requires { IsCountable (S.failed source.old) }
        ensures { NextLine (over self.old (S.left source.old) (S.failed source.old)) (shown result self.new.line)
            (over self.new (S.left source.new) (S.failed source.new)) }
    {
        match self.fault {
            Some(fault) => Err(fault),
            None => self.take_next(source),
        }
    }

    /// The line that came last, without its line feed. A CR before it is part of the line.
    pub fn line(&self) -> &[u8]
        ensures { result.now ≡ self.now.line }
    {
        self.cutter.line().unwrap_or(&[])
    }

    /// Whether a line feed ended the line that came last. Only a line that the reader's end ended
    /// has none.
    pub fn has_feed(&self) -> bool
        ensures { result ≡ self.now.has_feed }
    {
        self.has_feed
    }
}

impl<S: Source> Lines<S> {
    /// The lines of this reader, each of at most `longest` bytes without its line feed.
    pub fn new(alloc: Global, source: S, longest: usize) -> Result<Lines<S>, LinesFault>
    where
        S: Drop,
        ensures { MatchResult result (λ l. l ≡ record {
          left = S.left source;
          longest = longest;
          failures = S.failed source;
          fault = None;
          line = [];
          has_feed = false;
        }) (λ fault. fault ≡ LinesFault.Memory) }
    {
        let lines = LineBuffer::new(alloc, longest)?;
        Ok(Lines { source, lines })
    }

    /// How often the reader has failed so far.
    pub fn failures(&self) -> u64
        ensures { result ≡ self.now.failures }
    {
        self.source.failures()
    }

    /// Goes on to the next line, and says whether there is one.
    fn advance(&mut self) -> Result<bool, LinesFault>
        requires { IsCountable self.old.failures }
        ensures { NextLine self.old (shown result self.new.line) self.new }
    {
        self.lines.advance(&mut self.source)
    }

    /// Borrows the next line, without its line feed, or says that there is none. It takes no
    /// memory. After a fault it returns the same fault for good.
    pub fn next_line(&mut self) -> Result<Option<&[u8]>, LinesFault>
        requires { IsCountable self.old.failures }
        ensures* after_borrow { sem 𝓛 (Rests (lines_row S.row S.Source) self.entry (λ new. NextLine self.old (lent result) new)) }
    {
        if self.advance()? {
            Ok(Some(self.line()))
        } else {
            Ok(None)
        }
    }

    /// The line that came last, without its line feed.
    pub fn line(&self) -> &[u8]
        ensures { result.now ≡ self.now.line }
    {
        self.lines.line()
    }
}
