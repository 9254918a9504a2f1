//! Splits a text that comes in pieces, as an upload's body does, into lines. Each byte is looked at
//! once and copied once, whatever the pieces; room for the longest line is made at the start. A
//! reader's lines are in `lines.rt`. `specs/Pieces`.
ghost use Rattle.std.specs.Prelude.{◌≡◌, ◌≤◌, ◌+◌, ◌++◌, length, vec_capacity, MatchOption, MatchResult, [], option_map, IfSome};
ghost use Rattle.streams.specs.Lines.{IsLine};
ghost use Rattle.streams.specs.Pieces.{Takes, line_in, rest_in};
ghost use Rattle.streams.specs.Steps.Cutting.{EndsLast, IsFirstFeed, IsFirstPart};

use crate::lines::LinesFault;
use crate::room::append;
use std::alloc::Global;
use std::marker::Model;

/// How far a line is.
#[derive(Clone, Copy, PartialEq, Eq)]
enum LineState {
    /// Its line feed hasn't come.
    Open,
    /// Its line feed was taken.
    Ended,
    /// It's longer than the longest.
    TooLong,
}

/// Splits a text that comes in pieces into lines of at most so many bytes.
#[derive(Drop)]
pub struct Cutter {
    longest: usize,
    line: Vec<u8>,
    state: LineState,
}

impl Model for Cutter {
    ghost use Rattle.std.specs.Prelude.{◌≤◌, length, vec_capacity};
    ghost use Rattle.streams.specs.Lines.{IsLine};
    ghost use Rattle.streams.specs.Pieces.{CutterValue};

    ghost Value = { CutterValue };

    ghost view = { λ c. record { longest = c.longest; line = c.line.items; state = c.state } };

    ghost invariant = { λ c. IsLine c.line.items × (length c.line.items ≤ c.longest) × (c.longest ≤ vec_capacity c.line) };
}

/// The place of the first line feed.
fn find_feed(bytes: &[u8]) -> Option<usize>
    ensures { MatchOption result (IsLine bytes.now) (IsFirstFeed bytes.now) }
{
    for (k, byte) in bytes.iter().enumerate() {
        if *byte == b'\n' {
            return Some(k);
        }
    }
    None
}

/// The bytes before the first line feed, or all where there is none, and whether there is one.
fn first_part(piece: &[u8]) -> (&[u8], bool)
    ensures { IsFirstPart piece.now result.0.now result.1 }
{
    match find_feed(piece) {
        Some(k) => (&piece[..k], true),
        None => (piece, false),
    }
}

impl Cutter {
    ghost use Rattle.streams.specs.declared.cutter.LineState.TheVariants.{Open};
    ghost use Rattle.streams.specs.declared.lines.LinesFault.TheVariants.{Memory};

    /// Room for lines of at most `longest` bytes, each without its line feed. What comes after
    /// takes no memory.
    pub fn new(alloc: Global, longest: usize) -> Result<Cutter, LinesFault>
        ensures { MatchResult result (λ c. c ≡ record { longest = longest; line = []; state = Open }) (λ fault. fault ≡ Memory) }
    {
        let line = Vec::with_capacity(alloc, longest)?;
        Ok(Cutter {
            longest,
            line,
            state: LineState::Open,
        })
    }

    /// Takes the beginning of the piece up to and with its first line feed, or all of it, and
    /// returns how many bytes it took. After a line that has ended it begins another. Once a line
    /// is too long it returns that for good.
    pub fn take(&mut self, piece: &[u8]) -> Result<usize, LinesFault>
        ensures { Takes self.old piece.now result self.new }
    {
        match self.state {
            LineState::TooLong => return Err(LinesFault::TooLong),
            LineState::Ended => self.line.clear(),
            LineState::Open => {}
        }
        self.state = LineState::Open;
        let (part, has_feed) = first_part(piece);
        if part.len() > self.longest - self.line.len() {
            self.state = LineState::TooLong;
            return Err(LinesFault::TooLong);
        }
        append(&mut self.line, part);
        if has_feed {
            self.state = LineState::Ended;
            Ok(part.len() + 1)
        } else {
            Ok(part.len())
        }
    }

    /// The line whose line feed was taken last, without it. A CR before it is part of the line.
    pub fn line(&self) -> Option<&[u8]>
        ensures value { option_map (λ line. line.now) result ≡ line_in self.now }
        ensures within { IfSome result (λ line. length line.now ≤ self.now.longest) }
    {
        match self.state {
            LineState::Ended => Some(&self.line),
            LineState::Open | LineState::TooLong => None,
        }
    }

    /// The last line, which no line feed has ended, where it isn't empty.
    pub fn rest(&self) -> Option<&[u8]>
        ensures value { option_map (λ line. line.now) result ≡ rest_in self.now }
        ensures within { IfSome result (λ line. length line.now ≤ self.now.longest) }
    {
        match self.state {
            LineState::Open if !self.line.is_empty() => Some(&self.line),
            _ => None,
        }
    }

    /// Ends the last line without its line feed, where it isn't empty, and says whether there is
    /// one.
    pub(crate) fn end(&mut self) -> bool
        ensures { EndsLast self.old result self.new }
    {
        if self.rest().is_none() {
            return false;
        }
        self.state = LineState::Ended;
        true
    }
}
