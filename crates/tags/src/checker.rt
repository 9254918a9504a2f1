//! The checker of a tags file, which judges lines and counts tags. It keeps one name, however long
//! the file is. What passes lines to it is in `counting.rt`, and in `reader.rt` where the tags are
//! kept. `specs/States`.
ghost use Rattle.std.specs.Prelude.{◌≡◌, ◌+◌, ◌<◌, ◌≤◌, IfNone, OnErr, OnOk};
ghost use Rattle.tags.specs.Steps.Contents.{IsContent, Reads};
ghost use Rattle.tags.specs.Faults.{result_map};
ghost use Rattle.tags.specs.Fault.{most_lines};
ghost use Rattle.tags.specs.Lines.{line_text};
ghost use Rattle.tags.specs.Steps.Readings.{handed};
ghost use Rattle.tags.specs.Values.{ContentValue};

use crate::code::{Code, LineFault, TagsFault};
use crate::content::{Content, PseudoTag, read_content};
use crate::limits::LONGEST_LINE;
use crate::order::Order;
use std::alloc::{AllocError, Global};
use std::marker::Model;

/// The line's text: one CR directly before an LF isn't part of it.
fn line_text(line: &[u8], ended: bool) -> &[u8]
    ensures { result.now ≡ line_text (record { bytes = line.now; ended = ended }) }
{
    match line {
        [text @ .., b'\r'] if ended => text,
        _ => line,
    }
}

/// What a line says that is passed in, or the code that was found before.
fn read_line(line: Result<&[u8], Code>, ended: bool) -> Result<Content<'_>, Code>
    ensures { Reads result (handed (result_map (λ bytes. bytes.now) line.entry) ended) }
{
    match line {
        Ok(bytes) if bytes.len() > LONGEST_LINE => Err(Code::T01),
        Ok(bytes) => read_content(line_text(bytes, ended)),
        Err(code) => Err(code),
    }
}

/// What has to be known of the lines so far.
#[derive(Drop)]
struct Counted {
    order: Order,
    /// How many tags there were.
    tags: u32,
}

impl Counted {
    ghost use Rattle.tags.specs.States.{add, counted, order_in};
    ghost use Rattle.tags.specs.Steps.Views.{count_of};

    /// The least of T09 to T11 that holds of the next line.
    fn order_code(&self, content: Content<'_>) -> Option<Code>
        ensures value { (x : ContentValue) → IsContent content.entry x → result ≡ order_in (count_of self.now) x }
        ensures room { IfNone result (self.now.order.count < most_lines) }
    {
        match content {
            Content::Ordinary(cut) => self.order.code(Some(cut.name)),
            Content::Pseudo(_) => self.order.code(None),
        }
    }

    /// Takes the next line. An `Err` changes nothing.
    fn add(&mut self, alloc: Global, content: Content<'_>) -> Result<(), AllocError>
        requires room { self.old.order.count < most_lines }
        requires fewer { self.old.tags ≤ self.old.order.count }
        ensures ok { OnOk result ((x : ContentValue) → IsContent content.entry x → count_of self.new ≡ add counted (count_of self.old) x) }
        ensures err { OnErr result (count_of self.new ≡ count_of self.old) }
        ensures room { self.new.order.count ≤ most_lines }
        ensures fewer { self.new.tags ≤ self.new.order.count }
    {
        match content {
            Content::Pseudo(PseudoTag::Sorted(checked)) => self.order.checked = checked,
            Content::Pseudo(PseudoTag::Other) => {}
            Content::Ordinary(cut) => {
                self.order.rename(alloc, cut.name)?;
                self.tags += 1;
            }
        }
        self.order.count += 1;
        Ok(())
    }
}

/// Judges the lines of a tags file one after the other, and counts its tags. It keeps their number,
/// the last name and the first fault.
#[derive(Drop)]
pub struct TagChecker {
    alloc: Global,
    counted: Counted,
    fault: Option<LineFault>,
}

impl Model for TagChecker {
    ghost use Rattle.std.specs.Prelude.{◌≤◌, ℕ};
    ghost use Rattle.tags.specs.Fault.{most_lines};
    ghost use Rattle.tags.specs.States.{State};
    ghost use Rattle.tags.specs.Steps.Views.{checked_state};

    ghost Value = { State ℕ };

    ghost view = { λ c. checked_state c.fault c.counted };

    ghost invariant = { λ c. (c.counted.tags ≤ c.counted.order.count) × (c.counted.order.count ≤ most_lines) };
}

impl TagChecker {
    ghost use Rattle.tags.specs.States.{Finishes, Tells, counted, next, start};
    ghost use Rattle.tags.specs.Steps.Contents.{HasRoom, Judges, number_of, taken};

    /// A checker that has seen no line.
    pub fn new(alloc: Global) -> TagChecker
        ensures { result ≡ start 0 }
    {
        let counted = Counted {
            order: Order::new(),
            tags: 0,
        };
        TagChecker {
            alloc,
            counted,
            fault: None,
        }
    }

    /// The number of the next line.
    pub(crate) fn next_number(&self) -> u32
        requires { HasRoom self.now }
        ensures { result ≡ number_of self.now }
    {
        self.counted.order.count + 1
    }

    /// What the next line says, which isn't taken yet; or the fault at which the checker stops. It
    /// takes no memory.
    pub(crate) fn judge<'a>(
        &mut self,
        line: Result<&'a [u8], Code>,
        ended: bool,
    ) -> Result<Content<'a>, LineFault>
        ensures { Judges result self.old self.new (handed (result_map (λ bytes. bytes.now) line.entry) ended) }
    {
        if let Some(fault) = self.fault {
            return Err(fault);
        }
        let code = match read_line(line, ended) {
            Ok(content) => match self.counted.order_code(content) {
                None => return Ok(content),
                Some(code) => code,
            },
            Err(code) => code,
        };
        let line = self.counted.order.count + 1;
        let fault = LineFault { line, code };
        self.fault = Some(fault);
        Err(fault)
    }

    /// Takes a line that was judged. An `Err` changes nothing.
    pub(crate) fn take(&mut self, content: Content<'_>) -> Result<(), AllocError>
        requires { HasRoom self.old }
        ensures ok { OnOk result ((x : ContentValue) → IsContent content.entry x → self.new ≡ taken self.old x) }
        ensures err { OnErr result (self.new ≡ self.old) }
    {
        self.counted.add(self.alloc, content)
    }

    /// Takes the next line without its LF, or T01 where it was longer than a line may be. `ended`
    /// says whether an LF follows, and is false for the last line alone. After a fault of a line it
    /// returns that fault for good. Where memory runs out the line has no fault, and the checker is
    /// as before.
    pub(crate) fn feed(&mut self, line: Result<&[u8], Code>, ended: bool) -> Result<(), TagsFault>
        ensures { Tells result self.old self.new (next counted self.old (handed (result_map (λ bytes. bytes.now) line.entry) ended)) }
    {
        let content = self.judge(line, ended)?;
        self.take(content)?;
        Ok(())
    }

    /// How many ordinary tags there were, or the fault of the first line that is faulty.
    pub fn finish(self) -> Result<u32, TagsFault>
        ensures { Finishes result self }
    {
        let TagChecker { counted, fault, .. } = self;
        match fault {
            Some(fault) => Err(TagsFault::Line(fault)),
            None => Ok(counted.tags),
        }
    }
}
