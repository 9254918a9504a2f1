//! The reader of a tags file that keeps the tags, for uploads. What counts them alone is in
//! `counting.rt`. `specs/States`.
ghost use Rattle.std.specs.Prelude.{◌≡◌, ◌++◌, ◌∷◌, ◌<◌, [], vec_capacity, vec_len};
ghost use Rattle.tags.specs.Faults.{result_map};
ghost use Rattle.tags.specs.Fault.{Reading};
ghost use Rattle.tags.specs.Lines.{IsHanded};
ghost use Rattle.tags.specs.Steps.Readings.{handed};
ghost use Rattle.tags.specs.Outcome.{Answers};

use crate::around::around_byte;
use crate::checker::TagChecker;
use crate::code::{Code, TagsFault};
use crate::content::Content;
use crate::tag::{Tag, tag_of};
use std::alloc::Global;
use std::marker::Model;

/// Adds a tag, where there is room for it.
fn push_tag(tags: &mut Vec<Tag>, tag: Tag)
    requires { vec_len tags.old < vec_capacity tags.old }
    ensures { tags.new.items ≡ tags.old.items ++ tag ∷ [] }
{
    match tags.push(tag) {
        Ok(()) => {}
        Err(_) => unreachable!(),
    }
}

/// Reads the lines of a tags file one after the other: a checker of the lines, and the tags.
#[derive(Drop)]
pub struct TagReader {
    alloc: Global,
    checker: TagChecker,
    tags: Vec<Tag>,
}

impl Model for TagReader {
    ghost use Rattle.std.specs.Prelude.{List};
    ghost use Rattle.tags.specs.States.{State};
    ghost use Rattle.tags.specs.Values.{TagValue};
    ghost use Rattle.tags.specs.Views.{tag_values};
    ghost use Rattle.tags.specs.Steps.Views.{with_kept};

    ghost Value = { State (List TagValue) };

    ghost view = { λ r. with_kept (tag_values r.tags.items) r.checker };
}

impl TagReader {
    ghost use Rattle.tags.specs.States.{Finishes, Tells, listed, next, start};
    ghost use Rattle.tags.specs.Views.{tag_values};

    /// A reader that has seen no line.
    pub fn new(alloc: Global) -> TagReader
        ensures { result ≡ start [] }
    {
        TagReader {
            alloc,
            checker: TagChecker::new(alloc),
            tags: Vec::new(alloc),
        }
    }

    /// Judges the next line, and keeps its tag.
    fn keep_line(&mut self, line: Result<&[u8], Code>, ended: bool) -> Result<(), TagsFault>
        ensures { Tells result self.old self.new (next listed self.old (handed (result_map (λ bytes. bytes.now) line.entry) ended)) }
    {
        let content = self.checker.judge(line, ended)?;
        match content {
            Content::Pseudo(_) => self.checker.take(content)?,
            Content::Ordinary(cut) => {
                self.tags.try_reserve(1)?;
                let tag = tag_of(self.alloc, cut, self.checker.next_number())?;
                self.checker.take(content)?;
                push_tag(&mut self.tags, tag);
            }
        }
        Ok(())
    }

    /// Takes the next line without its LF, or T01 where it was longer than a line may be. `ended`
    /// says whether an LF follows, and is false for the last line alone. After a fault of a line it
    /// returns that fault for good. Where memory runs out the line has no fault, and the reader is
    /// as before.
    pub fn feed(&mut self, line: Result<&[u8], Code>, ended: bool) -> Result<(), TagsFault>
        ensures { (reading : Reading) → IsHanded (result_map (λ bytes. bytes.now) line.entry) ended reading
            → Tells result self.old self.new (next listed self.old reading) }
    {
        self.keep_line(line, ended)
    }

    /// The tags, or the fault of the first line that is faulty.
    pub fn finish(self) -> Result<Vec<Tag>, TagsFault>
        ensures { Finishes (result_map (λ tags. tag_values tags.items) result) self }
    {
        let TagReader { checker, tags, .. } = self;
        checker.finish()?;
        Ok(tags)
    }
}

/// The tags of a text, each with its line's number, or the first line that is faulty with the least
/// code that holds of it.
pub fn read_tags(alloc: Global, text: &[u8]) -> Result<Vec<Tag>, TagsFault>
    ensures { Answers (result_map (λ tags. tags.items) result) text.now }
{
    let mut reader = TagReader::new(alloc);
    let mut rest = text;
    while let Some((line, more)) = around_byte(rest, b'\n') {
        reader.feed(Ok(line), true)?;
        rest = more;
    }
    if !rest.is_empty() {
        reader.feed(Ok(rest), false)?;
    }
    reader.finish()
}
