//! The parts of a line as they are written, with their places in it: `split`. What they say of a
//! tag is read in `tag.rt`. `specs/Parts`.
ghost use Rattle.std.specs.Prelude.{◌≡◌, ◌+◌, ◌-◌, ◌^◌, ◌<◌, ◌≤◌, ◌++◌, IfOk, OnOk, length, option_map};
ghost use Rattle.std.specs.List.{AllByRecursion};
ghost use Rattle.std.specs.Option.{ForSome};
ghost use Rattle.tags.specs.Steps.Faults.{Gives};
ghost use Rattle.tags.specs.Faults.{result_map};
ghost use Rattle.tags.specs.Parts.{IsSlice, Splits, part_at};
ghost use Rattle.tags.specs.Steps.Parts.{split_of, fields_from};
ghost use Rattle.tags.specs.Views.{part_value, part_values};

use crate::code::{Code, SplitFault};
use crate::cut::{first_field, front_of, tail_of};
use std::alloc::{AllocError, Global};

/// A part of a line as it is written: its bytes, the index in bytes of the first of them in the
/// line, and the index after the last.
#[derive(Clone, Copy, Debug, PartialEq, Eq)]
pub struct Part<'a> {
    pub text: &'a [u8],
    pub from: usize,
    pub to: usize,
}

/// The part that begins at a place.
fn part_from(text: &[u8], from: usize) -> Part<'_>
    requires { from + length text.now < 2 ^ 64 }
    ensures { part_value result ≡ part_at from text.now }
{
    Part {
        text,
        from,
        to: from + text.len(),
    }
}

/// Adds the fields, which end where the line does, to its parts.
fn push_fields<'a>(
    parts: &mut Vec<Part<'a>>,
    len: usize,
    fields: Option<&'a [u8]>,
) -> Result<(), AllocError>
    requires { ForSome fields (λ bs. length bs.now ≤ len) }
    ensures { OnOk result (part_values parts.new.items
        ≡ part_values parts.old.items ++ fields_from len (option_map (λ bs. bs.now) fields.entry)) }
{
    let mut rest = fields;
    while let Some(bytes) = rest {
        let (field, more) = first_field(bytes);
        parts.push(part_from(field, len - bytes.len()))?;
        rest = more;
    }
    Ok(())
}

/// The parts of a tag's line, or the least of T04 and T06.
#[tactic(auto, unfolding(crate::specs::Steps::Parts::split_of))]
fn parts_of<'a>(alloc: Global, line: &'a [u8]) -> Result<Vec<Part<'a>>, SplitFault>
    ensures { Gives (λ parts. part_values parts.items) result (split_of line.now) }
{
    let Some(front) = front_of(line) else {
        return Err(SplitFault::Line(Code::T04));
    };
    let Some(tail) = tail_of(front.rest) else {
        return Err(SplitFault::Line(Code::T06));
    };
    let file = front.name.len() + 1;
    let address = file + front.file.len() + 1;
    let mut parts = Vec::new(alloc);
    parts.push(part_from(front.name, 0))?;
    parts.push(part_from(front.file, file))?;
    parts.push(part_from(tail.address, address))?;
    push_fields(&mut parts, line.len(), tail.fields)?;
    Ok(parts)
}

/// The name, the file, the address and each field of a tag's line, as written and in order, or the
/// least of T04 and T06. The other codes aren't checked: tags(5), "Proposal".
pub fn split<'a>(alloc: Global, line: &'a [u8]) -> Result<Vec<Part<'a>>, SplitFault>
    // The parts of the one cut that the grammar has.
    ensures cut { Splits (result_map (λ parts. part_values parts.items) result) line.now }
    // Each part is the bytes at its span.
    ensures slices { IfOk result (λ parts. AllByRecursion (IsSlice line.now) (part_values parts.items)) }
{
    parts_of(alloc, line)
}
