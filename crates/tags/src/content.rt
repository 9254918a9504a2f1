//! What a line says, judged without memory: its least code, or that it's a tag, a pseudo-tag or
//! empty. So a checker keeps nothing of a line but its name. `specs/Conditions`.
ghost use Rattle.std.specs.Prelude.{◌≡◌, IsUtf8};
ghost use Rattle.std.specs.List.{list_any};
ghost use Rattle.tags.specs.Faults.{result_map};
ghost use Rattle.tags.specs.Conditions.{is_control};
ghost use Rattle.tags.specs.Steps.Contents.{Reads, ReadsTag};
ghost use Rattle.tags.specs.Steps.Reading.{is_pseudo_tag, ordinary_of, pseudo_of, reading};
ghost use Rattle.tags.specs.Steps.Views.{pseudo_value};

use crate::around::around_char;
use crate::code::Code;
use crate::cut::{Cut, front_of, tail_of};
use crate::escape::is_decodable;
use crate::fields::fields_code;

/// What a pseudo-tag says.
#[derive(Clone, Copy)]
pub(crate) enum PseudoTag {
    /// `!_TAG_FILE_SORTED`: whether its value is `1`.
    Sorted(bool),
    /// Another one.
    Other,
}

/// What a line says: a pseudo-tag, or the cut of an ordinary tag.
#[derive(Clone, Copy)]
pub(crate) enum Content<'a> {
    Pseudo(PseudoTag),
    Ordinary(Cut<'a>),
}

fn is_control(byte: u8) -> bool
    ensures { result ≡ is_control byte }
{
    byte <= 8 || (11 <= byte && byte <= 31) || byte == 127
}

/// Whether a byte is a control character. Each byte is looked at, since a loop without an early
/// return is faster.
fn has_control(line: &[u8]) -> bool
    ensures { result ≡ list_any is_control line.now }
{
    let mut found = false;
    for byte in line {
        found |= is_control(*byte);
    }
    found
}

fn is_pseudo_tag(line: &str) -> bool
    ensures { result ≡ is_pseudo_tag line.now }
{
    line.starts_with("!_TAG_")
}

/// What a pseudo-tag says. An `Err` is T04 or T08.
#[tactic(auto, unfolding(crate::specs::Steps::Reading::pseudo_of))]
fn pseudo_tag(line: &str) -> Result<PseudoTag, Code>
    ensures { result_map pseudo_value result ≡ pseudo_of line.now }
{
    let Some((name, rest)) = around_char(line, '\t') else {
        return Err(Code::T04);
    };
    let Some((value, _)) = around_char(rest, '\t') else {
        return Err(Code::T04);
    };
    if name == "!_TAG_FILE_FORMAT" && value != "2" {
        Err(Code::T08)
    } else if name == "!_TAG_FILE_SORTED" {
        Ok(PseudoTag::Sorted(value == "1"))
    } else {
        Ok(PseudoTag::Other)
    }
}

/// The cut of an ordinary line, or the least of T04 to T07.
#[tactic(auto, unfolding(crate::specs::Steps::Reading::ordinary_of))]
fn ordinary_tag(line: &[u8]) -> Result<Cut<'_>, Code>
    requires { IsUtf8 line.now }
    ensures { ReadsTag result (ordinary_of line.now) }
{
    let Some(front) = front_of(line) else {
        return Err(Code::T04);
    };
    if !is_decodable(front.name) || !is_decodable(front.file) {
        return Err(Code::T05);
    }
    let Some(tail) = tail_of(front.rest) else {
        return Err(Code::T06);
    };
    match fields_code(tail.fields) {
        Some(code) => Err(code),
        None => Ok(Cut {
            name: front.name,
            file: front.file,
            address: tail.address,
            fields: tail.fields,
        }),
    }
}

/// What a line says, which is no longer than a line may be, or the least of T02 to T08. It takes no
/// memory.
#[tactic(auto, using(crate::proofs::TextLemmas::texts), unfolding(crate::specs::Steps::Reading::reading))]
pub(crate) fn read_content(line: &[u8]) -> Result<Content<'_>, Code>
    ensures { Reads result (reading line.now) }
{
    let Ok(text) = str::from_utf8(line) else {
        return Err(Code::T02);
    };
    if has_control(line) {
        Err(Code::T03)
    } else if is_pseudo_tag(text) {
        Ok(Content::Pseudo(pseudo_tag(text)?))
    } else {
        Ok(Content::Ordinary(ordinary_tag(line)?))
    }
}
