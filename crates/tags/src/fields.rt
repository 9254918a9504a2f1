//! The fields of a tag: their least code, found without memory, and what those without fault say.
//! `specs/Fields`.
ghost use Rattle.std.specs.Prelude.{◌≡◌, IfOk, IsUtf8, None, Ok, OnOk, false, option_map};
ghost use Rattle.std.specs.Char.{is_ascii_alphanumeric};
ghost use Rattle.std.specs.List.{list_all};
ghost use Rattle.std.specs.Option.{ForSome};
ghost use Rattle.tags.specs.Steps.Cutting.{each_field};
ghost use Rattle.tags.specs.Steps.Faults.{fault_in};
ghost use Rattle.tags.specs.Steps.Gathering.{Notes};
ghost use Rattle.tags.specs.Steps.Views.{fields_value};
ghost use Rattle.tags.specs.Steps.Fields.{fields_of};
ghost use Rattle.tags.specs.Fields.{has_bad_escape, is_field_name, name_in, value_in};

use crate::around::{around_byte, text_of};
use crate::code::Code;
use crate::cut::first_field;
use crate::escape::{decode, is_decodable};
use crate::tag::Field;
use std::alloc::{AllocError, Global};

/// The name of a field other than the kind, and what the field's value is read from.
fn name_and_value(field: &[u8]) -> (Option<&[u8]>, &[u8])
    ensures name { option_map (λ s. s.now) result.0 ≡ name_in field.now }
    ensures value { result.1.now ≡ value_in field.now }
    ensures texts { IsUtf8 field.now → ForSome result.0 (λ s. IsUtf8 s.now) × IsUtf8 result.1.now }
{
    match around_byte(field, b':') {
        Some((name, value)) if name != b"kind".as_slice() => (Some(name), value),
        Some((_, value)) => (None, value),
        None => (None, field),
    }
}

fn are_alphanumeric(bytes: &[u8]) -> bool
    ensures { result ≡ list_all is_ascii_alphanumeric bytes.now }
{
    bytes.iter().all(|b| b.is_ascii_alphanumeric())
}

/// A letter, and then letters and digits.
fn is_field_name(name: &[u8]) -> bool
    ensures { result ≡ is_field_name name.now }
{
    match name {
        [first, rest @ ..] => first.is_ascii_alphabetic() && are_alphanumeric(rest),
        [] => false,
    }
}

/// The fields of a tag, without escapes.
#[derive(Drop)]
pub(crate) struct Gathered {
    pub kind: Option<String>,
    pub others: Vec<Field>,
}

impl Gathered {
    ghost use Rattle.tags.specs.Steps.Gathering.{Gathers};

    /// Takes the next field.
    pub fn add(&mut self, alloc: Global, field: &[u8]) -> Result<(), AllocError>
        requires text { IsUtf8 field.now }
        requires good { has_bad_escape field.now ≡ false }
        ensures { OnOk result (Gathers self.old self.new field.now) }
    {
        let (name, written) = name_and_value(field);
        let value = decode(alloc, written)?;
        match name {
            Some(name) => {
                let name = String::from_str(alloc, text_of(name))?;
                self.others.push(Field { name, value })?;
            }
            None => self.kind = Some(value),
        }
        Ok(())
    }
}

/// What the fields, joined by Tabs and none of them faulty, say: the kind, and the others in order.
pub(crate) fn gather(alloc: Global, fields: Option<&[u8]>) -> Result<Gathered, AllocError>
    requires text { ForSome fields (λ bs. IsUtf8 bs.now) }
    requires good { fault_in (fields_of (each_field (option_map (λ bs. bs.now) fields))) ≡ None }
    ensures { IfOk result (λ g. fields_of (each_field (option_map (λ bs. bs.now) fields.entry)) ≡ Ok (fields_value g)) }
{
    let mut found = Gathered {
        kind: None,
        others: Vec::new(alloc),
    };
    let mut rest = fields;
    while let Some(bytes) = rest {
        let (field, more) = first_field(bytes);
        found.add(alloc, field)?;
        rest = more;
    }
    Ok(found)
}

/// What has to be known of the fields so far for their code.
#[derive(Clone, Copy)]
struct Noted {
    has_kind: bool,
    /// No field was bad, and no second kind was there.
    good: bool,
}

impl Noted {
    /// Takes the next field, and says whether each backslash in its value begins an escape.
    fn add(&mut self, field: &[u8]) -> bool
        ensures { Notes result self.old self.new field.now }
    {
        let (name, written) = name_and_value(field);
        if !is_decodable(written) {
            return false;
        }
        match name {
            Some(name) if is_field_name(name) => {}
            None if !written.is_empty() && !self.has_kind => self.has_kind = true,
            _ => self.good = false,
        }
        true
    }
}

/// The least of T05 and T07 that holds of the fields, joined by Tabs. It takes no memory.
pub(crate) fn fields_code(fields: Option<&[u8]>) -> Option<Code>
    ensures { result ≡ fault_in (fields_of (each_field (option_map (λ bs. bs.now) fields.entry))) }
{
    let mut noted = Noted {
        has_kind: false,
        good: true,
    };
    let mut rest = fields;
    while let Some(bytes) = rest {
        let (field, more) = first_field(bytes);
        if !noted.add(field) {
            return Some(Code::T05);
        }
        rest = more;
    }
    if noted.good { None } else { Some(Code::T07) }
}
