//! A line of a tag, split at its Tabs and at the end of its address. The parts are borrowed from
//! the line.
ghost use Rattle.std.specs.Prelude.{◌≡◌, ◌∷◌, ◌≤◌, ◌+◌, ◌<◌, IfSome, OnSome, Some, None, length, option_map, slice_index, IsUtf8};
ghost use Rattle.tags.specs.Steps.Cutting.{each_field, fields_after, front_of, tail_of};
ghost use Rattle.tags.specs.Steps.Views.{front, tail};

use crate::address::address_len;
use crate::around::around_byte;

/// The name and the file of a tag, and what comes after the file's Tab.
#[derive(Clone, Copy)]
pub(crate) struct Front<'a> {
    pub name: &'a [u8],
    pub file: &'a [u8],
    pub rest: &'a [u8],
}

/// The address of a tag, and its fields, still joined by Tabs.
#[derive(Clone, Copy)]
pub(crate) struct Tail<'a> {
    pub address: &'a [u8],
    pub fields: Option<&'a [u8]>,
}

/// An ordinary line, split: its tag's name, file and address as written, and its fields, still
/// joined by Tabs.
#[derive(Clone, Copy)]
pub(crate) struct Cut<'a> {
    pub name: &'a [u8],
    pub file: &'a [u8],
    pub address: &'a [u8],
    pub fields: Option<&'a [u8]>,
}

/// The name and the file, where each comes before a Tab and isn't empty.
#[tactic(auto, unfolding(crate::specs::Steps::Cutting::front_of))]
pub(crate) fn front_of(line: &[u8]) -> Option<Front<'_>>
    ensures value { option_map front result ≡ front_of line.now }
    ensures lengths { IfSome result (λ f. length f.name.now + length f.file.now + length f.rest.now + 2 ≡ length line.now) }
    ensures texts { IsUtf8 line.now → IfSome result (λ f. IsUtf8 f.name.now × IsUtf8 f.file.now × IsUtf8 f.rest.now) }
{
    let (name, more) = around_byte(line, b'\t')?;
    let (file, rest) = around_byte(more, b'\t')?;
    if name.is_empty() || file.is_empty() {
        return None;
    }
    Some(Front { name, file, rest })
}

/// This address, with the fields after it. None where what follows it is of no form.
#[tactic(auto, unfolding(crate::specs::Steps::Cutting::fields_after))]
fn tail_after<'a>(address: &'a [u8], after: &'a [u8]) -> Option<Tail<'a>>
    ensures value { option_map tail result ≡ option_map (λ fields. record { address = address.now; fields = fields }) (fields_after after.now) }
    ensures address { IfSome result (λ t. t.address.now ≡ address.now) }
    ensures length { IfSome result (λ t. IfSome t.fields (λ bs. length bs.now + 3 ≡ length after.now)) }
    ensures ascii { OnSome result (slice_index after.now 0 < 128) }
    ensures texts { IsUtf8 after.now → IfSome result (λ t. IfSome t.fields (λ bs. IsUtf8 bs.now)) }
{
    match after {
        [] | [b';', b'"'] => Some(Tail {
            address,
            fields: None,
        }),
        [b';', b'"', b'\t', fields @ ..] => Some(Tail {
            address,
            fields: Some(fields),
        }),
        _ => None,
    }
}

/// The address, and the fields after it.
#[tactic(auto, unfolding(crate::specs::Steps::Cutting::tail_of))]
pub(crate) fn tail_of(rest: &[u8]) -> Option<Tail<'_>>
    ensures value { option_map tail result ≡ tail_of rest.now }
    ensures address { IfSome result (λ t. length t.address.now ≤ length rest.now) }
    ensures fields { IfSome result (λ t. IfSome t.fields (λ bs. length t.address.now + length bs.now + 3 ≡ length rest.now)) }
    ensures texts { IsUtf8 rest.now → IfSome result (λ t. IsUtf8 t.address.now × IfSome t.fields (λ bs. IsUtf8 bs.now)) }
{
    let len = address_len(rest)?;
    tail_after(&rest[..len], &rest[len..])
}

/// The first of some fields, and those after it.
pub(crate) fn first_field(fields: &[u8]) -> (&[u8], Option<&[u8]>)
    ensures value { each_field (Some fields.now) ≡ result.0.now ∷ each_field (option_map (λ bs. bs.now) result.1) }
    ensures within { length result.0.now ≤ length fields.now }
    ensures lengths { IfSome result.1 (λ more. length result.0.now + length more.now + 1 ≡ length fields.now) }
    ensures texts { IsUtf8 fields.now → IsUtf8 result.0.now × IfSome result.1 (λ more. IsUtf8 more.now) }
{
    match around_byte(fields, b'\t') {
        Some((field, more)) => (field, Some(more)),
        None => (fields, None),
    }
}
