//! A tag, and how it's made of the parts of its line. Escapes are decoded here, once the line has
//! no fault.
ghost use Rattle.std.specs.Prelude.{◌≡◌, IfOk};
ghost use Rattle.tags.specs.Steps.Contents.{IsCut};
ghost use Rattle.tags.specs.Values.{EntryValue, numbered};
ghost use Rattle.tags.specs.Views.{field_value, tag_value};

use crate::around::text_of;
use crate::cut::Cut;
use crate::escape::decode;
use crate::fields::{Gathered, gather};
use std::alloc::{AllocError, Global};

/// A field of a tag other than the kind.
#[derive(Debug, PartialEq, Eq, Drop)]
pub struct Field {
    pub name: String,
    /// Without escapes.
    pub value: String,
}

impl Clone for Field {
    ghost is_clone = { λ field copy. field_value copy ≡ field_value field };

    fn clone(&self) -> Result<Field, AllocError> {
        Ok(Field {
            name: self.name.clone()?,
            value: self.value.clone()?,
        })
    }
}

/// A tag of a tags file: tags(5), "Proposal".
#[derive(Debug, PartialEq, Eq, Drop)]
pub struct Tag {
    /// The number of the tag's line, counted from 1.
    pub line: u32,
    /// Without escapes.
    pub name: String,
    /// Without escapes.
    pub file: String,
    /// As it is written.
    pub address: String,
    /// Without escapes.
    pub kind: Option<String>,
    /// The other fields, in order.
    pub fields: Vec<Field>,
}

impl Clone for Tag {
    ghost is_clone = { λ tag copy. tag_value copy ≡ tag_value tag };

    #[tactic(auto, using(crate::proofs::Copies::fields_same))]
    fn clone(&self) -> Result<Tag, AllocError> {
        let kind = match &self.kind {
            Some(kind) => Some(kind.clone()?),
            None => None,
        };
        Ok(Tag {
            line: self.line,
            name: self.name.clone()?,
            file: self.file.clone()?,
            address: self.address.clone()?,
            kind,
            fields: self.fields.clone()?,
        })
    }
}

/// The tag of a line of this number, by its cut.
pub(crate) fn tag_of(alloc: Global, cut: Cut<'_>, line: u32) -> Result<Tag, AllocError>
    requires { (e : EntryValue) × IsCut cut e }
    ensures { IfOk result (λ tag. (e : EntryValue) → IsCut cut.entry e → tag_value tag ≡ numbered line e) }
{
    let name = decode(alloc, cut.name)?;
    let file = decode(alloc, cut.file)?;
    let address = String::from_str(alloc, text_of(cut.address))?;
    let Gathered { kind, others } = gather(alloc, cut.fields)?;
    Ok(Tag {
        line,
        name,
        file,
        address,
        kind,
        fields: others,
    })
}
