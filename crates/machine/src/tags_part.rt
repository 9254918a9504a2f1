//! The tags of a file that was judged and has no fault, as a project keeps them.
ghost use Rattle.std.specs.Prelude.{◌≡◌, true, map};
ghost use Rattle.tags.specs.Judging.{lines_rise};
ghost use Rattle.tags.specs.Views.{tag_value, tag_values};

use std::marker::Model;
use tags::Tag;

/// The tags of a tags file, each on a later line than those before it.
#[derive(Drop)]
pub struct TagsPart {
    tags: Vec<Tag>,
}

impl Model for TagsPart {
    ghost use Rattle.std.specs.Prelude.{◌≡◌, List, true};
    ghost use Rattle.tags.specs.Judging.{lines_rise};
    ghost use Rattle.tags.specs.Values.{TagValue};
    ghost use Rattle.tags.specs.Views.{tag_values};

    ghost Value = { List TagValue };

    ghost view = { λ p. tag_values p.tags.items };

    ghost invariant = { λ p. lines_rise (tag_values p.tags.items) ≡ true };
}

impl TagsPart {
    /// These tags.
    pub(crate) fn new(tags: Vec<Tag>) -> TagsPart
        requires { lines_rise (tag_values tags.items) ≡ true }
        ensures { result ≡ tag_values tags.items }
    {
        TagsPart { tags }
    }

    /// The tags, in the order of their lines.
    pub fn tags(&self) -> &[Tag]
        ensures value { map tag_value result.now ≡ self.now }
        ensures rising { lines_rise self.now ≡ true }
    {
        &self.tags
    }
}
