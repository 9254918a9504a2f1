//! Tags files as Universal Ctags writes them (tags(5), format 2): a count of the tags of a reader's
//! bytes, a reader of lines that keeps the tags, and the parts of one line.
#![tactic(auto)]

mod address;
mod around;
mod checker;
mod code;
mod content;
mod counting;
mod cut;
mod escape;
mod fields;
mod laws;
mod limits;
mod order;
mod parts;
mod reader;
mod tag;

pub use code::{Code, LineFault, SplitFault, TagsFault};
pub use counting::{CountFault, count_tags};
pub use laws::{escape_law, grammar_law, lines_law, reading_law, state_law, text_law};
pub use limits::LONGEST_LINE;
pub use parts::{Part, split};
pub use reader::{TagReader, read_tags};
pub use tag::{Field, Tag};
