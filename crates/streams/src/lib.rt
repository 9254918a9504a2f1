//! Streams of bytes: readers and writers that count their failures, the lines of a reader, the
//! lines of a text that comes in pieces, and the writing of all of some bytes.
#![tactic(auto)]

mod buffer;
mod counted;
mod cutter;
mod limits;
mod lines;
mod messages;
mod room;
mod sending;

pub use buffer::Buffer;
pub use counted::{Counted, Failed, Sink, Source, counted_law};
pub use cutter::Cutter;
pub use lines::{LineBuffer, Lines, LinesFault, lines_law};
pub use messages::{CANNOT_READ, CANNOT_WRITE, OUT_OF_MEMORY};
pub use room::append;
pub use sending::push_all;
