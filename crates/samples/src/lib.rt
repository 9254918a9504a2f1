//! What the crates of tests share: dumps and streams of requests that are written in short, dumps
//! that are deep or long, readers and writers that move so many bytes at a time, and what must be
//! there. An assert may end the process, which the gate allows in tests alone; so each crate of
//! tests has its own in `asserts.rt`.
#![tactic(auto)]

mod exchanges;
mod found;
pub mod great;
pub mod named;
mod pieces;
mod short;

pub use exchanges::{NO_PROJECTS, PROJECTS, UPLOADS, exchange, reply, reply_of};
pub use found::{parted, there};
pub use pieces::{Pieces, Slow, in_pieces, slow_writer};
pub use short::{
    GREAT_NUMBERS, Marks, NUMBERS, TEXTS, changed, dump_of, dump_text, made_dump, push_line,
    push_made, text_of,
};
