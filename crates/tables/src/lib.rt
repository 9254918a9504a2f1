//! The index in a database: its tables, opened, made where there are none, and made of those of the
//! format before; the parts of projects, replaced and removed; and what is selected of them. The
//! tests call public functions alone, and are in the crate `test_tables`.
#![tactic(auto)]

mod bearers;
mod changes;
mod columns;
mod covering;
mod documents;
mod dump_part;
mod dump_rows;
mod fault;
mod format;
mod found_tags;
mod items;
mod kinds;
mod marks;
mod memory_disk;
mod migration;
mod more;
mod names;
mod part_rows;
mod parts;
mod projects;
mod range_rows;
mod replies;
mod results;
mod selection;
mod slots;
mod statements;
mod tables;
mod tags_part;

pub use fault::TablesFault;
pub use memory_disk::MemoryDisk;
pub use migration::migrate;
pub use tables::Tables;
