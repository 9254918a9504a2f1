//! The checker of a dump: takes the readings of its lines in turn, and returns the first fault or
//! the dump with its look-ups.
#![tactic(auto)]

mod chain_ends;
mod checker;
mod contained;
mod ended;
mod fault;
mod graph;
mod ids;
mod index_map;
mod laws;
mod limits;
mod links;
mod order;
mod reading;
mod role;
mod single;
mod sorted_spans;
mod spans;
mod tables;
mod vertices;
mod walks;

pub use checker::{CheckedDump, Checker};
pub use fault::{FeedFault, LineFault};
pub use laws::{
    chain_law, container_law, ends_law, fault_law, hover_law, line_law, listing_law, nesting_law,
    own_law, path_law, pick_law, uri_law, vertex_law,
};
pub use reading::{DumpFault, Reading, read_dump, read_line};
pub use role::{Role, role_of, roles_of};
