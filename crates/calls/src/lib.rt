//! The calls of the program `codenav`, over readers, writers, databases, listeners and clocks that
//! they're given: what its words ask for, checks, replays, connections that are served, databases
//! in files, and why a call isn't carried out. The program itself is in the crate `codenav`. The
//! definitions are in `specs/`, one file for each call.
#![tactic(auto)]

mod call;
mod check;
mod command_line;
mod database;
mod limits;
mod program_fault;
mod replay;
mod report;
mod serve;
mod timed;

pub use call::{Call, CallFault, read_call};
pub use check::{check_lsif, check_tags};
pub use database::{
    FileConnection, MEMORY, close_connection, connect_file, connection_of, migrate_file, open_desk,
};
pub use limits::{REST_SECONDS, WAIT_SECONDS, WHOLE_SECONDS};
pub use program_fault::ProgramFault;
pub use replay::{DatabaseReplay, FileReplay, replay_file, replay_in_memory};
pub use report::{CheckFault, Status};
pub use serve::{
    CountedListener, ServerFault, serve_connection, serve_connections, serve_in_memory,
};
pub use timed::Limits;
