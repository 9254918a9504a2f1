//! Why the program can't carry out what its words ask for. The line that it prints on the standard
//! error is the fault's message.
use crate::call::CallFault;
use crate::report::CheckFault;
use crate::serve::ServerFault;
use http_edge::ServeFault;
use std::alloc::AllocError;
use std::io;
use std::io::ErrorKind;
use streams::{CANNOT_READ, CANNOT_WRITE, OUT_OF_MEMORY};
use tables::TablesFault;
use thiserror::Error;

/// Why a call of the program could not be carried out.
#[derive(Debug, Drop, Error)]
pub enum ProgramFault {
    /// Memory was refused.
    #[error("{}", OUT_OF_MEMORY)]
    Memory(#[from] AllocError),
    /// A file, or the words of the command line, can't be read.
    #[error("{}", CANNOT_READ)]
    Read,
    /// The standard output can't be written.
    #[error("{}", CANNOT_WRITE)]
    Write,
    /// The port can't be listened on.
    #[error("cannot listen")]
    Listen,
    /// The words of the command line are no call.
    #[error(transparent)]
    Call(#[from] CallFault),
    /// A dump or a tags file has no report.
    #[error(transparent)]
    Check(#[from] CheckFault),
    /// The requests of a file aren't all answered.
    #[error(transparent)]
    Serve(#[from] ServeFault),
    /// The connections that were asked for aren't all served.
    #[error(transparent)]
    Server(#[from] ServerFault),
    /// The database can't be opened, or refuses.
    #[error(transparent)]
    Tables(#[from] TablesFault),
}

/// A failure to open or to read: lack of memory, or any other.
impl From<io::Error> for ProgramFault {
    fn from(error: io::Error) -> ProgramFault {
        match error.kind() {
            ErrorKind::OutOfMemory => ProgramFault::Memory(AllocError),
            _ => ProgramFault::Read,
        }
    }
}
