//! The limits of the program, each with the source of its number. `specs/Call`, `specs/Replay` and
//! `specs/Serve` say those that contracts promise.

/// The greatest port (RFC 9293, section 3.1: a port has 16 bits).
pub const MOST_PORT: u32 = 65535;

/// The most connections that `serve` takes, a limit of this program; then it ends.
pub const MOST_CONNECTIONS: u32 = 1000000;

/// The most requests of a connection that are answered: the reply to the first closes it.
pub const CONNECTION_REQUESTS: u32 = 1;

/// The most requests of a stream that `replay` answers, a limit of this program.
pub const STREAM_REQUESTS: u32 = 1000000;

/// How many seconds one read or one write of a connection may wait.
pub const WAIT_SECONDS: u64 = 10;

/// How many seconds a connection may take, from when it was accepted.
pub const WHOLE_SECONDS: u64 = 120;

/// How many seconds one read of what a client still sends may wait, when its reply was written.
pub const REST_SECONDS: u64 = 1;
