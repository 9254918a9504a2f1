//! `codenav`, a code navigation index server: does what the words of the command line ask for, by
//! the crate `calls`, and ends with its status.
#![tactic(auto)]

ghost use Rattle.std.specs.Prelude.{◌≡◌, false};

use calls::{
    Call, CallFault, CountedListener, Limits, MEMORY, ProgramFault, REST_SECONDS, WAIT_SECONDS,
    WHOLE_SECONDS, check_lsif, check_tags, close_connection, connect_file, connection_of,
    migrate_file, open_desk, read_call, replay_file, replay_in_memory, serve_connections,
    serve_in_memory,
};
use desk::{MemoryDesk, TableDesk};
use lsif::Profile;
use sqlite::{Alter, Connection, Unknown};
use std::alloc::Global;
use std::net::{Ipv4Addr, Net, SocketAddr, TcpListener};
use std::process::ExitCode;
use std::rt::{Env, Files};
use std::time::Duration;
use std::{env, fs, io};
use streams::Counted;
use tables::TablesFault;

/// The status of a call that could not be carried out.
const FAILED: u8 = 2;

fn main(rt: HostRuntime) -> ExitCode {
    ExitCode::from(run(&rt))
}

/// Carries out what the program's words say, and returns the exit status.
fn run(rt: &HostRuntime) -> u8 {
    match carry_out(rt) {
        Ok(status) => status,
        Err(fault) => fail(rt, &fault),
    }
}

/// Carries out what the program's words say. The exit status is 0, or 1 where a checked file is
/// faulty.
fn carry_out(rt: &HostRuntime) -> Result<u8, ProgramFault> {
    let words = read_words(rt)?;
    match read_call(rt.alloc(), words.as_slice()) {
        Ok(Call::CheckLsif { file, profile }) => check_dump(rt, profile, file),
        Ok(Call::CheckTags { file }) => check_tags_file(rt, file),
        Ok(Call::Replay { database, file }) => replay_stream(rt, database, file),
        Ok(
            Call::Serve {
                database,
                port,
                requests,
            },
        ) => serve_port(rt, database, port, requests),
        Ok(Call::Migrate { database }) => migrate_tables(rt, database),
        Err(CallFault::Clap(error)) => show(rt, &error),
        Err(CallFault::Memory) => Err(ProgramFault::from(CallFault::Memory)),
    }
}

/// The program's words, its name first.
fn read_words<R: Alloc<A = Global> + Env>(rt: &R) -> io::Result<Vec<String>> {
    let mut words = Vec::new(rt.alloc());
    for word in env::args(rt)? {
        words.push(word)?;
    }
    Ok(words)
}

/// `codenav check-lsif FILE --profile N`: prints the report of the dump in that file.
fn check_dump<R: Alloc<A = Global> + Files + Print>(
    rt: &R,
    profile: Profile,
    name: &str,
) -> Result<u8, ProgramFault> {
    let mut r = Counted::new(fs::open(rt, name)?);
    let mut w = Counted::new(io::writer(rt));
    let status = check_lsif(rt.alloc(), profile, &mut r, &mut w)?;
    Ok(status.exit_code())
}

/// `codenav check-tags FILE`: prints the report of that tags file.
fn check_tags_file<R: Alloc<A = Global> + Files + Print>(
    rt: &R,
    name: &str,
) -> Result<u8, ProgramFault> {
    let mut r = Counted::new(fs::open(rt, name)?);
    let mut w = Counted::new(io::writer(rt));
    let status = check_tags(rt.alloc(), &mut r, &mut w)?;
    Ok(status.exit_code())
}

/// `codenav replay DB FILE`: prints the replies to the requests in that file, over the database in
/// the file DB, or over one in memory that is empty at first where DB is `:memory:`.
fn replay_stream(rt: &HostRuntime, database: &str, name: &str) -> Result<u8, ProgramFault> {
    let mut r = Counted::new(fs::open(rt, name)?);
    let mut w = Counted::new(io::writer(rt));
    if database == MEMORY {
        replay_in_memory(rt.alloc(), &mut r, &mut w)?;
        return Ok(0);
    }
    let (answer, conn) = replay_file(rt, database, Unknown, &mut r, &mut w)?;
    close_connection(conn);
    answer?;
    Ok(0)
}

/// `codenav serve DB --port N --requests N`: serves so many connections on that port of 127.0.0.1,
/// and says so when it listens; over the database in the file DB, or over one in memory that is
/// empty at first where DB is `:memory:`.
fn serve_port(
    rt: &HostRuntime,
    database: &str,
    port: u16,
    requests: u32,
) -> Result<u8, ProgramFault> {
    if database == MEMORY {
        let mut desk = TableDesk::open_in_memory(rt.alloc())?;
        serve_memory(rt, &mut desk, port, requests)?;
    } else {
        serve_file(rt, database, port, requests)?;
    }
    Ok(0)
}

/// Serves over the database in this file.
fn serve_file(rt: &HostRuntime, path: &str, port: u16, requests: u32) -> Result<(), ProgramFault> {
    let conn = connect_file(rt, path, Unknown)?;
    let (answer, conn) = serve_database(rt, conn, port, requests)?;
    close_connection(conn);
    answer
}

/// What serving over a database gives back: how it ended, and the connection.
type DatabaseService<S> = (Result<(), ProgramFault>, Connection<S>);

/// Serves over the database of this connection, which comes back. Refuses where it can't be opened
/// as one of this product.
fn serve_database<S: Alter + Drop>(
    rt: &HostRuntime,
    conn: Connection<S>,
    port: u16,
    requests: u32,
) -> Result<DatabaseService<S>, TablesFault>
    requires mode { conn.in_transaction ≡ false }
{
    let mut desk = open_desk(rt.alloc(), conn)?;
    let answer = serve_desk(rt, &mut desk, port, requests);
    Ok((answer, connection_of(desk)))
}

/// Listens, and serves by the desk over a database in memory.
fn serve_memory(
    rt: &HostRuntime,
    desk: &mut MemoryDesk,
    port: u16,
    requests: u32,
) -> Result<(), ProgramFault> {
    let listener = listen(rt, port)?;
    let mut counted = CountedListener::new(&listener);
    serve_in_memory(
        rt.alloc(),
        desk,
        rt,
        connection_limits(),
        &mut counted,
        requests,
    )?;
    Ok(())
}

/// Listens, and serves by the desk over the tables of a database.
fn serve_desk<S: Alter>(
    rt: &HostRuntime,
    desk: &mut TableDesk<S>,
    port: u16,
    requests: u32,
) -> Result<(), ProgramFault> {
    let listener = listen(rt, port)?;
    let mut counted = CountedListener::new(&listener);
    serve_connections(
        rt.alloc(),
        desk,
        rt,
        connection_limits(),
        &mut counted,
        requests,
    )?;
    Ok(())
}

/// The time that a connection has.
fn connection_limits() -> Limits {
    Limits {
        wait: Duration::from_secs(WAIT_SECONDS),
        whole: Duration::from_secs(WHOLE_SECONDS),
        rest: Duration::from_secs(REST_SECONDS),
    }
}

/// Listens on that port of 127.0.0.1, and says so.
fn listen<R: Net + Print>(rt: &R, port: u16) -> Result<R::Listener, ProgramFault> {
    let Ok(listener) = TcpListener::bind(rt, SocketAddr::from((Ipv4Addr::LOCALHOST, port))) else {
        return Err(ProgramFault::Listen);
    };
    if println!(rt; "listening on 127.0.0.1:{port}").is_err() {
        return Err(ProgramFault::Write);
    }
    Ok(listener)
}

/// `codenav migrate DB`: brings the database in that file from format 1 to format 2, and prints how
/// many projects it has; or that there is nothing to do, where it's of format 2.
fn migrate_tables(rt: &HostRuntime, database: &str) -> Result<u8, ProgramFault> {
    if database == MEMORY {
        return Err(ProgramFault::from(TablesFault::Foreign));
    }
    let (count, conn) = migrate_file(rt, database, Unknown)?;
    close_connection(conn);
    let printed = match count {
        Some(count) => println!(rt; "migrated {count} projects"),
        None => println!(rt; "nothing to migrate"),
    };
    match printed {
        Ok(()) => Ok(0),
        Err(_) => Err(ProgramFault::Write),
    }
}

/// Prints `clap`'s text: a refusal to the standard error, with status 2, and help that was asked
/// for to the standard output, with status 0.
fn show<R: Print + Eprint>(rt: &R, error: &clap::Error) -> Result<u8, ProgramFault> {
    match error.print(rt) {
        Ok(()) if error.use_stderr() => Ok(FAILED),
        Ok(()) => Ok(0),
        Err(_) => Err(ProgramFault::Write),
    }
}

/// Prints why the program fails, one line on the standard error, and returns the status.
fn fail(rt: &impl Eprint, fault: &ProgramFault) -> u8 {
    let _ = eprintln!(rt; "codenav: {fault}");
    FAILED
}
