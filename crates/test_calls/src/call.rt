//! The calls of the program, and words that are none.
use crate::asserts::expect_equal_text;
use calls::{Call, CallFault, read_call};
use clap::Error;
use samples::parted;
use std::alloc::Global;
use std::test::Fail;

/// The words of a call after the program's name, separated by `|`, and what is read of them: the
/// call, written in the same way, or the kind of `clap`'s error and the stream that its text goes
/// to.
const ROWS: &str = "check-lsif|dump.lsif => check-lsif|dump.lsif|One
check-lsif|- => check-lsif|-|One
check-lsif|a b/c => check-lsif|a b/c|One
check-lsif|a|--profile|1 => check-lsif|a|One
check-lsif|a|--profile|2 => check-lsif|a|Two
check-lsif|--profile=2|a => check-lsif|a|Two
check-tags|dump.lsif => check-tags|dump.lsif
check-tags|- => check-tags|-
check-tags|a b/c => check-tags|a b/c
replay|:memory:|dump.lsif => replay|:memory:|dump.lsif
replay|:memory:|- => replay|:memory:|-
replay|:memory:|a b/c => replay|:memory:|a b/c
replay|index.db|dump.lsif => replay|index.db|dump.lsif
replay|index.db|- => replay|index.db|-
replay|index.db|a b/c => replay|index.db|a b/c
serve|:memory:|--port|8080|--requests|3 => serve|:memory:|8080|3
serve|index.db|--requests=1|--port=1 => serve|index.db|1|1
serve|--port|65535|--requests|1000000|:memory: => serve|:memory:|65535|1000000
serve|:memory:|--port|+80|--requests|0007 => serve|:memory:|80|7
migrate|index.db => migrate|index.db
migrate|:memory: => migrate|:memory:
 => MissingSubcommand on the standard error
check-lsif => MissingRequiredArgument on the standard error
check-tags => MissingRequiredArgument on the standard error
replay|:memory: => MissingRequiredArgument on the standard error
replay|:memory:|a|b => UnknownArgument on the standard error
migrate => MissingRequiredArgument on the standard error
migrate|a|b => UnknownArgument on the standard error
check|a => InvalidSubcommand on the standard error
check-lsif|a|b => UnknownArgument on the standard error
check-lsif|--deep|a => UnknownArgument on the standard error
check-lsif|a|--profile|0 => ValueValidation on the standard error
check-lsif|a|--profile|3 => ValueValidation on the standard error
check-lsif|a|--profile|02 => ValueValidation on the standard error
check-lsif|a|--profile|two => ValueValidation on the standard error
check-lsif|a|--profile => InvalidValue on the standard error
check-lsif|a|--profile|1|--profile|2 => ArgumentConflict on the standard error
check-tags|a|--profile|1 => UnknownArgument on the standard error
serve|:memory: => MissingRequiredArgument on the standard error
serve|--port|80|--requests|1 => MissingRequiredArgument on the standard error
serve|:memory:|--port|80 => MissingRequiredArgument on the standard error
serve|:memory:|--requests|1 => MissingRequiredArgument on the standard error
serve|:memory:|a|--port|80|--requests|1 => UnknownArgument on the standard error
serve|:memory:|--port|0|--requests|1 => ValueValidation on the standard error
serve|:memory:|--port|65536|--requests|1 => ValueValidation on the standard error
serve|:memory:|--port|80|--requests|0 => ValueValidation on the standard error
serve|:memory:|--port|80|--requests|1000001 => ValueValidation on the standard error
serve|:memory:|--port|80|--requests|99999999999999999999 => ValueValidation on the standard error
serve|:memory:|--port=-1|--requests|1 => ValueValidation on the standard error
serve|:memory:|--port|http|--requests|1 => ValueValidation on the standard error
serve|:memory:|--port=|--requests|1 => ValueValidation on the standard error
serve|:memory:|--port|80|--requests|1|--port|81 => ArgumentConflict on the standard error
replay|:memory:|a|--port|80 => UnknownArgument on the standard error
--help => DisplayHelp on the standard output
check-lsif|--help => DisplayHelp on the standard output
--version => DisplayVersion on the standard output
";

/// A call, written in short.
fn call_text(alloc: Global, call: Call<'_>) -> Result<String, Fail> {
    match call {
        Call::CheckLsif { file, profile } => {
            Ok(format!(in alloc; "check-lsif|{file}|{profile:?}")?)
        }
        Call::CheckTags { file } => Ok(format!(in alloc; "check-tags|{file}")?),
        Call::Replay { database, file } => Ok(format!(in alloc; "replay|{database}|{file}")?),
        Call::Serve {
            database,
            port,
            requests,
        } => Ok(format!(in alloc; "serve|{database}|{port}|{requests}")?),
        Call::Migrate { database } => Ok(format!(in alloc; "migrate|{database}")?),
    }
}

/// An error, written in short.
fn error_text(alloc: Global, error: &Error) -> Result<String, Fail> {
    let stream = if error.use_stderr() {
        "error"
    } else {
        "output"
    };
    Ok(format!(in alloc; "{:?} on the standard {stream}", error.kind())?)
}

/// What is read of the words that are written in short.
fn read(alloc: Global, short: &str) -> Result<String, Fail> {
    let words = words_of(alloc, short)?;
    match read_call(alloc, &words) {
        Ok(call) => call_text(alloc, call),
        Err(CallFault::Clap(error)) => error_text(alloc, &error),
        Err(CallFault::Memory) => Err(Fail::from("out of memory")),
    }
}

/// The program's name and the words that are written in short.
fn words_of<'a>(alloc: Global, short: &'a str) -> Result<Vec<&'a str>, Fail> {
    let mut words = Vec::new(alloc);
    words.push("codenav")?;
    for word in short.split_terminator('|') {
        words.push(word)?;
    }
    Ok(words)
}

#[test]
fn words_and_calls(rt: HostRuntime) -> Result<(), Fail> {
    for row in ROWS.lines() {
        let (short, wanted) = parted(row, " => ")?;
        let found = read(rt.alloc(), short)?;
        expect_equal_text(&rt, found.as_str(), wanted, short);
    }
    Ok(())
}
