//! The command line, as `clap` needs it: the subcommands with their words and options.
ghost use Rattle.std.specs.Prelude.{◌≡◌, IfOk, false, true, codes, pos};
ghost use Rattle.clap.specs.Words.{App, app_of, rule_of, with_subcommand};
ghost use Rattle.calls.specs.Call.{app, check_lsif_app, check_tags_app, migrate_app, most_connections, most_port};
ghost use Rattle.calls.specs.Call.{number_option, replay_app, required_number, serve_app, top_app, word};

use crate::limits::{MOST_CONNECTIONS, MOST_PORT};
use clap::builder::ValueParser;
use clap::{Arg, ArgAction, Command};
use lsif::PROFILES;
use std::alloc::{AllocError, Global};

/// The version of the program.
const VERSION: &str = "0.1.0";

/// A word that has to be there, with its name in texts of help and what it is.
fn word<'a>(alloc: Global, id: &'a str, name: &'a str, help: &'a str) -> Arg<'a>
    ensures rule { rule_of result ≡ word id.entry.now }
    ensures local { result.global ≡ false }
{
    Arg::new(alloc, id)
        .required(true)
        .action(ArgAction::Set)
        .value_name(name)
        .help(help)
}

/// An option whose value is a number in these bounds.
fn number_option<'a>(alloc: Global, id: &'a str, least: i64, most: i64, help: &'a str) -> Arg<'a>
    ensures rule { rule_of result ≡ number_option id.entry.now least most }
    ensures local { result.global ≡ false }
{
    Arg::new(alloc, id)
        .long(id)
        .action(ArgAction::Set)
        .value_parser(ValueParser::signed(least, most))
        .value_name("N")
        .help(help)
}

/// An option that has to be there, whose value is a number in these bounds.
fn required_number<'a>(alloc: Global, id: &'a str, least: i64, most: i64, help: &'a str) -> Arg<'a>
    ensures rule { rule_of result ≡ required_number id.entry.now least most }
    ensures local { result.global ≡ false }
{
    number_option(alloc, id, least, most, help).required(true)
}

/// `check-lsif FILE --profile N`.
fn check_lsif<'a>(alloc: Global) -> Result<Command<'a>, AllocError>
    ensures { IfOk result (λ c. app_of c ≡ check_lsif_app) }
{
    Command::new(alloc, "check-lsif")
        .about(
            "Checks a dump in the Language Server Index Format 0.6.0, and prints how many elements it has or its first fault",
        )
        .arg(word(alloc, "file", "FILE", "The dump, one element on each line"))?
        .arg(number_option(
            alloc,
            "profile",
            1,
            PROFILES.len() as i64,
            "The profile that the dump is read by: 1, or 2, which has declarations and implementations too [default: 1]",
        ))
}

/// `check-tags FILE`.
fn check_tags<'a>(alloc: Global) -> Result<Command<'a>, AllocError>
    ensures { IfOk result (λ c. app_of c ≡ check_tags_app) }
{
    Command::new(alloc, "check-tags")
        .about(
            "Checks a tags file of Universal Ctags, and prints how many tags it has or its first fault",
        )
        .arg(word(alloc, "file", "FILE", "The tags file"))
}

/// The word DB of a command that makes the database where there is none.
fn database<'a>(alloc: Global) -> Arg<'a>
    ensures rule { rule_of result ≡ word (codes "db") }
    ensures local { result.global ≡ false }
{
    word(
        alloc,
        "db",
        "DB",
        "The database: a file, which is made where there is none, or :memory:",
    )
}

/// `replay DB FILE`.
fn replay<'a>(alloc: Global) -> Result<Command<'a>, AllocError>
    ensures { IfOk result (λ c. app_of c ≡ replay_app) }
{
    Command::new(alloc, "replay")
        .about("Answers the requests in a file over a database, and prints the replies")
        .arg(database(alloc))?
        .arg(word(
            alloc,
            "file",
            "FILE",
            "The requests, as HTTP/1.1 sends them",
        ))
}

/// The option `--port N`.
fn port<'a>(alloc: Global) -> Arg<'a>
    ensures rule { rule_of result ≡ required_number (codes "port") (pos 1) (pos most_port) }
    ensures local { result.global ≡ false }
{
    required_number(
        alloc,
        "port",
        1,
        i64::from(MOST_PORT),
        "The port on 127.0.0.1 that is listened on, 1 to 65535",
    )
}

/// The option `--requests N`.
fn requests<'a>(alloc: Global) -> Arg<'a>
    ensures rule { rule_of result ≡ required_number (codes "requests") (pos 1) (pos most_connections) }
    ensures local { result.global ≡ false }
{
    required_number(
        alloc,
        "requests",
        1,
        i64::from(MOST_CONNECTIONS),
        "How many connections are served, with one request each, 1 to 1000000",
    )
}

/// `serve DB --port N --requests N`.
fn serve<'a>(alloc: Global) -> Result<Command<'a>, AllocError>
    ensures { IfOk result (λ c. app_of c ≡ serve_app) }
{
    Command::new(alloc, "serve")
        .about("Serves connections on a port of 127.0.0.1, one after the other, over a database")
        .arg(database(alloc))?
        .arg(port(alloc))?
        .arg(requests(alloc))
}

/// `migrate DB`.
fn migrate<'a>(alloc: Global) -> Result<Command<'a>, AllocError>
    ensures { IfOk result (λ c. app_of c ≡ migrate_app) }
{
    Command::new(alloc, "migrate")
        .about(
            "Brings a database from format 1 to format 2, and prints how many projects it has; a database of format 2 stays as it is",
        )
        .arg(word(alloc, "db", "DB", "The database, a file"))
}

/// The program with no subcommand yet.
fn top<'a>(alloc: Global) -> Command<'a>
    ensures { app_of result ≡ top_app }
{
    Command::new(alloc, "codenav")
        .version(VERSION)
        .about("A code navigation index server: it answers from uploaded indexes alone")
        .subcommand_required(true)
}

/// The program with one more subcommand.
fn add<'a>(
    program: Result<Command<'a>, AllocError>,
    subcommand: Result<Command<'a>, AllocError>,
) -> Result<Command<'a>, AllocError>
    ensures { (before added : App) → IfOk program.entry (λ c. app_of c ≡ before) → IfOk subcommand.entry (λ c. app_of c ≡ added)
        → added.top.is_plain ≡ true → IfOk result (λ c. app_of c ≡ with_subcommand before added.top) }
{
    let added = subcommand?;
    program?.subcommand(added)
}

/// The command line, as `clap` reads it, with the texts of help.
pub fn command<'a>(alloc: Global) -> Result<Command<'a>, AllocError>
    ensures { IfOk result (λ c. app_of c ≡ app) }
{
    let with_check = add(Ok(top(alloc)), check_lsif(alloc));
    let with_checks = add(with_check, check_tags(alloc));
    let with_replay = add(with_checks, replay(alloc));
    let with_serve = add(with_replay, serve(alloc));
    add(with_serve, migrate(alloc))
}
