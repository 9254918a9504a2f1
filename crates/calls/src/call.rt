//! What the program's words ask for, by what `clap` finds in them.
ghost use Rattle.std.specs.Prelude.{◌≡◌, ◌≢◌, ◌≤◌, List, Option, Some, None, IfOk, IfSome, IfErr, MatchResult, map, option_map, false, codes, pos};
ghost use Rattle.clap.specs.Words.{app_of, first_of, found_of, kind_of, one_of, rows_of, subcommand_rows_of};
ghost use Rattle.calls.specs.Call.{IsCall, IsRefused, IsWithinBounds, app, call_of, call_value, check_lsif_of, check_lsif_with, check_tags_of, migrate_of, most_connections, most_port, number_named, profile_in, replay_of, replay_with, serve_of, serve_with};
ghost use Rattle.calls.specs.Steps.Call.{IsMissing, ShowsError, up_to};

use crate::command_line::command;
use crate::limits::{MOST_CONNECTIONS, MOST_PORT};
use clap::error::ErrorKind;
use clap::{ArgMatches, Command, Error};
use lsif::Profile;
use std::alloc::{AllocError, Global};
use std::convert::AsStr;
use streams::OUT_OF_MEMORY;

/// What the program is to do.
#[derive(Clone, Copy, Debug, PartialEq, Eq)]
pub enum Call<'a> {
    /// Check the dump in this file, read by the profile.
    CheckLsif {
        file: &'a str,
        profile: Profile,
    },
    /// Check the tags file of this name.
    CheckTags {
        file: &'a str,
    },
    /// Answer the requests in this file over this database.
    Replay {
        database: &'a str,
        file: &'a str,
    },
    /// Serve so many connections, of one request each, on this port, over this database.
    Serve {
        database: &'a str,
        port: u16,
        requests: u32,
    },
    /// Upgrade the tables of this database from format 1 to format 2.
    Migrate {
        database: &'a str,
    },
}

/// Why the program's words are no call.
#[derive(Debug, Drop, thiserror::Error)]
pub enum CallFault {
    /// Memory was refused.
    #[error("{}", OUT_OF_MEMORY)]
    Memory,
    /// `clap` refuses the words, or they ask for help: its text says which.
    #[error(transparent)]
    Clap(Error),
}

impl From<AllocError> for CallFault {
    ghost use Rattle.std.specs.Prelude.{◌≡◌};
    ghost use Rattle.calls.specs.declared.call.CallFault.TheVariants.{Memory};

    ghost from_gives = { λ _ fault. fault ≡ Memory };

    fn from(_: AllocError) -> CallFault {
        CallFault::Memory
    }
}

impl From<Error> for CallFault {
    ghost use Rattle.calls.specs.Steps.Call.{ShowsError};

    ghost from_gives = { ShowsError };

    fn from(error: Error) -> CallFault {
        match error.kind() {
            ErrorKind::OutOfMemory => CallFault::Memory,
            _ => CallFault::Clap(error),
        }
    }
}

/// The value of FILE among these matches.
fn file_of<'a>(found: &ArgMatches<'a>) -> Option<&'a str>
    ensures { option_map (λ file. file.now) result ≡ first_of (codes "file") (rows_of (found_of found.now)) }
{
    found.get_str("file")
}

/// The profile that a value of `--profile` names, or profile 1 where there is none.
fn read_profile(text: Option<&str>) -> Option<Profile>
    ensures { result ≡ profile_in (option_map (λ t. t.now) text.entry) }
{
    match text {
        None => Some(Profile::One),
        Some(text) => Profile::named(text),
    }
}

/// The call of `check-lsif` with these values.
fn check_lsif_call<'a>(file: Option<&'a str>, profile: Option<Profile>) -> Option<Call<'a>>
    ensures call { option_map call_value result ≡ check_lsif_with (option_map (λ f. f.now) file.entry) profile }
    ensures bounds { IfSome result (λ call. IsWithinBounds (call_value call)) }
{
    match (file, profile) {
        (Some(file), Some(profile)) => Some(Call::CheckLsif { file, profile }),
        _ => None,
    }
}

/// The value of `--profile` among these matches.
fn profile_of<'a>(found: &ArgMatches<'a>) -> Option<&'a str>
    ensures { option_map (λ number. number.now) result ≡ first_of (codes "profile") (rows_of (found_of found.now)) }
{
    found.get_str("profile")
}

/// The call of `check-lsif` with these matches.
fn read_check_lsif<'a>(found: &ArgMatches<'a>) -> Option<Call<'a>>
    ensures call { option_map call_value result ≡ check_lsif_of (rows_of (found_of found.now)) }
    ensures bounds { IfSome result (λ call. IsWithinBounds (call_value call)) }
{
    check_lsif_call(file_of(found), read_profile(profile_of(found)))
}

/// The call of `check-tags` with these matches.
fn read_check_tags<'a>(found: &ArgMatches<'a>) -> Option<Call<'a>>
    ensures call { option_map call_value result ≡ check_tags_of (rows_of (found_of found.now)) }
    ensures bounds { IfSome result (λ call. IsWithinBounds (call_value call)) }
{
    match file_of(found) {
        Some(file) => Some(Call::CheckTags { file }),
        None => None,
    }
}

/// The value of DB among these matches.
fn database_of<'a>(found: &ArgMatches<'a>) -> Option<&'a str>
    ensures { option_map (λ database. database.now) result ≡ first_of (codes "db") (rows_of (found_of found.now)) }
{
    found.get_str("db")
}

/// The call of `replay` with these values.
fn replay_call<'a>(database: Option<&'a str>, file: Option<&'a str>) -> Option<Call<'a>>
    ensures call { option_map call_value result ≡ replay_with (option_map (λ d. d.now) database.entry) (option_map (λ f. f.now) file.entry) }
    ensures bounds { IfSome result (λ call. IsWithinBounds (call_value call)) }
{
    match (database, file) {
        (Some(database), Some(file)) => Some(Call::Replay { database, file }),
        _ => None,
    }
}

/// The call of `replay` with these matches.
fn read_replay<'a>(found: &ArgMatches<'a>) -> Option<Call<'a>>
    ensures call { option_map call_value result ≡ replay_of (rows_of (found_of found.now)) }
    ensures bounds { IfSome result (λ call. IsWithinBounds (call_value call)) }
{
    replay_call(database_of(found), file_of(found))
}

/// The number, where it's from 1 to the most.
fn up_to(number: Option<u32>, most: u32) -> Option<u32>
    ensures number { result ≡ up_to most number }
    ensures bounds { IfSome result (λ n. (1 ≤ n) × (n ≤ most)) }
{
    match number {
        Some(number) if 1 <= number && number <= most => Some(number),
        _ => None,
    }
}

/// The number that an option has among these matches, from 1 to the most.
fn number_of(found: &ArgMatches<'_>, id: &str, most: u32) -> Option<u32>
    ensures number { result ≡ number_named most (one_of id.now (rows_of (found_of found.now))) }
    ensures bounds { IfSome result (λ n. (1 ≤ n) × (n ≤ most)) }
{
    up_to(found.get_one::<u32>(id), most)
}

/// The call of `serve` with these values.
fn serve_call<'a>(
    database: Option<&'a str>,
    port: Option<u32>,
    requests: Option<u32>,
) -> Option<Call<'a>>
    requires port { IfSome port (λ n. (1 ≤ n) × (n ≤ most_port)) }
    requires requests { IfSome requests (λ n. (1 ≤ n) × (n ≤ most_connections)) }
    ensures call { option_map call_value result ≡ serve_with (option_map (λ d. d.now) database.entry) port requests }
    ensures bounds { IfSome result (λ call. IsWithinBounds (call_value call)) }
{
    match (database, port, requests) {
        (Some(database), Some(port), Some(requests)) => Some(Call::Serve {
            database,
            port: port as u16,
            requests,
        }),
        _ => None,
    }
}

/// The call of `serve` with these matches.
fn read_serve<'a>(found: &ArgMatches<'a>) -> Option<Call<'a>>
    ensures call { option_map call_value result ≡ serve_of (rows_of (found_of found.now)) }
    ensures bounds { IfSome result (λ call. IsWithinBounds (call_value call)) }
{
    let port = number_of(found, "port", MOST_PORT);
    let requests = number_of(found, "requests", MOST_CONNECTIONS);
    serve_call(database_of(found), port, requests)
}

/// The call of `migrate` with these matches.
fn read_migrate<'a>(found: &ArgMatches<'a>) -> Option<Call<'a>>
    ensures call { option_map call_value result ≡ migrate_of (rows_of (found_of found.now)) }
    ensures bounds { IfSome result (λ call. IsWithinBounds (call_value call)) }
{
    match database_of(found) {
        Some(database) => Some(Call::Migrate { database }),
        None => None,
    }
}

/// The call of the subcommand with that name and these matches.
fn read_subcommand<'a>(name: &str, found: &ArgMatches<'a>) -> Option<Call<'a>>
    ensures call { option_map call_value result ≡ call_of (Some (name.now, rows_of (found_of found.now))) }
    ensures bounds { IfSome result (λ call. IsWithinBounds (call_value call)) }
{
    if name == "check-lsif" {
        return read_check_lsif(found);
    }
    if name == "check-tags" {
        return read_check_tags(found);
    }
    if name == "replay" {
        return read_replay(found);
    }
    if name == "serve" {
        return read_serve(found);
    }
    if name == "migrate" {
        return read_migrate(found);
    }
    None
}

/// The call that the matches say.
fn read_matches<'a>(matches: &ArgMatches<'a>) -> Option<Call<'a>>
    ensures call { option_map call_value result ≡ call_of (subcommand_rows_of matches.now) }
    ensures bounds { IfSome result (λ call. IsWithinBounds (call_value call)) }
{
    match matches.subcommand() {
        Some((name, found)) => read_subcommand(name, found),
        None => None,
    }
}

/// The fault of words that `clap` takes though they say no call.
fn missing_call(command: &mut Command<'_>) -> CallFault
    ensures { IsMissing result }
{
    match command.error(ErrorKind::ValueValidation, "no such call") {
        Ok(error) => CallFault::from(error),
        Err(_) => CallFault::Memory,
    }
}

/// The call that the command line finds in the program's words.
fn read_words<'a, S: AsStr>(
    command: &mut Command<'a>,
    words: &'a [S],
) -> Result<Call<'a>, CallFault>
    requires { app_of command.old ≡ app }
    ensures call { IfOk result (λ call. IsCall (map S.text words.entry.now) (call_value call)) }
    ensures bounds { IfOk result (λ call. IsWithinBounds (call_value call)) }
    ensures fault { IfErr result (IsRefused (map S.text words.entry.now)) }
{
    match command.try_get_matches_from_mut(words) {
        Ok(matches) => match read_matches(&matches) {
            Some(call) => Ok(call),
            None => Err(missing_call(command)),
        },
        Err(error) => Err(CallFault::from(error)),
    }
}

/// Reads the program's words, its name first: the subcommand and the values that `clap` finds in
/// them. A port is from 1 to 65535, and a number of requests from 1 to 1,000,000.
pub fn read_call<'a, S: AsStr>(alloc: Global, words: &'a [S]) -> Result<Call<'a>, CallFault>
    ensures call { IfOk result (λ call. IsCall (map S.text words.entry.now) (call_value call)) }
    ensures bounds { IfOk result (λ call. IsWithinBounds (call_value call)) }
    ensures fault { IfErr result (IsRefused (map S.text words.entry.now)) }
{
    let mut command = command(alloc)?;
    let call = read_words(&mut command, words);
    drop(command);
    call
}
