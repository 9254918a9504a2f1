//! The parts of requests that have a form: names of projects, keys, URLs of documents and numbers.
//! A value of such a type was checked when it was made. `specs/Names`.
ghost use Rattle.std.specs.Prelude.{◌≡◌, ◌<◌, None, IfOk, IfSome, option_and_then};
ghost use Rattle.std.specs.List.{list_all};
ghost use Rattle.url.specs.Parser.{parse_url};
ghost use Rattle.lsif.specs.Vertices.{serialized};
ghost use Rattle.positions.specs.Position.{number_limit};
ghost use Rattle.machine.specs.Names.{is_name_of, is_project_name, is_key, is_without_nul, where_so, number_in};
ghost use Rattle.machine.specs.Steps.Names.{is_name_byte};

use positions::NUMBER_LIMIT;
use std::alloc::{AllocError, Global};
use std::marker::Model;
use url::{ParseError, Url};

/// The most characters of a project's name and of a key, a limit of this server.
const LONGEST_NAME: usize = 64;

/// What a text is a name of.
#[derive(Clone, Copy)]
enum Named {
    Project,
    Command,
}

/// Whether names of this kind may have the byte.
fn is_name_byte(named: Named, byte: u8) -> bool
    ensures { result ≡ is_name_byte named byte }
{
    let is_project_byte = byte.is_ascii_lowercase()
        || byte.is_ascii_digit()
        || byte == b'_'
        || byte == b'-';
    match named {
        Named::Project => is_project_byte,
        Named::Command => is_project_byte || byte.is_ascii_uppercase(),
    }
}

fn are_name_bytes(named: Named, bytes: &[u8]) -> bool
    ensures { result ≡ list_all (is_name_byte named) bytes.now }
{
    bytes.iter().all(|byte| is_name_byte(named, *byte))
}

/// Whether the text has the form of a name of this kind.
fn is_name(named: Named, text: &str) -> bool
    ensures { result ≡ is_name_of (is_name_byte named) text.now }
{
    !text.is_empty() && text.len() <= LONGEST_NAME && are_name_bytes(named, text.as_bytes())
}

/// The name of a project: 1 to 64 characters of `a-z 0-9 _ -`.
#[derive(Drop)]
pub struct ProjectName {
    name: String,
}

impl Model for ProjectName {
    ghost use Rattle.std.specs.Prelude.{◌≡◌, ℕ, List, true, string_bytes};
    ghost use Rattle.machine.specs.Names.{is_project_name};

    ghost Value = { List ℕ };

    ghost view = { λ p. string_bytes p.name };

    ghost invariant = { λ p. is_project_name (string_bytes p.name) ≡ true };
}

impl ProjectName {
    ghost use Rattle.std.specs.Prelude.{true};

    /// The name that this text is. None where it isn't of the form.
    pub fn read(alloc: Global, text: &str) -> Result<Option<ProjectName>, AllocError>
        ensures { IfOk result (λ o. o ≡ where_so is_project_name text.now) }
    {
        if !is_name(Named::Project, text) {
            return Ok(None);
        }
        let name = String::from_str(alloc, text)?;
        Ok(Some(ProjectName { name }))
    }

    /// The name's text.
    pub fn as_str(&self) -> &str
        ensures value { result.now ≡ self.now }
        ensures form { is_project_name result.now ≡ true }
    {
        &self.name
    }
}

/// The key of a command: 1 to 64 characters of `A-Z a-z 0-9 _ -`.
#[derive(Drop)]
pub struct Key {
    key: String,
}

impl Model for Key {
    ghost use Rattle.std.specs.Prelude.{◌≡◌, ℕ, List, true, string_bytes};
    ghost use Rattle.machine.specs.Names.{is_key};

    ghost Value = { List ℕ };

    ghost view = { λ k. string_bytes k.key };

    ghost invariant = { λ k. is_key (string_bytes k.key) ≡ true };
}

impl Key {
    ghost use Rattle.std.specs.Prelude.{true};

    /// The key that this text is. None where it isn't of the form.
    pub fn read(alloc: Global, text: &str) -> Result<Option<Key>, AllocError>
        ensures { IfOk result (λ o. o ≡ where_so is_key text.now) }
    {
        if !is_name(Named::Command, text) {
            return Ok(None);
        }
        let key = String::from_str(alloc, text)?;
        Ok(Some(Key { key }))
    }

    /// The key's text.
    pub fn as_str(&self) -> &str
        ensures value { result.now ≡ self.now }
        ensures form { is_key result.now ≡ true }
    {
        &self.key
    }
}

/// Whether the text has no U+0000.
pub fn is_without_nul(text: &str) -> bool
    ensures { result ≡ is_without_nul text.now }
{
    text.as_bytes().iter().all(|byte| *byte != 0)
}

/// The serialized URL of a document. It holds no U+0000.
#[derive(Drop)]
pub struct DocUri {
    uri: String,
}

impl Model for DocUri {
    ghost use Rattle.std.specs.Prelude.{◌≡◌, ℕ, List, true, string_bytes};
    ghost use Rattle.machine.specs.Names.{is_without_nul};

    ghost Value = { List ℕ };

    ghost view = { λ d. string_bytes d.uri };

    ghost invariant = { λ d. is_without_nul (string_bytes d.uri) ≡ true };
}

impl DocUri {
    ghost use Rattle.std.specs.Prelude.{true};

    /// The URL that this text spells, serialized (URL Standard, "URL serializing"). None where it
    /// spells none.
    pub fn read(alloc: Global, text: &str) -> Result<Option<DocUri>, AllocError>
        ensures { IfOk result (λ o. o ≡ option_and_then (where_so is_without_nul) (serialized (parse_url None text.now))) }
    {
        match Url::parse(alloc, text) {
            Ok(url) => {
                if !is_without_nul(url.as_str()) {
                    return Ok(None);
                }
                let uri = String::from_str(alloc, url.as_str())?;
                Ok(Some(DocUri { uri }))
            }
            Err(ParseError::OutOfMemory | ParseError::Overflow) => Err(AllocError),
            Err(_) => Ok(None),
        }
    }

    /// The serialized URL.
    pub fn as_str(&self) -> &str
        ensures value { result.now ≡ self.now }
        ensures form { is_without_nul result.now ≡ true }
    {
        &self.uri
    }
}

/// The number that a text spells: decimal digits without leading zeros (zero is `0`), at most
/// 2147483647. None where it isn't of this form.
pub fn read_number(text: &str) -> Option<u32>
    ensures value { result ≡ number_in text.now }
    ensures below { IfSome result (λ n. n < number_limit) }
{
    match text.as_bytes() {
        [b'0'] => Some(0),
        [b'1'..=b'9', ..] => {
            let number: u32 = text.parse().ok()?;
            if number < NUMBER_LIMIT {
                Some(number)
            } else {
                None
            }
        }
        _ => None,
    }
}
