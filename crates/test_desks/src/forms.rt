//! Names, keys, URLs and numbers as they are read; codes and their replies; and what a command is
//! of.
use crate::asserts::{expect_equal, expect_equal_text};
use crate::desks::{project, text_of};
use desk::{Code, Command, DocUri, Key, ProjectName, Reply, read_number};
use lsif::Profile;
use machine::is_without_nul;
use samples::{parted, there};
use std::alloc::{AllocError, Global};
use std::test::Fail;

/// The project and the key of a command.
fn words_of_a_command(alloc: Global) -> Result<String, Fail> {
    let project = project(alloc, "app")?;
    let key = there(Key::read(alloc, "K-1")?, "no key")?;
    let command = Command::Remove { project, key };
    let words = format!(in alloc; "{} {}", command.project().as_str(), command.key().as_str());
    drop(command);
    Ok(words?)
}

/// The status of a code and the reply that it refuses with.
fn refusal(alloc: Global, code: Code) -> Result<String, Fail> {
    let reply = Reply::refused(code);
    let text = text_of(alloc, &reply);
    drop(reply);
    Ok(format!(in alloc; "{}, {}", code.status(), text?)?)
}

/// The numbers of these profiles, 0 for none.
fn numbers(alloc: Global, profiles: &[Option<Profile>]) -> Result<String, AllocError> {
    let mut text = String::new(alloc);
    for profile in profiles {
        let number = match profile {
            Some(profile) => profile.number(),
            None => 0,
        };
        write!(text, " {number}")?;
    }
    Ok(text)
}

/// The profiles of texts and of numbers.
fn found_profiles(alloc: Global) -> Result<String, Fail> {
    let mut named = Vec::new(alloc);
    for text in &["1", "2", "3", "01", "+1", ""] {
        named.push(Profile::named(text))?;
    }
    let mut numbered = Vec::new(alloc);
    for number in 0..4 {
        numbered.push(Profile::numbered(number))?;
    }
    let named = numbers(alloc, &named)?;
    let numbered = numbers(alloc, &numbered)?;
    Ok(format!(in alloc; "named{named}, numbered{numbered}")?)
}

/// The project and the key of a command, the profiles of texts and of numbers, and the statuses of
/// the codes and the replies that they refuse with.
fn found_texts(alloc: Global) -> Result<String, Fail> {
    let words = words_of_a_command(alloc)?;
    let profiles = found_profiles(alloc)?;
    let mut found = format!(in alloc; "{words}\n{profiles}\n")?;
    for code in &[Code::D01, Code::D02, Code::S01, Code::S02] {
        write!(found, "{}\n", refusal(alloc, *code)?)?;
    }
    Ok(found)
}

#[test]
fn replies_of_codes(rt: HostRuntime) -> Result<(), Fail> {
    let wanted = r#"app K-1
named 1 2 0 0 0 0, numbered 0 1 2 0
404, 404 {"fault":"D01","text":"project has no dump"}
404, 404 {"fault":"D02","text":"no such document"}
503, 503 {"fault":"S01","text":"store refused"}
503, 503 {"fault":"S02","text":"out of memory"}
503 {"fault":"S02","text":"out of memory"}"#;
    let found = found_texts(rt.alloc())?;
    let last = text_of(rt.alloc(), &Reply::out_of_memory())?;
    let found = format!(in rt.alloc(); "{found}{last}")?;
    expect_equal_text(&rt, found.as_str(), wanted, "codes");
    Ok(())
}

/// Texts, and what they are read as: a project's name, a key, a document's URL or a number; `-`
/// where they are none.
const FORMS: &str =
    "project abcdefghijklmnopqrstuvwxyz0123456789_-abcdefghijklmnopqrstuvwxyz => abcdefghijklmnopqrstuvwxyz0123456789_-abcdefghijklmnopqrstuvwxyz
project abcdefghijklmnopqrstuvwxyz0123456789_-abcdefghijklmnopqrstuvwxyza => -
project  => -
project A => -
project a.b => -
project a b => -
project é => -
key Az0_- => Az0_-
key abcdefghijklmnopqrstuvwxyz0123456789_-abcdefghijklmnopqrstuvwxyz => abcdefghijklmnopqrstuvwxyz0123456789_-abcdefghijklmnopqrstuvwxyz
key abcdefghijklmnopqrstuvwxyz0123456789_-abcdefghijklmnopqrstuvwxyza => -
key  => -
key a.b => -
key a/b => -
key é => -
url FILE:///a/../b.ts => file:///b.ts
url a.ts => -
number 0 => 0
number 10 => 10
number 2147483647 => 2147483647
number  => -
number 00 => -
number 01 => -
number +1 => -
number -1 => -
number 1  => -
number 1a => -
number 2147483648 => -
number 4294967296 => -
";

/// What a text of this kind is read as.
fn read_as(alloc: Global, kind: &str, text: &str) -> Result<String, Fail> {
    let read = match kind {
        "project" => match ProjectName::read(alloc, text)? {
            Some(name) => Some(String::from_str(alloc, name.as_str())?),
            None => None,
        },
        "key" => match Key::read(alloc, text)? {
            Some(key) => Some(String::from_str(alloc, key.as_str())?),
            None => None,
        },
        "url" => match DocUri::read(alloc, text)? {
            Some(uri) => Some(String::from_str(alloc, uri.as_str())?),
            None => None,
        },
        _ => match read_number(text) {
            Some(number) => Some(format!(in alloc; "{number}")?),
            None => None,
        },
    };
    match read {
        Some(read) => Ok(read),
        None => Ok(String::from_str(alloc, "-")?),
    }
}

#[test]
fn forms_of_names_and_numbers(rt: HostRuntime) -> Result<(), Fail> {
    for row in FORMS.lines() {
        let (short, wanted) = parted(row, " => ")?;
        let (kind, text) = parted(short, " ")?;
        let found = read_as(rt.alloc(), kind, text)?;
        expect_equal_text(&rt, found.as_str(), wanted, short);
    }
    Ok(())
}

#[test]
fn texts_with_nul(rt: HostRuntime) -> Result<(), Fail> {
    for (text, wanted) in &[("", true), ("a", true), ("a\0", false), ("\0", false)] {
        expect_equal(&rt, &is_without_nul(text), wanted, text);
    }
    Ok(())
}
