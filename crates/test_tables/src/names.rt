//! Which tags are found by their names.
use crate::asserts::expect_equal_text;
use machine::FoundTag;
use sample_stores::{opened, put_tags, tags_of};
use samples::there;
use sqlite::{Connection, MemStore};
use std::alloc::Global;
use std::process::Abort;
use std::test::Fail;
use tables::{Tables, TablesFault};

/// The projects, each with its tags file.
const PROJECTS: &[(&str, &str)] = &[
    ("app", "ab\tf.c\t1;\"\tf\tclass:B\\tC\na\tf.c\t/x/\n"),
    ("lib", "a\tg.c\t1\nb\tg.c\t2\n"),
    ("two", "ba\th.c\t1\nbb\th.c\t2\n"),
];

/// A call of the tables: a name and a project that is asked for.
#[derive(Clone, Copy)]
enum Ask {
    Exact(&'static str, Option<&'static str>),
    Prefix(&'static str, Option<&'static str>),
}

/// The projects and lines that are found, in order.
const ROWS: &[(Ask, &str)] = &[
    (Ask::Prefix("a", None), "app 2, lib 1, app 1, "),
    (Ask::Prefix("a", Some("lib")), "lib 1, "),
    (
        Ask::Prefix("", None),
        "app 2, lib 1, app 1, lib 2, two 1, two 2, ",
    ),
    (Ask::Prefix("b", None), "lib 2, two 1, two 2, "),
    (Ask::Prefix("b", Some("two")), "two 1, two 2, "),
    (Ask::Prefix("c", None), ""),
    (Ask::Exact("a", None), "app 2, lib 1, "),
    (Ask::Exact("a", Some("lib")), "lib 1, "),
    (Ask::Exact("a", Some("zed")), ""),
    (Ask::Exact("ab", None), "app 1, "),
    (Ask::Exact("", None), ""),
];

/// The project and the line of each tag.
fn text_of(alloc: Global, found: &[FoundTag]) -> Result<String, Fail> {
    let mut text = String::new(alloc);
    for tag in found {
        let one = format!(in alloc; "{} {}, ", tag.project, tag.tag.line)?;
        text.push_str(one.as_str())?;
    }
    Ok(text)
}

/// What a call finds.
fn answer(
    alloc: Global,
    tables: &mut Tables<MemStore>,
    ask: Ask,
) -> Result<Vec<FoundTag>, TablesFault> {
    match ask {
        Ask::Exact(name, project) => tables.names_exact(alloc, name, project),
        Ask::Prefix(prefix, project) => tables.names_prefix(alloc, prefix, project),
    }
}

/// Whether the tag `ab` is found as it was put, with its fields.
fn has_whole_tag(alloc: Global, tables: &mut Tables<MemStore>) -> Result<bool, Fail> {
    let (_, text) = there(PROJECTS.first(), "no project")?;
    let tags = tags_of(alloc, text)?;
    let found = tables.names_exact(alloc, "ab", Some("app"))?;
    match (found.first(), tags.first()) {
        (Some(found), Some(tag)) => Ok(found.tag == *tag),
        _ => Ok(false),
    }
}

/// The text of what a call finds.
fn found(alloc: Global, tables: &mut Tables<MemStore>, ask: Ask) -> Result<String, Fail> {
    let found = answer(alloc, tables, ask)?;
    text_of(alloc, &found)
}

/// Asserts what the calls find in these tables.
fn expect_found<R: AllocGlobal + Abort>(rt: &R, tables: &mut Tables<MemStore>) -> Result<(), Fail> {
    for (project, text) in PROJECTS {
        put_tags(rt.alloc(), tables, project, project, text)??;
    }
    for (ask, expected) in ROWS {
        let found = found(rt.alloc(), tables, *ask)?;
        expect_equal_text(rt, found.as_str(), *expected, "names");
    }
    assert!(rt; has_whole_tag(rt.alloc(), tables)?);
    Ok(())
}

#[test]
fn names(rt: HostRuntime) -> Result<(), Fail> {
    let mut tables = opened(Connection::open_in_memory(rt.alloc())?)?;
    expect_found(&rt, &mut tables)
}
