//! Dumps and tags files that are put into tables as their texts have them.
use dump::CheckedDump;
use flatten::flatten;
use lsif::Profile;
use samples::dump_of;
use sqlite::Alter;
use std::alloc::Global;
use std::test::Fail;
use tables::{Tables, TablesFault};
use tags::{Tag, read_tags};

/// The tags of this text, which has no fault.
pub fn tags_of(alloc: Global, text: &str) -> Result<Vec<Tag>, Fail> {
    match read_tags(alloc, text.as_bytes()) {
        Ok(tags) => Ok(tags),
        Err(_) => Err("a fault")?,
    }
}

/// Puts this dump.
fn put_checked<S: Alter>(
    alloc: Global,
    tables: &mut Tables<S>,
    project: &str,
    key: &str,
    dump: &CheckedDump,
) -> Result<Result<(), TablesFault>, Fail> {
    let count = dump.elements().len();
    let reply = format!(in alloc; "{{\"accepted\":\"lsif\",\"count\":{count}}}")?;
    let rows = flatten(alloc, dump)?;
    Ok(tables.replace_dump(project, key, &reply, &rows))
}

/// Puts the dump of this text.
pub fn put_dump<S: Alter>(
    alloc: Global,
    tables: &mut Tables<S>,
    project: &str,
    key: &str,
    profile: Profile,
    text: &str,
) -> Result<Result<(), TablesFault>, Fail> {
    let dump = dump_of(alloc, profile, text)?;
    put_checked(alloc, tables, project, key, &dump)
}

/// Puts the two tags of this text.
pub fn put_tags<S: Alter>(
    alloc: Global,
    tables: &mut Tables<S>,
    project: &str,
    key: &str,
    text: &str,
) -> Result<Result<(), TablesFault>, Fail> {
    let tags = tags_of(alloc, text)?;
    let reply = r#"{"accepted":"tags","count":2}"#;
    Ok(tables.replace_tags(alloc, project, key, reply, &tags))
}
