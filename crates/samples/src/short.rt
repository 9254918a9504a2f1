//! Dumps whose lines are written in short, and their texts.
use crate::found::{parted, there};
use crate::named::SAMPLES;
use dump::{CheckedDump, read_dump};
use lsif::Profile;
use std::alloc::{AllocError, Global};
use std::test::Fail;
use streams::Counted;

/// The texts before and after an id.
pub type Marks = (&'static str, &'static str);

/// Ids that are numbers, which have a slot in the table of ids.
pub const NUMBERS: Marks = ("", "");

/// Ids that are greater numbers, which have none.
pub const GREAT_NUMBERS: Marks = ("9007199254", "");

/// Ids that are texts.
pub const TEXTS: Marks = ("\"", "\"");

/// A position that is given as `0:4`.
fn position(alloc: Global, short: &str) -> Result<String, Fail> {
    let (line, character) = parted(short, ":")?;
    Ok(format!(in alloc; "{{'line':{line},'character':{character}}}")?)
}

/// The positions of a range.
fn range_members(alloc: Global, start: &str, end: &str) -> Result<String, Fail> {
    let start = position(alloc, start)?;
    let end = position(alloc, end)?;
    Ok(format!(in alloc; ",'start':{start},'end':{end}")?)
}

/// The kind, the scheme and the identifier of a moniker.
fn moniker_members(alloc: Global, kind: &str, rest: &str) -> Result<String, Fail> {
    let (scheme, identifier) = parted(rest, " ")?;
    Ok(format!(in alloc; ",'kind':'{kind}','scheme':'{scheme}','identifier':'{identifier}'")?)
}

/// The manager, the name and the version of a package.
fn package_members(alloc: Global, manager: &str, rest: &str) -> Result<String, Fail> {
    let (name, version) = parted(rest, " ")?;
    Ok(format!(in alloc; ",'manager':'{manager}','name':'{name}','version':'{version}'")?)
}

/// The members of a vertex of one of these labels, which has one or two values.
fn simple_members(
    alloc: Global,
    label: &str,
    short: &str,
    (first, second): (&str, &str),
) -> Result<String, AllocError> {
    let (before, one, between, two, behind) = match label {
        "metaData" if second.is_empty() => (",'version':'", first, "'", "", ""),
        "metaData" => (",'version':'", first, "','positionEncoding':'", second, "'"),
        "document" => (",'uri':'", short, "'", "", ""),
        "hoverResult" => (",'result':{'contents':", short, "}", "", ""),
        _ => (
            ",'scope':'document','kind':'",
            first,
            "','data':<",
            second,
            ">",
        ),
    };
    format!(in alloc; "{before}{one}{between}{two}{behind}")
}

/// The members of a vertex besides its id, type and label.
fn vertex_members(alloc: Global, label: &str, short: &str) -> Result<String, Fail> {
    if short.is_empty() {
        return Ok(String::new(alloc));
    }
    if short.starts_with('\'') {
        return Ok(format!(in alloc; ",{short}")?);
    }
    let (first, second) = short.split_once(' ').unwrap_or((short, ""));
    match label {
        "metaData" | "document" | "hoverResult" | "$event" => {
            Ok(simple_members(alloc, label, short, (first, second))?)
        }
        "range" => range_members(alloc, first, second),
        "moniker" => moniker_members(alloc, first, second),
        "packageInformation" => package_members(alloc, first, second),
        _ => Err(Fail::from("no such members")),
    }
}

/// The targets of an edge: one, as `5`, or a list, as `[5,6]`.
fn targets(alloc: Global, short: &str) -> Result<String, Fail> {
    let Some(list) = short.strip_prefix('[') else {
        return Ok(format!(in alloc; ",'inV':<{short}>")?);
    };
    if list == "]" {
        return Ok(String::from_str(alloc, ",'inVs':[]")?);
    }
    let list = list.replace(alloc, ",", ">,<")?;
    let list = list.replace(alloc, "]", ">]")?;
    Ok(format!(in alloc; ",'inVs':[<{list}")?)
}

/// The property and the shard of an `item` edge, as `references @2`; or other members in full.
fn further_members(alloc: Global, short: &str) -> Result<String, Fail> {
    if short.is_empty() {
        return Ok(String::new(alloc));
    }
    let Some((property, shard)) = short.split_once('@') else {
        return Ok(format!(in alloc; ",{short}")?);
    };
    match property.split_once(' ') {
        Some((name, _)) => Ok(format!(in alloc; ",'property':'{name}','shard':<{shard}>")?),
        None => Ok(format!(in alloc; ",'shard':<{shard}>")?),
    }
}

/// The members of an edge besides its id, type and label.
fn edge_members(alloc: Global, source: &str, short: &str) -> Result<String, Fail> {
    let (ends, rest) = short.split_once(' ').unwrap_or((short, ""));
    let targets = targets(alloc, ends)?;
    let further = further_members(alloc, rest)?;
    Ok(format!(in alloc; ",'outV':<{source}>{targets}{further}")?)
}

/// An element in full, but for its marks: `'` for a quotation mark, and `<3>` where an id is named.
fn element(alloc: Global, id: &str, short: &str) -> Result<String, Fail> {
    let (label, rest) = short.split_once(' ').unwrap_or((short, ""));
    let (kind, members) = match rest.split_once('>') {
        Some((source, rest)) => ("edge", edge_members(alloc, source, rest)?),
        None => ("vertex", vertex_members(alloc, label, rest)?),
    };
    Ok(format!(in alloc; "{{'id':<{id}>,'type':'{kind}','label':'{label}'{members}}}")?)
}

/// An element whose id comes before it.
fn named_element(alloc: Global, short: &str) -> Result<String, Fail> {
    let (id, rest) = parted(short, " ")?;
    element(alloc, id, rest)
}

/// An element whose id is the line's number.
fn numbered_element(alloc: Global, number: usize, short: &str) -> Result<String, Fail> {
    let id = format!(in alloc; "{number}")?;
    element(alloc, id.as_str(), short)
}

/// The line of this number, written in short, but for its marks.
fn marked_line(alloc: Global, number: usize, short: &str) -> Result<String, Fail> {
    if short.is_empty() || short.starts_with('{') {
        return Ok(String::from_str(alloc, short)?);
    }
    match short.strip_prefix('#') {
        Some(rest) => named_element(alloc, rest),
        None => numbered_element(alloc, number, short),
    }
}

/// Adds a character, or what a mark represents.
fn push_marked(text: &mut String, c: char, (before, behind): Marks) -> Result<(), AllocError> {
    match c {
        '\'' => text.push('"'),
        '<' => text.push_str(before),
        '>' => text.push_str(behind),
        _ => text.push(c),
    }
}

/// Adds the line of this number, written in short: `document file:///a.ts`, `range 0:0 0:4`,
/// `hoverResult "f"`, `moniker import npm f`, `packageInformation npm f 1.0`, `$event begin 2`,
/// `next 3>5`, `contains 2>[3,4]`, `item 5>[6] references @2`, where `@2` is the shard; or a label
/// and all members, as `project 'name':'a'`. The id is the line's number, unless it comes before,
/// as in `#3 resultSet`. A line that is empty or begins with `{` is written as it is, but for its
/// marks. Ids are between these marks.
pub fn push_line(text: &mut String, number: usize, short: &str, marks: Marks) -> Result<(), Fail> {
    let line = marked_line(*text.allocator(), number, short)?;
    for c in line.chars() {
        push_marked(text, c, marks)?;
    }
    Ok(text.push('\n')?)
}

/// Adds a line that is made for it, between the marks of numbers.
pub fn push_made(
    text: &mut String,
    number: usize,
    short: Result<String, AllocError>,
) -> Result<(), Fail> {
    let short = short?;
    push_line(text, number, short.as_str(), NUMBERS)
}

/// The text of a dump whose lines are written in short.
pub fn text_of(alloc: Global, dump: &str) -> Result<String, Fail> {
    let mut text = String::new(alloc);
    for (k, line) in dump.lines().enumerate() {
        push_line(&mut text, k.saturating_add(1), line, NUMBERS)?;
    }
    Ok(text)
}

/// Replaces a line by the text after its number, or adds that after the last line.
fn change_line(lines: &mut Vec<&'static str>, change: &'static str) -> Result<(), Fail> {
    let (number, line) = change.split_once(' ').unwrap_or((change, ""));
    let place = there(number.parse::<usize>()?.checked_sub(1), "no line 0")?;
    match lines.get_mut(place) {
        Some(old) => *old = line,
        None => lines.push(line)?,
    }
    Ok(())
}

/// The lines of a dump with other lines: after each number the new line. A number beyond the last
/// line adds one.
fn changed_lines(
    alloc: Global,
    dump: &'static str,
    changes: &'static str,
) -> Result<Vec<&'static str>, Fail> {
    let mut lines: Vec<&str> = dump.lines().collect(alloc)?;
    for change in changes.split_terminator(" | ") {
        change_line(&mut lines, change)?;
    }
    Ok(lines)
}

/// The text of a dump with other lines, where `-` represents none. The other lines keep their ids.
pub fn changed(
    alloc: Global,
    dump: &'static str,
    changes: &'static str,
    marks: Marks,
) -> Result<String, Fail> {
    let lines = changed_lines(alloc, dump, changes)?;
    let mut text = String::new(alloc);
    for (k, line) in lines.iter().enumerate() {
        if *line != "-" {
            push_line(&mut text, k + 1, line, marks)?;
        }
    }
    Ok(text)
}

/// The dump of this name, whose lines are written in short.
fn sample(name: &str) -> Result<&'static str, Fail> {
    for &(known, dump) in SAMPLES {
        if known == name {
            return Ok(dump);
        }
    }
    Err(Fail::from("no dump of this name"))
}

/// The text of a dump that is given by its name, and after ` | ` by each line that is another.
pub fn dump_text(alloc: Global, short: &'static str) -> Result<String, Fail> {
    let (name, changes) = short.split_once(" | ").unwrap_or((short, ""));
    changed(alloc, sample(name)?, changes, NUMBERS)
}

/// The dump of this text, which has no fault.
pub fn dump_of(alloc: Global, profile: Profile, text: &str) -> Result<CheckedDump, Fail> {
    match read_dump(alloc, profile, &mut Counted::new(text.as_bytes())) {
        Ok(dump) => Ok(dump),
        Err(_) => Err("a fault")?,
    }
}

/// The dump of a text that is made for it.
pub fn made_dump(
    alloc: Global,
    profile: Profile,
    text: Result<String, Fail>,
) -> Result<CheckedDump, Fail> {
    let text = text?;
    dump_of(alloc, profile, text.as_str())
}
