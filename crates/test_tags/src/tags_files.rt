//! Tags files that are read or counted, their faults and their limits; and the parts of lines.
use std::alloc::{AllocError, Global};
use std::test::Fail;
use streams::Counted;
use tags::{
    Code, CountFault, LineFault, Part, SplitFault, Tag, TagReader, TagsFault, count_tags,
    escape_law, grammar_law, lines_law, read_tags, reading_law, split, state_law, text_law,
};

/// Texts, and the number of their tags, or the first faulty line and its code. `␉` represents a
/// tab, `␊` LF, `␍` CR and `␡` DEL.
const TEXTS: &str = r#"
 => 0
x␉f.c␉1␍␊ => 1
x␉f.c␉2147483647 => 1
x␉f.c␉?a/b?␊ => 1
x␉f.c␉//;"␊ => 1
x␉f.c␉/a\\/␊ => 1
x␉f.c␉/a\/␉b/;"␉f␊ => 1
b␉f.c␉2␊a␉f.c␉1␊ => 2
!_TAG_FILE_SORTED␉1␉//␊a␉f.c␉1␊a␉f.c␉2␊ => 2
!_TAG_FILE_SORTED␉1␉␊!_TAG_FILE_SORTED␉2␉␊b␉f␉1␊a␉f␉1␊ => 2
!_TAG_FILE_SORTED␉1␉␊A\\␉f␉1␊A\a␉f␉1␊ => 2
!_TAG_FILE_FORMAT␉2␉\q␊!_TAG_FILE_FORMAT2␉1␉␊ => 0
!\x5fTAG_X␉f␉1␊x␉f␉1␊ => 2
x␉f.c␉1␍ => 1 T03
x␡␉f.c␉1␊ => 1 T03
␊ => 1 T04
x␉f.c␊ => 1 T04
x␉␉1␊ => 1 T04
!_TAG_X␉␊ => 1 T04
\q␉f.c␉1␊ => 1 T05
\x00␉f.c␉1␊ => 1 T05
x␉\x80␉/␊ => 1 T05
x␉f.c␉1;"␉a:\q␉␊ => 1 T05
x␉f.c␉1;"␉1a:\q␊ => 1 T05
x␉f.c␉010␊ => 1 T06
x␉f.c␉2147483648␊ => 1 T06
x␉f.c␉10;/x;"␊ => 1 T06
x␉f.c␉1;"f␊ => 1 T06
x␉f.c␉1;"␉f␉kind:g␊ => 1 T07
x␉f.c␉1;"␉␊ => 1 T07
x␉f.c␉1;"␉kind:␊ => 1 T07
x␉f.c␉1;"␉a\q:b␊ => 1 T07
!_TAG_FILE_FORMAT␉␉␊ => 1 T08
x␉f.c␉1␊!_TAG_FILE_FORMAT␉1␉␊ => 2 T08
x␉f.c␉1␊!_TAG_X␉␉␊ => 2 T09
!_TAG_FILE_SORTED␉1␉//␊b␉f.c␉2␊a␉f.c␉1␊ => 3 T10
!_TAG_FILE_SORTED␉1␉//␊aa␉f.c␉2␊a␉f.c␉1 => 3 T10
"#;

/// What the codes are called, and their texts.
const CODES: &str = r#"
T01 line too long
T02 not UTF-8
T03 control character
T04 fewer than three parts
T05 bad escape
T06 bad address
T07 bad field
T08 format is not 2
T09 pseudo-tag after a tag
T10 names descend
T11 too many lines
"#;

/// The number of tags that are counted in these bytes.
fn check(alloc: Global, text: &[u8]) -> Result<u32, CountFault> {
    count_tags(alloc, &mut Counted::new(text))
}

/// The number of tags that are read of a text.
fn count(alloc: Global, text: &str) -> Result<u32, CountFault> {
    match read_tags(alloc, text.as_bytes()) {
        Ok(tags) => Ok(u32::try_from(tags.len()).unwrap_or(u32::MAX)),
        Err(TagsFault::Line(fault)) => Err(CountFault::Line(fault)),
        Err(TagsFault::Memory) => Err(CountFault::Memory),
    }
}

/// The faulty line, where an answer names one.
fn line_fault(fault: Option<TagsFault>) -> Option<LineFault> {
    match fault {
        Some(TagsFault::Line(fault)) => Some(fault),
        _ => None,
    }
}

/// The fault of a text.
fn fault(alloc: Global, text: &[u8]) -> Option<LineFault> {
    line_fault(read_tags(alloc, text).err())
}

/// The number of a text's tags, or its first faulty line and the code.
fn verdict(alloc: Global, text: &str) -> Result<String, AllocError> {
    let kept = count(alloc, text);
    if check(alloc, text.as_bytes()) != kept {
        return String::from_str(
            alloc,
            "one where tags are kept, and another where they are counted",
        );
    }
    match kept {
        Ok(tags) => format!(in alloc; "{tags}"),
        Err(CountFault::Line(fault)) => {
            let (line, code) = (fault.line, fault.code.name());
            format!(in alloc; "{line} {code}")
        }
        Err(fault) => format!(in alloc; "{fault}"),
    }
}

/// The text that a row's signs represent.
fn text_of(alloc: Global, signs: &str) -> Result<String, AllocError> {
    let mut text = String::new(alloc);
    for sign in signs.chars() {
        text.push(match sign {
            '␉' => '\t',
            '␊' => '\n',
            '␍' => '\r',
            '␡' => '\u{7f}',
            _ => sign,
        })?;
    }
    Ok(text)
}

/// Adds the row of a text to those so far, with what is found.
fn push_row(alloc: Global, rows: &mut String, signs: &str) -> Result<(), AllocError> {
    rows.push_str(signs)?;
    rows.push_str(" => ")?;
    let text = text_of(alloc, signs)?;
    rows.push_str(verdict(alloc, text.as_str())?.as_str())?;
    rows.push('\n')
}

/// The rows of a table, with what is found of each.
fn rows_of(alloc: Global, table: &str) -> Result<String, AllocError> {
    let mut rows = String::new(alloc);
    for row in table.lines() {
        if let Some((signs, _)) = row.split_once(" => ") {
            push_row(alloc, &mut rows, signs)?;
        }
    }
    Ok(rows)
}

#[test]
fn accepted_and_refused(rt: HostRuntime) -> Result<(), Fail> {
    let rows = rows_of(rt.alloc(), TEXTS)?;
    assert_eq!(rt; rows.as_str(), TEXTS.trim_start_matches('\n'));
    Ok(())
}

#[test]
fn not_utf_8(rt: HostRuntime) {
    let found = fault(rt.alloc(), b"x\tf.c\t1\n\xff\t");
    let code = Code::T02;
    assert_eq!(rt; found, Some(LineFault { line: 2, code }));
}

/// Adds a tag as a line: its line's number, name, file, address and kind, which is `-` where
/// there's none, and its fields.
fn push_tag(alloc: Global, text: &mut String, tag: &Tag) -> Result<(), AllocError> {
    let (line, name, file) = (tag.line, tag.name.as_str(), tag.file.as_str());
    let (address, kind) = (tag.address.as_str(), tag.kind.as_deref().unwrap_or("-"));
    text.push_str(format!(in alloc; "{line} {name} {file} {address} {kind}")?.as_str())?;
    for field in tag.fields.iter() {
        text.push(' ')?;
        text.push_str(field.name.as_str())?;
        text.push(':')?;
        text.push_str(field.value.as_str())?;
    }
    text.push('\n')
}

/// The tags as lines.
fn shown(alloc: Global, tags: &[Tag]) -> Result<String, AllocError> {
    let mut text = String::new(alloc);
    for tag in tags {
        push_tag(alloc, &mut text, tag)?;
    }
    Ok(text)
}

/// The tags that are read of a text, as lines.
fn read(alloc: Global, text: &str) -> Result<String, TagsFault> {
    let tags = read_tags(alloc, text.as_bytes())?;
    Ok(shown(alloc, &tags)?)
}

#[test]
fn worked_tags(rt: HostRuntime) -> Result<(), Fail> {
    let text =
        "!_TAG_X\t\t\nx\tf.c\t10;/x/;\"\tkind:f\tclass:\tline:10\na\\x41\\tb\tf.c\t/a\\/b/;\"\tf\n";
    let wanted = "2 x f.c 10;/x/ f class: line:10\n3 aA\tb f.c /a\\/b/ f\n";
    assert_eq!(rt; read(rt.alloc(), text)?.as_str(), wanted);
    Ok(())
}

#[test]
fn escapes(rt: HostRuntime) -> Result<(), Fail> {
    let text = "\\r\\n\\\\\\a\\b\\v\\f\\x7F\tf.c\t1\n";
    let wanted = "1 \r\n\\\u{7}\u{8}\u{b}\u{c}\u{7f} f.c 1 -\n";
    assert_eq!(rt; read(rt.alloc(), text)?.as_str(), wanted);
    Ok(())
}

/// The first text, and then 69 fields, each after a separator.
fn fields(alloc: Global, first: &str, separator: char) -> Result<String, AllocError> {
    let mut text = String::from_str(alloc, first)?;
    for number in 0..69 {
        text.push_str(format!(in alloc; "{separator}name{number}:value{number}")?.as_str())?;
    }
    Ok(text)
}

/// A line of many fields doesn't run out of memory.
#[test]
fn many_fields(rt: HostRuntime) -> Result<(), Fail> {
    let text = fields(rt.alloc(), "x\tf.c\t1;\"\tf", '\t')?;
    let found = read(rt.alloc(), text.as_str())?;
    let wanted = fields(rt.alloc(), "1 x f.c 1 f", ' ')?;
    assert_eq!(rt; found.as_str().trim_end_matches('\n'), wanted.as_str());
    Ok(())
}

#[test]
fn many_fields_counted(rt: HostRuntime) -> Result<(), Fail> {
    let text = fields(rt.alloc(), "x\tf.c\t1;\"\tf", '\t')?;
    assert_eq!(rt; check(rt.alloc(), text.as_bytes()), Ok(1));
    Ok(())
}

/// Feeds a reader so many pseudo-tags.
fn feed_reader(reader: &mut TagReader, times: u32) -> Result<(), TagsFault> {
    for _ in 0..times {
        reader.feed(Ok(b"!_TAG_X\t\t\r"), true)?;
    }
    Ok(())
}

/// What a reader of 100,000 lines says of one more, of one that is too long, and at the end.
fn over_in_a_reader(alloc: Global) -> Result<[Option<LineFault>; 3], TagsFault> {
    let mut reader = TagReader::new(alloc);
    feed_reader(&mut reader, 100000)?;
    let more = line_fault(reader.feed(Ok(b"!_TAG_X\t\t"), false).err());
    let too_long = line_fault(reader.feed(Err(Code::T01), false).err());
    Ok([more, too_long, line_fault(reader.finish().err())])
}

/// The number of tags of lines that a reader is fed.
fn read_lines(alloc: Global, lines: &[&[u8]], ended: bool) -> Result<usize, TagsFault> {
    let mut reader = TagReader::new(alloc);
    for line in lines {
        reader.feed(Ok(*line), ended)?;
    }
    Ok(reader.finish()?.len())
}

#[test]
fn limits(rt: HostRuntime) -> Result<(), Fail> {
    let code = Code::T11;
    let over = Some(LineFault { line: 100001, code });
    assert_eq!(rt; over_in_a_reader(rt.alloc())?, [over, over, over]);
    let long = [b'x'; 65537];
    let longest = line_fault(read_lines(rt.alloc(), &[&long[..65536]], false).err());
    let code = Code::T04;
    assert_eq!(rt; longest, Some(LineFault { line: 1, code }));
    let code = Code::T01;
    assert_eq!(rt; fault(rt.alloc(), &long), Some(LineFault { line: 1, code }));
    assert_eq!(rt; read_lines(rt.alloc(), &[b"x\tf.c\t1"], false), Ok(1));
    escape_law();
    grammar_law();
    lines_law();
    reading_law();
    state_law();
    text_law();
    Ok(())
}

/// The first faulty line where tags are counted.
fn counted_fault(alloc: Global, text: &[u8]) -> Option<LineFault> {
    match check(alloc, text) {
        Err(CountFault::Line(fault)) => Some(fault),
        _ => None,
    }
}

/// 100,000 lines, the last a tag, and then a line of so many bytes.
fn one_more(alloc: Global, length: usize) -> Result<Vec<u8>, AllocError> {
    let mut text = Vec::new(alloc);
    for _ in 0..99999 {
        text.extend_from_slice(b"!_TAG_X\t\t\r\n")?;
    }
    text.extend_from_slice(b"x\tf.c\t1\n!_TAG_X\t\t")?;
    for _ in 9..length {
        text.push(b'x')?;
    }
    Ok(text)
}

#[test]
fn limits_where_tags_are_counted(rt: HostRuntime) -> Result<(), Fail> {
    let (code, line) = (Code::T09, 100001);
    let more = one_more(rt.alloc(), 9)?;
    assert_eq!(rt;
        counted_fault(rt.alloc(), &more),
        Some(LineFault { line, code })
    );
    let code = Code::T01;
    let too_long = one_more(rt.alloc(), 65537)?;
    assert_eq!(rt;
        counted_fault(rt.alloc(), &too_long),
        Some(LineFault { line, code })
    );
    let found = counted_fault(rt.alloc(), &[b'x'; 65537]);
    assert_eq!(rt; found, Some(LineFault { line: 1, code }));
    let code = Code::T02;
    let found = counted_fault(rt.alloc(), b"x\tf.c\t\xff\n");
    assert_eq!(rt; found, Some(LineFault { line: 1, code }));
    assert_eq!(rt; check(rt.alloc(), b"aaa\tf\t1\nb\tf\t1\ncc\tf\t1\n"), Ok(3));
    Ok(())
}

/// A part of these bytes, from the first place to before the second.
fn part(text: &[u8], from: usize, to: usize) -> Part<'_> {
    Part { text, from, to }
}

#[test]
fn parts(rt: HostRuntime) -> Result<(), Fail> {
    let wanted = [
        part(b"x", 0, 1),
        part(b"f.c", 2, 5),
        part(b"1;/\t/", 6, 11),
        part(b"f", 14, 15),
        part(b"", 16, 16),
        part(b"a:b", 17, 20),
    ];
    let parts = split(rt.alloc(), b"x\tf.c\t1;/\t/;\"\tf\t\ta:b")?;
    assert_eq!(rt; parts.as_slice(), wanted.as_slice());
    Ok(())
}

/// The code of a line that has no parts.
fn split_code(alloc: Global, line: &[u8]) -> Option<Code> {
    match split(alloc, line).err() {
        Some(SplitFault::Line(code)) => Some(code),
        _ => None,
    }
}

#[test]
fn no_parts(rt: HostRuntime) {
    assert_eq!(rt; split_code(rt.alloc(), b"x\t\t1"), Some(Code::T04));
    assert_eq!(rt; split_code(rt.alloc(), b"x\tf\t01"), Some(Code::T06));
}

/// The codes and their texts, as lines.
fn codes(alloc: Global, all: &[Code]) -> Result<String, AllocError> {
    let mut text = String::new(alloc);
    for code in all {
        text.push_str(code.name())?;
        text.push(' ')?;
        text.push_str(code.text())?;
        text.push('\n')?;
    }
    Ok(text)
}

#[test]
fn texts(rt: HostRuntime) -> Result<(), Fail> {
    use Code::{T01, T02, T03, T04, T05, T06, T07, T08, T09, T10, T11};
    let all = [T01, T02, T03, T04, T05, T06, T07, T08, T09, T10, T11];
    let text = codes(rt.alloc(), &all)?;
    assert_eq!(rt; text.as_str(), CODES.trim_start_matches('\n'));
    Ok(())
}
