//! What is read of lines: an element, or the code of its shape. Ids and ends are in `ends.rt`. A
//! table's row is a part of a line and what is read of it, with `=>` between them: a code, what a
//! vertex or an edge of some labels says, or `an element`; and after a bar what profile 2 reads,
//! where that differs.
use crate::asserts::expect_equal_text;
use lsif::{
    Edge, Element, Id, IdRef, MonikerKind, Profile, ReadFault, RequestKind, Vertex, profile_law,
    read_element,
};
use samples::parted;
use std::alloc::Global;
use std::test::Fail;

const LINES: &str = r#"
{"id" => L02
{"id":"\ud800","type":"vertex","label":"x"} => L02
[] => L03
{} => L03
{"id":1} => L05
{"id":1,"type":"node","label":"range"} => L05
{"id":1,"type":"vertex","label":1} => L05
{"id":1,"type":"edge","label":"x","inV":2} => L08
{"id":1,"type":"edge","label":"x","outV":1} => L08
{"id":1,"type":"edge","label":"x","outV":1,"inV":2} => another edge
{"id":1,"type":"edge","label":"x","outV":1,"inVs":[]} => another edge
{"id":1,"type":"edge","label":"x","outV":1,"inV":2,"inVs":[]} => L08
{"id":1,"type":"edge","label":"contains","outV":1,"inVs":[2,"3"]} => an element
{"id":1,"type":"edge","label":"contains","outV":1,"inV":2} => L08
{"id":1,"type":"edge","label":"contains","outV":1,"inV":null,"inVs":[]} => L08
{"id":1,"type":"edge","label":"contains","outV":1,"inVs":[2,-1]} => L08
{"id":1,"type":"vertex","label":"contains"} => another vertex
 {"id":1,"id":null,"type":"vertex","label":"x"} => L03
"#;

const IDS: &str = r#"
0 => an element
9007199254740991 => an element
"1" => an element
"\u00e9" => an element
"01234567890123456789012345678901234567890123456789012345678901234567890123456789012345678901234567890123456789012345678901234567" => an element
"0123456789012345678901234567890123456789012345678901234567890123456789012345678901234567890123456789012345678901234567890123456789" => L03
9007199254740992 => L03
-0 => L03
-1 => L03
1.0 => L03
1e0 => L03
"" => L03
null => L03
true => L03
[1] => L03
"#;

const VERTICES: &str = r#"
"document" => L07
"document","uri":"no url" => L07
"document","uri":7 => L07
"document","uri":"FILE:///a.ts" => file:///a.ts
"range","start":{"line":0,"character":0} => L07
"range","start":{"line":0,"character":1},"end":{"line":0,"character":0} => L07
"range","start":{"line":0,"character":1},"end":{"line":0,"character":1.0} => L07
"range","start":{"line":0,"character":1},"end":{"line":2147483647,"character":2147483647} => an element
"range","start":{"line":0,"character":1},"end":{"line":2147483648,"character":1} => L07
"metaData","version":"0.6.0" => supported
"metaData","version":"0.6.0","positionEncoding":"utf-16" => supported
"metaData","version":"0.6.0","positionEncoding":"utf-8" => not supported
"metaData","version":"0.6.0","positionEncoding":null => not supported
"metaData","version":"0.5.0" => not supported
"moniker","scheme":"s","identifier":"i" => local
"moniker","scheme":"s","identifier":"i","kind":"import" => import
"moniker","scheme":"s","identifier":"i","kind":"export" => export
"moniker","scheme":"","identifier":"","kind":"local" => local
"moniker","scheme":"s","identifier":"i","kind":"Import" => L07
"moniker","scheme":"s","identifier":"i","kind":null => L07
"moniker","scheme":"s","identifier":null => L07
"moniker","identifier":"i" => L07
"moniker","scheme":"a\u0000","identifier":"i" => L07
"moniker","scheme":"s","identifier":"\u0000b" => L07
"packageInformation","manager":"npm","name":"lib" => no version
"packageInformation","manager":"npm","name":"lib","version":"1.0.0" => 1.0.0
"packageInformation","manager":"npm","name":"lib","version":1 => L07
"packageInformation","manager":"npm","name":"lib","version":"\u0000" => L07
"packageInformation","manager":"npm","version":"1.0.0" => L07
"packageInformation","name":"lib","version":"1.0.0" => L07
"#;

const HOVERS: &str = r#"
"f" => "f"
"a\"\u000ab" => "a\"\nb"
{"value":"f","kind":"plaintext","x":1} => {"kind":"plaintext","value":"f"}
{"kind":"markdown","value":"","language":"c"} => {"kind":"markdown","value":""}
{"kind":"html","value":"f"} => L07
{"kind":"html","language":"c","value":"f"} => L07
{"kind":null,"language":"c","value":"f"} => L07
{"kind":"markdown","value":1} => L07
{"value":"f","x":1.5,"language":"c"} => {"language":"c","value":"f"}
{"language":"c"} => L07
{"value":"f"} => L07
[] => []
[{"value":"f","language":"c","x":1},"d"] => [{"language":"c","value":"f"},"d"]
[{"kind":"html","value":"f","language":"c"}] => [{"language":"c","value":"f"}]
[{"kind":"markdown","value":"f"}] => L07
["d",["d"]] => L07
[1] => L07
null => L07
7 => L07
{} => L07
"#;

const ADDED: &str = r#"
"vertex","label":"declarationResult" => another vertex | a declaration result
"vertex","label":"implementationResult","result":7 => another vertex | an implementation result
"vertex","label":"textDocument/declaration" => another vertex
"vertex","label":"textDocument/implementation" => another vertex
"vertex","label":"declarationresult" => another vertex
"edge","label":"textDocument/declaration","outV":1,"inV":2 => another edge | a declaration from 1 to 2
"edge","label":"textDocument/declaration","outV":"1","inV":2 => another edge | a declaration
"edge","label":"textDocument/declaration","outV":1,"inV":"2" => another edge | a declaration
"edge","label":"textDocument/declaration","outV":1,"inVs":[2] => another edge | L08
"edge","label":"textDocument/declaration","outV":1,"inVs":["2",3] => another edge | L08
"edge","label":"textDocument/declaration","outV":1,"inVs":[] => another edge | L08
"edge","label":"textDocument/declaration","outV":1,"inV":2,"inVs":[2] => L08
"edge","label":"textDocument/declaration","outV":1,"inV":2,"inVs":null => L08
"edge","label":"textDocument/declaration","outV":1,"inV":-1 => L08
"edge","label":"textDocument/declaration","outV":1 => L08
"edge","label":"textDocument/declaration","inV":2 => L08
"edge","label":"textDocument/declaration","outV":null,"inV":2 => L08
"edge","label":"textDocument/implementation","outV":1,"inV":2 => another edge | an implementation from 1 to 2
"edge","label":"textDocument/implementation","outV":"1","inV":2 => another edge | an implementation
"edge","label":"textDocument/implementation","outV":1,"inV":"2" => another edge | an implementation
"edge","label":"textDocument/implementation","outV":1,"inVs":[2] => another edge | L08
"edge","label":"textDocument/implementation","outV":1,"inVs":["2",3] => another edge | L08
"edge","label":"textDocument/implementation","outV":1,"inVs":[] => another edge | L08
"edge","label":"textDocument/implementation","outV":1,"inV":2,"inVs":[2] => L08
"edge","label":"textDocument/implementation","outV":1,"inV":2,"inVs":null => L08
"edge","label":"textDocument/implementation","outV":1,"inV":-1 => L08
"edge","label":"textDocument/implementation","outV":1 => L08
"edge","label":"textDocument/implementation","inV":2 => L08
"edge","label":"textDocument/implementation","outV":null,"inV":2 => L08
"edge","label":"textDocument/definition","outV":1,"inV":2 => an element
"edge","label":"textDocument/definition","outV":1,"inVs":[2] => L08
"edge","label":"textDocument/typeDefinition","outV":1,"inVs":[2] => another edge
"edge","label":"declarationResult","outV":1,"inVs":[2] => another edge
"edge","label":"implementationResult","outV":1,"inV":2 => another edge
"#;

/// What a vertex says, of the labels that the tables ask of.
fn said(vertex: &Vertex) -> &str {
    match vertex {
        Vertex::MetaData(true) => "supported",
        Vertex::MetaData(false) => "not supported",
        Vertex::Document(uri) => uri.as_str(),
        Vertex::HoverResult(contents) => contents.as_str(),
        Vertex::Moniker(moniker) => match moniker.kind {
            MonikerKind::Import => "import",
            MonikerKind::Export => "export",
            MonikerKind::Local => "local",
        },
        Vertex::Package(package) if package.version.is_empty() => "no version",
        Vertex::Package(package) => package.version.as_str(),
        Vertex::Result(RequestKind::Declaration) => "a declaration result",
        Vertex::Result(RequestKind::Implementation) => "an implementation result",
        Vertex::Other => "another vertex",
        _ => "an element",
    }
}

/// Whether these are the numbers 1 and 2.
fn are_one_and_two(from: &Id, to: &Id) -> bool {
    from.lent().is(IdRef::Number(1)) && to.lent().is(IdRef::Number(2))
}

/// What the edge of a request is, and whether it's from 1 to 2.
fn requested(kind: RequestKind, is_from_one_to_two: bool) -> &'static str {
    match (kind, is_from_one_to_two) {
        (RequestKind::Declaration, true) => "a declaration from 1 to 2",
        (RequestKind::Declaration, false) => "a declaration",
        (RequestKind::Implementation, true) => "an implementation from 1 to 2",
        (RequestKind::Implementation, false) => "an implementation",
        _ => "an element",
    }
}

/// What an edge is, of the labels that the tables ask of.
fn joined(edge: &Edge) -> &str {
    match edge {
        Edge::Request(kind, from, to) => requested(*kind, are_one_and_two(from, to)),
        Edge::Other(_, _) => "another edge",
        _ => "an element",
    }
}

/// What the reading of a line says.
fn outcome(reading: &Result<Element, ReadFault>) -> &str {
    match reading {
        Ok(Element::Vertex(_, vertex)) => said(vertex),
        Ok(Element::Edge(_, edge)) => joined(edge),
        Err(ReadFault::Shape(code)) => code.name(),
        Err(ReadFault::Memory) => "out of memory",
    }
}

/// A row of this name, of what is read of the line in both profiles.
fn row(alloc: Global, name: &str, line: &[u8]) -> Result<String, Fail> {
    let first = read_element(alloc, Profile::One, line);
    let second = read_element(alloc, Profile::Two, line);
    let (one, two) = (outcome(&first), outcome(&second));
    if one == two {
        Ok(format!(in alloc; "{name} => {one}\n")?)
    } else {
        Ok(format!(in alloc; "{name} => {one} | {two}\n")?)
    }
}

/// The rows of a table as they are found, where the lines have these texts around the parts.
fn rows(alloc: Global, before: &str, table: &str, after: &str) -> Result<String, Fail> {
    let mut found = String::from_str(alloc, "\n")?;
    for wanted in table.trim_matches('\n').lines() {
        let (part, _) = parted(wanted, " => ")?;
        let line = format!(in alloc; "{before}{part}{after}")?;
        found.push_str(row(alloc, part, line.as_bytes())?.as_str())?;
    }
    Ok(found)
}

#[test]
fn tables_of_lines(rt: HostRuntime) -> Result<(), Fail> {
    profile_law();
    let vertex = r#"{"id":1,"type":"vertex","label":"#;
    let hover = r#"{"id":1,"type":"vertex","label":"hoverResult","result":{"contents":"#;
    for &(before, table, after) in &[
        ("", LINES, ""),
        (r#"{"id":"#, IDS, r#","type":"vertex","label":"resultSet"}"#),
        (vertex, VERTICES, "}"),
        (hover, HOVERS, "}}"),
        (r#"{"id":7,"type":"#, ADDED, "}"),
    ] {
        let found = rows(rt.alloc(), before, table, after)?;
        expect_equal_text(&rt, found.as_str(), table, before);
    }
    Ok(())
}

/// Lines, and a row of what is read of each. In a line so many of a second text and as many of a
/// third come between the first and the last.
const MADE: &[(&[u8], usize, &str, &str, &str, &str)] = &[
    (b"", 0, "", "", "", "empty => L02\n"),
    (b" \t\r", 0, "", "", "", "blank => L02\n"),
    (
        b"\xef\xbb\xbf{}",
        0,
        "",
        "",
        "",
        "a byte order mark => L02\n",
    ),
    (b"{\"id\":\"\xff\"}", 0, "", "", "", "not UTF-8 => L02\n"),
    (
        b"{\"id\":null,\"id\":1,\"type\":\"vertex\",\"label\":\"x\"}\r",
        0,
        "",
        "",
        "",
        "two ids, and a CR at the end => another vertex\n",
    ),
    (
        br#"{"id":2,"type":"vertex","label":"note","x":"#,
        126,
        "[",
        "]",
        "}",
        "126 arrays => another vertex\n",
    ),
    (
        br#"{"id":2,"type":"vertex","label":"note","x":"#,
        127,
        "[",
        "]",
        "}",
        "127 arrays => L02\n",
    ),
    (
        br#"{"id":1,"type":"vertex","label":"x"}"#,
        1_048_540,
        " ",
        "",
        "",
        "1048576 bytes => another vertex\n",
    ),
    (
        br#"{"id":1,"type":"vertex","label":"x"}"#,
        1_048_541,
        " ",
        "",
        "",
        "1048577 bytes => L01\n",
    ),
];

/// Such a line.
fn line_of(
    alloc: Global,
    before: &[u8],
    times: usize,
    (opening, closing): (&str, &str),
    after: &str,
) -> Result<Vec<u8>, Fail> {
    let mut line = Vec::from_slice(alloc, before)?;
    for _ in 0..times {
        line.extend_from_slice(opening.as_bytes())?;
    }
    for _ in 0..times {
        line.extend_from_slice(closing.as_bytes())?;
    }
    line.extend_from_slice(after.as_bytes())?;
    Ok(line)
}

#[test]
fn blanks_depths_and_lengths(rt: HostRuntime) -> Result<(), Fail> {
    for &(before, times, opening, closing, after, wanted) in MADE {
        let (name, _) = parted(wanted, " => ")?;
        let line = line_of(rt.alloc(), before, times, (opening, closing), after)?;
        let found = row(rt.alloc(), name, line.as_slice())?;
        expect_equal_text(&rt, found.as_str(), wanted, name);
    }
    Ok(())
}
