//! The ids of elements, and the ends of edges: the source and the targets, whatever the label.
use crate::asserts::expect_equal_text;
use lsif::{Edge, Element, Id, IdRef, IdsIter, Profile, read_element};
use samples::parted;
use std::alloc::Global;
use std::process::Abort;
use std::test::Fail;

/// Elements after their ids, and what is read of them: the id, and of an edge the source, and
/// after `>` the targets.
const ENDS: &str = r#"
7,"type":"edge","label":"contains","outV":1,"inVs":[2,3] => Number(7): Number(1) > Number(2) Number(3)
7,"type":"edge","label":"contains","outV":1,"inVs":[0,1,"2"] => Number(7): Number(1) > Number(0) Number(1) Text("2")
7,"type":"edge","label":"next","outV":1,"inV":2 => Number(7): Number(1) > Number(2)
"7","type":"edge","label":"next","outV":"1","inV":"2" => Text("7"): Text("1") > Text("2")
7,"type":"edge","label":"textDocument/definition","outV":1,"inV":2 => Number(7): Number(1) > Number(2)
7,"type":"edge","label":"textDocument/references","outV":1,"inV":2 => Number(7): Number(1) > Number(2)
7,"type":"edge","label":"textDocument/declaration","outV":1,"inV":2 => Number(7): Number(1) > Number(2)
7,"type":"edge","label":"textDocument/implementation","outV":1,"inV":2 => Number(7): Number(1) > Number(2)
7,"type":"edge","label":"textDocument/hover","outV":1,"inV":2 => Number(7): Number(1) > Number(2)
7,"type":"edge","label":"moniker","outV":1,"inV":2 => Number(7): Number(1) > Number(2)
7,"type":"edge","label":"packageInformation","outV":1,"inV":2 => Number(7): Number(1) > Number(2)
7,"type":"edge","label":"attach","outV":1,"inV":2 => Number(7): Number(1) > Number(2)
7,"type":"edge","label":"item","outV":1,"inVs":[2,3],"shard":4 => Number(7): Number(1) > Number(2) Number(3)
7,"type":"edge","label":"note","outV":1,"inV":2 => Number(7): Number(1) > Number(2)
7,"type":"edge","label":"note","outV":1,"inVs":[2,3] => Number(7): Number(1) > Number(2) Number(3)
1,"type":"vertex","label":"document","uri":"FILE:///a.ts" => Number(1)
"1","type":"vertex","label":"document","uri":"FILE:///a.ts" => Text("1")
"#;

/// The id and the ends of an edge.
fn edge_text(alloc: Global, id: &Id, edge: &Edge) -> Result<String, Fail> {
    let (source, targets) = edge.ends();
    let mut text = format!(in alloc; "{id:?}: {source:?} >")?;
    for target in targets {
        write!(text, " {target:?}")?;
    }
    Ok(text)
}

/// The id of an element, and the ends of an edge.
fn element_text(alloc: Global, element: &Element) -> Result<String, Fail> {
    match element {
        Element::Vertex(id, _) => Ok(format!(in alloc; "{id:?}")?),
        Element::Edge(id, edge) => edge_text(alloc, id, edge),
    }
}

/// The same of the element that a line spells in profile 2.
fn ends_text(alloc: Global, line: &str) -> Result<String, Fail> {
    match read_element(alloc, Profile::Two, line.as_bytes()) {
        Ok(element) => {
            let text = element_text(alloc, &element);
            drop(element);
            text
        }
        Err(_) => Err(Fail::from("no element")),
    }
}

/// An edge whose targets are the numbers below 10,000, and what is read of it.
fn many_targets(alloc: Global) -> Result<(String, String), Fail> {
    let mut line = String::from_str(
        alloc,
        r#"{"id":1,"type":"edge","label":"contains","outV":1,"inVs":[0"#,
    )?;
    let mut wanted = String::from_str(alloc, "Number(1): Number(1) > Number(0)")?;
    for number in 1..10000 {
        write!(line, ",{number}")?;
        write!(wanted, " Number({number})")?;
    }
    line.push_str("]}")?;
    Ok((line, wanted))
}

/// Asserts the id and the ends of the element of a line.
fn expect_ends<R: AllocGlobal + Abort>(rt: &R, line: &str, wanted: &str) -> Result<(), Fail> {
    let found = ends_text(rt.alloc(), line)?;
    expect_equal_text(rt, found.as_str(), wanted, line);
    Ok(())
}

#[test]
fn ends_of_edges(rt: HostRuntime) -> Result<(), Fail> {
    for row in ENDS.trim_matches('\n').lines() {
        let (part, wanted) = parted(row, " => ")?;
        let line = format!(in rt.alloc(); "{{\"id\":{part}}}")?;
        expect_ends(&rt, line.as_str(), wanted)?;
    }
    let (line, wanted) = many_targets(rt.alloc())?;
    expect_ends(&rt, line.as_str(), wanted.as_str())
}

/// What yields no id, and what yields one.
#[test]
fn single_ids(rt: HostRuntime) {
    assert_eq!(rt; IdsIter::none().next(), None);
    let mut one = IdsIter::one(IdRef::Text("a"));
    assert_eq!(rt; one.next(), Some(IdRef::Text("a")));
}
