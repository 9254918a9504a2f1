//! Faults of dumps: each fault, each two of which one is reported, and the first of several faulty
//! lines.
use crate::check::{BOTH, expect_in, expect_rows};
use samples::named::{BASE, META_DATA};
use samples::{GREAT_NUMBERS, Marks, NUMBERS, TEXTS, parted, push_line, text_of};
use std::process::Abort;
use std::test::Fail;

/// The base dump with other lines.
const OF_BASE: &str = r"5 L04 | 5 #4 range 2:0 2:3
11 L11 | 11 contains 2>[3,3]
1 L03 | 1 #9007199254740992 metaData 0.6.0
ok 11 | 1 #9007199254740991 metaData 0.6.0
11 L12 | 4 range 0:6 0:9
11 L12 | 4 range 0:4 0:7
ok 11 | 4 range 0:5 0:7
11 L10 | 11 contains 2>[3,5]
11 L10 | 11 contains 3>[]
11 L09 | 11 contains 2>[3,6]
7 L14 | 7 next 5>5
7 L08 | 7 next 4>[5]
9 L10 | 9 textDocument/definition 5>3
10 L15 | 10 item 8>[3] 'shard':null,'document':2
ok 11 | 10 item 8>[3] 'document':2
10 L10 | 10 item 8>[3] references @2
10 L10 | 10 item 5>[] @2
10 L08 | 10 {'id':10,'type':'edge','label':'item','outV':8,'shard':2,'property':'x'}
8 L09 | 8 #9 textDocument/definition 5>8 | 9 #8 definitionResult
3 E01 | 11 -
10 L15 before 3 E01 | 10 item 8>[3] x @2 | 11 -
ok 11 | 5 document file:///b.ts | 6 note | 7 note | 9 textDocument/definition 3>8 | 10 item 6>[3] @99
11 L02 before 3 E01 | 11 | 12
12 L19 | 12 document FILE:///a.ts";

/// Lines that have one fault of their shape each, with its code.
pub(crate) const EACH_SHAPE: &str = r"L02 {'id':2,'type':'vertex','label':'project'
L03 {'type':'vertex','label':'project'}
L05 {'id':2,'type':'node','label':'project'}
L07 {'id':2,'type':'vertex','label':'document'}
L08 {'id':2,'type':'edge','label':'next','inV':1}
L15 {'id':2,'type':'edge','label':'item','outV':1,'inVs':[]}";

/// A metaData and a line with each two of these faults that one line can have. L07 is of vertices,
/// L08 and L15 are of edges, so L07 is beside neither; L01 is beside each of the others in another
/// test. Last, lines with a fault of their shape and a member that would be a fault of lesser
/// number in an element.
const SHAPES: &str = r"2 L02 before L03 | 2 {'type':'vertex','label':'project'
2 L02 before L05 | 2 {'id':2,'type':'node'
2 L02 before L07 | 2 {'id':2,'type':'vertex','label':'document'
2 L02 before L08 | 2 {'id':2,'type':'edge','label':'next'
2 L02 before L15 | 2 {'id':2,'type':'edge','label':'item','outV':1,'inVs':[]
2 L03 before L05 | 2 {'type':'node','label':'project'}
2 L03 before L07 | 2 {'type':'vertex','label':'document'}
2 L03 before L08 | 2 {'type':'edge','label':'next','inV':1}
2 L03 before L15 | 2 {'type':'edge','label':'item','outV':1,'inVs':[]}
2 L05 before L07 | 2 {'id':2,'label':'document'}
2 L05 before L08 | 2 {'id':2,'type':'edge','inV':1}
2 L05 before L15 | 2 {'id':2,'label':'item','outV':1,'inVs':[]}
2 L08 before L15 | 2 {'id':2,'type':'edge','label':'item','outV':1}
2 L08 before L15 | 2 {'id':2,'type':'edge','label':'item','outV':1,'inV':1,'inVs':[],'shard':1,'property':'x'}
2 L08 before L15 | 2 {'id':2,'type':'edge','label':'item','outV':null,'inVs':[],'shard':null}
2 L05 and no L04 | 2 {'id':1,'type':'vertex'}
2 L07 and no L04 | 2 {'id':1,'type':'vertex','label':'document'}
2 L08 and no L04 | 2 {'id':1,'type':'edge','label':'next','outV':1}
2 L15 and no L04 | 2 {'id':1,'type':'edge','label':'item','outV':1,'inVs':[]}
2 L15 and no L09 | 2 {'id':2,'type':'edge','label':'item','outV':9,'inVs':[]}
2 L15 and no L09 | 2 {'id':2,'type':'edge','label':'item','outV':1,'inVs':[9],'shard':1,'property':'x'}
2 L15 and no L09 | 2 {'id':2,'type':'edge','label':'item','outV':1,'inVs':[2],'shard':1,'property':null}";

/// Lines of which L06 is reported, with the other faults that they have. No vertex is before them,
/// so no end of an edge is one of any kind, and no range was contained and no document ended.
const FIRST_LINES: &str = r"1 L06 of no line
1 L06 before L09 | 1 contains 1>[]
1 L06 before L09 | 1 note 2>3
1 L06 before L09 and L14 | 1 next 2>2
1 L06 before L09 and L16 | 1 item 2>[] @3
1 L06 before L17 | 1 $event begin 2
1 L06 alone | 1 resultSet
1 L06 alone | 1 metaData 0.5.0
1 L06 alone | 1 document file:///a.ts
1 L06 alone | 1 metaData 'version':'0.6.0','positionEncoding':'utf-8'
1 L06 alone | 1 metaData 'version':'0.6.0','positionEncoding':null
1 L02 of an empty line | 1";

/// Lines without a fault but at the end: two documents, of which the second has ended, and ranges,
/// of which the first two overlap, and so do the other two. The first and the third are contained.
pub(crate) const OVERLAPPING: &str = "metaData 0.6.0
document file:///a.ts
document file:///b.ts
$event begin 3
range 0:0 0:4
range 0:2 0:6
range 0:0 0:4
range 0:2 0:6
resultSet
resultSet
definitionResult
next 7>9
next 9>10
contains 2>[5]
contains 3>[7]
note 7>[2,5]
$event end 3";

/// A line after these for each fault of a line against those before it, with its code.
pub(crate) const EACH_ORDER: &str = "L04 #5 resultSet
L06 metaData 0.6.0
L09 next 10>200000
L10 next 2>10
L11 contains 2>[5]
L12 contains 2>[6]
L13 next 9>10
L14 next 10>9
L16 item 11>[5] @5
L17 $event begin 3
L18 note 10>[7]
L19 document FILE:///a.ts";

/// A line after these for each two of these faults that one line can have. L20 is beside each of
/// the others in another test.
///
/// The others aren't of one line:
/// - L06 is of a metaData vertex, of which only L04 and L20 are checked too; on line 1 it's of any
///   element, in another test.
/// - L17 is of events and L19 of documents, which are vertices; L09 to L14, L16 and L18 are of
///   edges.
/// - L11 and L12 are of `contains`, L14 of `next`, L16 of `item`, and L13 of `next` and of other
///   labels, but not of `contains` nor of `item`.
/// - L14 is beside L18 only where L10 is too: L18 is of a range, and `next` edges lead to result
///   sets.
const ORDERS: &str = "6 E01
18 L04 before L06 | 18 #5 metaData 0.6.0
18 L04 before L09 | 18 #5 next 10>200000
18 L04 before L10 | 18 #5 next 2>10
18 L04 before L11 | 18 #5 contains 2>[5]
18 L04 before L12 | 18 #5 contains 2>[6]
18 L04 before L13 | 18 #5 next 9>10
18 L04 before L14 | 18 #5 next 10>9
18 L04 before L16 | 18 #5 item 11>[5] @5
18 L04 before L17 | 18 #5 $event begin 3
18 L04 before L18 | 18 #5 note 10>[7]
18 L04 before L19 | 18 #5 document FILE:///a.ts
18 L09 before L10 | 18 next 2>200000
18 L09 before L11 | 18 contains 2>[5,200000]
18 L09 before L12 | 18 contains 2>[6,200000]
18 L09 before L13 | 18 next 9>200000
18 L09 before L14 | 18 next 200000>200000
18 L09 before L16 | 18 item 11>[200000] @5
18 L09 before L18 | 18 note 200000>[7]
18 L10 before L11 | 18 contains 2>[5,10]
18 L10 before L12 | 18 contains 2>[6,10]
18 L10 before L13 | 18 next 9>11
18 L10 before L14 | 18 next 5>5
18 L10 before L16 | 18 item 11>[10] @5
18 L10 before L18 | 18 contains 3>[10]
18 L10 before L13, L14 and L18 | 18 next 7>7
18 L11 before L12 | 18 contains 2>[5,6]
18 L11 before L12 | 18 contains 2>[6,5]
18 L11 before L12 | 18 contains 2>[8,8]
18 L11 before L18 | 18 contains 3>[7]
18 L12 before L18 | 18 contains 3>[8]
18 L13 before L14 | 18 next 9>9
18 L13 before L18 | 18 next 7>10
18 L16 before L18 | 18 item 11>[7] @5";

/// Two documents, of which the first contains two ranges that a result names.
const ENDS: &str = "metaData 0.6.0
document file:///a.ts
document file:///b.ts
range 0:0 0:1
definitionResult
item 5>[4] @2
range 1:0 1:1
item 5>[7] @2
contains 2>[4,7]";

/// The least line counts at the end of a dump; E01 is of a range's line and E02 of an edge's, so no
/// line has both. A faulty line is reported before a fault at the end of an earlier line, and the
/// first faulty line whatever the later ones are: in the last rows line 8 names what line 7 isn't,
/// a range and a vertex.
const OF_ENDS: &str = "ok 9
7 E01 before 8 E02 | 9 contains 2>[4]
4 E01 before 6 E02 | 9 contains 2>[7]
6 E02 | 6 item 5>[4] @3
8 E02 | 8 item 5>[7] @3
4 E01 before 6 E02, 7 E01 and 8 E02 | 9 contains 2>[]
6 E02 before 8 E02 | 9 contains 3>[4,7]
6 E02 before 8 E02 | 6 item 5>[4] @3 | 8 item 5>[7] @3
6 E02 before 7 E01 | 6 item 5>[4] @3 | 9 contains 2>[4]
7 E01 alone | 8 resultSet | 9 contains 2>[4]
9 L09 before 4 E01 | 9 next 2>99
9 L19 before 4 E01 | 9 document file:///a.ts
9 L02 before 4 E01 | 9 {'id':9
8 L16 before 6 E02 | 6 item 5>[4] @3 | 8 item 5>[7] @4
8 L05 before 6 E02 | 6 item 5>[4] @3 | 8 {'id':8}
3 L19 before 9 L04 | 3 document file:///a.ts | 9 #1 contains 2>[4,7]
6 L16 before 8 L02 | 6 item 5>[4] @4 | 8 {'id':8
3 L15 before 4 L04 | 3 {'id':3,'type':'edge','label':'item','outV':2,'inVs':[]} | 4 #1 range 0:0 0:1
4 L07 before 7 L03 | 4 {'id':4,'type':'vertex','label':'range'} | 7 {}
8 L16 before 9 L11 | 8 item 5>[7] @9 | 9 contains 2>[4,4]
2 L06 before 3 L04 | 2 metaData 0.6.0 | 3 #1 project
8 L10 | 7 resultSet
8 L09 | 7 note 4>5";

/// The base dump, its changes, and it without its last line feed; and no bytes.
#[test]
fn check_first(rt: HostRuntime) -> Result<(), Fail> {
    let mut text = text_of(rt.alloc(), BASE)?;
    text.pop();
    expect_in(&rt, text.as_str(), "ok 11")?;
    expect_in(&rt, "", "1 L06 of no line")?;
    expect_rows(&rt, BOTH, BASE, OF_BASE, &[1, 2, 7, 1_000_000], NUMBERS)
}

/// Dumps, the rows of their changes, and the marks around their ids.
const CHANGED: &[(&str, &str, Marks)] = &[
    (META_DATA, SHAPES, NUMBERS),
    ("", FIRST_LINES, NUMBERS),
    (ENDS, OF_ENDS, NUMBERS),
    (OVERLAPPING, ORDERS, NUMBERS),
    (OVERLAPPING, ORDERS, GREAT_NUMBERS),
    (OVERLAPPING, ORDERS, TEXTS),
];

/// Dumps, the number of the line that is added, and the rows of what it may be.
const ADDED: &[(&str, usize, &str)] = &[
    ("", 1, EACH_SHAPE),
    (META_DATA, 2, EACH_SHAPE),
    (OVERLAPPING, 18, EACH_ORDER),
];

/// Asserts the report of a dump with one line more, of this number, for a row: the code, and the
/// line.
fn expect_added<R: AllocGlobal + Abort>(
    rt: &R,
    dump: &str,
    number: usize,
    row: &str,
) -> Result<(), Fail> {
    let (code, line) = parted(row, " ")?;
    let mut text = text_of(rt.alloc(), dump)?;
    push_line(&mut text, number, line, NUMBERS)?;
    let wanted = format!(in rt.alloc(); "{number} {code}")?;
    expect_in(rt, text.as_str(), wanted.as_str())
}

/// Each fault, and each two of which one is reported. Faults of a line's shape are reported though
/// the line isn't the metaData that is missing.
#[test]
fn check_all(rt: HostRuntime) -> Result<(), Fail> {
    for (dump, rows, marks) in CHANGED {
        expect_rows(&rt, BOTH, *dump, *rows, &[4096], *marks)?;
    }
    for (dump, number, rows) in ADDED {
        for row in rows.lines() {
            expect_added(&rt, *dump, *number, row)?;
        }
    }
    Ok(())
}
