//! Reports of dumps with vertices and edges of each label, with ids of each form.
use crate::check::{BOTH, Kind, expect_rows};
use lsif::Profile;
use samples::named::{BASE, DECLARED, EXPORT, HOVERED, IMPORT, NESTED, RING, TOUCHING};
use samples::{GREAT_NUMBERS, NUMBERS, TEXTS};
use std::test::Fail;

const OF_BASE: &str = "ok 11
12 L13 | 12 next 3>5
12 L13 | 12 textDocument/definition 5>8";

const OF_REFERENCES: &str = "ok 13
8 L10 | 8 item 5>[3] referenceResults @2
10 L10 | 10 item 5>[3] @2
10 L10 | 10 item 5>[] @2
11 L10 | 11 item 6>[5] references @2
10 L10 | 10 item 5>[3,6] definitions @2
9 L16 | 9 item 6>[5] referenceResults @3
9 L13 | 9 textDocument/references 4>5
ok 13 | 9 textDocument/references 3>6
9 L10 | 9 textDocument/references 2>6
9 L10 | 9 textDocument/definition 4>6
9 L10 | 9 textDocument/references 3>4
9 L09 | 9 textDocument/references 3>13
9 L08 | 9 textDocument/references 3>[6]";

/// A document and a project, which hold one range.
const SHARDS: &str = "metaData 0.6.0
document file:///a.ts
project
document file:///b.ts
range 0:0 0:1
referenceResult
resultSet
item 6>[6] referenceResults @4
item 6>[5] references @3
contains 2>[5]";

const OF_SHARDS: &str = "ok 10
9 E02 | 9 item 6>[5] references @4
9 E02 | 9 item 6>[5] 'property':'definitions','document':<4>";

const OF_HOVERS: &str = "ok 6
4 L07 | 4 hoverResult 'result':{'contents':{'kind':'html','value':'f'}}
ok 6 | 4 hoverResult 'result':{'contents':{'kind':'markdown','value':'f'}}
4 L07 | 4 hoverResult 'result':{'contents':null}
4 L07 | 4 hoverResult 'result':[]
4 L07 | 4 hoverResult
5 L10 | 5 textDocument/hover 4>4
5 L10 | 5 textDocument/hover 3>2
5 L08 | 5 textDocument/hover 3>[4]
6 L13 | 6 textDocument/hover 3>4
5 L10 | 5 textDocument/definition 3>4
ok 6 | 5 hover 2>3";

const OF_IMPORT: &str = r"ok 8
ok 8 | 4 moniker 'scheme':'npm','identifier':'lib::f'
4 L07 | 4 moniker 'kind':null,'scheme':'npm','identifier':'lib::f'
4 L07 | 4 moniker 'scheme':'npm','identifier':'\u0000'
4 L07 | 4 moniker 'scheme':7,'identifier':'f'
ok 8 | 5 packageInformation 'manager':'npm','name':'lib'
5 L07 | 5 packageInformation 'manager':'npm','name':'lib','version':null
5 L07 | 5 packageInformation 'manager':'npm'
6 L10 | 6 moniker 2>4
6 L10 | 6 moniker 3>5
6 L08 | 6 moniker 3>[4]
ok 8 | 7 moniker 3>4
7 L13 | 6 packageInformation 4>5
6 L10 | 6 packageInformation 3>5
6 L10 | 6 packageInformation 4>4
ok 8 | 6 attach 4>4
6 L10 | 6 attach 4>5
6 L10 | 6 attach 3>4
ok 8 | 6 attach
ok 8 | 6 range 5>4
6 L10 | 6 item 4>[] @2";

/// A range named after its document ended.
const ENDED: &str = "metaData 0.6.0
document file:///v.ts
$event begin 2
range 0:0 0:1
contains 2>[4]
$event end 2
resultSet
next 4>7";

const OF_ENDED: &str = "8 L18
ok 7 | 6 -
5 L17 | 3 -
ok 7 | 8 -
6 L17 | 6 $event begin 2
7 L17 | 7 $event end 2
7 L17 | 7 $event begin 2
3 L17 | 3 $event begin 1
3 L17 | 3 $event begin 9
6 L17 | 6 $event end 4
3 L07 | 3 $event open 2
3 L07 | 3 $event 'scope':'document','kind':'begin'
3 L07 | 3 {'id':<3>,'type':'vertex','label':'$event','kind':'begin','data':<2>}
ok 8 | 6 $event 'scope':'project','kind':7,'data':[]
8 L18 | 8 contains 2>[]
8 L18 | 8 note 7>[7,4]
8 L18 | 8 note 7>4
8 L18 | 8 note 4>7
ok 8 | 8 note 7>2
8 L10 | 8 item 3>[] @2
8 L11 | 8 contains 2>[4]";

/// A project and a shard name a document that has ended.
const AFTER_THE_END: &str = "metaData 0.6.0
document file:///v.ts
$event begin 2
project
document file:///w.ts
range 0:0 0:1
contains 2>[6]
$event end 2
definitionResult
contains 4>[2,5]
item 9>[] @2";

const OF_AFTER_THE_END: &str = "ok 11
11 L18 | 11 item 9>[6] @4
11 L16 | 11 item 9>[6] @6";

/// What declarations and implementations are in profile 1: vertices and edges of any label.
const OF_DECLARED_IN_ONE: &str = "ok 12
ok 12 | 8 textDocument/declaration 3>6
7 L04 | 7 #6 implementationResult
ok 12 | 8 textDocument/declaration 5>[6]
ok 12 | 9 textDocument/implementation 5>[7]
8 L09 | 8 textDocument/declaration 5>13
9 L09 | 9 textDocument/implementation 13>7
ok 12 | 8 textDocument/declaration 5>7
ok 12 | 9 textDocument/implementation 5>6
ok 12 | 8 textDocument/declaration 2>6
ok 12 | 9 textDocument/implementation 6>7
9 L10 | 9 textDocument/definition 5>6
ok 12 | 10 item 6>[3] definitions @2
ok 12 | 10 item 6>[3] references @2
ok 12 | 10 item 6>[3] referenceResults @2
ok 12 | 11 item 7>[4] definitions @2
ok 12 | 11 item 7>[4] references @2
ok 12 | 11 item 7>[7] referenceResults @2
ok 12 | 10 item 6>[3,6] @2
ok 12 | 11 item 7>[2] @2
ok 12 | 10 item 6>[] @2
ok 12 | 9 textDocument/declaration 5>6
ok 12 | 8 textDocument/implementation 5>7
ok 12 | 10 item 6>[3] @13
ok 12 | 11 item 7>[4] @4
ok 12 | 9 document file:///q.ts | 10 item 6>[3] @9
ok 12 | 8 document file:///q.ts | 11 item 7>[4] @8
ok 12 | 9 project | 10 item 6>[3] @9
9 L18 | 4 $event begin 2 | 6 contains 2>[3,5] | 7 $event end 2 | 8 declarationResult | 9 textDocument/declaration 5>8";

/// What they are in profile 2.
const OF_DECLARED_IN_TWO: &str = "ok 12
ok 12 | 8 textDocument/declaration 3>6
7 L04 | 7 #6 implementationResult
8 L08 | 8 textDocument/declaration 5>[6]
9 L08 | 9 textDocument/implementation 5>[7]
8 L09 | 8 textDocument/declaration 5>13
8 L09 | 8 textDocument/declaration 5>9
9 L09 | 9 textDocument/implementation 13>7
8 L10 | 8 textDocument/declaration 5>7
9 L10 | 9 textDocument/implementation 5>6
8 L10 | 8 textDocument/declaration 2>6
9 L10 | 9 textDocument/implementation 6>7
9 L10 | 9 textDocument/definition 5>6
8 L10 | 8 textDocument/definition 5>6
10 L10 | 10 item 6>[3] definitions @2
10 L10 | 10 item 6>[3] references @2
10 L10 | 10 item 6>[] references @2
10 L10 | 10 item 6>[3] referenceResults @2
11 L10 | 11 item 7>[4] definitions @2
11 L10 | 11 item 7>[4] references @2
11 L10 | 11 item 7>[4] referenceResults @2
11 L10 | 11 item 7>[7] referenceResults @2
10 L10 | 10 item 6>[3,6] @2
10 L10 | 10 item 6>[7] @2
11 L10 | 11 item 7>[2] @2
ok 12 | 10 item 6>[] @2
ok 12 | 10 item 6>[3,4,5] @2
9 L13 | 9 textDocument/declaration 5>6
9 L13 | 8 textDocument/implementation 5>7
13 L13 | 13 textDocument/implementation 5>7
10 L16 | 10 item 6>[3] @3
10 L16 | 10 item 6>[3] @13
11 L16 | 11 item 7>[4] @4
10 E02 | 9 document file:///q.ts | 10 item 6>[3] @9
10 E02 | 7 document file:///q.ts | 9 resultSet | 10 item 6>[3] @7 | 11 resultSet
11 E02 | 8 document file:///q.ts | 11 item 7>[4] @8
ok 12 | 9 project | 10 item 6>[3] @9
9 L18 | 4 $event begin 2 | 6 contains 2>[3,5] | 7 $event end 2 | 8 declarationResult | 9 textDocument/declaration 5>8";

/// By which profiles a dump is read, the dump, and its rows.
const TABLES: &[(&[Kind], &str, &str)] = &[
    (BOTH, BASE, OF_BASE),
    (BOTH, NESTED, "ok 8"),
    (BOTH, TOUCHING, "ok 15"),
    (BOTH, RING, OF_REFERENCES),
    (BOTH, SHARDS, OF_SHARDS),
    (BOTH, HOVERED, OF_HOVERS),
    (BOTH, IMPORT, OF_IMPORT),
    (BOTH, EXPORT, "ok 11"),
    (BOTH, ENDED, OF_ENDED),
    (BOTH, AFTER_THE_END, OF_AFTER_THE_END),
    (&[Kind::Dump(Profile::One)], DECLARED, OF_DECLARED_IN_ONE),
    (&[Kind::Dump(Profile::Two)], DECLARED, OF_DECLARED_IN_TWO),
];

#[test]
fn elements_of_each_label(rt: HostRuntime) -> Result<(), Fail> {
    for (kinds, dump, rows) in TABLES {
        for &marks in &[NUMBERS, GREAT_NUMBERS, TEXTS] {
            expect_rows(&rt, kinds, dump, rows, &[4096], marks)?;
        }
    }
    Ok(())
}
