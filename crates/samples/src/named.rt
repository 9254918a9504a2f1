//! The dumps that tests share, in short, by their names.

/// The least dump.
pub const META_DATA: &str = "metaData 0.6.0";

/// Ranges 3 and 4, both defined at range 3 by way of a result set.
pub const BASE: &str = "metaData 0.6.0 utf-16
document file:///a.ts
range 0:4 0:7
range 2:0 2:3
resultSet
next 3>5
next 4>5
definitionResult
textDocument/definition 5>8
item 8>[3] @2
contains 2>[3,4]";

/// Range 3 has a definition result; range 4 within it has none.
pub const NESTED: &str = "metaData 0.6.0 utf-16
document file:///n.ts
range 0:0 0:20
range 0:5 0:8
definitionResult
textDocument/definition 3>5
item 5>[3] @2
contains 2>[4,3]";

/// Ranges that are each defined at itself: 3 and 4, which touch, and the empty range 5 between
/// them.
pub const TOUCHING: &str = "metaData 0.6.0 utf-16
document file:///u.ts
range 0:0 0:5
range 0:5 0:9
range 0:5 0:5
definitionResult
definitionResult
definitionResult
textDocument/definition 3>6
textDocument/definition 4>7
textDocument/definition 5>8
item 6>[3] @2
item 7>[4] @2
item 8>[5] @2
contains 2>[3,4,5]";

/// Ranges 4, 5 and 3, each in the next, and the empty range 6 in all of them; and range 9 of
/// another document.
const COVERING: &str = r#"metaData 0.6.0 utf-16
document file:///n.ts
range 0:0 0:20
range 0:5 0:8
range 0:5 0:12
range 0:6 0:6
contains 2>[3,4,5,6]
document file:///o.ts
range 0:0 0:20
contains 8>[9]
definitionResult
textDocument/definition 4>11
item 11>[4] @2
definitionResult
textDocument/definition 3>14
item 14>[3] @2
referenceResult
textDocument/references 5>17
item 17>[5] references @2
hoverResult "outer"
textDocument/hover 3>20
hoverResult "other"
textDocument/hover 9>22
hoverResult "empty"
textDocument/hover 6>24"#;

/// Range 3 with two results along its chain, the first of them at itself; in it range 4 without a
/// result, and range 15 with a result of no items.
const CHAINED: &str = "metaData 0.6.0 utf-16
document file:///c.ts
range 0:0 0:9
range 0:2 0:4
resultSet
resultSet
next 3>5
next 5>6
definitionResult
definitionResult
textDocument/definition 5>9
textDocument/definition 6>10
item 9>[3] @2
item 10>[4] @2
range 0:6 0:8
definitionResult
textDocument/definition 15>16
contains 2>[3,4,15]";

/// A result that names range 5 twice in one item and range 6 in two, and range 7 of another
/// document.
const REPEATED: &str = "metaData 0.6.0 utf-16
document file:///b.ts
document file:///a.ts
project
range 1:0 1:3
range 0:2 0:6
range 0:0 0:1
definitionResult
textDocument/definition 5>8
item 8>[5,6,5] @2
item 8>[6,7] @4
contains 2>[5,6]
contains 3>[7]";

/// Reference results that name each other, of which range 4 has the second.
pub const RING: &str = "metaData 0.6.0 utf-16
document file:///c.ts
range 0:0 0:1
range 1:0 1:1
referenceResult
referenceResult
textDocument/references 4>6
item 5>[6] referenceResults @2
item 6>[5] referenceResults @2
item 5>[3] definitions @2
item 6>[4] references @2
item 5>[4] references @2
contains 2>[3,4]";

/// Reference result 7 names 8, which names 9, which names 7; nothing names 10. Ranges 3 and 5 have
/// 7 and 9.
const LEVELS: &str = "metaData 0.6.0 utf-16
document file:///r.ts
range 0:0 0:1
range 1:0 1:1
range 2:0 2:1
range 3:0 3:1
referenceResult
referenceResult
referenceResult
referenceResult
textDocument/references 3>7
item 7>[8] referenceResults @2
item 8>[9] referenceResults @2
item 9>[7] referenceResults @2
item 7>[3] definitions @2
item 8>[4] references @2
item 9>[5] references @2
item 10>[6] references @2
textDocument/references 5>9
contains 2>[3,4,5,6]";

/// A range with contents.
pub const HOVERED: &str = r#"metaData 0.6.0 utf-16
document file:///h.ts
range 0:0 0:3
hoverResult [{"value":"f","language":"c","x":1},"d"]
textDocument/hover 3>4
contains 2>[3]"#;

/// Range 3 has a result for each request. In it, range 4 has an export moniker, 5 an import one, 6
/// a local one; 7 a definition result of no items; 8 a local moniker that is attached to the export
/// one, and 9 one that the import one is attached to.
const SPEAKING: &str = r#"metaData 0.6.0 utf-16
document file:///s.ts
range 0:0 0:9
range 0:0 0:1
range 0:1 0:2
range 0:2 0:3
range 0:3 0:4
range 0:4 0:5
range 0:5 0:6
moniker export s f
moniker import s f
moniker local s f
moniker local s g
moniker local s h
moniker 4>10
moniker 5>11
moniker 6>12
moniker 8>13
moniker 9>14
attach 13>10
attach 11>14
definitionResult
textDocument/definition 7>22
definitionResult
textDocument/definition 3>24
item 24>[3] @2
referenceResult
textDocument/references 3>27
item 27>[3] references @2
hoverResult "outer"
textDocument/hover 3>30
contains 2>[3,4,5,6,7,8,9]"#;

/// A document without ranges.
const EMPTY: &str = "metaData 0.6.0 utf-16
document file:///a.ts";

/// A range with an import moniker of a package.
pub const IMPORT: &str = "metaData 0.6.0 utf-16
document file:///app.ts
range 1:0 1:3
moniker import npm lib::f
packageInformation npm lib 1.0.0
moniker 3>4
packageInformation 4>5
contains 2>[3]";

/// A range with an export moniker of the same key, which is defined at itself.
pub const EXPORT: &str = "metaData 0.6.0 utf-16
document file:///lib.ts
range 0:9 0:10
moniker export npm lib::f
packageInformation npm lib 1.0.0
moniker 3>4
packageInformation 4>5
definitionResult
textDocument/definition 3>8
item 8>[3] @2
contains 2>[3]";

/// By the lines of the ranges: 0 has an import moniker; 1 an export one of its key, and is defined
/// at itself; 2 a local one of that key; 3 another local one, which the import one is attached to;
/// 4 an import one with a package; 5 the first at the end of its chain; 6 a local one from which
/// two attached monikers lead to the first.
const CALLER: &str = "metaData 0.6.0 utf-16
document file:///app.ts
range 0:0 0:1
range 1:0 1:1
range 2:0 2:1
range 3:0 3:1
range 4:0 4:1
range 5:0 5:1
range 6:0 6:1
resultSet
resultSet
moniker import s f
moniker export s f
moniker local s f
moniker local s u
moniker import s f
packageInformation npm lib 1
moniker local s v
moniker local s w
moniker 3>12
moniker 4>13
moniker 5>14
moniker 6>15
attach 12>15
moniker 7>16
packageInformation 16>17
next 8>10
next 10>11
moniker 11>12
moniker 9>18
attach 18>19
attach 12>19
definitionResult
textDocument/definition 4>33
item 33>[4] @2
referenceResult
textDocument/references 4>36
item 36>[4] definitions @2
contains 2>[3,4,5,6,7,8,9]";

/// Each range has its own place as its definition and its reference. By their lines: 0 has an
/// export moniker, 1 an import one, 2 a local one, 3 an export one with a package; the result set
/// after 4 has that of 0.
const CALLED: &str = "metaData 0.6.0 utf-16
document file:///lib.ts
range 0:0 0:1
range 1:0 1:1
range 2:0 2:1
range 3:0 3:1
range 4:0 4:1
resultSet
moniker export s f
moniker import s f
moniker local s f
moniker export s f
packageInformation npm lib 1
moniker 3>9
moniker 4>10
moniker 5>11
moniker 6>12
packageInformation 12>13
next 7>8
moniker 8>9
definitionResult
textDocument/definition 3>21
item 21>[3] @2
definitionResult
textDocument/definition 4>24
item 24>[4] @2
definitionResult
textDocument/definition 5>27
item 27>[5] @2
definitionResult
textDocument/definition 6>30
item 30>[6] @2
definitionResult
textDocument/definition 7>33
item 33>[7] @2
referenceResult
textDocument/references 3>36
item 36>[3] references @2
referenceResult
textDocument/references 4>39
item 39>[4] references @2
referenceResult
textDocument/references 5>42
item 42>[5] references @2
referenceResult
textDocument/references 6>45
item 45>[6] references @2
referenceResult
textDocument/references 7>48
item 48>[7] references @2
contains 2>[3,4,5,6,7]";

/// Result sets with one export moniker, of which the last two have contents.
const CONTENTS: &str = r#"metaData 0.6.0 utf-16
document file:///lib.ts
resultSet
resultSet
resultSet
moniker export npm lib::f
packageInformation npm lib 1.0.0
packageInformation 6>7
hoverResult "first"
hoverResult "second"
moniker 5>6
moniker 4>6
moniker 3>6
textDocument/hover 5>10
textDocument/hover 4>9"#;

/// Range 3 leads by way of a result set to a local moniker, to which an import one with a package
/// and an export one are attached. Range 5 has an import one.
const IMPORTING: &str = "metaData 0.6.0 utf-16
document file:///a.ts
range 0:4 0:7
resultSet
range 2:0 2:3
moniker local tsc i
moniker import npm j
moniker export npm k
moniker import npm l
packageInformation npm p 1
next 3>4
moniker 4>6
attach 7>6
attach 8>6
packageInformation 7>10
moniker 5>9
contains 2>[3,5]";

/// Ranges with monikers of the same keys, each with its own place as its definition and its
/// reference.
const EXPORTING: &str = r#"metaData 0.6.0 utf-16
document file:///lib.ts
range 0:0 0:1
range 1:0 1:1
range 2:0 2:1
moniker export npm j
moniker import npm k
moniker export npm l
packageInformation npm p 1
packageInformation 6>9
moniker 3>6
moniker 4>7
moniker 5>8
definitionResult
textDocument/definition 3>14
item 14>[3] @2
definitionResult
textDocument/definition 4>17
item 17>[4] @2
definitionResult
textDocument/definition 5>20
item 20>[5] @2
referenceResult
textDocument/references 3>23
item 23>[3] references @2
referenceResult
textDocument/references 4>26
item 26>[4] references @2
referenceResult
textDocument/references 5>29
item 29>[5] references @2
hoverResult "j"
textDocument/hover 3>32
hoverResult "k"
textDocument/hover 4>34
contains 2>[3,4,5]"#;

/// Range 5 is declared at range 3 and implemented at range 4.
pub const DECLARED: &str = "metaData 0.6.0 utf-16
document file:///p.ts
range 0:0 0:1
range 1:0 1:1
range 2:0 2:1
declarationResult
implementationResult
textDocument/declaration 5>6
textDocument/implementation 5>7
item 6>[3] @2
item 7>[4] @2
contains 2>[3,4,5]";

/// The dumps by their names.
pub const SAMPLES: &[(&str, &str)] = &[
    ("base", BASE),
    ("nested", NESTED),
    ("touching", TOUCHING),
    ("covering", COVERING),
    ("chained", CHAINED),
    ("repeated", REPEATED),
    ("ring", RING),
    ("levels", LEVELS),
    ("hovered", HOVERED),
    ("speaking", SPEAKING),
    ("empty", EMPTY),
    ("import", IMPORT),
    ("export", EXPORT),
    ("caller", CALLER),
    ("called", CALLED),
    ("contents", CONTENTS),
    ("importing", IMPORTING),
    ("exporting", EXPORTING),
    ("declared", DECLARED),
    ("nothing", ""),
    ("brace", "{"),
];
