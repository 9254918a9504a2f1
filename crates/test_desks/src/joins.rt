//! Queries at positions that other projects answer, too.

/// Dumps of several projects, and what the desk answers of them. A comment says which rule each
/// list shows.
pub(super) const SCENARIOS: &[&str] = &[
    // An import joins the export of its key in each other project, in the order of their names,
    // until that project is removed. Its own project is listed in that order too.
    r#"put app k1 1 import
200 {"accepted":"lsif","count":8}
definition app file:///app.ts 1:0
200 {"places":[]}
put lib k1 1 export
200 {"accepted":"lsif","count":11}
definition app file:///app.ts 1:0
200 {"places":[{"end":{"character":10,"line":0},"project":"lib","start":{"character":9,"line":0},"uri":"file:///lib.ts"}]}
put lib2 k1 1 export
200 {"accepted":"lsif","count":11}
definition app file:///app.ts 1:0
200 {"places":[{"end":{"character":10,"line":0},"project":"lib","start":{"character":9,"line":0},"uri":"file:///lib.ts"},{"end":{"character":10,"line":0},"project":"lib2","start":{"character":9,"line":0},"uri":"file:///lib.ts"}]}
put zed k1 1 import | 8 definitionResult | 9 textDocument/definition 3>8 | 10 item 8>[3] @2 | 11 contains 2>[3]
200 {"accepted":"lsif","count":11}
definition zed file:///app.ts 1:0
200 {"places":[{"end":{"character":10,"line":0},"project":"lib","start":{"character":9,"line":0},"uri":"file:///lib.ts"},{"end":{"character":10,"line":0},"project":"lib2","start":{"character":9,"line":0},"uri":"file:///lib.ts"},{"end":{"character":3,"line":1},"project":"zed","start":{"character":0,"line":1},"uri":"file:///app.ts"}]}
put lib k2 1 import
200 {"accepted":"lsif","count":8}
definition app file:///app.ts 1:0
200 {"places":[{"end":{"character":10,"line":0},"project":"lib2","start":{"character":9,"line":0},"uri":"file:///lib.ts"}]}
remove lib2 d1
200 {"removed":true}
definition app file:///app.ts 1:0
200 {"places":[]}"#,
    // The bearer is gone with its project.
    r#"put app k1 1 import
200 {"accepted":"lsif","count":8}
put lib k1 1 export
200 {"accepted":"lsif","count":11}
definition app file:///app.ts 1:0
200 {"places":[{"end":{"character":10,"line":0},"project":"lib","start":{"character":9,"line":0},"uri":"file:///lib.ts"}]}
remove lib d1
200 {"removed":true}
definition app file:///app.ts 1:0
200 {"places":[]}"#,
    // The key is the scheme, the identifier and the package, if any: its manager, its name and its
    // version, of which a missing one is the empty text. All of it is compared.
    r#"put app k1 1 import
200 {"accepted":"lsif","count":8}
put lib k1 1 export | 5 packageInformation npm lib 1.0.1
200 {"accepted":"lsif","count":11}
definition app file:///app.ts 1:0
200 {"places":[]}
put lib k2 1 export | 5 packageInformation npm lic 1.0.0
200 {"accepted":"lsif","count":11}
definition app file:///app.ts 1:0
200 {"places":[]}
put lib k3 1 export | 5 packageInformation cargo lib 1.0.0
200 {"accepted":"lsif","count":11}
definition app file:///app.ts 1:0
200 {"places":[]}
put lib k4 1 export | 7 note
200 {"accepted":"lsif","count":11}
definition app file:///app.ts 1:0
200 {"places":[]}
put lib k5 1 export | 4 moniker export npm lib::g
200 {"accepted":"lsif","count":11}
definition app file:///app.ts 1:0
200 {"places":[]}
put lib k6 1 export | 4 moniker export tsc lib::f
200 {"accepted":"lsif","count":11}
definition app file:///app.ts 1:0
200 {"places":[]}
put app k2 1 import | 7 note
200 {"accepted":"lsif","count":8}
definition app file:///app.ts 1:0
200 {"places":[]}
put lib k7 1 export | 7 note
200 {"accepted":"lsif","count":11}
definition app file:///app.ts 1:0
200 {"places":[{"end":{"character":10,"line":0},"project":"lib","start":{"character":9,"line":0},"uri":"file:///lib.ts"}]}
put app k3 1 import | 5 packageInformation 'manager':'npm','name':'lib'
200 {"accepted":"lsif","count":8}
definition app file:///app.ts 1:0
200 {"places":[]}
put lib k8 1 export | 5 packageInformation 'manager':'npm','name':'lib','version':''
200 {"accepted":"lsif","count":11}
definition app file:///app.ts 1:0
200 {"places":[{"end":{"character":10,"line":0},"project":"lib","start":{"character":9,"line":0},"uri":"file:///lib.ts"}]}"#,
    // For a definition an import joins an export alone. For references both join both, since the
    // kind isn't part of the key. A local moniker joins nothing on either side, but marks are those
    // of all monikers that are attached, either way, to one along the range's chain. A vertex of
    // the project itself isn't joined: line 1 of the caller exports what line 0 imports.
    r#"put app k1 1 caller
200 {"accepted":"lsif","count":39}
definition app file:///app.ts 0:0
200 {"places":[]}
references app file:///app.ts 0:0
200 {"places":[]}
put lib k1 1 called
200 {"accepted":"lsif","count":51}
definition app file:///app.ts 0:0
200 {"places":[{"end":{"character":1,"line":0},"project":"lib","start":{"character":0,"line":0},"uri":"file:///lib.ts"}]}
references app file:///app.ts 0:0
200 {"places":[{"end":{"character":1,"line":0},"project":"lib","start":{"character":0,"line":0},"uri":"file:///lib.ts"},{"end":{"character":1,"line":1},"project":"lib","start":{"character":0,"line":1},"uri":"file:///lib.ts"}]}
definition app file:///app.ts 1:0
200 {"places":[{"end":{"character":1,"line":1},"project":"app","start":{"character":0,"line":1},"uri":"file:///app.ts"}]}
references app file:///app.ts 1:0
200 {"places":[{"end":{"character":1,"line":1},"project":"app","start":{"character":0,"line":1},"uri":"file:///app.ts"},{"end":{"character":1,"line":0},"project":"lib","start":{"character":0,"line":0},"uri":"file:///lib.ts"},{"end":{"character":1,"line":1},"project":"lib","start":{"character":0,"line":1},"uri":"file:///lib.ts"}]}
references app file:///app.ts 1:0 no
200 {"places":[{"end":{"character":1,"line":0},"project":"lib","start":{"character":0,"line":0},"uri":"file:///lib.ts"},{"end":{"character":1,"line":1},"project":"lib","start":{"character":0,"line":1},"uri":"file:///lib.ts"}]}
definition app file:///app.ts 2:0
200 {"places":[]}
references app file:///app.ts 2:0
200 {"places":[]}
definition app file:///app.ts 3:0
200 {"places":[{"end":{"character":1,"line":0},"project":"lib","start":{"character":0,"line":0},"uri":"file:///lib.ts"}]}
references app file:///app.ts 3:0
200 {"places":[{"end":{"character":1,"line":0},"project":"lib","start":{"character":0,"line":0},"uri":"file:///lib.ts"},{"end":{"character":1,"line":1},"project":"lib","start":{"character":0,"line":1},"uri":"file:///lib.ts"}]}
definition app file:///app.ts 4:0
200 {"places":[{"end":{"character":1,"line":3},"project":"lib","start":{"character":0,"line":3},"uri":"file:///lib.ts"}]}
references app file:///app.ts 4:0
200 {"places":[{"end":{"character":1,"line":3},"project":"lib","start":{"character":0,"line":3},"uri":"file:///lib.ts"}]}
definition app file:///app.ts 5:0
200 {"places":[{"end":{"character":1,"line":0},"project":"lib","start":{"character":0,"line":0},"uri":"file:///lib.ts"}]}
definition app file:///app.ts 6:0
200 {"places":[{"end":{"character":1,"line":0},"project":"lib","start":{"character":0,"line":0},"uri":"file:///lib.ts"}]}
references app file:///app.ts 6:0
200 {"places":[{"end":{"character":1,"line":0},"project":"lib","start":{"character":0,"line":0},"uri":"file:///lib.ts"},{"end":{"character":1,"line":1},"project":"lib","start":{"character":0,"line":1},"uri":"file:///lib.ts"}]}"#,
    // The same from the other side: an import finds the caller's definition, and for references an
    // export finds the caller's export, too. A range's marks are those along its chain, so the
    // range of line 4 has one.
    r#"put app k1 1 caller
200 {"accepted":"lsif","count":39}
put lib k1 1 called
200 {"accepted":"lsif","count":51}
references lib file:///lib.ts 0:0
200 {"places":[{"end":{"character":1,"line":1},"project":"app","start":{"character":0,"line":1},"uri":"file:///app.ts"},{"end":{"character":1,"line":0},"project":"lib","start":{"character":0,"line":0},"uri":"file:///lib.ts"}]}
references lib file:///lib.ts 1:0
200 {"places":[{"end":{"character":1,"line":1},"project":"app","start":{"character":0,"line":1},"uri":"file:///app.ts"},{"end":{"character":1,"line":1},"project":"lib","start":{"character":0,"line":1},"uri":"file:///lib.ts"}]}
definition lib file:///lib.ts 0:0
200 {"places":[{"end":{"character":1,"line":0},"project":"lib","start":{"character":0,"line":0},"uri":"file:///lib.ts"}]}
definition lib file:///lib.ts 1:0
200 {"places":[{"end":{"character":1,"line":1},"project":"app","start":{"character":0,"line":1},"uri":"file:///app.ts"},{"end":{"character":1,"line":1},"project":"lib","start":{"character":0,"line":1},"uri":"file:///lib.ts"}]}
references lib file:///lib.ts 2:0
200 {"places":[{"end":{"character":1,"line":2},"project":"lib","start":{"character":0,"line":2},"uri":"file:///lib.ts"}]}
references lib file:///lib.ts 3:0
200 {"places":[{"end":{"character":1,"line":3},"project":"lib","start":{"character":0,"line":3},"uri":"file:///lib.ts"}]}
references lib file:///lib.ts 4:0
200 {"places":[{"end":{"character":1,"line":1},"project":"app","start":{"character":0,"line":1},"uri":"file:///app.ts"},{"end":{"character":1,"line":4},"project":"lib","start":{"character":0,"line":4},"uri":"file:///lib.ts"}]}"#,
    // A bearer's marks are those of its own moniker edges, so range 3, whose chain leads to the
    // moniker's vertex, isn't joined, and its result isn't that vertex's. But the bearer's first
    // result is that along its chain, and of two results along it the first.
    r#"put app k1 1 import
200 {"accepted":"lsif","count":8}
put lib k1 1 export | 6 note | 8 resultSet | 9 definitionResult | 10 next 3>8 | 12 textDocument/definition 3>9 | 13 item 9>[3] @2 | 14 moniker 8>4
200 {"accepted":"lsif","count":14}
definition app file:///app.ts 1:0
200 {"places":[]}
put lib k2 1 export | 8 resultSet | 9 definitionResult | 10 next 3>8 | 12 textDocument/definition 8>9 | 13 item 9>[3] @2
200 {"accepted":"lsif","count":13}
definition app file:///app.ts 1:0
200 {"places":[{"end":{"character":10,"line":0},"project":"lib","start":{"character":9,"line":0},"uri":"file:///lib.ts"}]}
put lib k3 1 export | 10 note | 12 resultSet | 13 next 3>12 | 14 definitionResult | 15 textDocument/definition 12>14 | 16 item 14>[3] @2
200 {"accepted":"lsif","count":16}
definition app file:///app.ts 1:0
200 {"places":[]}"#,
    // A bearer's marks go over attached monikers: here a local moniker, to which an export is
    // attached by way of another local one.
    r#"put app k1 1 import
200 {"accepted":"lsif","count":8}
put lib k1 1 export | 12 moniker local tsc a | 13 moniker local tsc b | 6 note | 14 moniker 3>12 | 15 attach 13>12 | 16 attach 13>4
200 {"accepted":"lsif","count":16}
definition app file:///app.ts 1:0
200 {"places":[{"end":{"character":10,"line":0},"project":"lib","start":{"character":9,"line":0},"uri":"file:///lib.ts"}]}
put lib k2 1 export | 12 moniker local tsc a | 13 moniker local tsc b | 6 note | 14 moniker 3>12 | 15 attach 13>12
200 {"accepted":"lsif","count":15}
definition app file:///app.ts 1:0
200 {"places":[]}"#,
    // A joined reference result is closed over the results that it names.
    r#"put app k1 1 import
200 {"accepted":"lsif","count":8}
put lib k1 1 levels | 21 moniker import npm lib::f | 22 packageInformation npm lib 1.0.0 | 23 packageInformation 21>22 | 24 moniker 4>21 | 25 textDocument/references 4>8
200 {"accepted":"lsif","count":25}
references app file:///app.ts 1:0 yes
200 {"places":[{"end":{"character":1,"line":0},"project":"lib","start":{"character":0,"line":0},"uri":"file:///r.ts"},{"end":{"character":1,"line":1},"project":"lib","start":{"character":0,"line":1},"uri":"file:///r.ts"},{"end":{"character":1,"line":2},"project":"lib","start":{"character":0,"line":2},"uri":"file:///r.ts"}]}
references app file:///app.ts 1:0 no
200 {"places":[{"end":{"character":1,"line":1},"project":"lib","start":{"character":0,"line":1},"uri":"file:///r.ts"},{"end":{"character":1,"line":2},"project":"lib","start":{"character":0,"line":2},"uri":"file:///r.ts"}]}
definition app file:///app.ts 1:0
200 {"places":[]}"#,
    // Contents are the range's own, else those of the first bearer in the order of projects and
    // lines that has any. Bearers without contents are passed by, and a project that has only such.
    r#"put app k1 1 import
200 {"accepted":"lsif","count":8}
hover app file:///app.ts 1:0
200 {"contents":null}
put lib k1 1 export
200 {"accepted":"lsif","count":11}
hover app file:///app.ts 1:0
200 {"contents":null}
put zed k1 1 contents | 9 hoverResult "third"
200 {"accepted":"lsif","count":15}
hover app file:///app.ts 1:0
200 {"contents":"third"}
put mid k1 1 contents
200 {"accepted":"lsif","count":15}
hover app file:///app.ts 1:0
200 {"contents":"first"}
put mid k2 1 contents | 15 note
200 {"accepted":"lsif","count":15}
hover app file:///app.ts 1:0
200 {"contents":"second"}
put app k2 1 import | 9 hoverResult "own" | 10 textDocument/hover 3>9
200 {"accepted":"lsif","count":10}
hover app file:///app.ts 1:0
200 {"contents":"own"}
put app k3 1 import | 9 hoverResult [] | 10 textDocument/hover 3>9
200 {"accepted":"lsif","count":10}
hover app file:///app.ts 1:0
200 {"contents":[]}"#,
    // An export of the range isn't joined for contents, nor is an import of the other project.
    r#"put app k1 1 import | 4 moniker export npm lib::f
200 {"accepted":"lsif","count":8}
put lib k1 1 contents
200 {"accepted":"lsif","count":15}
hover app file:///app.ts 1:0
200 {"contents":null}
put app k2 1 import
200 {"accepted":"lsif","count":8}
hover app file:///app.ts 1:0
200 {"contents":"first"}
put lib k2 1 contents | 6 moniker import npm lib::f
200 {"accepted":"lsif","count":15}
hover app file:///app.ts 1:0
200 {"contents":null}"#,
    // A range with an empty result of its own joins too.
    r#"put app k1 1 import | 9 definitionResult | 10 textDocument/definition 3>9
200 {"accepted":"lsif","count":10}
put lib k1 1 export
200 {"accepted":"lsif","count":11}
definition app file:///app.ts 1:0
200 {"places":[{"end":{"character":10,"line":0},"project":"lib","start":{"character":9,"line":0},"uri":"file:///lib.ts"}]}
put lib k2 1 export | 10 note
200 {"accepted":"lsif","count":11}
definition app file:///app.ts 1:0
200 {"places":[]}"#,
    // The keys of a range that imports and exports by way of one result set: the import joins for
    // each request, the export for references alone. The other range joins neither of them.
    r#"put app k1 1 importing
200 {"accepted":"lsif","count":17}
put lib k1 1 exporting
200 {"accepted":"lsif","count":36}
definition app file:///a.ts 0:4
200 {"places":[{"end":{"character":1,"line":0},"project":"lib","start":{"character":0,"line":0},"uri":"file:///lib.ts"}]}
hover app file:///a.ts 0:4
200 {"contents":"j"}
references app file:///a.ts 0:4
200 {"places":[{"end":{"character":1,"line":0},"project":"lib","start":{"character":0,"line":0},"uri":"file:///lib.ts"},{"end":{"character":1,"line":1},"project":"lib","start":{"character":0,"line":1},"uri":"file:///lib.ts"}]}
definition app file:///a.ts 2:0
200 {"places":[{"end":{"character":1,"line":2},"project":"lib","start":{"character":0,"line":2},"uri":"file:///lib.ts"}]}
references app file:///a.ts 2:0
200 {"places":[{"end":{"character":1,"line":2},"project":"lib","start":{"character":0,"line":2},"uri":"file:///lib.ts"}]}
hover app file:///a.ts 2:0
200 {"contents":null}"#,
];
