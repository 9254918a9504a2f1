//! Queries at positions, and what refuses them.

/// What the desk answers to queries at positions. A comment says what each list shows.
pub(super) const SCENARIOS: &[&str] = &[
    // Faulty bodies change nothing. The first faulty line is named, and a fault of a line goes
    // before those of the whole dump.
    r#"put app k1 1 nothing
422 {"fault":"L06","line":1,"text":"metaData missing, wrong or repeated"}
put app k1 1 base | 8 #9 textDocument/definition 5>8 | 9 #8 definitionResult
422 {"fault":"L09","line":8,"text":"vertex not emitted before"}
put app k1 1 base | 11 -
422 {"fault":"E01","line":3,"text":"range in no document"}
put app k1 1 base | 10 item 8>[3] x @2
422 {"fault":"L15","line":10,"text":"bad item property or shard"}
put app k1 1 base | 10 item 8>[3] x @2 | 11 -
422 {"fault":"L15","line":10,"text":"bad item property or shard"}
put app k1 1 base | 4 range 0:6 0:9
422 {"fault":"L12","line":11,"text":"range equal to or overlapping another"}
put app k1 1 base | 7 next 5>5
422 {"fault":"L14","line":7,"text":"next closes a cycle"}
put app k1 1 base | 1 #9007199254740992 metaData 0.6.0
422 {"fault":"L03","line":1,"text":"no valid id"}
definition app file:///a.ts 2:1
404 {"fault":"D01","text":"project has no dump"}
put app k1 1 base | 1 #9007199254740991 metaData 0.6.0
200 {"accepted":"lsif","count":11}"#,
    // Both ranges are defined at the first, by way of a result set. An end is exclusive, and
    // positions go up to the greatest number.
    r#"put app k1 1 base
200 {"accepted":"lsif","count":11}
definition app file:///a.ts 2:1
200 {"places":[{"end":{"character":7,"line":0},"project":"app","start":{"character":4,"line":0},"uri":"file:///a.ts"}]}
definition app file:///a.ts 0:4
200 {"places":[{"end":{"character":7,"line":0},"project":"app","start":{"character":4,"line":0},"uri":"file:///a.ts"}]}
definition app file:///a.ts 0:3
200 {"places":[]}
definition app file:///a.ts 0:7
200 {"places":[]}
definition app file:///a.ts 2:3
200 {"places":[]}
definition app file:///a.ts 2147483647:2147483647
200 {"places":[]}"#,
    // A place may be empty.
    r#"put app k1 1 base | 3 range 0:4 0:4
200 {"accepted":"lsif","count":11}
definition app file:///a.ts 2:1
200 {"places":[{"end":{"character":4,"line":0},"project":"app","start":{"character":4,"line":0},"uri":"file:///a.ts"}]}"#,
    // Only the last accepted dump answers, by the innermost range that has a result. An empty range
    // covers nothing.
    r#"put app k1 1 nested
200 {"accepted":"lsif","count":8}
definition app file:///n.ts 0:6
200 {"places":[{"end":{"character":20,"line":0},"project":"app","start":{"character":0,"line":0},"uri":"file:///n.ts"}]}
definition app file:///n.ts 0:19
200 {"places":[{"end":{"character":20,"line":0},"project":"app","start":{"character":0,"line":0},"uri":"file:///n.ts"}]}
put app k2 1 touching
200 {"accepted":"lsif","count":15}
definition app file:///u.ts 0:4
200 {"places":[{"end":{"character":5,"line":0},"project":"app","start":{"character":0,"line":0},"uri":"file:///u.ts"}]}
definition app file:///u.ts 0:5
200 {"places":[{"end":{"character":9,"line":0},"project":"app","start":{"character":5,"line":0},"uri":"file:///u.ts"}]}
definition app file:///u.ts 0:9
200 {"places":[]}
definition app file:///n.ts 0:6
404 {"fault":"D02","text":"no such document"}"#,
    // The ranges of the document that cover are tried from the innermost outward. Here the
    // innermost and the outermost have a definition, the one between them has references, and the
    // outermost has contents. An empty range has contents that nothing shows.
    r#"put app k1 1 covering
200 {"accepted":"lsif","count":25}
definition app file:///n.ts 0:4
200 {"places":[{"end":{"character":20,"line":0},"project":"app","start":{"character":0,"line":0},"uri":"file:///n.ts"}]}
definition app file:///n.ts 0:6
200 {"places":[{"end":{"character":8,"line":0},"project":"app","start":{"character":5,"line":0},"uri":"file:///n.ts"}]}
definition app file:///n.ts 0:8
200 {"places":[{"end":{"character":20,"line":0},"project":"app","start":{"character":0,"line":0},"uri":"file:///n.ts"}]}
definition app file:///n.ts 0:20
200 {"places":[]}
definition app file:///o.ts 0:6
200 {"places":[]}
definition app file:///p.ts 0:6
404 {"fault":"D02","text":"no such document"}
references app file:///n.ts 0:4
200 {"places":[]}
references app file:///n.ts 0:6
200 {"places":[{"end":{"character":12,"line":0},"project":"app","start":{"character":5,"line":0},"uri":"file:///n.ts"}]}
references app file:///n.ts 0:8
200 {"places":[{"end":{"character":12,"line":0},"project":"app","start":{"character":5,"line":0},"uri":"file:///n.ts"}]}
references app file:///n.ts 0:12
200 {"places":[]}
hover app file:///n.ts 0:6
200 {"contents":"outer"}
hover app file:///o.ts 0:6
200 {"contents":"other"}"#,
    // The first result along a chain counts, even an empty one.
    r#"put app k1 1 chained
200 {"accepted":"lsif","count":18}
definition app file:///c.ts 0:3
200 {"places":[{"end":{"character":9,"line":0},"project":"app","start":{"character":0,"line":0},"uri":"file:///c.ts"}]}
definition app file:///c.ts 0:7
200 {"places":[]}
put app k2 1 chained | 11 note
200 {"accepted":"lsif","count":18}
definition app file:///c.ts 0:3
200 {"places":[{"end":{"character":4,"line":0},"project":"app","start":{"character":2,"line":0},"uri":"file:///c.ts"}]}
put app k3 1 chained | 12 textDocument/definition 3>10
200 {"accepted":"lsif","count":18}
definition app file:///c.ts 0:0
200 {"places":[{"end":{"character":4,"line":0},"project":"app","start":{"character":2,"line":0},"uri":"file:///c.ts"}]}"#,
    // Places come once, and in order: by the document's URL, then by start.
    r#"put app k1 1 repeated
200 {"accepted":"lsif","count":13}
definition app file:///b.ts 1:1
200 {"places":[{"end":{"character":1,"line":0},"project":"app","start":{"character":0,"line":0},"uri":"file:///a.ts"},{"end":{"character":6,"line":0},"project":"app","start":{"character":2,"line":0},"uri":"file:///b.ts"},{"end":{"character":3,"line":1},"project":"app","start":{"character":0,"line":1},"uri":"file:///b.ts"}]}
definition app file:///b.ts 0:2
200 {"places":[]}"#,
    // Reference results may name each other in a ring: the places of all of them count, each once.
    r#"put app k1 1 ring
200 {"accepted":"lsif","count":13}
references app file:///c.ts 1:0 yes
200 {"places":[{"end":{"character":1,"line":0},"project":"app","start":{"character":0,"line":0},"uri":"file:///c.ts"},{"end":{"character":1,"line":1},"project":"app","start":{"character":0,"line":1},"uri":"file:///c.ts"}]}
references app file:///c.ts 1:0 no
200 {"places":[{"end":{"character":1,"line":1},"project":"app","start":{"character":0,"line":1},"uri":"file:///c.ts"}]}
references app file:///c.ts 0:0
200 {"places":[]}
definition app file:///c.ts 1:0
200 {"places":[]}"#,
    // The closure follows three levels and leads back to the first, and to no result that isn't
    // named. Without the edge back, only what lies ahead is reached.
    r#"put app k1 1 levels
200 {"accepted":"lsif","count":20}
references app file:///r.ts 0:0 yes
200 {"places":[{"end":{"character":1,"line":0},"project":"app","start":{"character":0,"line":0},"uri":"file:///r.ts"},{"end":{"character":1,"line":1},"project":"app","start":{"character":0,"line":1},"uri":"file:///r.ts"},{"end":{"character":1,"line":2},"project":"app","start":{"character":0,"line":2},"uri":"file:///r.ts"}]}
references app file:///r.ts 0:0 no
200 {"places":[{"end":{"character":1,"line":1},"project":"app","start":{"character":0,"line":1},"uri":"file:///r.ts"},{"end":{"character":1,"line":2},"project":"app","start":{"character":0,"line":2},"uri":"file:///r.ts"}]}
references app file:///r.ts 2:0 yes
200 {"places":[{"end":{"character":1,"line":0},"project":"app","start":{"character":0,"line":0},"uri":"file:///r.ts"},{"end":{"character":1,"line":1},"project":"app","start":{"character":0,"line":1},"uri":"file:///r.ts"},{"end":{"character":1,"line":2},"project":"app","start":{"character":0,"line":2},"uri":"file:///r.ts"}]}
references app file:///r.ts 1:0
200 {"places":[]}
put app k2 1 levels | 14 note
200 {"accepted":"lsif","count":20}
references app file:///r.ts 0:0 yes
200 {"places":[{"end":{"character":1,"line":0},"project":"app","start":{"character":0,"line":0},"uri":"file:///r.ts"},{"end":{"character":1,"line":1},"project":"app","start":{"character":0,"line":1},"uri":"file:///r.ts"},{"end":{"character":1,"line":2},"project":"app","start":{"character":0,"line":2},"uri":"file:///r.ts"}]}
references app file:///r.ts 2:0 yes
200 {"places":[{"end":{"character":1,"line":2},"project":"app","start":{"character":0,"line":2},"uri":"file:///r.ts"}]}"#,
    // Contents of each form, of which only known members are kept.
    r#"put app k1 1 hovered
200 {"accepted":"lsif","count":6}
hover app file:///h.ts 0:0
200 {"contents":[{"language":"c","value":"f"},"d"]}
hover app file:///h.ts 0:3
200 {"contents":null}
put app k2 1 hovered | 4 hoverResult "f"
200 {"accepted":"lsif","count":6}
hover app file:///h.ts 0:2
200 {"contents":"f"}
put app k3 1 hovered | 4 hoverResult {"x":1,"value":"f","kind":"markdown"}
200 {"accepted":"lsif","count":6}
hover app file:///h.ts 0:0
200 {"contents":{"kind":"markdown","value":"f"}}
put app k4 1 hovered | 4 hoverResult {"value":"f","language":"c"}
200 {"accepted":"lsif","count":6}
hover app file:///h.ts 0:0
200 {"contents":{"language":"c","value":"f"}}
put app k5 1 hovered | 4 hoverResult [{"kind":"html","value":"f","language":"c"}]
200 {"accepted":"lsif","count":6}
hover app file:///h.ts 0:0
200 {"contents":[{"language":"c","value":"f"}]}
put app k6 1 hovered | 4 hoverResult []
200 {"accepted":"lsif","count":6}
hover app file:///h.ts 0:0
200 {"contents":[]}
put app k7 1 hovered | 4 hoverResult {"kind":"html","value":"f"}
422 {"fault":"L07","line":4,"text":"bad vertex member"}
hover app file:///h.ts 0:0
200 {"contents":[]}"#,
    // An import mark answers each request, an export mark for references alone, a local one for
    // none; and an empty result answers its own request. Where no range inside has an answer, the
    // one around it answers.
    r#"put app k1 1 speaking
200 {"accepted":"lsif","count":32}
definition app file:///s.ts 0:0
200 {"places":[{"end":{"character":9,"line":0},"project":"app","start":{"character":0,"line":0},"uri":"file:///s.ts"}]}
references app file:///s.ts 0:0
200 {"places":[]}
hover app file:///s.ts 0:0
200 {"contents":"outer"}
definition app file:///s.ts 0:1
200 {"places":[]}
references app file:///s.ts 0:1
200 {"places":[]}
hover app file:///s.ts 0:1
200 {"contents":null}
definition app file:///s.ts 0:2
200 {"places":[{"end":{"character":9,"line":0},"project":"app","start":{"character":0,"line":0},"uri":"file:///s.ts"}]}
references app file:///s.ts 0:2
200 {"places":[{"end":{"character":9,"line":0},"project":"app","start":{"character":0,"line":0},"uri":"file:///s.ts"}]}
hover app file:///s.ts 0:2
200 {"contents":"outer"}
definition app file:///s.ts 0:3
200 {"places":[]}
references app file:///s.ts 0:3
200 {"places":[{"end":{"character":9,"line":0},"project":"app","start":{"character":0,"line":0},"uri":"file:///s.ts"}]}
hover app file:///s.ts 0:3
200 {"contents":"outer"}
definition app file:///s.ts 0:4
200 {"places":[{"end":{"character":9,"line":0},"project":"app","start":{"character":0,"line":0},"uri":"file:///s.ts"}]}
references app file:///s.ts 0:4
200 {"places":[]}
definition app file:///s.ts 0:5
200 {"places":[]}
references app file:///s.ts 0:5
200 {"places":[]}
hover app file:///s.ts 0:5
200 {"contents":null}
definition app file:///s.ts 0:6
200 {"places":[{"end":{"character":9,"line":0},"project":"app","start":{"character":0,"line":0},"uri":"file:///s.ts"}]}"#,
    // A URL may hold a quotation mark, which JSON escapes.
    r#"put app k1 1 base | 2 document x:a\"b
200 {"accepted":"lsif","count":11}
definition app x:a"b 0:4
200 {"places":[{"end":{"character":7,"line":0},"project":"app","start":{"character":4,"line":0},"uri":"x:a\"b"}]}"#,
    // A document without ranges, asked for by a URL that isn't serialized.
    r#"put app k1 1 empty
200 {"accepted":"lsif","count":2}
definition app FILE:///a.ts 0:0
200 {"places":[]}"#,
    // A query of a project without a dump is refused, with tags too; then one of a document that
    // the dump hasn't.
    r#"definition app file:///a.ts 0:4
404 {"fault":"D01","text":"project has no dump"}
references app file:///a.ts 0:4
404 {"fault":"D01","text":"project has no dump"}
hover app file:///a.ts 0:4
404 {"fault":"D01","text":"project has no dump"}
declaration app file:///a.ts 0:4
404 {"fault":"D01","text":"project has no dump"}
implementation app file:///a.ts 0:4
404 {"fault":"D01","text":"project has no dump"}
profile app
404 {"fault":"D01","text":"project has no dump"}
tags app k1 x␉f.c␉1␊
200 {"accepted":"tags","count":1}
definition app file:///a.ts 0:4
404 {"fault":"D01","text":"project has no dump"}
references app file:///a.ts 0:4
404 {"fault":"D01","text":"project has no dump"}
hover app file:///a.ts 0:4
404 {"fault":"D01","text":"project has no dump"}
declaration app file:///a.ts 0:4
404 {"fault":"D01","text":"project has no dump"}
implementation app file:///a.ts 0:4
404 {"fault":"D01","text":"project has no dump"}
profile app
404 {"fault":"D01","text":"project has no dump"}
put app k2 2 base
200 {"accepted":"lsif","count":11}
definition app file:///b.ts 0:4
404 {"fault":"D02","text":"no such document"}
references app file:///b.ts 0:4
404 {"fault":"D02","text":"no such document"}
hover app file:///b.ts 0:4
404 {"fault":"D02","text":"no such document"}
declaration app file:///b.ts 0:4
404 {"fault":"D02","text":"no such document"}
implementation app file:///b.ts 0:4
404 {"fault":"D02","text":"no such document"}
references app file:///a.ts 0:4 no
200 {"places":[]}
hover app file:///a.ts 0:4
200 {"contents":null}
declaration app file:///a.ts 0:4
200 {"places":[]}
implementation app file:///a.ts 0:4
200 {"places":[]}
profile app
200 {"profile":2}
definition lib file:///b.ts 0:4
404 {"fault":"D01","text":"project has no dump"}"#,
];
