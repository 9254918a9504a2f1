//! Commands, and the queries that list something.

/// What the desk answers to commands, and what it lists then. A comment says what each list shows.
pub(super) const SCENARIOS: &[&str] = &[
    // The same key again has its reply again, whatever its body, and changes nothing; another
    // project's key is another.
    r#"put app k1 1 base
200 {"accepted":"lsif","count":11}
put app k2 1 base | 3 range 0:5 0:7
200 {"accepted":"lsif","count":11}
put app k1 1 base
200 {"accepted":"lsif","count":11}
definition app file:///a.ts 2:1
200 {"places":[{"end":{"character":7,"line":0},"project":"app","start":{"character":5,"line":0},"uri":"file:///a.ts"}]}
put app k2 1 brace
200 {"accepted":"lsif","count":11}
put lib k1 1 brace
422 {"fault":"L02","line":1,"text":"not JSON"}"#,
    // A refused upload changes nothing and keeps no key.
    r#"put app k1 1 base
200 {"accepted":"lsif","count":11}
put app k2 1 base | 11 -
422 {"fault":"E01","line":3,"text":"range in no document"}
definition app file:///a.ts 2:1
200 {"places":[{"end":{"character":7,"line":0},"project":"app","start":{"character":4,"line":0},"uri":"file:///a.ts"}]}
put app k2 1 base
200 {"accepted":"lsif","count":11}
definition app file:///a.ts 2:1
200 {"places":[{"end":{"character":7,"line":0},"project":"app","start":{"character":4,"line":0},"uri":"file:///a.ts"}]}
put app k3 1 base | 11 -
422 {"fault":"E01","line":3,"text":"range in no document"}
put app k3 1 base | 3 range 0:5 0:7
200 {"accepted":"lsif","count":11}
definition app file:///a.ts 2:1
200 {"places":[{"end":{"character":7,"line":0},"project":"app","start":{"character":5,"line":0},"uri":"file:///a.ts"}]}"#,
    // A kept key is answered for a command of any kind, whatever its body, and nothing changes.
    r#"put app k1 1 base
200 {"accepted":"lsif","count":11}
tags app k1 x
200 {"accepted":"lsif","count":11}
remove app k1
200 {"accepted":"lsif","count":11}
put app k1 2 brace
200 {"accepted":"lsif","count":11}
projects
200 {"projects":[{"dump":true,"name":"app","tags":false}]}
tags app k2 x␉f.c␉1␊
200 {"accepted":"tags","count":1}
put app k2 1 brace
200 {"accepted":"tags","count":1}
projects
200 {"projects":[{"dump":true,"name":"app","tags":true}]}"#,
    // Refused tags keep no key, and leave what is there.
    r#"tags app k1 x␉f.c␉1␊
200 {"accepted":"tags","count":1}
tags app k2 \q␉f.c␉1␊
422 {"fault":"T05","line":1,"text":"bad escape"}
put app k2 1 nothing
422 {"fault":"L06","line":1,"text":"metaData missing, wrong or repeated"}
names x
200 {"tags":[{"address":"1","fields":[],"file":"f.c","kind":null,"line":1,"name":"x","project":"app"}]}
remove app k2
200 {"removed":true}
projects
200 {"projects":[]}"#,
    // A removal keeps keys, and removes both parts once.
    r#"put app k1 1 base
200 {"accepted":"lsif","count":11}
tags app k2 x␉f.c␉1␊y␉f.c␉2␊
200 {"accepted":"tags","count":2}
remove app k3
200 {"removed":true}
remove app k4
200 {"removed":false}
remove app k3
200 {"removed":true}
put app k1 1 base
200 {"accepted":"lsif","count":11}
tags app k2 x
200 {"accepted":"tags","count":2}
projects
200 {"projects":[]}
profile app
404 {"fault":"D01","text":"project has no dump"}
remove lib k1
200 {"removed":false}
put app k5 1 base
200 {"accepted":"lsif","count":11}
projects
200 {"projects":[{"dump":true,"name":"app","tags":false}]}"#,
    // An empty tags file is a part. Tags leave the dump, and a dump leaves the tags. Projects are
    // listed by their names.
    r#"projects
200 {"projects":[]}
tags lib k1 -
200 {"accepted":"tags","count":0}
projects
200 {"projects":[{"dump":false,"name":"lib","tags":true}]}
profile lib
404 {"fault":"D01","text":"project has no dump"}
put lib k2 1 base
200 {"accepted":"lsif","count":11}
tags lib2 k1 -
200 {"accepted":"tags","count":0}
put app k1 2 base
200 {"accepted":"lsif","count":11}
projects
200 {"projects":[{"dump":true,"name":"app","tags":false},{"dump":true,"name":"lib","tags":true},{"dump":false,"name":"lib2","tags":true}]}
profile app
200 {"profile":2}
profile lib
200 {"profile":1}
put app k2 1 base
200 {"accepted":"lsif","count":11}
profile app
200 {"profile":1}
profile zed
404 {"fault":"D01","text":"project has no dump"}
remove lib2 k2
200 {"removed":true}
remove lib2 k3
200 {"removed":false}"#,
    // Names by project and line; prefixes by name, project and line; of one project where asked.
    r#"tags lib k1 a␉f.c␉1␊b␉f.c␉2␊
200 {"accepted":"tags","count":2}
tags app k1 ab␉f.c␉1␊a␉f.c␉2␊
200 {"accepted":"tags","count":2}
prefix a
200 {"tags":[{"address":"2","fields":[],"file":"f.c","kind":null,"line":2,"name":"a","project":"app"},{"address":"1","fields":[],"file":"f.c","kind":null,"line":1,"name":"a","project":"lib"},{"address":"1","fields":[],"file":"f.c","kind":null,"line":1,"name":"ab","project":"app"}]}
names a
200 {"tags":[{"address":"2","fields":[],"file":"f.c","kind":null,"line":2,"name":"a","project":"app"},{"address":"1","fields":[],"file":"f.c","kind":null,"line":1,"name":"a","project":"lib"}]}
prefix a lib
200 {"tags":[{"address":"1","fields":[],"file":"f.c","kind":null,"line":1,"name":"a","project":"lib"}]}
prefix a zed
200 {"tags":[]}
names b app
200 {"tags":[]}
prefix abc
200 {"tags":[]}
names
200 {"tags":[]}"#,
    // A line of the same name again is another tag. Names are ordered by bytes, so capitals come
    // first.
    r#"tags app k1 b␉f.c␉1␊B␉f.c␉2␊b␉f.c␉3␊
200 {"accepted":"tags","count":3}
names b
200 {"tags":[{"address":"1","fields":[],"file":"f.c","kind":null,"line":1,"name":"b","project":"app"},{"address":"3","fields":[],"file":"f.c","kind":null,"line":3,"name":"b","project":"app"}]}
tags app k2 ba␉f.c␉1␊bB␉f.c␉2␊b␉f.c␉3␊ba␉f.c␉4␊
200 {"accepted":"tags","count":4}
prefix b
200 {"tags":[{"address":"3","fields":[],"file":"f.c","kind":null,"line":3,"name":"b","project":"app"},{"address":"2","fields":[],"file":"f.c","kind":null,"line":2,"name":"bB","project":"app"},{"address":"1","fields":[],"file":"f.c","kind":null,"line":1,"name":"ba","project":"app"},{"address":"4","fields":[],"file":"f.c","kind":null,"line":4,"name":"ba","project":"app"}]}"#,
    // Names are compared without escapes, and fields are listed in order, without the kind.
    r#"tags app k1 a\x41\tb␉f.c␉/a\/b/;"␉f␊
200 {"accepted":"tags","count":1}
prefix aA
200 {"tags":[{"address":"/a\\/b/","fields":[],"file":"f.c","kind":"f","line":1,"name":"aA\tb","project":"app"}]}
tags app k2 \q␉f.c␉/a\/b/;"␉f␊
422 {"fault":"T05","line":1,"text":"bad escape"}
tags app k3 a\x41\tb␉f.c␉/a\/b/;"␉f␊x␉"f".c␉1;"␉a:b␉kind:v␉c:␊
200 {"accepted":"tags","count":2}
prefix aA
200 {"tags":[{"address":"/a\\/b/","fields":[],"file":"f.c","kind":"f","line":1,"name":"aA\tb","project":"app"}]}
names x
200 {"tags":[{"address":"1","fields":[["a","b"],["c",""]],"file":"\"f\".c","kind":"v","line":2,"name":"x","project":"app"}]}
tags app k4 x␉f.c␉9␊
200 {"accepted":"tags","count":1}
prefix x
200 {"tags":[{"address":"9","fields":[],"file":"f.c","kind":null,"line":1,"name":"x","project":"app"}]}"#,
    // A project's name and keys of 64 characters.
    r#"put abcdefghijklmnopqrstuvwxyz0123456789_-abcdefghijklmnopqrstuvwxyz ABCDEFGHIJKLMNOPQRSTUVWXYZ0123456789_-ABCDEFGHIJKLMNOPQRSTUVWXY1 1 base
200 {"accepted":"lsif","count":11}
tags abcdefghijklmnopqrstuvwxyz0123456789_-abcdefghijklmnopqrstuvwxyz ABCDEFGHIJKLMNOPQRSTUVWXYZ0123456789_-ABCDEFGHIJKLMNOPQRSTUVWXY2 x␉f.c␉1␊
200 {"accepted":"tags","count":1}
put abcdefghijklmnopqrstuvwxyz0123456789_-abcdefghijklmnopqrstuvwxyz ABCDEFGHIJKLMNOPQRSTUVWXYZ0123456789_-ABCDEFGHIJKLMNOPQRSTUVWXY3 1 brace
422 {"fault":"L02","line":1,"text":"not JSON"}
put abcdefghijklmnopqrstuvwxyz0123456789_-abcdefghijklmnopqrstuvwxyz ABCDEFGHIJKLMNOPQRSTUVWXYZ0123456789_-ABCDEFGHIJKLMNOPQRSTUVWXY1 1 brace
200 {"accepted":"lsif","count":11}
definition abcdefghijklmnopqrstuvwxyz0123456789_-abcdefghijklmnopqrstuvwxyz file:///a.ts 2:1
200 {"places":[{"end":{"character":7,"line":0},"project":"abcdefghijklmnopqrstuvwxyz0123456789_-abcdefghijklmnopqrstuvwxyz","start":{"character":4,"line":0},"uri":"file:///a.ts"}]}
remove abcdefghijklmnopqrstuvwxyz0123456789_-abcdefghijklmnopqrstuvwxyz ABCDEFGHIJKLMNOPQRSTUVWXYZ0123456789_-ABCDEFGHIJKLMNOPQRSTUVWXY3
200 {"removed":true}
remove abcdefghijklmnopqrstuvwxyz0123456789_-abcdefghijklmnopqrstuvwxyz ABCDEFGHIJKLMNOPQRSTUVWXYZ0123456789_-ABCDEFGHIJKLMNOPQRSTUVWXY4
200 {"removed":false}
tags abcdefghijklmnopqrstuvwxyz0123456789_-abcdefghijklmnopqrstuvwxyz ABCDEFGHIJKLMNOPQRSTUVWXYZ0123456789_-ABCDEFGHIJKLMNOPQRSTUVWXY2 x
200 {"accepted":"tags","count":1}"#,
];
