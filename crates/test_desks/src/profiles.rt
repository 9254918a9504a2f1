//! Dumps in both profiles.
use crate::desks::expect_replies;
use std::test::Fail;

/// Puts in a profile, and what the desk answers of them. A comment says what each list shows.
const SCENARIOS: &[&str] = &[
    // Declarations and implementations are results in profile 2 alone. In profile 1 their labels
    // have no effect.
    r#"put app k1 1 declared
200 {"accepted":"lsif","count":12}
profile app
200 {"profile":1}
declaration app file:///p.ts 2:0
200 {"places":[]}
implementation app file:///p.ts 2:0
200 {"places":[]}
definition app file:///p.ts 2:0
200 {"places":[]}
put app k2 2 declared
200 {"accepted":"lsif","count":12}
profile app
200 {"profile":2}
declaration app file:///p.ts 2:0
200 {"places":[{"end":{"character":1,"line":0},"project":"app","start":{"character":0,"line":0},"uri":"file:///p.ts"}]}
implementation app file:///p.ts 2:0
200 {"places":[{"end":{"character":1,"line":1},"project":"app","start":{"character":0,"line":1},"uri":"file:///p.ts"}]}
definition app file:///p.ts 2:0
200 {"places":[]}
references app file:///p.ts 2:0
200 {"places":[]}
hover app file:///p.ts 2:0
200 {"contents":null}"#,
    // What is a fault in profile 2 alone.
    r#"put app k1 2 declared | 9 textDocument/declaration 5>6
422 {"fault":"L13","line":9,"text":"second edge of a single kind"}
put app k1 2 declared | 10 item 6>[3] references @2
422 {"fault":"L10","line":10,"text":"edge may not join these"}
put app k1 1 declared | 9 textDocument/declaration 5>6
200 {"accepted":"lsif","count":12}
put app k2 1 declared | 10 item 6>[3] references @2
200 {"accepted":"lsif","count":12}
profile app
200 {"profile":1}"#,
    // An import in profile 1 joins a declaration in profile 2.
    r#"put app k1 1 import
200 {"accepted":"lsif","count":8}
put lib k1 2 export | 8 declarationResult | 9 textDocument/declaration 3>8
200 {"accepted":"lsif","count":11}
declaration app file:///app.ts 1:0
200 {"places":[{"end":{"character":10,"line":0},"project":"lib","start":{"character":9,"line":0},"uri":"file:///lib.ts"}]}
definition app file:///app.ts 1:0
200 {"places":[]}
implementation app file:///app.ts 1:0
200 {"places":[]}
put lib k2 2 export | 8 implementationResult | 9 textDocument/implementation 3>8
200 {"accepted":"lsif","count":11}
declaration app file:///app.ts 1:0
200 {"places":[]}
implementation app file:///app.ts 1:0
200 {"places":[{"end":{"character":10,"line":0},"project":"lib","start":{"character":9,"line":0},"uri":"file:///lib.ts"}]}
put lib k3 1 export | 8 declarationResult | 9 textDocument/declaration 3>8
200 {"accepted":"lsif","count":11}
declaration app file:///app.ts 1:0
200 {"places":[]}"#,
    // A range with a moniker has both a declaration and an implementation. Then a result set with
    // two monikers has a declaration.
    r#"put app k1 1 import
200 {"accepted":"lsif","count":8}
put lib k1 2 export | 8 declarationResult | 9 textDocument/declaration 3>8 | 12 implementationResult | 13 textDocument/implementation 3>12 | 14 item 12>[3] @2
200 {"accepted":"lsif","count":14}
declaration app file:///app.ts 1:0
200 {"places":[{"end":{"character":10,"line":0},"project":"lib","start":{"character":9,"line":0},"uri":"file:///lib.ts"}]}
implementation app file:///app.ts 1:0
200 {"places":[{"end":{"character":10,"line":0},"project":"lib","start":{"character":9,"line":0},"uri":"file:///lib.ts"}]}
put lib k2 2 export | 6 note | 8 resultSet | 9 declarationResult | 10 next 3>8 | 12 textDocument/declaration 8>9 | 13 item 9>[3] @2 | 14 moniker 8>4 | 15 moniker export npm lib::g | 16 moniker 8>15
200 {"accepted":"lsif","count":16}
declaration app file:///app.ts 1:0
200 {"places":[{"end":{"character":10,"line":0},"project":"lib","start":{"character":9,"line":0},"uri":"file:///lib.ts"}]}"#,
    // A dump keeps its profile until another one is put, and a kept key is answered whatever the
    // profile.
    r#"put app k1 2 declared
200 {"accepted":"lsif","count":12}
put lib k1 1 base
200 {"accepted":"lsif","count":11}
put app k1 1 declared
200 {"accepted":"lsif","count":12}
profile app
200 {"profile":2}
profile lib
200 {"profile":1}
declaration app file:///p.ts 2:0
200 {"places":[{"end":{"character":1,"line":0},"project":"app","start":{"character":0,"line":0},"uri":"file:///p.ts"}]}
definition lib file:///a.ts 2:1
200 {"places":[{"end":{"character":7,"line":0},"project":"lib","start":{"character":4,"line":0},"uri":"file:///a.ts"}]}
put app k2 2 base
200 {"accepted":"lsif","count":11}
definition app file:///a.ts 2:1
200 {"places":[{"end":{"character":7,"line":0},"project":"app","start":{"character":4,"line":0},"uri":"file:///a.ts"}]}
remove app k3
200 {"removed":true}
profile app
404 {"fault":"D01","text":"project has no dump"}"#,
];

#[test]
fn profiles(rt: HostRuntime) -> Result<(), Fail> {
    for &scenario in SCENARIOS {
        expect_replies(&rt, scenario)?;
    }
    Ok(())
}
