//! Lines of texts that come in pieces.
use crate::asserts::expect_equal_text;
use std::alloc::{AllocError, Global};
use std::test::Fail;
use streams::Cutter;

/// Adds the lines that the piece ends, or why the cutter takes no more, and says whether it goes
/// on.
fn push_lines(
    alloc: Global,
    cutter: &mut Cutter,
    piece: &[u8],
    found: &mut String,
) -> Result<bool, Fail> {
    let mut left = piece;
    for _ in 0..piece.len() {
        match cutter.take(left) {
            Ok(taken) => left = &left[taken..],
            Err(fault) => {
                write!(found, " {fault:?}")?;
                return Ok(false);
            }
        }
        if let Some(line) = cutter.line() {
            let line = str::from_utf8(line).unwrap_or("no text");
            write!(found, " {line:?}")?;
        }
    }
    Ok(true)
}

/// The text, the lines of at most seven bytes that are cut from its pieces, and what no line feed
/// has ended. Where a line is too long, one more line feed and no byte at all come after it.
fn row(alloc: Global, text: &str, most: usize) -> Result<String, Fail> {
    let mut cutter = Cutter::new(alloc, 7)?;
    let mut found = format!(in alloc; "{text:?} =>")?;
    for piece in text.as_bytes().chunks(most.max(1)) {
        if !push_lines(alloc, &mut cutter, piece, &mut found)? {
            push_answers(&mut cutter, &mut found)?;
            break;
        }
    }
    push_rest(&cutter, &mut found)?;
    Ok(found)
}

/// Adds what one more line feed and no byte at all are answered.
fn push_answers(cutter: &mut Cutter, found: &mut String) -> Result<(), AllocError> {
    let (again, once_more) = (cutter.take(b"\n"), cutter.take(b""));
    write!(found, " {again:?} {once_more:?}")
}

/// Adds what no line feed has ended.
fn push_rest(cutter: &Cutter, found: &mut String) -> Result<(), AllocError> {
    let rest = match cutter.rest() {
        Some(rest) => Some(str::from_utf8(rest).unwrap_or("no text")),
        None => None,
    };
    write!(found, " {rest:?}\n")
}

/// Texts, and after each its lines, and the last line that no line feed has ended.
const ROWS: &str = r#"
"" => None
"\n" => "" None
"one" => Some("one")
"one\n\ntwo\r\n\n" => "one" "" "two\r" "" None
"\r\n\n\rthree\nfour" => "\r" "" "\rthree" Some("four")
"1234567\n1234567" => "1234567" Some("1234567")
"1234567\n12345678\nend\n" => "1234567" TooLong Err(TooLong) Err(TooLong) None
"1234567\n12345678" => "1234567" TooLong Err(TooLong) Err(TooLong) None
"1234567\n1234567\r\n" => "1234567" TooLong Err(TooLong) Err(TooLong) None
"#;

#[test]
fn lines_of_pieces(rt: HostRuntime) -> Result<(), Fail> {
    for &most in &[1, 2, 7, 100] {
        let mut found = String::from_str(rt.alloc(), "\n")?;
        for &text in &[
            "",
            "\n",
            "one",
            "one\n\ntwo\r\n\n",
            "\r\n\n\rthree\nfour",
            "1234567\n1234567",
            "1234567\n12345678\nend\n",
            "1234567\n12345678",
            "1234567\n1234567\r\n",
        ] {
            found.push_str(row(rt.alloc(), text, most)?.as_str())?;
        }
        expect_equal_text(&rt, found.as_str(), ROWS, "in pieces");
    }
    Ok(())
}
