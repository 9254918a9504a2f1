//! Lines of input that comes in pieces, and callers that the contracts alone prove.
ghost use Rattle.std.specs.Prelude.{◌≡◌, ◌+◌, length, IfOk, IfSome};
ghost use Rattle.streams.specs.Buffered.{unread};
ghost use Rattle.streams.specs.Lines.{lines_of};
ghost use Rattle.streams.specs.Streams.{IsCountable};

use crate::asserts::expect_equal_text;
use samples::{Pieces, in_pieces};
use std::alloc::Global;
use std::test::Fail;
use streams::{Counted, LineBuffer, Lines, LinesFault, Source};

/// How many lines are left, where they are fewer than `u64::MAX`.
fn count_lines<S: Source>(lines: &mut Lines<S>) -> Result<Option<u64>, LinesFault>
    requires { IsCountable lines.old.failures }
    ensures { IfOk result (λ o. IfSome o (λ n. IfSome lines.old.left (λ text. n ≡ length (lines_of text)))) }
{
    for n in 0..u64::MAX {
        match lines.next_line() {
            Ok(Some(_)) => {}
            Ok(None) => return Ok(Some(n)),
            Err(fault) => return Err(fault),
        }
    }
    Ok(None)
}

/// The same over a source that is borrowed.
fn count_lines_of<S: Source>(
    lines: &mut LineBuffer,
    source: &mut S,
) -> Result<Option<u64>, LinesFault>
    requires { IsCountable (S.failed source.old) }
    ensures { IfOk result (λ o. IfSome o (λ n. IfSome (unread lines.old.pending (S.left source.old)) (λ text. n ≡ length (lines_of text)))) }
{
    for n in 0..u64::MAX {
        match lines.advance(source) {
            Ok(true) => {}
            Ok(false) => return Ok(Some(n)),
            Err(fault) => return Err(fault),
        }
    }
    Ok(None)
}

/// The next line, or why there is none.
fn next(alloc: Global, lines: &mut Lines<Counted<Pieces<'_>>>) -> Result<String, Fail> {
    if lines.failures() == u64::MAX {
        Err("no more is counted")?;
    }
    match lines.next_line() {
        Ok(Some(line)) => {
            let line = str::from_utf8(line).unwrap_or("no text");
            Ok(format!(in alloc; "{line:?}")?)
        }
        Ok(None) => Ok(String::from_str(alloc, "end")?),
        Err(fault) => Ok(format!(in alloc; "{fault:?}")?),
    }
}

/// What seven asks answer, with the failures after each.
fn answers(alloc: Global, lines: &mut Lines<Counted<Pieces<'_>>>) -> Result<String, Fail> {
    let mut found = String::new(alloc);
    for _ in 0..7 {
        let answer = next(alloc, lines)?;
        let failures = lines.failures();
        write!(found, " {answer} {failures}")?;
    }
    Ok(found)
}

/// The text of a reader, of lines of at most seven bytes, and what seven asks answer.
fn row(alloc: Global, text: &str, most: usize, fails_at: u32) -> Result<String, Fail> {
    let mut reader = in_pieces(text.as_bytes(), most);
    reader.fails_at = fails_at;
    let mut lines = Lines::new(alloc, Counted::new(reader), 7)?;
    let found = answers(alloc, &mut lines);
    drop(lines);
    Ok(format!(in alloc; "{text:?} =>{}\n", found?)?)
}

/// Texts, and after each the lines or the faults that seven asks answer, with the failures after
/// each.
const ROWS: &str = r#"
"" => end 0 end 0 end 0 end 0 end 0 end 0 end 0
"\n" => "" 0 end 0 end 0 end 0 end 0 end 0 end 0
"one" => "one" 0 end 0 end 0 end 0 end 0 end 0 end 0
"one\n\ntwo\r\n\n" => "one" 0 "" 0 "two\r" 0 "" 0 end 0 end 0 end 0
"\r\n\n\rthree\nfour" => "\r" 0 "" 0 "\rthree" 0 "four" 0 end 0 end 0 end 0
"1234567\n1234567" => "1234567" 0 "1234567" 0 end 0 end 0 end 0 end 0 end 0
"1234567\n12345678\nend\n" => "1234567" 0 TooLong 0 TooLong 0 TooLong 0 TooLong 0 TooLong 0 TooLong 0
"1234567\n12345678" => "1234567" 0 TooLong 0 TooLong 0 TooLong 0 TooLong 0 TooLong 0 TooLong 0
"1234567\n1234567\r\n" => "1234567" 0 TooLong 0 TooLong 0 TooLong 0 TooLong 0 TooLong 0 TooLong 0
"#;

/// The rows of all texts, whose readers give at most so many bytes at a time.
fn rows(alloc: Global, most: usize) -> Result<String, Fail> {
    let mut found = String::from_str(alloc, "\n")?;
    for &text in &[
        "",
        "\n",
        "one",
        "one\n\ntwo\r\n\n",
        "\r\n\n\rthree\nfour",
        "1234567\n1234567",
        "1234567\n12345678\nend\n",
        "1234567\n12345678",
        "1234567\n1234567\r\n",
    ] {
        found.push_str(row(alloc, text, most, 0)?.as_str())?;
    }
    Ok(found)
}

#[test]
fn lines_of_input_in_pieces(rt: HostRuntime) -> Result<(), Fail> {
    for &most in &[1, 2, 7, 100] {
        let found = rows(rt.alloc(), most)?;
        expect_equal_text(&rt, found.as_str(), ROWS, "in pieces");
    }
    let wanted =
        "\"one\\ntwo\\nthree\\n\" => \"one\" 0 Read 1 Read 1 Read 1 Read 1 Read 1 Read 1\n";
    let found = row(rt.alloc(), "one\ntwo\nthree\n", 2, 3)?;
    expect_equal_text(&rt, found.as_str(), wanted, "a reader that fails");
    Ok(())
}

/// What the first line of a borrowed source is, and how many are left.
fn lent_lines(alloc: Global, lines: &mut LineBuffer) -> Result<String, Fail> {
    let mut source = Counted::new(b"one\ntwo".as_slice());
    let first = lines.advance(&mut source);
    if source.failures() != 0 {
        return Err(Fail::from("a pull failed"));
    }
    let line = str::from_utf8(lines.line()).unwrap_or("no text");
    let found = format!(in alloc; "{first:?} {line}")?;
    let left = count_lines_of(lines, &mut source);
    Ok(format!(in alloc; "{found} {left:?}")?)
}

/// The same of a new buffer.
fn buffered_lines(alloc: Global) -> Result<String, Fail> {
    let mut lines = LineBuffer::new(alloc, 3)?;
    lent_lines(alloc, &mut lines)
}

#[test]
fn lines_that_are_counted(rt: HostRuntime) -> Result<(), Fail> {
    let lent = buffered_lines(rt.alloc())?;
    expect_equal_text(&rt, lent.as_str(), "Ok(true) one Ok(Some(1))", "lent");
    let mut lines = Lines::new(rt.alloc(), Counted::new(b"a\n\nb".as_slice()), 3)?;
    assert_eq!(rt; count_lines(&mut lines), Ok(Some(3)));
    Ok(())
}
