//! Readers and writers of the standard library under the counts.
use crate::asserts::expect_equal_text;
use samples::slow_writer;
use std::alloc::Global;
use std::test::Fail;
use streams::{Counted, Sink, Source, counted_law};

/// Pulls three times of a slice: the answers, with the bytes of the room after each.
fn slice_pulls(alloc: Global) -> Result<String, Fail> {
    let mut reader = Counted::new(b"abc".as_slice());
    let mut room = [0; 2];
    let mut found = String::new(alloc);
    for _ in 0..3 {
        if Source::failures(&reader) != 0 {
            Err("a pull failed")?;
        }
        let answer = reader.pull(&mut room);
        let text = str::from_utf8(&room).unwrap_or("no text");
        write!(found, "{answer:?} {text}; ")?;
    }
    Ok(found)
}

/// Pushes each of the parts: the answers, and then how often a push failed and how often one took
/// nothing.
fn pushes<W: Sink>(alloc: Global, writer: &mut W, parts: &[&str]) -> Result<String, Fail> {
    let mut found = String::new(alloc);
    for part in parts {
        if writer.failures() == u64::MAX || writer.zero_writes() == u64::MAX {
            Err("no more is counted")?;
        }
        let answer = writer.push(part.as_bytes());
        write!(found, "{answer:?} ")?;
    }
    let (failures, zero_writes) = (writer.failures(), writer.zero_writes());
    Ok(format!(in alloc; "{found}{failures} {zero_writes}")?)
}

/// The same of a vector, and what it took.
fn vector_pushes(alloc: Global, parts: &[&str]) -> Result<String, Fail> {
    let mut writer = Counted::new(Vec::new(alloc));
    let found = pushes(alloc, &mut writer, parts)?;
    let taken = writer.into_inner();
    let text = str::from_utf8(&taken).unwrap_or("no text");
    Ok(format!(in alloc; "{found} {text}")?)
}

/// The same of a slow writer.
fn slow_pushes(alloc: Global, most: usize, fails_at: u32, parts: &[&str]) -> Result<String, Fail> {
    let mut writer = Counted::new(slow_writer(alloc, most, fails_at));
    let found = pushes(alloc, &mut writer, parts)?;
    let taken = writer.into_inner().taken;
    let text = str::from_utf8(&taken).unwrap_or("no text");
    Ok(format!(in alloc; "{found} {text}\n")?)
}

#[test]
fn slices_and_vectors(rt: HostRuntime) -> Result<(), Fail> {
    counted_law::<&[u8], Vec<u8>>();
    let wanted = "Ok(2) ab; Ok(1) cb; Ok(0) cb; ";
    expect_equal_text(&rt, slice_pulls(rt.alloc())?.as_str(), wanted, "pulls");
    let wanted = "Ok(2) Ok(0) Ok(1) 0 0 abc";
    let found = vector_pushes(rt.alloc(), &["ab", "", "c"])?;
    expect_equal_text(&rt, found.as_str(), wanted, "pushes");
    Ok(())
}

const SLOW: &str = "\
Ok(1) Ok(1) Ok(0) 0 0 ab
Ok(0) Ok(0) Ok(0) 0 2 \n\
Ok(2) Err(Failed) Ok(2) 1 0 abef
";

/// Writers that take little, nothing, and one that fails once.
#[test]
fn slow_writers(rt: HostRuntime) -> Result<(), Fail> {
    let mut found = String::new(rt.alloc());
    for &(most, fails_at, parts) in &[
        (1, 0, ["ab", "b", ""]),
        (0, 0, ["ab", "", "ab"]),
        (9, 2, ["ab", "cd", "ef"]),
    ] {
        found.push_str(slow_pushes(rt.alloc(), most, fails_at, &parts)?.as_str())?;
    }
    expect_equal_text(&rt, found.as_str(), SLOW, "slow writers");
    Ok(())
}
