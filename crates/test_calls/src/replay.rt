//! A stream of requests by the program's call. The replies to streams are tested in the crate
//! `test_replay`, over the desk that this call is of.
use crate::asserts::expect_equal;
use calls::replay_in_memory;
use samples::{Slow, UPLOADS, exchange, in_pieces, slow_writer};
use std::test::Fail;
use streams::Counted;

/// Uploads under keys, one of them a second time, and tags.
#[test]
fn replayed(rt: HostRuntime) -> Result<(), Fail> {
    let (requests, replies) = exchange(rt.alloc(), UPLOADS, usize::MAX)?;
    let mut r = Counted::new(in_pieces(requests.as_bytes(), 7));
    let mut w = Counted::new(slow_writer(rt.alloc(), 7, 0));
    let answer = replay_in_memory(rt.alloc(), &mut r, &mut w);
    let Slow { taken, .. } = w.into_inner();
    let found = str::from_utf8(&taken).unwrap_or("not UTF-8");
    expect_equal(&rt, &(answer, found), &(Ok(7), replies.as_str()), "uploads");
    Ok(())
}
