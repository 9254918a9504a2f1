//! Connections with limits of time, in all and for each read and write, so that a slow client can't
//! hold the server. The limits are in `main.rt`. `next_wait` in `specs/Serve`.
ghost use Rattle.std.specs.Prelude.{◌≡◌, option_map};
ghost use Rattle.std.specs.Duration.{as_nanos};
ghost use Rattle.calls.specs.Serve.{next_wait};

use std::io;
use std::io::{ErrorKind, Read, Write};
use std::net::{OpenStream, Shutdown};
use std::time::{Clock, Duration, Instant};

/// How long a connection may take.
#[derive(Clone, Copy)]
pub struct Limits {
    /// One read or one write of it at most.
    pub wait: Duration,
    /// All of it at most, from when it was accepted.
    pub whole: Duration,
    /// One read of what its client still sends, or of the end, when the reply was written.
    pub rest: Duration,
}

/// How long a read or a write may wait when so much time of a connection is over: no longer than
/// one may, and than is left for all of it. None where nothing is left.
pub fn next_wait(wait: Duration, whole: Duration, elapsed: Duration) -> Option<Duration>
    ensures { option_map as_nanos result ≡ next_wait (as_nanos wait) (as_nanos whole) (as_nanos elapsed) }
{
    let left = whole.saturating_sub(elapsed);
    if left.is_zero() {
        return None;
    }
    if left.as_nanos() < wait.as_nanos() {
        Some(left)
    } else {
        Some(wait)
    }
}

/// A stream of a connection. A read or a write that would wait for longer than it may fails, and so
/// does each when the time for all of the connection is over.
#[derive(Drop)]
pub struct Timed<'a, S, C> {
    stream: S,
    clock: &'a C,
    start: Instant,
    limits: Limits,
}

impl<'a, S: OpenStream, C: Clock> Timed<'a, S, C> {
    /// The stream of a connection that was accepted at that time.
    pub fn new(stream: S, clock: &'a C, start: Instant, limits: Limits) -> Timed<'a, S, C>
        ensures { result.stream ≡ stream }
    {
        Timed {
            stream,
            clock,
            start,
            limits,
        }
    }

    /// How long the next read or write may wait.
    fn wait(&self) -> io::Result<Duration> {
        let elapsed = self.start.elapsed(self.clock)?;
        match next_wait(self.limits.wait, self.limits.whole, elapsed) {
            Some(wait) => Ok(wait),
            None => Err(io::Error::from(ErrorKind::TimedOut)),
        }
    }
}

impl<S: OpenStream + Read + Drop, C: Clock> Timed<'_, S, C> {
    /// Ends a connection whose reply was written, in stages (RFC 9112, section 9.6): nothing more
    /// is sent, and what its client still sends is read and dropped until it ends, since a
    /// connection that is closed before may be reset, and the reply lost.
    pub fn finish(self) {
        let Timed {
            stream,
            clock,
            start,
            limits,
        } = self;
        if stream.shutdown(Shutdown::Write).is_err() {
            return;
        }
        let limits = Limits {
            wait: limits.rest,
            ..limits
        };
        let mut rest = Timed::new(stream, clock, start, limits);
        let mut room = [0; 8192];
        for _ in 0..u64::MAX {
            match rest.read(&mut room) {
                Ok(0) | Err(_) => return,
                Ok(_) => {}
            }
        }
    }
}

impl<S: OpenStream + Read, C: Clock> Read for Timed<'_, S, C> {
    ghost remaining = { λ t. S.remaining t.stream };

    #[tactic(auto, using(crate::proofs::Waits::keeps))]
    fn read(&mut self, buf: &mut [u8]) -> io::Result<usize> {
        let wait = self.wait()?;
        self.stream.set_read_timeout(Some(wait))?;
        self.stream.read(buf)
    }
}

impl<S: OpenStream + Write, C: Clock> Write for Timed<'_, S, C> {
    ghost contents = { λ t. S.contents t.stream };

    #[tactic(auto, using(crate::proofs::Waits::keeps))]
    fn write(&mut self, buf: &[u8]) -> io::Result<usize> {
        let wait = self.wait()?;
        self.stream.set_write_timeout(Some(wait))?;
        self.stream.write(buf)
    }

    fn flush(&mut self) -> io::Result<()> {
        self.stream.flush()
    }
}
