//! The traits of readers and writers that count their failures, and the wrapper that makes these of
//! any others. A contract says by the count whether a call failed; after a failure the bytes are
//! unknown. `specs/Streams`.
ghost use Rattle.std.specs.Prelude.{◌≡◌, ℕ, ◌+◌, ◌≤◌, List, Option, Some, IfOk, length};
ghost use Rattle.streams.specs.Streams.{CanCount, CountsFailure, IsCountable, Output, Pulls, Pushes, counted, unless_failed};

use std::io::{Read, Write};
use thiserror::Error;

/// A read or a write failed, for whatever cause.
#[derive(Clone, Copy, Debug, PartialEq, Eq, Error)]
#[error("a read or a write failed")]
pub struct Failed;

/// A reader with a count of its failures.
pub trait Source {
    // the bytes that are left, where they are known
    ghost left: { Self → Option (List ℕ) };

    // how many pulls failed
    ghost failed: { Self → ℕ };

    /// How many pulls failed so far.
    fn failures(&self) -> u64
        ensures { result ≡ failed self.now };

    /// Fills a beginning of the slice, and says how long it is.
    fn pull(&mut self, buf: &mut [u8]) -> Result<usize, Failed>
        requires { IsCountable (failed self.old) }
        ensures within { IfOk result (λ n. n ≤ length buf.new) }
        ensures bytes { Pulls (left self.old) (left self.new) result buf.new }
        ensures counted { CountsFailure (failed self.old) (failed self.new) result };
}

/// A writer with a count of its failures, and of the writes that took no byte.
pub trait Sink {
    // what is known of it
    ghost output: { Self → Output };

    /// How many pushes failed so far.
    fn failures(&self) -> u64
        ensures { result ≡ (output self.now).failures };

    /// How many pushes of one byte or more took none so far.
    fn zero_writes(&self) -> u64
        ensures { result ≡ (output self.now).zero_writes };

    /// Takes a beginning of the bytes, and says how long it is.
    fn push(&mut self, bytes: &[u8]) -> Result<usize, Failed>
        requires { CanCount (output self.old) }
        ensures within { IfOk result (λ n. n ≤ length bytes.now) }
        ensures bytes { Pushes (output self.old) bytes.now result (output self.new) };
}

/// A reader or a writer of the standard library with a count of its failures. Once it has failed
/// its bytes are unknown.
#[derive(Drop)]
pub struct Counted<T> {
    inner: T,
    failures: u64,
    zero_writes: u64,
}

impl<T> Counted<T> {
    /// The reader or the writer, which hasn't failed so far.
    pub fn new(inner: T) -> Counted<T>
        ensures { result ≡ counted inner }
    {
        Counted {
            inner,
            failures: 0,
            zero_writes: 0,
        }
    }

    /// The reader or the writer.
    pub fn into_inner(self) -> T
        ensures { result ≡ self.inner }
    {
        let Counted { inner, .. } = self;
        inner
    }

    fn count_failure(&mut self) -> Failed
        requires { IsCountable self.old.failures }
        ensures { self.new ≡ record self.old { failures = self.old.failures + 1 } }
    {
        self.failures += 1;
        Failed
    }
}

/// A reader that never failed has the bytes left that the reader below has. A writer that never
/// failed took the bytes that the writer below took. After a failure neither is known.
pub fn counted_law<R: Read, W: Write>()
    ensures left { (reader : Counted R) → ⟦<Counted<R> as Source>⟧.left reader ≡ unless_failed reader.failures (R.remaining reader.inner) }
    ensures taken { (writer : Counted W) → (⟦<Counted<W> as Sink>⟧.output writer).taken ≡ unless_failed writer.failures (W.contents writer.inner) }
{}

impl<R: Read> Source for Counted<R> {
    ghost left = { λ s. unless_failed s.failures (R.remaining s.inner) };

    ghost failed = { λ s. s.failures };

    fn failures(&self) -> u64 {
        self.failures
    }

    fn pull(&mut self, buf: &mut [u8]) -> Result<usize, Failed> {
        match self.inner.read(buf) {
            Ok(count) => Ok(count),
            Err(_) => Err(self.count_failure()),
        }
    }
}

impl<W: Write> Sink for Counted<W> {
    ghost output = { λ s. record { taken = unless_failed s.failures (W.contents s.inner); failures = s.failures; zero_writes = s.zero_writes } };

    fn failures(&self) -> u64 {
        self.failures
    }

    fn zero_writes(&self) -> u64 {
        self.zero_writes
    }

    fn push(&mut self, bytes: &[u8]) -> Result<usize, Failed> {
        match self.inner.write(bytes) {
            Ok(0) => {
                if !bytes.is_empty() {
                    self.zero_writes += 1;
                }
                Ok(0)
            }
            Ok(count) => Ok(count),
            Err(_) => Err(self.count_failure()),
        }
    }
}

impl<S: Source> Source for &mut S {
    ghost left = { λ s. S.left s.now };

    ghost failed = { λ s. S.failed s.now };

    fn failures(&self) -> u64 {
        Source::failures(&**self)
    }

    fn pull(&mut self, buf: &mut [u8]) -> Result<usize, Failed> {
        Source::pull(&mut **self, buf)
    }
}

impl<S: Sink> Sink for &mut S {
    ghost output = { λ s. S.output s.now };

    fn failures(&self) -> u64 {
        Sink::failures(&**self)
    }

    fn zero_writes(&self) -> u64 {
        Sink::zero_writes(&**self)
    }

    fn push(&mut self, bytes: &[u8]) -> Result<usize, Failed> {
        Sink::push(&mut **self, bytes)
    }
}
