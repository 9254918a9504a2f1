//! Readers and writers that move so many bytes at a time, and fail where they are to.
ghost use Rattle.std.specs.Prelude.{◌≡◌, []};

use std::alloc::Global;
use std::io;
use std::io::{Read, Write};

/// A reader that gives at most so many bytes at a time, and fails at the read of that number.
#[derive(Drop)]
pub struct Pieces<'a> {
    pub bytes: &'a [u8],
    pub most: usize,
    pub fails_at: u32,
    pub reads: u32,
}

impl Read for Pieces<'_> {
    fn read(&mut self, buf: &mut [u8]) -> io::Result<usize> {
        self.reads = self.reads.saturating_add(1);
        if self.reads == self.fails_at {
            return Err(io::Error::from(io::ErrorKind::Other));
        }
        let count = self.bytes.len().min(self.most).min(buf.len());
        buf[..count].copy_from_slice(&self.bytes[..count]);
        self.bytes = &self.bytes[count..];
        Ok(count)
    }
}

/// A writer that takes at most so many bytes at a time, and fails at the write of that number.
#[derive(Drop)]
pub struct Slow {
    pub taken: Vec<u8>,
    pub most: usize,
    pub fails_at: u32,
    pub writes: u32,
}

impl Write for Slow {
    fn write(&mut self, bytes: &[u8]) -> io::Result<usize> {
        self.writes = self.writes.saturating_add(1);
        if self.writes == self.fails_at {
            return Err(io::Error::from(io::ErrorKind::Other));
        }
        let count = bytes.len().min(self.most);
        self.taken.extend_from_slice(&bytes[..count])?;
        Ok(count)
    }

    fn flush(&mut self) -> io::Result<()> {
        Ok(())
    }
}

/// A reader of these bytes that gives so many at a time, and doesn't fail.
pub fn in_pieces(bytes: &[u8], most: usize) -> Pieces<'_>
    ensures bytes { result.bytes.now ≡ bytes.now }
    ensures pace { (result.most ≡ most) × (result.fails_at ≡ 0) × (result.reads ≡ 0) }
{
    Pieces {
        bytes,
        most,
        fails_at: 0,
        reads: 0,
    }
}

/// A writer that takes so many bytes at a time, and fails at the write of that number, where it
/// isn't 0.
pub fn slow_writer(alloc: Global, most: usize, fails_at: u32) -> Slow
    ensures taken { result.taken.items ≡ [] }
    ensures pace { (result.most ≡ most) × (result.fails_at ≡ fails_at) × (result.writes ≡ 0) }
{
    Slow {
        taken: Vec::new(alloc),
        most,
        fails_at,
        writes: 0,
    }
}
