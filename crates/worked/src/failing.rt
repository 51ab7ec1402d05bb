//! A reader and a writer that fail at a call of theirs.

ghost use Rattle.std.specs.Prelude.{◌≡◌, []};

use std::alloc::Global;
use std::io;
use std::io::{Read, Write};

/// Bytes that come at most 64 at a time, until a call fails.
#[derive(Drop)]
pub struct FailingReader<'a> {
    rest: &'a [u8],
    calls: usize,
}

impl<'a> FailingReader<'a> {
    /// A reader of these bytes, of which so many calls are well and the next one fails.
    pub fn new(rest: &'a [u8], calls: usize) -> Self
        ensures rest { result.rest.now ≡ rest.now }
        ensures calls { result.calls ≡ calls }
    {
        FailingReader { rest, calls }
    }
}

impl Read for FailingReader<'_> {
    fn read(&mut self, buf: &mut [u8]) -> io::Result<usize> {
        if self.calls == 0 {
            return Err(io::Error::from(io::ErrorKind::ConnectionReset));
        }
        self.calls -= 1;
        let n = self.rest.len().min(buf.len()).min(64);
        buf[..n].copy_from_slice(&self.rest[..n]);
        self.rest = &self.rest[n..];
        Ok(n)
    }
}

/// Takes at most 32 bytes at a time, until a call fails.
#[derive(Drop)]
pub struct FailingWriter {
    taken: Vec<u8>,
    calls: usize,
}

impl FailingWriter {
    /// Nothing taken yet, where so many calls are well and the next one fails.
    pub fn new(alloc: Global, calls: usize) -> Self
        ensures taken { result.taken.items ≡ [] }
        ensures calls { result.calls ≡ calls }
    {
        FailingWriter {
            taken: Vec::new(alloc),
            calls,
        }
    }

    /// What was taken.
    pub fn into_taken(self) -> Vec<u8>
        ensures { result ≡ self.taken }
    {
        let FailingWriter { taken, calls: _ } = self;
        taken
    }
}

impl Write for FailingWriter {
    fn write(&mut self, buf: &[u8]) -> io::Result<usize> {
        if self.calls == 0 {
            return Err(io::Error::from(io::ErrorKind::BrokenPipe));
        }
        self.calls -= 1;
        let n = buf.len().min(32);
        self.taken.extend_from_slice(&buf[..n])?;
        Ok(n)
    }

    fn flush(&mut self) -> io::Result<()> {
        Ok(())
    }
}
