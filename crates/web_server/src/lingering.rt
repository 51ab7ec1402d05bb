//! Connections that ended, of which what still comes is read away.

ghost use Rattle.std.specs.Prelude.{◌≡◌, length};

use mio::net::TcpStream;
use mio::{Interest, Registry, Token};
use std::alloc::{AllocError, Global};
use std::io;
use std::io::{ErrorKind, Read};
use std::net::Shutdown;

/// How long that takes at most, in milliseconds.
const LINGER_MS: u64 = 5_000;

/// How many bytes are read away at most.
const MOST: usize = 4_194_304;

/// A connection that ended: nothing more is written to it, and what still comes is read away. Where it remained unread the system would break the
/// connection off, and the caller could lose the answer that was written last.
#[derive(Drop)]
struct Lingering {
    stream: TcpStream,
    since: u64,
    read: usize,
}

/// Connections that ended, each at a slot.
#[derive(Drop)]
pub(crate) struct Lingerers {
    slots: Vec<Option<Lingering>>,
}

// Has nothing more be written to a stream, and waits for what it brings.
fn close(
    mut stream: TcpStream,
    registry: &Registry,
    token: Token,
    now: u64,
) -> io::Result<Lingering> {
    stream.shutdown(Shutdown::Write)?;
    registry.reregister(&mut stream, token, Interest::READABLE)?;
    Ok(Lingering {
        stream,
        since: now,
        read: 0,
    })
}

// Reads once what it brings, and waits for more. Whether more may come.
fn read_away(
    lingering: &mut Lingering,
    registry: &Registry,
    token: Token,
    input: &mut [u8],
) -> io::Result<bool>
    ensures { length input.new ≡ length input.old }
{
    match lingering.stream.read(input) {
        Ok(0) => return Ok(false),
        Ok(n) => lingering.read = lingering.read.saturating_add(n),
        Err(error) => match error.kind() {
            ErrorKind::WouldBlock | ErrorKind::Interrupted => {}
            _ => return Ok(false),
        },
    }
    if lingering.read >= MOST {
        return Ok(false);
    }
    registry.reregister(&mut lingering.stream, token, Interest::READABLE)?;
    Ok(true)
}

impl Lingerers {
    /// As many slots, and no connection at any.
    pub(crate) fn new(alloc: Global, count: usize) -> Result<Lingerers, AllocError> {
        let mut slots = Vec::new(alloc);
        for _ in 0..count {
            slots.push(None)?;
        }
        Ok(Lingerers { slots })
    }

    /// Whether no connection is there.
    pub(crate) fn is_empty(&self) -> bool {
        self.slots.iter().all(|it| it.is_none())
    }

    // The first slot that is free, or else the first one.
    fn slot(&self) -> usize {
        self.slots.iter().position(|it| it.is_none()).unwrap_or(0)
    }

    /// A connection ends. Its events come under its slot, behind so many others.
    pub(crate) fn add(&mut self, stream: TcpStream, registry: &Registry, behind: usize, now: u64) {
        let slot = self.slot();
        let token = Token(behind.saturating_add(slot));
        if let Some(found) = self.slots.get_mut(slot) {
            *found = close(stream, registry, token, now).ok();
        }
    }

    /// An event of the connection at a slot.
    pub(crate) fn hear(&mut self, slot: usize, registry: &Registry, token: Token, input: &mut [u8])
        ensures { length input.new ≡ length input.old }
    {
        let Some(found) = self.slots.get_mut(slot) else {
            return;
        };
        let Some(mut lingering) = found.take() else {
            return;
        };
        if read_away(&mut lingering, registry, token, input).unwrap_or(false) {
            *found = Some(lingering);
        }
    }

    /// Closes those whose time is up.
    pub(crate) fn close_late(&mut self, now: u64) {
        for found in self.slots.iter_mut() {
            let is_late = match found {
                Some(lingering) => now.saturating_sub(lingering.since) >= LINGER_MS,
                None => false,
            };
            if is_late {
                *found = None;
            }
        }
    }
}
