//! A caller over a socket.

use crate::ends::{Awaited, Came, Ends};
use crate::wire::Wire;
use base_devices::Refused;
use std::io::ErrorKind;

/// A caller over a socket, whose reads and writes answer at once.
#[derive(Drop)]
pub struct Peer<W: Wire> {
    /// The socket.
    pub wire: W,
}

impl<W: Wire> Ends for Peer<W> {
    ghost left = { λ p. W.left p.wire };

    ghost taken = { λ p. W.taken p.wire };

    fn read(&mut self, buffer: &mut [u8]) -> Result<Came, Refused> {
        if buffer.is_empty() {
            return Ok(Came::Later);
        }
        match self.wire.read(buffer) {
            Ok(0) => Ok(Came::End),
            Ok(n) => Ok(Came::Bytes(n)),
            Err(error) => match error.kind() {
                ErrorKind::WouldBlock | ErrorKind::Interrupted => Ok(Came::Later),
                _ => Err(Refused),
            },
        }
    }

    fn write(&mut self, bytes: &[u8]) -> Result<usize, Refused> {
        match self.wire.write(bytes) {
            Ok(n) => Ok(n),
            Err(error) => match error.kind() {
                ErrorKind::WouldBlock | ErrorKind::Interrupted => Ok(0),
                _ => Err(Refused),
            },
        }
    }

    fn wait_for(&mut self, awaited: Awaited) -> Result<(), Refused> {
        match self.wire.wake(awaited) {
            Ok(()) => Ok(()),
            Err(_) => Err(Refused),
        }
    }
}
