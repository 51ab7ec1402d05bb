//! A socket: what it gives and takes, and nothing of what that means.

ghost use Rattle.std.specs.Prelude.{◌≡◌, ℕ, ◌<◌, ◌≤◌, List, [], Option, None, length, IfOk, OnErr};
ghost use Rattle.std.specs.Io.KnownBytes.{IsAtEnd};
ghost use Rattle.base_devices.specs.Reported.{Adds, AddsSoMany, Gives, GivesSoMany};

use crate::ends::Awaited;
use mio::net::TcpStream;
use mio::{Interest, Registry, Token};
use std::io;
use std::io::{Read, Write};

/// A socket, whose calls answer at once. std and mio promise nothing of what it brings; here that has a name, so that whoever is handed a socket
/// can't have bytes from elsewhere, or bring it others than it says.
pub trait Wire: Drop {
    // the bytes that it will give, where they are known
    ghost left: { Self → Option (List ℕ) };

    // the bytes that it was given, where they are known
    ghost taken: { Self → Option (List ℕ) };

    /// Reads what is there: none only at the end.
    fn read(&mut self, buffer: &mut [u8]) -> io::Result<usize>
        ensures fits { IfOk result (λ n. n ≤ length buffer.new) }
        ensures given { GivesSoMany result (left self.old) buffer.new (left self.new) }
        ensures ended { IfOk result (λ n. n ≡ 0 → 0 < length buffer.new → IsAtEnd (left self.new)) }
        ensures kept { OnErr result (Gives (left self.old) [] (left self.new)) }
        ensures size { length buffer.new ≡ length buffer.old }
        ensures same { taken self.new ≡ taken self.old };

    /// Takes as many of the bytes as there is room for.
    fn write(&mut self, bytes: &[u8]) -> io::Result<usize>
        ensures fits { IfOk result (λ n. n ≤ length bytes.now) }
        ensures taken { AddsSoMany result (taken self.old) bytes.now (taken self.new) }
        ensures kept { OnErr result (Adds (taken self.old) [] (taken self.new)) }
        ensures same { left self.new ≡ left self.old };

    /// Has its server be woken once it has what is awaited, also where it has it now.
    fn wake(&mut self, awaited: Awaited) -> io::Result<()>
        ensures left { left self.new ≡ left self.old }
        ensures taken { taken self.new ≡ taken self.old };
}

/// A connection of the system's, of which events come under a name. Nothing is known of what it brings or is brought.
#[derive(Drop)]
pub struct Tcp<'a> {
    /// The connection.
    pub stream: TcpStream,
    /// Where its server waits.
    pub registry: &'a Registry,
    /// Under which name it does.
    pub token: Token,
}

// What wakes a server.
fn interest_of(awaited: Awaited) -> Interest {
    match awaited {
        Awaited::Bytes => Interest::READABLE,
        Awaited::Room => Interest::WRITABLE,
    }
}

impl Wire for Tcp<'_> {
    ghost left = { λ _. None };

    ghost taken = { λ _. None };

    fn read(&mut self, buffer: &mut [u8]) -> io::Result<usize> {
        self.stream.read(buffer)
    }

    fn write(&mut self, bytes: &[u8]) -> io::Result<usize> {
        self.stream.write(bytes)
    }

    // What is there at the call wakes the server too: nothing is missed that came between a read and this.
    fn wake(&mut self, awaited: Awaited) -> io::Result<()> {
        self.registry
            .reregister(&mut self.stream, self.token, interest_of(awaited))
    }
}
