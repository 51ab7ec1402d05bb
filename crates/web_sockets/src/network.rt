//! A network: where it listens, who comes, and of whom something is to be heard.

ghost use Rattle.std.specs.Prelude.{◌≡◌, Some, List, Option, OnOk, length};
ghost use Rattle.std.specs.declared.net.socket_addr.SocketAddr.{SocketAddr};
ghost use Rattle.web_sockets.specs.Accepting.{Begun, AcceptsNext};

use crate::ends::Ends;
use base_devices::Refused;
use std::net::SocketAddr;

/// What a look waiting to be accepted gave.
#[derive(Drop)]
pub enum Accepted<E> {
    /// A caller.
    Here(E),
    /// One that was gone before.
    Gone,
    /// Nobody.
    Nobody,
    /// Perhaps somebody, for whom the system has no file or no memory now.
    Wants,
}

/// Of what something is to be heard.
#[derive(Clone, Copy, Drop, PartialEq, Eq)]
pub enum Event {
    /// The listener: somebody may be there.
    Listener,
    /// The caller in a slot.
    Slot(usize),
    /// A connection that ended, which the network sees off by itself.
    Closed(usize),
}

/// A network at which a server listens, and its callers. Whom it lets in, and where it listens, has a name here: whoever is handed a network can't have
/// callers from elsewhere, or listen anywhere else and say that it does.
pub trait Network<E: Ends> {
    // at which address it listens, if it does
    ghost listens: { Self → Option SocketAddr };

    // those who came so far, in order, as each was when it came, where that is known
    ghost came: { Self → Option (List Begun) };

    /// Listens at an address.
    fn listen(&mut self, addr: SocketAddr) -> Result<(), Refused>
        ensures listens { OnOk result (listens self.new ≡ Some addr) }
        ensures came { came self.new ≡ came self.old };

    /// Has the listener be heard again if somebody waits to be accepted, also where it was heard of that one before.
    fn listen_again(&mut self) -> Result<(), Refused>
        ensures listens { listens self.new ≡ listens self.old }
        ensures came { came self.new ≡ came self.old };

    /// The next who is waiting to be accepted.
    fn accept_next(&mut self) -> Result<Accepted<E>, Refused>
        ensures listens { listens self.new ≡ listens self.old }
        ensures came { AcceptsNext E.left E.taken result (came self.old) (came self.new) };

    /// A caller has this slot from now on: what is to be heard of it comes under that.
    fn assign(&mut self, slot: usize, ends: &mut E) -> Result<(), Refused>
        ensures listens { listens self.new ≡ listens self.old }
        ensures came { came self.new ≡ came self.old }
        ensures left { E.left ends.new ≡ E.left ends.old }
        ensures taken { E.taken ends.new ≡ E.taken ends.old };

    /// Waits till something is to be heard, so many milliseconds at most.
    fn wait(&mut self, most: u64) -> Result<(), Refused>
        ensures listens { listens self.new ≡ listens self.old }
        ensures came { came self.new ≡ came self.old };

    /// The next of what was to be heard when the last wait ended.
    fn event(&mut self) -> Option<Event>
        ensures listens { listens self.new ≡ listens self.old }
        ensures came { came self.new ≡ came self.old };

    /// Sees off a caller who left. It was in that slot.
    fn close(&mut self, ends: E, now: u64)
        ensures listens { listens self.new ≡ listens self.old }
        ensures came { came self.new ≡ came self.old };

    /// What is heard of a connection that ended is read away.
    fn read_away(&mut self, parted: usize, buffer: &mut [u8])
        ensures size { length buffer.new ≡ length buffer.old }
        ensures listens { listens self.new ≡ listens self.old }
        ensures came { came self.new ≡ came self.old };

    /// Closes connections that ended long ago.
    fn look_round(&mut self, now: u64)
        ensures listens { listens self.new ≡ listens self.old }
        ensures came { came self.new ≡ came self.old };

    /// Whether no connection that ended is there still.
    fn is_quiet(&self) -> bool;
}
