//! The system's network, and the callers over TCP who come to it.

ghost use Rattle.std.specs.Prelude.{◌≡◌, None, IfOk};

use crate::lingering::Lingerers;
use crate::server::SLOTS;
use base_devices::Refused;
use mio::net::TcpListener;
use mio::{Events, Interest, Poll, Registry, Token};
use std::alloc::{AllocError, Global};
use std::io;
use std::io::ErrorKind;
use std::net::{Net, SocketAddr};
use std::time::Duration;
use web_sockets::{Accepted, Event, Network, Peer, Tcp};

/// Under which name events of the listener come.
const LISTENER: Token = Token(usize::MAX);

/// How many events are heard at once at most.
const EVENTS: usize = 256;

/// The system's network. Nothing is known of those who come.
#[derive(Drop)]
pub struct TcpNetwork<'a, R> {
    rt: &'a R,
    poll: Poll,
    registry: &'a Registry,
    events: Events<Global>,
    heard: usize,
    listener: Option<TcpListener>,
    at: Option<SocketAddr>,
    lingerers: Lingerers,
}

// Whether the system refused for want of files or memory: ENOMEM, ENFILE, EMFILE, ENOBUFS.
fn is_want(error: &io::Error) -> bool {
    matches!(error.raw_os_error(), Some(12 | 23 | 24 | 105))
}

// Whether the error is the caller's and not the listener's: it was gone, or the way to it was, or a firewall is between. EPERM, ENONET, EPROTO,
// ENOPROTOOPT, EOPNOTSUPP, ENETDOWN, ENETUNREACH, ETIMEDOUT, EHOSTDOWN, EHOSTUNREACH.
fn is_callers(error: &io::Error) -> bool {
    matches!(
        error.raw_os_error(),
        Some(1 | 64 | 71 | 92 | 95 | 100 | 101 | 110 | 112 | 113)
    )
}

// What it is that an event comes under this name.
fn event_of(token: Token) -> Event {
    if token == LISTENER {
        Event::Listener
    } else if token.0 < SLOTS {
        Event::Slot(token.0)
    } else {
        Event::Closed(token.0 - SLOTS)
    }
}

// Has a listener's events come.
fn open<R: Net<Listener = std::net::TcpListener, Stream = std::net::TcpStream>>(
    rt: &R,
    registry: &Registry,
    addr: SocketAddr,
) -> io::Result<TcpListener> {
    let listener = rt.bind(addr)?;
    listener.set_nonblocking(true)?;
    let mut listener = TcpListener::from_std(listener);
    registry.register(&mut listener, LISTENER, Interest::READABLE)?;
    Ok(listener)
}

impl<'a, R> TcpNetwork<'a, R> {
    /// A network at which nobody listens yet.
    pub fn new(
        alloc: Global,
        rt: &'a R,
        poll: Poll,
        registry: &'a Registry,
    ) -> Result<Self, AllocError>
        ensures { IfOk result (λ tcp_network. tcp_network.at ≡ None) }
    {
        let events = Events::with_capacity(alloc, EVENTS)?;
        let lingerers = Lingerers::new(alloc, SLOTS)?;
        Ok(TcpNetwork {
            rt,
            poll,
            registry,
            events,
            heard: 0,
            listener: None,
            at: None,
            lingerers,
        })
    }
}

impl<'a, R: Net<Listener = std::net::TcpListener, Stream = std::net::TcpStream>> Network<
    Peer<Tcp<'a>>,
> for TcpNetwork<'a, R> {
    ghost listens = { λ s. s.at };

    ghost came = { λ _. None };

    fn listen(&mut self, addr: SocketAddr) -> Result<(), Refused> {
        match open(self.rt, self.registry, addr) {
            Ok(listener) => {
                self.listener = Some(listener);
                self.at = Some(addr);
                Ok(())
            }
            Err(_) => Err(Refused),
        }
    }

    fn listen_again(&mut self) -> Result<(), Refused> {
        let Some(listener) = &mut self.listener else {
            return Ok(());
        };
        match self
            .registry
            .reregister(listener, LISTENER, Interest::READABLE)
        {
            Ok(()) => Ok(()),
            Err(_) => Err(Refused),
        }
    }

    fn accept_next(&mut self) -> Result<Accepted<Peer<Tcp<'a>>>, Refused> {
        let Some(listener) = &self.listener else {
            return Ok(Accepted::Nobody);
        };
        match listener.accept() {
            Ok((stream, _)) => {
                let wire = Tcp {
                    stream,
                    registry: self.registry,
                    token: LISTENER,
                };
                Ok(Accepted::Here(Peer { wire }))
            }
            Err(error) => match error.kind() {
                ErrorKind::WouldBlock => Ok(Accepted::Nobody),
                ErrorKind::ConnectionAborted | ErrorKind::Interrupted => Ok(Accepted::Gone),
                _ if is_want(&error) => Ok(Accepted::Wants),
                _ if is_callers(&error) => Ok(Accepted::Gone),
                _ => Err(Refused),
            },
        }
    }

    fn assign(&mut self, slot: usize, ends: &mut Peer<Tcp<'a>>) -> Result<(), Refused> {
        let wire = &mut ends.wire;
        wire.token = Token(slot);
        if wire.stream.set_nodelay(true).is_err() {
            return Err(Refused);
        }
        match self
            .registry
            .register(&mut wire.stream, Token(slot), Interest::READABLE)
        {
            Ok(()) => Ok(()),
            Err(_) => Err(Refused),
        }
    }

    fn wait(&mut self, most: u64) -> Result<(), Refused> {
        self.heard = 0;
        match self
            .poll
            .poll(&mut self.events, Some(Duration::from_millis(most)))
        {
            Ok(()) => Ok(()),
            Err(_) => Err(Refused),
        }
    }

    fn event(&mut self) -> Option<Event> {
        let event = self.events.iter().nth(self.heard)?;
        self.heard = self.heard.saturating_add(1);
        Some(event_of(event.token()))
    }

    fn close(&mut self, ends: Peer<Tcp<'a>>, now: u64) {
        let Peer { wire } = ends;
        let Tcp { stream, .. } = wire;
        self.lingerers.add(stream, self.registry, SLOTS, now);
    }

    fn read_away(&mut self, parted: usize, buffer: &mut [u8]) {
        let token = Token(SLOTS.saturating_add(parted));
        self.lingerers.hear(parted, self.registry, token, buffer);
    }

    fn look_round(&mut self, now: u64) {
        self.lingerers.close_late(now);
    }

    fn is_quiet(&self) -> bool {
        self.lingerers.is_empty()
    }
}
