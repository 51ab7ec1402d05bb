//! A slot for a caller.

ghost use Rattle.std.specs.Prelude.{◌≡◌, [], None, Some, is_none, option_map, IfOk, OnOk, OnErr};
ghost use Rattle.web_connection.specs.Run.{AtTick};
ghost use Rattle.web_connections.specs.Contexts.{KeepsLent, between_at};
ghost use Rattle.web_connections.specs.Exchanges.{connection_begun};
ghost use Rattle.web_connections.specs.Connections.{IsSpare, TakesTurn, caller, leaves_with, slot_needs, slot_unsent};

use crate::connection::Connection;
use crate::context::Context;
use crate::phase::Needs;
use base_devices::{Refused, Ticks};
use std::alloc::{AllocError, Global};
use std::marker::Model;
use std::sync::ledger::Ledger;
use web_connection::Handler;
use web_http::frames::Frames;
use web_sockets::Ends;

/// A slot for a caller: it is free, or has the conversation of one, and its number. The room of a conversation stays here for the next one.
#[derive(Drop)]
pub struct Slot<E: Ends> {
    number: u64,
    connection: Option<Connection<E>>,
    spare: Option<Frames>,
}

impl<E: Ends> Model for Slot<E> {
    ghost use Rattle.std.specs.Prelude.{Option};
    ghost use Rattle.web_connections.specs.Connections.{Caller, caller_in_slot, IsSpare};

    ghost Value = { Option Caller };

    ghost view = { λ p. caller_in_slot p.number p.connection };

    ghost invariant = { λ p. IsSpare p.spare };
}

// The room that is there, or a new one.
fn room_of(alloc: Global, spare: Option<Frames>) -> Result<Frames, AllocError>
    requires { IsSpare spare }
    ensures { IfOk result (λ frames. frames.left ≡ []) }
{
    match spare {
        Some(frames) => Ok(frames),
        None => Frames::new(alloc),
    }
}

impl<E: Ends> Slot<E> {
    /// A slot that is free.
    pub fn new() -> Self
        ensures { result ≡ None }
    {
        Slot {
            number: 0,
            connection: None,
            spare: None,
        }
    }

    /// Whether it is free.
    pub fn is_free(&self) -> bool
        ensures { result ≡ is_none self.now }
    {
        self.connection.is_none()
    }

    /// The number of whoever is here.
    pub fn number(&self) -> Option<u64>
        ensures { result ≡ option_map (λ c. c.number) self.now }
    {
        match &self.connection {
            Some(_) => Some(self.number),
            None => None,
        }
    }

    /// What whoever is here needs for the next turn.
    pub fn needs(&self) -> Needs
        ensures { result ≡ slot_needs self.now }
    {
        match &self.connection {
            Some(connection) => connection.needs(),
            None => Needs::Nothing,
        }
    }

    /// Whether whoever is here has bytes unsent.
    pub fn has_unsent(&self) -> bool
        ensures { result ≡ slot_unsent self.now }
    {
        match &self.connection {
            Some(connection) => connection.has_unsent(),
            None => false,
        }
    }

    /// A caller takes it.
    pub fn take(&mut self, alloc: Global, number: u64, ends: E) -> Result<(), AllocError>
        requires { self.old ≡ None }
        ensures taken { OnOk result
            (self.new ≡ Some (caller number (connection_begun (E.left ends) (E.taken ends)))) }
        ensures free { OnErr result (self.new ≡ None) }
    {
        let frames = room_of(alloc, self.spare.take())?;
        self.number = number;
        self.connection = Some(Connection::new(alloc, ends, frames));
        Ok(())
    }

    /// A turn of whoever is here.
    pub fn turn<L: Ledger, M: Ledger, T: Ticks, D: Handler>(
        &mut self,
        context: &mut Context<'_, L, M, T, D>,
    ) -> Result<(), Refused>
        ensures keeps { KeepsLent context.old context.new }
        ensures turn { TakesTurn (AtTick T.reads D.serves)
            (between_at T.Ticks context.old) (between_at T.Ticks context.new)
            self.old self.new }
    {
        match &mut self.connection {
            Some(connection) => connection.turn(context),
            None => Ok(()),
        }
    }

    /// Whoever is here leaves.
    pub fn leave(&mut self) -> Option<E>
        ensures free { self.new ≡ None }
        ensures ends { leaves_with E.left E.taken self.old result }
    {
        match self.connection.take() {
            Some(connection) => {
                let (ends, frames) = connection.end();
                self.spare = Some(frames);
                Some(ends)
            }
            None => None,
        }
    }
}
