//! A conversation, turn by turn.

ghost use Rattle.std.specs.Prelude.{◌≡◌, []};
ghost use Rattle.web_connection.specs.Run.{AtTick, IsReadBuffer};
ghost use Rattle.web_connections.specs.declared.phase.Phase.TheVariants as phases;
ghost use Rattle.web_connections.specs.Contexts.{KeepsLent, between_at};
ghost use Rattle.web_connections.specs.Connections.{has_some};
ghost use Rattle.web_connections.specs.Exchanges.{Hears, Moves, Replies, Sends, Takes, Turn, connection_begun, needs_of};

use crate::context::Context;
use crate::phase::{Needs, Phase};
use base_devices::{Refused, Ticks};
use std::alloc::Global;
use std::marker::Model;
use std::mem;
use std::sync::ledger::Ledger;
use web_connection::failure::Step;
use web_connection::step::step;
use web_connection::{Handler, ReadBuffer};
use web_http::frames::Frames;
use web_sockets::{Awaited, Came, Ends};

/// The most bytes of room that a conversation keeps between two answers.
const KEPT: usize = 65536;

/// A conversation over the two directions of a connection: the bytes that came and weren't taken yet, and the answer of which a part may not
/// be sent yet.
#[derive(Drop)]
pub struct Connection<E: Ends> {
    ends: E,
    frames: Frames,
    answer: Vec<u8>,
    at: usize,
    phase: Phase,
}

impl<E: Ends> Model for Connection<E> {
    ghost use Rattle.std.specs.Prelude.{drop};
    ghost use Rattle.web_connections.specs.Exchanges.{ConnectionState, IsConnection};

    ghost Value = { ConnectionState };

    ghost view = { λ t. record {
      phase = t.phase;
      left = t.frames.left;
      unsent = drop t.at t.answer.items;
      coming = E.left t.ends;
      gone = E.taken t.ends;
    } };

    ghost invariant = { λ t. IsConnection t.at t.answer.items t.phase t.frames.left };
}

impl<E: Ends> Connection<E> {
    /// A conversation that begins, in room where nothing is left of another one.
    pub fn new(alloc: Global, ends: E, frames: Frames) -> Self
        requires frames { frames.left ≡ [] }
        ensures begins { result ≡ connection_begun (E.left ends) (E.taken ends) }
    {
        Connection {
            ends,
            frames,
            answer: Vec::new(alloc),
            at: 0,
            phase: Phase::Waits,
        }
    }

    /// Ends the conversation: gives back the two directions as they are, and its room.
    pub fn end(self) -> (E, Frames)
        ensures coming { E.left result.0 ≡ self.coming }
        ensures gone { E.taken result.0 ≡ self.gone }
        ensures frames { result.1.left ≡ [] }
    {
        let Connection {
            ends,
            mut frames,
            ..
        } = self;
        frames.clear();
        (ends, frames)
    }

    /// What it needs for its next turn.
    pub fn needs(&self) -> Needs
        ensures { result ≡ needs_of self.now.unsent self.now.phase }
    {
        if self.at < self.answer.len() {
            return Needs::Room;
        }
        match self.phase {
            Phase::Waits => Needs::Bytes,
            Phase::Goes => Needs::Room,
            Phase::Ends | Phase::Lost => Needs::Nothing,
        }
    }

    /// Whether a part of an answer isn't sent yet.
    #[tactic(auto, using(crate::proofs::TurnLemmas::unsent_some, crate::proofs::TurnLemmas::unsent_none))]
    pub fn has_unsent(&self) -> bool
        ensures { result ≡ has_some self.now.unsent }
    {
        if self.at < self.answer.len() {
            return true;
        }
        false
    }

    // Sends what is left of the answer, as far as it is taken. Where nothing is left it writes nothing.
    fn send(&mut self) -> Result<(), Refused>
        ensures { Sends self.old self.new }
    {
        if self.at == self.answer.len() {
            return Ok(());
        }
        match self.ends.write(&self.answer[self.at..]) {
            Ok(n) => {
                self.at += n;
                Ok(())
            }
            Err(refused) => Err(refused),
        }
    }

    // Reads once.
    fn hear(&mut self, input: &mut [u8])
        requires input { IsReadBuffer input.old }
        requires waits { self.old.phase ≡ phases.Waits }
        ensures { Hears self.old self.new }
    {
        match self.ends.read(input) {
            Ok(Came::Bytes(n)) => match self.frames.feed(&input[..n]) {
                Ok(()) => self.phase = Phase::Goes,
                Err(_) => self.phase = Phase::Lost,
            },
            Ok(Came::End) => self.phase = Phase::Ends,
            Ok(Came::Later) => {}
            Err(_) => self.phase = Phase::Lost,
        }
    }

    // Answers the first message that is whole, on an output.
    fn take_step<L: Ledger, M: Ledger, T: Ticks, D: Handler>(
        &mut self,
        context: &mut Context<'_, L, M, T, D>,
    )
        requires { self.old.phase ≡ phases.Goes }
        ensures keeps { KeepsLent context.old context.new }
        ensures same_page { context.new.out.ghost_name ≡ context.old.out.ghost_name }
        ensures replies { Replies (AtTick T.reads D.serves)
            (between_at T.Ticks context.old) (between_at T.Ticks context.new)
            context.old.out.now.inner.items context.new.out.now.inner.items self.old self.new }
    {
        match step(
            context.alloc,
            &mut self.frames,
            context.ticks,
            context.handler,
            context.out,
        ) {
            Ok(Step::Waits) => self.phase = Phase::Waits,
            Ok(Step::Goes) => self.phase = Phase::Goes,
            Ok(Step::Ends) => self.phase = Phase::Ends,
            Err(_) => self.phase = Phase::Lost,
        }
    }

    // Answers the first message that is whole.
    fn reply<L: Ledger, M: Ledger, T: Ticks, D: Handler>(
        &mut self,
        context: &mut Context<'_, L, M, T, D>,
    )
        requires { self.old.phase ≡ phases.Goes }
        ensures keeps { KeepsLent context.old context.new }
        ensures replies { Replies (AtTick T.reads D.serves)
            (between_at T.Ticks context.old) (between_at T.Ticks context.new)
            [] self.new.unsent self.old self.new }
    {
        context.out.inner.clear();
        self.take_step(context);
        mem::swap(&mut self.answer, &mut context.out.inner);
        self.at = 0;
    }

    // Reads once where it waits for bytes.
    fn hear_on(&mut self, input: &mut ReadBuffer)
        ensures moves { Moves self.old self.new }
        ensures unsent { self.new.unsent ≡ self.old.unsent }
        ensures same { self.old.phase ≡ phases.Goes → self.new ≡ self.old }
    {
        match self.phase {
            Phase::Waits => self.hear(&mut input.bytes),
            _ => {}
        }
    }

    // Answers the first message that is whole where one may be there.
    fn reply_on<L: Ledger, M: Ledger, T: Ticks, D: Handler>(
        &mut self,
        context: &mut Context<'_, L, M, T, D>,
    )
        requires sent { self.old.unsent ≡ [] }
        ensures keeps { KeepsLent context.old context.new }
        ensures turn { Turn (AtTick T.reads D.serves)
            (between_at T.Ticks context.old) (between_at T.Ticks context.new)
            self.old self.new }
        ensures takes { Takes self.old self.new }
    {
        match self.phase {
            Phase::Goes => self.reply(context),
            _ => {}
        }
    }

    // Sends what is left of an answer; where nothing is left, it reads once, answers one message, and sends what is taken of its answer.
    fn go_on<L: Ledger, M: Ledger, T: Ticks, D: Handler>(
        &mut self,
        context: &mut Context<'_, L, M, T, D>,
    ) -> Result<(), Refused>
        ensures keeps { KeepsLent context.old context.new }
        ensures turn { Turn (AtTick T.reads D.serves)
            (between_at T.Ticks context.old) (between_at T.Ticks context.new)
            self.old self.new }
        ensures takes { Takes self.old self.new }
    {
        if self.at < self.answer.len() {
            return self.send();
        }
        self.hear_on(context.input);
        self.reply_on(context);
        self.send()
    }

    // Gives back the room of a large answer that was sent whole.
    fn give_back(&mut self, alloc: Global)
        ensures { self.new ≡ self.old }
    {
        if self.at == self.answer.len() && self.answer.capacity() > KEPT {
            self.answer = Vec::new(alloc);
            self.at = 0;
        }
    }

    // Waits for what it needs.
    fn wait(&mut self) -> Result<(), Refused>
        ensures { self.new ≡ self.old }
    {
        match self.needs() {
            Needs::Bytes => self.ends.wait_for(Awaited::Bytes),
            Needs::Room => self.ends.wait_for(Awaited::Room),
            Needs::Nothing => Ok(()),
        }
    }

    /// A turn, with a read buffer to read into and an output to write an answer on: what is left of an answer is sent; where nothing is left, it
    /// reads once, answers one message, and sends what is taken of its answer. Then it waits for what it needs. Where that fails, or the
    /// sending, it won't be brought more.
    pub fn turn<L: Ledger, M: Ledger, T: Ticks, D: Handler>(
        &mut self,
        context: &mut Context<'_, L, M, T, D>,
    ) -> Result<(), Refused>
        ensures keeps { KeepsLent context.old context.new }
        ensures turn { Turn (AtTick T.reads D.serves)
            (between_at T.Ticks context.old) (between_at T.Ticks context.new)
            self.old self.new }
        ensures takes { Takes self.old self.new }
    {
        match self.go_on(context) {
            Ok(()) => {
                self.give_back(context.alloc);
                self.wait()
            }
            Err(refused) => Err(refused),
        }
    }
}
