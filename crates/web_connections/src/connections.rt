//! The callers of a server, each at its slot.

ghost use Rattle.std.specs.Prelude.{◌≡◌, ℕ, None, length, option_map, replicate, IfOk, IfSome, IfNone, OnOk, OnErr};
ghost use Rattle.web_connection.specs.Run.{AtTick};
ghost use Rattle.web_connections.specs.Contexts.{KeepsLent, between_at};
ghost use Rattle.web_connections.specs.Exchanges.{connection_begun};
ghost use Rattle.web_connections.specs.Connections.{FindsFree, IsFree, TurnsAt, at_slot, callers, leaves_with, slot_needs, slot_unsent, with_caller, with_slot};

use crate::context::Context;
use crate::phase::Needs;
use crate::slot::Slot;
use base_devices::{Refused, Ticks};
use std::alloc::{AllocError, Global};
use std::marker::Model;
use std::sync::ledger::Ledger;
use web_connection::Handler;
use web_sockets::Ends;

/// The callers of a server, each at its slot. A slot that is left is taken again by a later caller, who has a number of its own.
#[derive(Drop)]
pub struct Connections<E: Ends> {
    slots: Vec<Slot<E>>,
    came: u64,
}

impl<E: Ends> Model for Connections<E> {
    ghost use Rattle.web_connections.specs.Connections.{Callers, callers};

    ghost Value = { Callers };

    ghost view = { λ h. callers h.came h.slots.items };
}

// As many slots, each of them free.
fn free_slots<E: Ends>(alloc: Global, count: usize) -> Result<Vec<Slot<E>>, AllocError>
    ensures { IfOk result (λ slots. slots.items ≡ replicate count None) }
{
    let mut slots = Vec::new(alloc);
    for _ in 0..count {
        slots.push(Slot::new())?;
    }
    Ok(slots)
}

// A slot that is free.
fn find_free<E: Ends>(slots: &[Slot<E>]) -> Option<usize>
    ensures { FindsFree slots.now result }
{
    for slot in 0..slots.len() {
        if slots[slot].is_free() {
            return Some(slot);
        }
    }
    None
}

impl<E: Ends> Connections<E> {
    /// The connections of so many slots, into which nobody came yet.
    pub fn new(alloc: Global, count: usize) -> Result<Self, AllocError>
        ensures { IfOk result (λ connections. connections ≡ callers 0 (replicate count None)) }
    {
        let slots = free_slots(alloc, count)?;
        Ok(Connections { slots, came: 0 })
    }

    /// How many callers came.
    pub fn came(&self) -> u64
        ensures { result ≡ self.now.came }
    {
        self.came
    }

    /// How many slots it has.
    pub fn size(&self) -> usize
        ensures { result ≡ length self.now.slots }
    {
        self.slots.len()
    }

    /// A slot that is free for one more caller, if there is one.
    pub fn free_slot(&self) -> Option<usize>
        ensures some { IfSome result (λ slot. IsFree slot self.now) }
        ensures none { IfNone result ((slot : ℕ) → IsFree slot self.now → ⊥) }
    {
        if self.came == u64::MAX {
            return None;
        }
        find_free(&self.slots)
    }

    /// The number of whoever is at a slot.
    pub fn number(&self, slot: usize) -> Option<u64>
        ensures { result ≡ option_map (λ c. c.number) (at_slot slot self.now) }
    {
        match self.slots.get(slot) {
            Some(found) => found.number(),
            None => None,
        }
    }

    /// What whoever is at a slot needs for the next turn.
    pub fn needs(&self, slot: usize) -> Needs
        ensures { result ≡ slot_needs (at_slot slot self.now) }
    {
        match self.slots.get(slot) {
            Some(found) => found.needs(),
            None => Needs::Nothing,
        }
    }

    /// Whether whoever is at a slot has bytes unsent.
    pub fn has_unsent(&self, slot: usize) -> bool
        ensures { result ≡ slot_unsent (at_slot slot self.now) }
    {
        match self.slots.get(slot) {
            Some(found) => found.has_unsent(),
            None => false,
        }
    }

    /// A caller comes in, to a slot that is free.
    pub fn accept(&mut self, alloc: Global, slot: usize, ends: E) -> Result<(), AllocError>
        requires { IsFree slot self.old }
        ensures come { OnOk result
            (self.new ≡ with_caller slot (connection_begun (E.left ends) (E.taken ends)) self.old) }
        ensures same { OnErr result (self.new ≡ self.old) }
    {
        let number = self.came;
        let found = &mut self.slots[slot];
        found.take(alloc, number, ends)?;
        self.came += 1;
        Ok(())
    }

    /// A turn of whoever is at a slot.
    pub fn turn<L: Ledger, M: Ledger, T: Ticks, D: Handler>(
        &mut self,
        slot: usize,
        context: &mut Context<'_, L, M, T, D>,
    ) -> Result<(), Refused>
        ensures keeps { KeepsLent context.old context.new }
        ensures turn { TurnsAt (AtTick T.reads D.serves)
            (between_at T.Ticks context.old) (between_at T.Ticks context.new)
            slot self.old self.new }
    {
        if slot >= self.slots.len() {
            return Ok(());
        }
        let found = &mut self.slots[slot];
        found.turn(context)
    }

    /// Whoever is at a slot leaves.
    pub fn leave(&mut self, slot: usize) -> Option<E>
        ensures free { self.new ≡ with_slot slot None self.old }
        ensures ends { leaves_with E.left E.taken (at_slot slot self.old) result }
    {
        if slot >= self.slots.len() {
            return None;
        }
        let found = &mut self.slots[slot];
        found.leave()
    }
}
