//! The connections, who is in it, and what those who left were told.

use crate::party::Guest;
use crate::turns::take_turns;
use base_devices::Ticks;
use std::alloc::{AllocError, Global};
use std::sync::ledger::Ledger;
use web_connection::Handler;
use web_connections::{Connections, Context, Next};
use web_sockets::Script;

/// The connections over memory, who is still to come, the last of them first, and what each caller was told who left.
#[derive(Drop)]
pub(crate) struct Floor<'a> {
    connections: Connections<Script<'a>>,
    callers_to_come: Vec<Script<'a>>,
    told: Vec<Vec<u8>>,
}

// Whoever is to come, the last of them first.
fn callers_to_come<'a>(
    alloc: Global,
    guests: &'a [Guest<'a>],
) -> Result<Vec<Script<'a>>, AllocError> {
    let mut all = Vec::new(alloc);
    for guest in guests.iter().rev() {
        all.push(Script::new(
            alloc,
            guest.bytes.as_bytes(),
            guest.reads.as_slice(),
            guest.writes.as_slice(),
        ))?;
    }
    Ok(all)
}

// As many texts without a byte.
fn empty_texts(alloc: Global, count: usize) -> Result<Vec<Vec<u8>>, AllocError> {
    let mut all = Vec::new(alloc);
    for _ in 0..count {
        all.push(Vec::new(alloc))?;
    }
    Ok(all)
}

impl<'a> Floor<'a> {
    /// The connections of so many slots, to which these are to come.
    pub(crate) fn new(
        alloc: Global,
        slots: usize,
        guests: &'a [Guest<'a>],
    ) -> Result<Floor<'a>, AllocError> {
        let connections = Connections::new(alloc, slots)?;
        let callers_to_come = callers_to_come(alloc, guests)?;
        let told = empty_texts(alloc, guests.len())?;
        Ok(Floor {
            connections,
            callers_to_come,
            told,
        })
    }

    // Whoever is at a slot leaves. What it was told is kept under its number.
    fn leave(&mut self, slot: usize) {
        let number = self.connections.number(slot).unwrap_or(0) as usize;
        if let Some(script) = self.connections.leave(slot)
            && let Some(told) = self.told.get_mut(number)
        {
            let Script { taken, .. } = script;
            *told = taken;
        }
    }

    /// What is next happens.
    pub(crate) fn go<L: Ledger, M: Ledger, T: Ticks, D: Handler>(
        &mut self,
        next: Next,
        context: &mut Context<'_, L, M, T, D>,
    ) {
        if let Next::Leaves(slot) = next {
            return self.leave(slot);
        }
        let (connections, callers_to_come) = (&mut self.connections, &mut self.callers_to_come);
        take_turns(context, connections, callers_to_come, &[next]);
    }

    /// All leave: what each caller was told, by its number.
    pub(crate) fn close(self) -> Vec<Vec<u8>> {
        let mut floor = self;
        for slot in 0..floor.connections.size() {
            floor.leave(slot);
        }
        let Floor { told, .. } = floor;
        told
    }
}
