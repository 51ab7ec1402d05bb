//! Callers at a handler.

ghost use Rattle.base_devices.specs.Blanks.{IsBlankOf};

use crate::error::TogetherError;
use crate::floor::Floor;
use crate::party::Party;
use base_devices::{Device, Ticks};
use base_values::Steps;
use std::alloc::Global;
use std::marker::Brand;
use std::sync::ledger::{Blank, Ledger};
use web_connection::{Handler, ReadBuffer};
use web_connections::{Context, Next};

// All that happens, one after another.
fn go_on<L: Ledger, M: Ledger, T: Ticks, D: Handler>(
    floor: &mut Floor<'_>,
    order: &[Next],
    context: &mut Context<'_, L, M, T, D>,
) {
    for next in order {
        floor.go(*next, context);
    }
}

impl Party<'_> {
    // Serves the callers in this order, with a ledger for each count of the output.
    fn run_plan_with<L: Ledger, M: Ledger, T: Ticks, D: Handler>(
        &self,
        alloc: Global,
        order: &[Next],
        ticks: &mut T,
        handler: &mut D,
        blanks: (Blank, Blank),
    ) -> Result<Vec<Vec<u8>>, TogetherError>
        requires calls { IsBlankOf L.Ledger blanks.0 }
        requires failures { IsBlankOf M.Ledger blanks.1 }
    {
        let mut out = Device {
            inner: Vec::new(alloc),
            calls: Steps::<L>::new(blanks.0),
            failures: Steps::<M>::new(blanks.1),
        };
        let mut input = ReadBuffer::new(alloc)?;
        let mut floor = Floor::new(alloc, self.slots, self.guests.as_slice())?;
        let mut context = Context::new(alloc, &mut input, &mut out, ticks, handler);
        go_on(&mut floor, order, &mut context);
        Ok(floor.close())
    }

    /// What the callers are told at a handler, each by its number, where all that happens is this, one after another.
    pub fn serve<T: Ticks, D: Handler>(
        &self,
        alloc: Global,
        order: &[Next],
        ticks: &mut T,
        handler: &mut D,
    ) -> Result<Vec<Vec<u8>>, TogetherError> {
        self.run_plan_with::<Brand, Brand, T, D>(
            alloc,
            order,
            ticks,
            handler,
            (Blank::new(1), Blank::new(1)),
        )
    }
}
