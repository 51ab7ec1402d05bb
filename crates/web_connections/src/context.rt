//! What serving needs.

ghost use Rattle.std.specs.Prelude.{◌≡◌};

use base_devices::Device;
use std::alloc::Global;
use std::sync::ledger::Ledger;
use web_connection::ReadBuffer;

/// What serving needs: memory, a read buffer to read into, an output to write an answer on, the ticks of a clock, and the handler that answers. It holds no memory
/// of its own, so that its end gives back what it was lent.
#[derive(Drop)]
pub struct Context<'a, L: Ledger, M: Ledger, T, D> {
    /// Memory.
    pub alloc: Global,
    /// What a read is given to.
    pub input: &'a mut ReadBuffer,
    /// What an answer is written on.
    pub out: &'a mut Device<Vec<u8>, L, M>,
    /// The ticks of a clock.
    pub ticks: &'a mut T,
    /// Who answers.
    pub handler: &'a mut D,
}

impl<'a, L: Ledger, M: Ledger, T, D> Context<'a, L, M, T, D> {
    /// Of all that serving needs.
    pub fn new(
        alloc: Global,
        input: &'a mut ReadBuffer,
        out: &'a mut Device<Vec<u8>, L, M>,
        ticks: &'a mut T,
        handler: &'a mut D,
    ) -> Context<'a, L, M, T, D>
        ensures same_ticks { result.ticks.ghost_name ≡ ticks.entry.ghost_name }
        ensures same_handler { result.handler.ghost_name ≡ handler.entry.ghost_name }
        ensures ticks { result.ticks.now ≡ ticks.old }
        ensures handler { result.handler.now ≡ handler.old }
        ensures out { result.out.now ≡ out.old }
    {
        Context {
            alloc,
            input,
            out,
            ticks,
            handler,
        }
    }
}
