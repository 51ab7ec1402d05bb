//! Drives callers for tests: has them come, have turns and leave as a list says.

ghost use Rattle.std.specs.Prelude.{List};
ghost use Rattle.web_connection.specs.Run.{AtTick};
ghost use Rattle.web_sockets.specs.Accepting.{Begun};
ghost use Rattle.web_connections.specs.Contexts.{KeepsLent, between_at};
ghost use Rattle.web_connections.specs.Connections.{Does, DoesAll, AcceptsOne};

use base_devices::Ticks;
use std::alloc::Global;
use std::sync::ledger::Ledger;
use web_connection::Handler;
use web_connections::{Connections, Context, Next};
use web_sockets::Ends;

// The last of those who are to come, to a slot that is free.
#[tactic(auto, using(crate::proofs::ComeLemmas::nobody_came, crate::proofs::ComeLemmas::one_came))]
fn accept_next<E: Ends>(
    alloc: Global,
    connections: &mut Connections<E>,
    callers_to_come: &mut Vec<E>,
)
    ensures { (came : List Begun) × AcceptsOne came connections.old connections.new }
{
    let Some(slot) = connections.free_slot() else {
        return;
    };
    let Some(ends) = callers_to_come.pop() else {
        return;
    };
    let _ = connections.accept(alloc, slot, ends);
}

// What is next.
fn do_next<E: Ends, L: Ledger, M: Ledger, T: Ticks, D: Handler>(
    context: &mut Context<'_, L, M, T, D>,
    connections: &mut Connections<E>,
    callers_to_come: &mut Vec<E>,
    next: Next,
)
    ensures keeps { KeepsLent context.old context.new }
    ensures does { (came : List Begun) × Does (AtTick T.reads D.serves)
        (between_at T.Ticks context.old) (between_at T.Ticks context.new)
        came connections.old connections.new next }
{
    match next {
        Next::Comes => accept_next(context.alloc, connections, callers_to_come),
        Next::Turn(slot) => {
            let _ = connections.turn(slot, context);
        }
        Next::Leaves(slot) => {
            let _ = connections.leave(slot);
        }
    }
}

/// Callers come, have turns and leave, in whatever order, at one handler. Nobody comes where nobody is left who may, where no slot is free, or
/// where there is no memory for one more.
pub fn take_turns<E: Ends, L: Ledger, M: Ledger, T: Ticks, D: Handler>(
    context: &mut Context<'_, L, M, T, D>,
    connections: &mut Connections<E>,
    callers_to_come: &mut Vec<E>,
    order: &[Next],
)
    ensures keeps { KeepsLent context.old context.new }
    ensures does { (came : List Begun) × DoesAll (AtTick T.reads D.serves)
        (between_at T.Ticks context.old) (between_at T.Ticks context.new)
        came connections.old connections.new order.now }
{
    for next in order {
        do_next(context, connections, callers_to_come, *next);
    }
}
