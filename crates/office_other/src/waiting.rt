//! Commands on the waiting list, and periodic work. A refusal is a reply, with the number that `join`, `change`, `leave` or `send` of
//! decide_waiting gives it; the error is want of memory alone. Periodic work is never refused.

ghost use Rattle.std.specs.Prelude.{◌≡◌, [], IfOk, OnOk};
ghost use Rattle.office_step.specs.Drafts.{now, Extends};
ghost use Rattle.model_invariant.specs.Sound.{IsSound};
ghost use Rattle.office_step.specs.IsStep.{CanBegin, IsStep, IsUndrawnStep};
ghost use Rattle.office_step.specs.PeriodicWork.{periodic_done, periodic_changes};
ghost use Rattle.model_commands.specs.declared.requests.Command.{Command};

use base_values::{Draw, Moment};
use decide_orders::{drop_dead_carts, expire_orders};
use decide_waiting::{change, join, leave, send, send_all};
use model_commands::{
    Kind, NewWaiting, PeriodicCounts, Refusal, Reply, Shown, WaitingPatch, WaitingRefusal,
};
use office_step::{Book, Draft, Drafted, close, open};
use std::alloc::{AllocError, Global};

/// Adds an entry to the waiting list, with whatever draw.
pub fn add_waiting<B: Book>(
    book: &B,
    alloc: Global,
    at: Moment,
    new: &NewWaiting,
) -> Result<(Drafted, Reply), AllocError>
    requires { CanBegin at (B.state book.now) }
    ensures { IfOk result (IsUndrawnStep (Command.AddWaiting new.now) at (B.state book.now)) }
{
    let mut draft = open(book, alloc, at)?;
    let reply = match join(&mut draft, alloc, new) {
        Ok(row) => Ok(Reply::Made(Shown::Waiting(row))),
        Err(WaitingRefusal::Memory) => Err(AllocError),
        Err(refusal) => Ok(Reply::Refused(Kind::AddWaiting, Refusal::Waiting(refusal))),
    };
    close(book, alloc, at, draft, reply)
}

/// Changes an entry of the waiting list, with whatever draw.
pub fn change_waiting<B: Book>(
    book: &B,
    alloc: Global,
    at: Moment,
    id: u64,
    patch: WaitingPatch,
) -> Result<(Drafted, Reply), AllocError>
    requires { CanBegin at (B.state book.now) }
    ensures { IfOk result (IsUndrawnStep (Command.ChangeWaiting id patch) at (B.state book.now)) }
{
    let mut draft = open(book, alloc, at)?;
    let reply = match change(&mut draft, alloc, id, patch) {
        Ok(row) => Ok(Reply::Found(Shown::Waiting(row))),
        Err(WaitingRefusal::Memory) => Err(AllocError),
        Err(refusal) => Ok(Reply::Refused(Kind::ChangeWaiting, Refusal::Waiting(refusal))),
    };
    close(book, alloc, at, draft, reply)
}

/// Deletes an entry of the waiting list, with whatever draw.
pub fn drop_waiting<B: Book>(
    book: &B,
    alloc: Global,
    at: Moment,
    id: u64,
) -> Result<(Drafted, Reply), AllocError>
    requires { CanBegin at (B.state book.now) }
    ensures { IfOk result (IsUndrawnStep (Command.DropWaiting id) at (B.state book.now)) }
{
    let mut draft = open(book, alloc, at)?;
    let reply = match leave(&mut draft, alloc, id) {
        Ok(()) => Ok(Reply::Gone),
        Err(WaitingRefusal::Memory) => Err(AllocError),
        Err(refusal) => Ok(Reply::Refused(Kind::DropWaiting, Refusal::Waiting(refusal))),
    };
    close(book, alloc, at, draft, reply)
}

/// Sends a voucher to an entry of the waiting list.
pub fn send_voucher<B: Book>(
    book: &B,
    alloc: Global,
    at: Moment,
    draw: Draw,
    id: u64,
) -> Result<(Drafted, Reply), AllocError>
    requires { CanBegin at (B.state book.now) }
    ensures { IfOk result (IsStep (Command.SendVoucher id) at draw (B.state book.now)) }
{
    let mut draft = open(book, alloc, at)?;
    let reply = match send(&mut draft, alloc, draw, id) {
        Ok(_) => Ok(Reply::Gone),
        Err(WaitingRefusal::Memory) => Err(AllocError),
        Err(refusal) => Ok(Reply::Refused(Kind::SendVoucher, Refusal::Waiting(refusal))),
    };
    close(book, alloc, at, draft, reply)
}

/// Ends what is overdue, then serves the waiting list.
pub fn work<B: Book>(
    book: &B,
    alloc: Global,
    at: Moment,
    draw: Draw,
) -> Result<(Drafted, Reply), AllocError>
    requires { CanBegin at (B.state book.now) }
    ensures { IfOk result (IsStep Command.Periodic at draw (B.state book.now)) }
{
    let mut draft = open(book, alloc, at)?;
    let reply = match work_in(&mut draft, alloc, draw) {
        Ok(counts) => Ok(Reply::Periodic(counts)),
        Err(error) => Err(error),
    };
    close(book, alloc, at, draft, reply)
}

// Expires orders, deletes dead cart positions, then serves. Without memory some of it is done.
#[tactic(auto, unfolding(office_step::specs::PeriodicWork::orders_expired, office_step::specs::PeriodicWork::carts_dropped))]
fn work_in<B: Book>(
    draft: &mut Draft<'_, B>,
    alloc: Global,
    draw: Draw,
) -> Result<PeriodicCounts, AllocError>
    requires sound { IsSound (now draft.old) }
    requires unchanged { draft.old.log.changes ≡ [] }
    ensures done { IfOk result (λ counts.
        periodic_done draw (now draft.old) ≡ (now draft.new, counts)) }
    ensures changes { OnOk result (draft.new.log.changes ≡ periodic_changes draw (now draft.old)) }
    ensures extends { Extends draft.old draft.new }
{
    let expired = expire_orders(draft, alloc)?;
    let deleted = drop_dead_carts(draft, alloc)?;
    let sent = send_all(draft, alloc, draw)?;
    Ok(PeriodicCounts {
        expired,
        deleted,
        sent: sent.len() as u64,
    })
}
