//! The verdict on a scan of a ticket at a door.

ghost use Rattle.std.specs.Prelude.{◌≡◌, ◌≢◌, Some, Ok, Err, IfOk, IfErr};
ghost use Rattle.std.specs.Option.{option_copied};
ghost use Rattle.draft_changes.specs.DraftState.{now};
ghost use Rattle.model_rows.specs.Lists.{order_at};
ghost use Rattle.model_invariant.specs.Checkins.{same_nonce};
ghost use Rattle.decide_door.specs.Verdict.{shown_by, is_in_force_if, is_unpaid, is_unpaid_if, is_stored, may_pass, verdict};
ghost use Rattle.decide_door.specs.Scanned.{verdict_of};

use crate::listing::is_for;
use crate::passages::{has_entry, last_of};
use base_values::Text;
use book_usage::{Book, LookUps};
use draft_changes::Draft;
use model_commands::{DoorRefusal, Scan, Ticket};
use model_rows::passages::{is_exit, is_exit_if};
use model_rows::{Checkin, CheckinList, OrderPos, Status};
use std::alloc::Global;

/// A ticket that is let through, with a copy of its position.
#[derive(Drop)]
pub enum Admission {
    /// It was let through before, in this very scan.
    Again(OrderPos),
    /// It is let through now.
    New(OrderPos),
}

/// The verdict on a scan of a ticket by the list of an id, in a draft that has changed no position and no check-in.
/// Refusals, in this order: 50 `NoList`; 51 `Invalid`; 52 `Canceled`; 53 `Product`; 54 `Unpaid`; 55 `AlreadyRedeemed`.
#[tactic(auto, unfolding(crate::specs::Verdict::verdict))]
pub fn judge<B: Book>(
    draft: &Draft<'_, B>,
    alloc: Global,
    list: u64,
    ticket: &Ticket,
    scan: &Scan,
) -> Result<Admission, DoorRefusal>
    requires positions { (now draft.now).lists.positions ≡ draft.now.log.base.positions }
    requires checkins { (now draft.now).lists.checkins ≡ draft.now.log.base.checkins }
    ensures done { IfOk result
        (λ admission. verdict_of list ticket.now scan.now (now draft.now) ≡ Ok admission) }
    ensures refused { IfErr result (λ e. e ≢ DoorRefusal.Memory
        → verdict_of list ticket.now scan.now (now draft.now) ≡ Err e) }
{
    let Some(list) = draft.rows().checkin_list(list) else {
        return Err(DoorRefusal::NoList);
    };
    let Some(position) = shown_by(draft, ticket) else {
        return Err(DoorRefusal::Invalid);
    };
    judge_position(draft, alloc, list, position, scan)
}

// The verdict on a scan of a position by a list, which both stand.
#[tactic(auto, unfolding(crate::specs::Verdict::verdict))]
fn judge_position<B: Book>(
    draft: &Draft<'_, B>,
    alloc: Global,
    list: &CheckinList,
    position: &OrderPos,
    scan: &Scan,
) -> Result<Admission, DoorRefusal>
    requires { (now draft.now).lists.checkins ≡ draft.now.log.base.checkins }
    ensures done { IfOk result (λ admission.
        verdict (Some list.now) (Some position.now) scan.now (now draft.now).lists ≡ Ok admission) }
    ensures refused { IfErr result (λ e. e ≢ DoorRefusal.Memory
        → verdict (Some list.now) (Some position.now) scan.now (now draft.now).lists ≡ Err e) }
{
    if !is_in_force(draft, position) {
        return Err(DoorRefusal::Canceled);
    }
    if !is_for(list, position.product.item) {
        return Err(DoorRefusal::Product);
    }
    if is_unpaid(draft, list, position, scan) {
        return Err(DoorRefusal::Unpaid);
    }
    let stored = draft.book().checkins_of(alloc, list.id, position.id)?;
    let checkins = stored.as_slice();
    if is_stored(checkins, list.id, position.id, &scan.nonce) {
        return Ok(Admission::Again(position.copy(alloc)?));
    }
    if !may_pass(checkins, list, position.id, scan) {
        return Err(DoorRefusal::AlreadyRedeemed);
    }
    Ok(Admission::New(position.copy(alloc)?))
}

// The position that a ticket shows.
fn shown_by<'d, B: Book>(draft: &'d Draft<'_, B>, ticket: &Ticket) -> Option<&'d OrderPos>
    requires { (now draft.now).lists.positions ≡ draft.now.log.base.positions }
    ensures { option_copied result ≡ shown_by ticket.now (now draft.now).lists }
{
    match ticket {
        Ticket::Position(id) => draft.rows().position(*id),
        Ticket::Secret(secret) => draft.book().position_with(secret.as_str()),
        Ticket::Unreadable => None,
    }
}

// Whether the position's order is pending or paid.
fn is_in_force<B: Book>(draft: &Draft<'_, B>, position: &OrderPos) -> bool
    ensures { result ≡ is_in_force_if (order_at position.now.order (now draft.now).lists) }
{
    match draft.rows().order(position.order) {
        None => false,
        Some(order) => order.status.is_in_force(),
    }
}

// Whether the position's order isn't paid, and has to be.
fn is_unpaid<B: Book>(
    draft: &Draft<'_, B>,
    list: &CheckinList,
    position: &OrderPos,
    scan: &Scan,
) -> bool
    ensures { result ≡ is_unpaid_if list.now scan.now
        (order_at position.now.order (now draft.now).lists) }
{
    match draft.rows().order(position.order) {
        None => false,
        Some(order) => lacks_payment(list, scan, order.status),
    }
}

// Whether an order of this status isn't paid, and has to be.
fn lacks_payment(list: &CheckinList, scan: &Scan, status: Status) -> bool
    ensures { result ≡ is_unpaid list.now scan.now status }
{
    status.is_pending() && !(scan.force || (scan.ignore_unpaid && list.include_pending))
}

// Whether a nonce was given, and a check-in with it is stored for this list and position.
fn is_stored(checkins: &[Checkin], list: u64, position: u64, nonce: &Option<Text>) -> bool
    ensures { result ≡ is_stored list position nonce.now checkins.now }
{
    checkins.iter().any(|c| c.list == list && (c.position == position && is_same(&c.nonce, nonce)))
}

// Whether two nonces were given, and are one.
fn is_same(stored: &Option<Text>, nonce: &Option<Text>) -> bool
    ensures { result ≡ same_nonce stored.now nonce.now }
{
    match (stored, nonce) {
        (Some(stored), Some(nonce)) => stored.same(nonce.as_str()),
        _ => false,
    }
}

// Whether it is an exit, or an entry that isn't one too many.
fn may_pass(checkins: &[Checkin], list: &CheckinList, position: u64, scan: &Scan) -> bool
    ensures { result ≡ may_pass list.now position scan.now checkins.now }
{
    is_exit(scan.kind)
        || scan.force
        || list.allow_multiple_entries
        || !has_entry(checkins, list.id, position)
        || (list.allow_entry_after_exit && is_exit_if(last_of(checkins, list.id, position)))
}
