//! The moves of an order.

ghost use Rattle.std.specs.Prelude.{◌≡◌, ◌≢◌, true, Ok, IfOk, IfErr, Some, None, count_by};
ghost use Rattle.model_commands.specs.declared.orders.OrderRefusal.TheVariants.{Memory};
ghost use Rattle.draft_changes.specs.Decides.{DecidesBy};
ghost use Rattle.draft_changes.specs.DraftState.{now};
ghost use Rattle.model_rows.specs.Lists.{order_at, positions_of};
ghost use Rattle.model_rows.specs.Conditions.{is_in_force, names};
ghost use Rattle.model_rows.specs.Usage.{stands_as};
ghost use Rattle.decide_orders.specs.Moves.{to, order_revived, transition_of, end_after, moved_row, moved_to, moved_as, have_uses_again, revival, order_moved};
ghost use Rattle.decide_orders.specs.Steps.{uses_again, has_room_again};
ghost use Rattle.decide_orders.specs.Puts.{IsFresh, ComesBack, puts_order};

use crate::places::{own_rows, test_sale};
use base_values::Moment;
use book_usage::{Book, LookUps};
use draft_changes::Draft;
use model_commands::{Move, OrderRefusal, VoucherRefusal};
use model_invariant::numbers::by_positionid;
use model_rows::{Order, OrderPos, OrderRows, Status};
use std::alloc::Global;

/// The status that follows, and whether an order comes back to life.
#[derive(Clone, Copy, PartialEq, Eq)]
pub struct Transition {
    pub status: Status,
    pub revival: bool,
}

fn to(status: Status) -> Option<Transition>
    ensures { result ≡ to status }
{
    Some(Transition {
        status,
        revival: false,
    })
}

fn order_revived(status: Status) -> Option<Transition>
    ensures { result ≡ order_revived status }
{
    Some(Transition {
        status,
        revival: true,
    })
}

/// What a move makes of an order of this status; none where it isn't possible.
pub fn transition_of(status: Status, change: Move) -> Option<Transition>
    ensures { result ≡ transition_of status change }
{
    match (status, change) {
        (Status::Cancelled, _) => None,
        (_, Move::MarkCanceled) => to(Status::Cancelled),
        (Status::Pending, Move::MarkPaid) => to(Status::Paid),
        (Status::Pending, Move::MarkExpired) => to(Status::Expired),
        (Status::Pending, Move::Extend(_)) => to(Status::Pending),
        (Status::Paid, Move::MarkPending) => to(Status::Pending),
        (Status::Expired, Move::MarkPaid) => order_revived(Status::Paid),
        (Status::Expired, Move::Extend(_)) => order_revived(Status::Pending),
        _ => None,
    }
}

/// Moves the order of a number, in a draft without changes, and answers it with its positions, as copies.
/// A refusal leaves the draft as it was.
/// Refusals, in this order: 41 `NoOrder`; 42 `WrongStatus`; where it comes back to life 25 `NoHeadroom`, 34 `OverBudget` with the
/// discounts that its positions keep, and 28 `SoldOut` with the least quota of which it takes too much. 6 `Memory` may come
/// anywhere after the first.
#[tactic(auto, unfolding(crate::specs::Moves::order_moved))]
pub fn move_order<B: Book>(
    draft: &mut Draft<'_, B>,
    alloc: Global,
    number: u64,
    change: Move,
) -> Result<OrderRows, OrderRefusal>
    requires { IsFresh draft.old }
    ensures { DecidesBy Memory (order_moved number change) puts_order draft.old draft.new result }
{
    let order = order_of(draft, alloc, number)?;
    let turn = turn_of(order.status, &change)?;
    move_as(draft, alloc, order, &change, turn)
}

// A copy of the order of a number.
fn order_of<B: Book>(
    draft: &Draft<'_, B>,
    alloc: Global,
    number: u64,
) -> Result<Order, OrderRefusal>
    ensures done { IfOk result (λ order. order_at number (now draft.now).lists ≡ Some order) }
    ensures id { IfOk result (λ order. order.id ≡ number) }
    ensures absent { IfErr result (λ e. e ≢ Memory → order_at number (now draft.now).lists ≡ None) }
    ensures refused { IfErr result (λ e. e ≢ Memory → e ≡ OrderRefusal.NoOrder) }
{
    match draft.rows().order(number) {
        None => Err(OrderRefusal::NoOrder),
        Some(order) => Ok(order.copy(alloc)?),
    }
}

// The turn of an order of this status, where the move is possible.
fn turn_of(status: Status, change: &Move) -> Result<Transition, OrderRefusal>
    ensures done { IfOk result (λ turn. transition_of status change.now ≡ Some turn) }
    ensures none { IfErr result (λ _. transition_of status change.now ≡ None) }
    ensures refused { IfErr result (λ e. e ≡ OrderRefusal.WrongStatus status) }
{
    transition_of(status, *change).ok_or(OrderRefusal::WrongStatus(status))
}

// Moves an order that stands, as its turn says.
fn move_as<B: Book>(
    draft: &mut Draft<'_, B>,
    alloc: Global,
    order: Order,
    change: &Move,
    turn: Transition,
) -> Result<OrderRows, OrderRefusal>
    requires fresh { IsFresh draft.old }
    requires stands { order_at order.id (now draft.old).lists ≡ Some order }
    requires turn { transition_of order.status change.now ≡ Some turn }
    ensures { DecidesBy Memory (λ state. moved_as order change.now state turn) puts_order
        draft.old draft.new result }
{
    let row = moved_row(order, turn.status, change);
    if turn.revival {
        revive(draft, alloc, row)
    } else {
        put(draft, alloc, row)
    }
}

// The end that a move sets.
fn end_after(change: &Move, old: Moment) -> Moment
    ensures { result ≡ end_after change.now old }
{
    match change {
        Move::Extend(end) => *end,
        _ => old,
    }
}

// The order's row with another status, and the end that the move sets.
fn moved_row(order: Order, status: Status, change: &Move) -> Order
    ensures { result ≡ moved_row order status change.now }
{
    let expires = end_after(change, order.expires);
    Order {
        status,
        expires,
        ..order
    }
}

// Puts an order that doesn't come back to life, and answers it with its positions.
fn put<B: Book>(
    draft: &mut Draft<'_, B>,
    alloc: Global,
    row: Order,
) -> Result<OrderRows, OrderRefusal>
    requires fresh { IsFresh draft.old }
    requires kept { is_in_force row.status ≡ true →
        stands_as is_in_force (order_at row.id (now draft.old).lists) ≡ true }
    ensures { DecidesBy Memory (λ state. Ok (moved_to row state)) puts_order
        draft.old draft.new result }
{
    let positions = by_positionid(alloc, draft.book().positions_of(alloc, row.id)?)?;
    let order = row.copy(alloc)?;
    draft.put_order(alloc, row)?;
    Ok(OrderRows { order, positions })
}

// Puts an order that comes back to life, if its vouchers have the uses that it takes again, and then no more is spent of them
// than their budgets and no quota is over; and answers it with its positions.
#[tactic(auto, unfolding(crate::specs::Moves::revival))]
fn revive<B: Book>(
    draft: &mut Draft<'_, B>,
    alloc: Global,
    row: Order,
) -> Result<OrderRows, OrderRefusal>
    requires fresh { IsFresh draft.old }
    requires again { ComesBack row (now draft.old) }
    ensures { DecidesBy Memory (revival row) puts_order draft.old draft.new result }
{
    let positions = draft.book().positions_of(alloc, row.id)?;
    if !have_uses_again(draft, &row, positions.as_slice()) {
        return Err(OrderRefusal::Voucher(VoucherRefusal::NoHeadroom));
    }
    let own = own_rows(alloc, positions.as_slice())?;
    let positions = by_positionid(alloc, positions)?;
    let order = row.copy(alloc)?;
    let mark = draft.mark();
    draft.put_order(alloc, row)?;
    let tested = test_sale(draft, &mark, positions.as_slice(), &own, true);
    draft.end_attempt(mark, tested)?;
    Ok(OrderRows { order, positions })
}

// Whether the vouchers of the positions have the uses that the order takes again.
fn have_uses_again<B: Book>(draft: &Draft<'_, B>, row: &Order, positions: &[OrderPos]) -> bool
    requires positions { positions.now ≡ positions_of row.now.id (now draft.now).lists }
    requires again { ComesBack row.now (now draft.now) }
    ensures { result ≡ have_uses_again row.now (now draft.now) }
{
    positions.iter().all(|position| has_room_again(draft, row, positions, position.voucher))
}

// Whether the voucher, if there is one, has the uses that the order takes again.
fn has_room_again<B: Book>(
    draft: &Draft<'_, B>,
    row: &Order,
    positions: &[OrderPos],
    voucher: Option<u64>,
) -> bool
    requires positions { positions.now ≡ positions_of row.now.id (now draft.now).lists }
    requires again { ComesBack row.now (now draft.now) }
    ensures { result ≡ has_room_again row.now (now draft.now) voucher }
{
    let Some(id) = voucher else {
        return true;
    };
    match draft.rows().voucher(id) {
        None => true,
        Some(voucher) => {
            uses_again(draft, row, positions, voucher.id) <= u128::from(voucher.max_usages.get())
        }
    }
}

// How often the voucher is used once the order has come back.
fn uses_again<B: Book>(
    draft: &Draft<'_, B>,
    row: &Order,
    positions: &[OrderPos],
    voucher: u64,
) -> u128
    requires positions { positions.now ≡ positions_of row.now.id (now draft.now).lists }
    requires again { ComesBack row.now (now draft.now) }
    ensures { result ≡ uses_again row.now (now draft.now) voucher }
{
    draft.uses(voucher) + named_by(positions, voucher) as u128
}

// How many of the positions name the voucher.
fn named_by(positions: &[OrderPos], voucher: u64) -> usize
    ensures { result ≡ count_by (λ p. names voucher p.voucher) positions.now }
{
    positions
        .iter()
        .filter(|row| row.voucher == Some(voucher))
        .count()
}
