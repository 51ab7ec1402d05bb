//! What is overdue: orders that expire, and cart positions that go.

ghost use Rattle.std.specs.Prelude.{◌≡◌, IfOk};
ghost use Rattle.draft_changes.specs.DraftState.{now};
ghost use Rattle.model_rows.specs.Lists.{order_at};
ghost use Rattle.model_invariant.specs.Sound.{IsSound};
ghost use Rattle.decide_orders.specs.Expired.{expired_row, expired_changes, orders_expired, dropped_changes, carts_dropped, dead_now};
ghost use Rattle.decide_orders.specs.Steps.{expired_at, each_expired, expiry_of, each_expiry, due_now};
ghost use Rattle.decide_orders.specs.Puts.{ChangesBy, DoesAll};

use crate::creating::drop_carts;
use book_usage::{Book, LookUps};
use draft_changes::Draft;
use model_rows::{Order, Status};
use std::alloc::{AllocError, Global};

/// Each pending order that ended before the draft's moment becomes expired, in a draft that has changed no order.
/// Answers how many. `Err` where there is no memory; the draft is then as it was.
pub fn expire_orders<B: Book>(draft: &mut Draft<'_, B>, alloc: Global) -> Result<u64, AllocError>
    requires sound { IsSound (now draft.old) }
    requires orders { (now draft.old).lists.orders ≡ draft.old.log.base.orders }
    ensures { DoesAll orders_expired due_now expired_changes draft.old draft.new result }
{
    let ids = draft.book().due_orders(alloc, draft.moment())?;
    let mark = draft.mark();
    let expired = expire_each(draft, alloc, &ids);
    draft.end_attempt(mark, expired)?;
    Ok(ids.len() as u64)
}

// Expires the orders of these numbers, one after another.
fn expire_each<B: Book>(
    draft: &mut Draft<'_, B>,
    alloc: Global,
    ids: &[u64],
) -> Result<(), AllocError>
    ensures { ChangesBy (each_expired ids.now) (each_expiry ids.now (now draft.old).lists.orders)
        draft.old draft.new result }
{
    for id in ids {
        expire(draft, alloc, *id)?;
    }
    Ok(())
}

// Expires the order of a number, if it stands.
fn expire<B: Book>(draft: &mut Draft<'_, B>, alloc: Global, id: u64) -> Result<(), AllocError>
    ensures { ChangesBy (expired_at id) (expiry_of (order_at id (now draft.old).lists))
        draft.old draft.new result }
{
    let row = match draft.rows().order(id) {
        None => return Ok(()),
        Some(order) => expired_row(alloc, order)?,
    };
    draft.recall_invariant();
    draft.put_order(alloc, row)
}

// A copy of the order, expired.
fn expired_row(alloc: Global, order: &Order) -> Result<Order, AllocError>
    ensures { IfOk result (λ row. row ≡ expired_row order.now) }
{
    let copy = order.copy(alloc)?;
    Ok(Order {
        status: Status::Expired,
        ..copy
    })
}

/// Each cart position that ended before the draft's moment is deleted, in a draft that has changed no cart position.
/// Answers how many. `Err` where there is no memory; the draft is then as it was.
pub fn drop_dead_carts<B: Book>(draft: &mut Draft<'_, B>, alloc: Global) -> Result<u64, AllocError>
    requires carts { (now draft.old).lists.carts ≡ draft.old.log.base.carts }
    ensures { DoesAll carts_dropped dead_now dropped_changes draft.old draft.new result }
{
    draft.recall_invariant();
    let ids = draft.book().dead_carts(alloc, draft.moment())?;
    let mark = draft.mark();
    let dropped = drop_carts(draft, alloc, &ids);
    draft.end_attempt(mark, dropped)?;
    Ok(ids.len() as u64)
}
