//! Making an order.

ghost use Rattle.std.specs.Prelude.{◌≡◌, ◌≤◌, ◌+◌, true, Ok, IfOk, OnOk, [], ◌∷◌, length, map};
ghost use Rattle.model_commands.specs.declared.orders.OrderRefusal.TheVariants.{Memory};
ghost use Rattle.draft_changes.specs.Decides.{Logs, RefusesBy, AnswersBy, DecidesBy};
ghost use Rattle.draft_changes.specs.DraftState.{now, back, Extends, IsMarkOf};
ghost use Rattle.model_rows.specs.declared.changes.Change.TheVariants.{PutPosition, DropCart};
ghost use Rattle.model_rows.specs.Change.{without_carts};
ghost use Rattle.model_catalogue.specs.Limits.{last_id};
ghost use Rattle.decide_orders.specs.Created.{order_changes, order_created, counts_test, order_row, position_for, position_put, with_positions, with_order_row, order_placed, rows_asked, rows_put, takes_whole, order_made};
ghost use Rattle.decide_orders.specs.Steps.{IsReady, AreCounted};
ghost use Rattle.decide_orders.specs.Places.{own_positions};
ghost use Rattle.decide_orders.specs.Puts.{IsFresh, IsNext, ChangesBy, PutsBy, makes_order};

use crate::places::{own_rows, test_sale};
use crate::sold::sold_for;
use base_values::{Draw, List, Text, secret};
use book_usage::Book;
use draft_changes::{Draft, Mark};
use model_commands::{Asked, NewOrder, OrderRefusal, VoucherRefusal};
use model_rows::{Order, OrderPos, OrderRows, Own};
use std::alloc::{AllocError, Global};

// How many positions and how many cart ids a request for an order may have.
const MOST_POSITIONS: usize = 500;

// How long an order may be paid where its request gives no end: 14 days, in seconds.
const PAYMENT_TERM: u64 = 1_209_600;

/// Makes an order, in a draft without changes, and answers a copy of it with its positions. The carts that it names are
/// consumed: all their positions go, exactly if the order is made, and uses and places are tested without them.
/// Positions are priced one after another, each within what those before it leave of its voucher's budget.
/// A refusal leaves the draft as it was.
/// Refusals, in this order: 43 `Empty`; 44 `TooMany` of more than 500 positions or cart ids; position by position
/// 10 `NoItem`, 11 `NoVariation`, 12 `NeedsVariation`, 15 `Inactive`, 18 `NotSold`, 23 `NoVoucher`,
/// 24 `VoucherExpired`, 26 `WrongProduct`; then for the whole order 25 `NoHeadroom`, 34 `OverBudget`, 28 `SoldOut` with the
/// least quota of which it takes too much, 16 `Full`. 6 `Memory` may come anywhere after the first.
#[tactic(auto, unfolding(crate::specs::Created::order_created), using(crate::proofs::Rows::counted))]
pub fn create<B: Book>(
    draft: &mut Draft<'_, B>,
    alloc: Global,
    draw: Draw,
    new: &NewOrder,
) -> Result<OrderRows, OrderRefusal>
    requires { IsFresh draft.old }
    ensures { DecidesBy Memory (order_created new.now draw)
        (makes_order new.now.consume_carts (now draft.old)) draft.old draft.new result }
{
    test_counts(new)?;
    let rows = new_rows(draft, alloc, draw, new.positions.as_slice())?;
    let order = new_order(draft, alloc, new)?;
    place(draft, alloc, new.consume_carts.as_slice(), order, rows)
}

// An order has a position, and neither too many positions nor too many cart ids.
fn test_counts(new: &NewOrder) -> Result<(), OrderRefusal>
    ensures { result ≡ counts_test new.now }
{
    let count = new.positions.as_slice().len();
    if count == 0 {
        return Err(OrderRefusal::Empty);
    }
    if MOST_POSITIONS < count {
        return Err(OrderRefusal::TooMany);
    }
    if MOST_POSITIONS < new.consume_carts.as_slice().len() {
        return Err(OrderRefusal::TooMany);
    }
    Ok(())
}

// The order's row.
fn new_order<B: Book>(
    draft: &Draft<'_, B>,
    alloc: Global,
    new: &NewOrder,
) -> Result<Order, AllocError>
    ensures { IfOk result (λ row. row ≡ order_row new.now (now draft.now)) }
{
    let email = match &new.email {
        None => None,
        Some(email) => Some(email.copy(alloc)?),
    };
    Ok(Order {
        id: draft.next_order(),
        email,
        status: new.start.status(),
        made_at: draft.moment(),
        expires: new.expires.unwrap_or(draft.moment().later(PAYMENT_TERM)),
    })
}

// The row of one position that is asked for, after these of the same order.
#[tactic(auto, unfolding(crate::specs::Created::position_for))]
fn new_row<B: Book>(
    draft: &Draft<'_, B>,
    alloc: Global,
    draw: Draw,
    before: &[OrderPos],
    id: u64,
    number: u32,
    asked: &Asked,
) -> Result<OrderPos, OrderRefusal>
    ensures { AnswersBy Memory (position_for draw (now draft.now) before.now id number asked.now)
        result }
{
    let sold = sold_for(draft, asked, before)?;
    Ok(OrderPos {
        id,
        order: draft.next_order(),
        positionid: number,
        product: sold.product,
        price: sold.price,
        voucher: sold.voucher,
        secret: secret(alloc, draw, draft.next_order(), number)?,
        discount: sold.discount(),
    })
}

// The rows of all that is asked for, each priced after those before it, or the first refusal. Their ids count on, past the
// last one too: whether the table takes them comes last.
fn new_rows<B: Book>(
    draft: &Draft<'_, B>,
    alloc: Global,
    draw: Draw,
    asked: &[Asked],
) -> Result<Vec<OrderPos>, OrderRefusal>
    requires few { length asked.now ≤ 500 }
    requires next { (now draft.now).next.position ≤ last_id + 1 }
    ensures done { IfOk result (λ rows. rows_asked draw (now draft.now) asked.now ≡ Ok rows.items) }
    ensures refused { RefusesBy Memory (rows_asked draw (now draft.now) asked.now) result }
{
    let mut rows = Vec::new(alloc);
    let mut id = draft.next_position();
    let mut number = 1;
    for entry in asked {
        let row = new_row(draft, alloc, draw, &rows, id, number, entry)?;
        rows.push(row).map_err(AllocError::from)?;
        id += 1;
        number += 1;
    }
    Ok(rows)
}

/// Drops the cart positions of these ids. Without memory some of them may be dropped.
pub(crate) fn drop_carts<B: Book>(
    draft: &mut Draft<'_, B>,
    alloc: Global,
    ids: &[u64],
) -> Result<(), AllocError>
    ensures { ChangesBy (without_carts ids.now) (map DropCart ids.now) draft.old draft.new result }
{
    for id in ids {
        draft.drop_cart(alloc, *id)?;
    }
    Ok(())
}

// Puts the row of an order, without the carts that it consumes.
fn put_order<B: Book>(
    draft: &mut Draft<'_, B>,
    alloc: Global,
    carts: &[Text],
    order: &Order,
) -> Result<(), AllocError>
    requires { IsNext order.now [] draft.old }
    ensures { ChangesBy (with_order_row order.now carts.now)
        (order_changes carts.now order.now [] (now draft.old).lists) draft.old draft.new result }
{
    let ids = draft.book().carts_in(alloc, carts)?;
    drop_carts(draft, alloc, &ids)?;
    draft.put_order(alloc, order.copy(alloc)?)
}

// Puts a position, if its voucher has a use left.
#[tactic(auto, unfolding(crate::specs::Created::position_put))]
fn put_position<B: Book>(
    draft: &mut Draft<'_, B>,
    alloc: Global,
    row: &OrderPos,
) -> Result<(), OrderRefusal>
    requires { IsReady row.now.id (now draft.old) }
    ensures { PutsBy Memory (position_put row.now) (PutPosition row.now ∷ [])
        draft.old draft.new result }
{
    if !draft.has_use(row.voucher) {
        return Err(OrderRefusal::Voucher(VoucherRefusal::NoHeadroom));
    }
    draft.put_position(alloc, row.copy(alloc)?)?;
    Ok(())
}

// Puts positions whose ids count on.
fn put_positions<B: Book>(
    draft: &mut Draft<'_, B>,
    alloc: Global,
    first: u64,
    rows: &[OrderPos],
) -> Result<(), OrderRefusal>
    requires ready { IsReady first (now draft.old) }
    requires counted { AreCounted first rows.now }
    ensures done { OnOk result (with_positions rows.now (Ok (now draft.old)) ≡ Ok (now draft.new)) }
    ensures refused { RefusesBy Memory (with_positions rows.now (Ok (now draft.old))) result }
    ensures changes { OnOk result (Logs (map PutPosition rows.now) draft.old draft.new) }
    ensures extends { Extends draft.old draft.new }
{
    for row in rows {
        put_position(draft, alloc, row)?;
    }
    Ok(())
}

// Puts an order with its positions, without the carts that it consumes.
fn put_all<B: Book>(
    draft: &mut Draft<'_, B>,
    alloc: Global,
    carts: &[Text],
    order: &Order,
    rows: &[OrderPos],
) -> Result<(), OrderRefusal>
    requires { IsNext order.now rows.now draft.old }
    ensures { PutsBy Memory (rows_put order.now rows.now carts.now)
        (order_changes carts.now order.now rows.now (now draft.old).lists)
        draft.old draft.new result }
{
    let first = draft.next_position();
    put_order(draft, alloc, carts, order)?;
    put_positions(draft, alloc, first, rows)
}

// Whether the tables take an order and so many positions.
fn takes<B: Book>(draft: &Draft<'_, B>, count: usize) -> bool
    requires fresh { draft.now.log.changes ≡ [] }
    ensures { result ≡ takes_whole count (now draft.now) }
{
    draft.takes_order() && draft.takes_positions(count)
}

// Puts all of it, where vouchers have their uses left, no more is then spent of them than their budgets, no quota is over and
// the tables take the rows. A refusal may leave some of it.
#[tactic(auto, unfolding(crate::specs::Created::order_placed))]
fn put_tested<B: Book>(
    draft: &mut Draft<'_, B>,
    alloc: Global,
    mark: &Mark,
    own: &[Own],
    carts: &[Text],
    order: &Order,
    rows: &[OrderPos],
) -> Result<(), OrderRefusal>
    requires next { IsNext order.now rows.now draft.old }
    requires mark { IsMarkOf draft.old mark.now }
    requires here { back mark.now draft.old ≡ draft.old }
    requires own { own.now ≡ own_positions rows.now }
    ensures put { OnOk result (
        rows_put order.now rows.now carts.now (now draft.old) ≡ Ok (now draft.new)) }
    ensures takes { OnOk result (takes_whole (length rows.now) (now draft.old) ≡ true) }
    ensures done { OnOk result (order_placed order.now rows.now carts.now (now draft.old)
        ≡ Ok (order_made order.now rows.now (now draft.new))) }
    ensures refused { RefusesBy Memory
        (order_placed order.now rows.now carts.now (now draft.old)) result }
    ensures changes { OnOk result (Logs
        (order_changes carts.now order.now rows.now (now draft.old).lists) draft.old draft.new) }
    ensures extends { Extends draft.old draft.new }
{
    let takes = takes(draft, rows.len());
    put_all(draft, alloc, carts, order, rows)?;
    test_sale(draft, mark, rows, own, takes)
}

// Puts all of it, if vouchers have their uses left, no more is then spent of them than their budgets, no quota is over and the
// tables take the rows.
#[tactic(auto, unfolding(crate::specs::Created::order_placed))]
fn place<B: Book>(
    draft: &mut Draft<'_, B>,
    alloc: Global,
    carts: &[Text],
    order: Order,
    rows: Vec<OrderPos>,
) -> Result<OrderRows, OrderRefusal>
    requires { IsNext order rows.items draft.old }
    ensures { DecidesBy Memory (order_placed order rows.items carts.now)
        (makes_order carts.now (now draft.old)) draft.old draft.new result }
{
    let own = own_rows(alloc, &rows)?;
    let mark = draft.mark();
    let put = put_tested(draft, alloc, &mark, &own, carts, &order, &rows);
    draft.end_attempt(mark, put)?;
    draft.use_order_id();
    draft.use_position_ids(rows.len());
    Ok(OrderRows {
        order,
        positions: List::new(rows),
    })
}
