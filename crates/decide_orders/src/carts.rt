//! Adding and deleting cart positions.

ghost use Rattle.std.specs.Prelude.{◌≡◌, [], ◌∷◌};
ghost use Rattle.model_commands.specs.declared.orders.OrderRefusal.TheVariants.{Memory};
ghost use Rattle.draft_changes.specs.Decides.{AnswersBy, DecidesBy, DeletesBy};
ghost use Rattle.draft_changes.specs.DraftState.{now};
ghost use Rattle.model_rows.specs.declared.changes.Change.TheVariants.{PutCart, DropCart};
ghost use Rattle.decide_orders.specs.Carts.{cart_row, cart_placed, position_added, has_use_for};
ghost use Rattle.decide_orders.specs.Dropped.{position_dropped};

use crate::cart_id::{cart_id, test_cart_id};
use crate::places::test_places;
use crate::sold::sold_for;
use base_values::Draw;
use book_usage::{Book, LookUps};
use draft_changes::Draft;
use model_commands::{NewCart, OrderRefusal, VoucherRefusal};
use model_rows::{CartPos, Own};
use std::alloc::Global;

// How long a cart position is held where no end is given, in seconds: half an hour.
const HELD_FOR: u64 = 1_800;

/// Adds a cart position, and answers a copy of it. The price that it computes is within what is left of the voucher's budget,
/// of which a cart position takes nothing.
/// A refusal leaves the draft as it was.
/// Refusals, in this order: 45 `BadCart`; 10 `NoItem`, 11 `NoVariation`, 12 `NeedsVariation`, 15 `Inactive`,
/// 18 `NotSold`; 23 `NoVoucher`, 24 `VoucherExpired`, 26 `WrongProduct`; 25 `NoHeadroom`; 28 `SoldOut` with the
/// least quota of which it takes too much; 16 `Full`. 6 `Memory` may come anywhere after the first.
#[tactic(auto, unfolding(crate::specs::Carts::position_added))]
pub fn add_position<B: Book>(
    draft: &mut Draft<'_, B>,
    alloc: Global,
    draw: Draw,
    new: &NewCart,
) -> Result<CartPos, OrderRefusal>
    ensures { DecidesBy Memory (position_added new.now draw) (λ row. PutCart row ∷ [])
        draft.old draft.new result }
{
    let row = new_row(draft, alloc, draw, new)?;
    place(draft, alloc, row)
}

// The row that is asked for.
#[tactic(auto, unfolding(crate::specs::Carts::cart_row))]
fn new_row<B: Book>(
    draft: &Draft<'_, B>,
    alloc: Global,
    draw: Draw,
    new: &NewCart,
) -> Result<CartPos, OrderRefusal>
    ensures { AnswersBy Memory (cart_row new.now draw (now draft.now)) result }
{
    test_cart_id(new)?;
    let sold = sold_for(draft, &new.asked, &[])?;
    let id = draft.next_cart();
    Ok(CartPos {
        id,
        cart_id: cart_id(alloc, new, draw, id)?,
        product: sold.product,
        price: sold.price,
        made_at: draft.moment(),
        expires: new.expires.unwrap_or(draft.moment().later(HELD_FOR)),
        voucher: sold.voucher,
    })
}

// Whether the row's voucher has a use left, where the row takes one.
fn has_use_for<B: Book>(draft: &Draft<'_, B>, row: &CartPos) -> bool
    ensures { result ≡ has_use_for row.now (now draft.now) }
{
    !row.is_live(draft.moment()) || draft.has_use(row.voucher)
}

// Puts the row, if its voucher has a use left, no quota is then over and the table takes it.
#[tactic(auto, unfolding(crate::specs::Carts::cart_placed))]
fn place<B: Book>(
    draft: &mut Draft<'_, B>,
    alloc: Global,
    row: CartPos,
) -> Result<CartPos, OrderRefusal>
    ensures { DecidesBy Memory (cart_placed row) (λ copy. PutCart copy ∷ [])
        draft.old draft.new result }
{
    if !has_use_for(draft, &row) {
        return Err(OrderRefusal::Voucher(VoucherRefusal::NoHeadroom));
    }
    let takes_cart = draft.takes_cart();
    let id = row.id;
    let copy = row.copy(alloc)?;
    let mark = draft.mark();
    draft.put_cart(alloc, row)?;
    let tested = test_places(draft, &mark, &[Own::Cart(id)], takes_cart);
    draft.end_attempt(mark, tested)?;
    draft.use_cart_id();
    Ok(copy)
}

/// Deletes the cart position of an id, dead or live. A refusal leaves the draft as it was.
/// Refusals, in this order: 40 `NoPosition`, 6 `Memory`.
#[tactic(auto, unfolding(crate::specs::Dropped::position_dropped))]
pub fn drop_position<B: Book>(
    draft: &mut Draft<'_, B>,
    alloc: Global,
    id: u64,
) -> Result<(), OrderRefusal>
    ensures { DeletesBy Memory (position_dropped id) (DropCart id ∷ []) draft.old draft.new result }
{
    if draft.rows().cart(id).is_none() {
        return Err(OrderRefusal::NoPosition);
    }
    draft.drop_cart(alloc, id)?;
    Ok(())
}
