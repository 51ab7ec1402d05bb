//! The test of limits: what types don't promise of values, that ids count from 1, and how many rows there are.

ghost use Rattle.std.specs.Prelude.{◌≡◌, ◌↔◌, IsTrue, IfSome};
ghost use Rattle.std.specs.List.{AllByRecursion};
ghost use Rattle.model_invariant.specs.Few.{AllFew};
ghost use Rattle.model_invariant.specs.Limits.{IsValue, IsLimitedItem, IsLimitedVariation, IsLimitedQuota, IsLimitedVoucher, IsLimitedCart, IsLimitedOrder, IsLimitedPosition, IsLimitedWaiting, IsLimitedCheckinList, IsLimitedCheckin, AllLimited};
ghost use Rattle.model_damage.specs.Rules.{AllFromOne, IsWithin};
ghost use Rattle.model_damage.specs.Told.{lists_of};

use crate::ids::are_from_one;
use base_values::codes::LAST_ORDER;
use base_values::{Cents, Known, PriceMode};
use model_catalogue::{Item, MOST_ROWS, Quota, Variation};
use model_damage::FileRows;
use model_rows::{CartPos, Checkin, CheckinList, Order, OrderPos, Voucher, Waiting};

/// A row whose values have limits.
trait Limited {
    /// Its values are within their limits.
    ghost limited: { Self → Type 0 };

    /// Whether they are. What their types promise needs no test.
    fn is_limited(&self) -> bool
        ensures { IsTrue result ↔ limited self.now };
}

impl Limited for Item {
    ghost limited = { IsLimitedItem };

    fn is_limited(&self) -> bool {
        self.name.recall_invariant();
        self.default_price.recall_invariant();
        true
    }
}

impl Limited for Variation {
    ghost limited = { IsLimitedVariation };

    fn is_limited(&self) -> bool {
        self.name.recall_invariant();
        self.default_price.recall_invariant();
        true
    }
}

impl Limited for Quota {
    ghost limited = { IsLimitedQuota };

    fn is_limited(&self) -> bool {
        self.name.recall_invariant();
        self.size.recall_invariant();
        true
    }
}

// Whether a voucher's value is within its limits: no more than 100.00 percent are taken off.
fn is_value(mode: PriceMode, value: Option<Cents>) -> bool
    ensures { IsTrue result ↔ IfSome value (IsValue mode) }
{
    value.recall_invariant();
    match (mode, value) {
        (PriceMode::Percent, Some(value)) => value.get() <= 10_000,
        _ => true,
    }
}

impl Limited for Voucher {
    ghost limited = { IsLimitedVoucher };

    fn is_limited(&self) -> bool {
        self.code.recall_invariant();
        self.max_usages.recall_invariant();
        self.valid_until.recall_invariant();
        self.tag.recall_invariant();
        self.comment.recall_invariant();
        self.budget.recall_invariant();
        is_value(self.price_mode, self.value)
    }
}

impl Limited for CartPos {
    ghost limited = { IsLimitedCart };

    fn is_limited(&self) -> bool {
        self.cart_id.recall_invariant();
        self.price.recall_invariant();
        self.made_at.recall_invariant();
        self.expires.recall_invariant();
        true
    }
}

impl Limited for Order {
    ghost limited = { IsLimitedOrder };

    fn is_limited(&self) -> bool {
        self.email.recall_invariant();
        self.made_at.recall_invariant();
        self.expires.recall_invariant();
        true
    }
}

impl Limited for OrderPos {
    ghost limited = { IsLimitedPosition };

    fn is_limited(&self) -> bool {
        self.price.recall_invariant();
        self.secret.recall_invariant();
        self.discount.recall_invariant();
        true
    }
}

impl Limited for Waiting {
    ghost limited = { IsLimitedWaiting };

    fn is_limited(&self) -> bool {
        self.email.recall_invariant();
        self.priority.recall_invariant();
        self.created.recall_invariant();
        true
    }
}

impl Limited for CheckinList {
    ghost limited = { IsLimitedCheckinList };

    fn is_limited(&self) -> bool {
        self.name.recall_invariant();
        true
    }
}

impl Limited for Checkin {
    ghost limited = { IsLimitedCheckin };

    fn is_limited(&self) -> bool {
        self.datetime.recall_invariant();
        self.nonce.recall_invariant();
        true
    }
}

// Whether the values of each row are within their limits.
fn are_limited<T: Limited>(rows: &[T]) -> bool
    ensures { IsTrue result ↔ AllByRecursion T.limited rows.now }
{
    for row in rows {
        if !row.is_limited() {
            return false;
        }
    }
    true
}

// Whether the values of each row of each table are.
fn all_limited(rows: &FileRows) -> bool
    ensures { IsTrue result ↔ AllLimited (lists_of rows.now) }
{
    are_limited(&rows.items)
        && are_limited(&rows.variations)
        && are_limited(&rows.quotas)
        && are_limited(&rows.vouchers)
        && are_limited(&rows.carts)
        && are_limited(&rows.orders)
        && are_limited(&rows.positions)
        && are_limited(&rows.waiting)
        && are_limited(&rows.checkin_lists)
        && are_limited(&rows.checkins)
}

// Whether the ids of each table count from 1.
fn all_from_one(rows: &FileRows) -> bool
    ensures { IsTrue result ↔ AllFromOne (lists_of rows.now) }
{
    are_from_one(&rows.items)
        && are_from_one(&rows.variations)
        && are_from_one(&rows.quotas)
        && are_from_one(&rows.vouchers)
        && are_from_one(&rows.carts)
        && are_from_one(&rows.orders)
        && are_from_one(&rows.positions)
        && are_from_one(&rows.waiting)
        && are_from_one(&rows.checkin_lists)
        && are_from_one(&rows.checkins)
}

// Whether no table has more rows than it may.
fn all_few(rows: &FileRows) -> bool
    ensures { IsTrue result ↔ AllFew (lists_of rows.now) }
{
    rows.items.len() <= MOST_ROWS
        && rows.variations.len() <= MOST_ROWS
        && rows.quotas.len() <= MOST_ROWS
        && rows.vouchers.len() <= MOST_ROWS
        && rows.carts.len() <= MOST_ROWS
        && rows.orders.len() <= LAST_ORDER as usize
        && rows.positions.len() <= MOST_ROWS
        && rows.waiting.len() <= MOST_ROWS
        && rows.checkin_lists.len() <= MOST_ROWS
        && rows.checkins.len() <= MOST_ROWS
}

/// Whether texts and values are within their limits, ids count from 1, and no table has more rows than it may: 1,000,000,
/// of orders 17,210,367.
pub fn keeps_limits(rows: &FileRows) -> bool
    ensures { IsTrue result ↔ IsWithin (lists_of rows.now) }
{
    all_limited(rows) && all_from_one(rows) && all_few(rows)
}
