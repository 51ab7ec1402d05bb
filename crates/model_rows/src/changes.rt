//! Changes of single rows.

ghost use Rattle.std.specs.Prelude.{◌≡◌, ◌≤◌, IfSome, IfNone};
ghost use Rattle.model_rows.specs.Weight.{change_weight, weight};

use crate::rows::{CartPos, Checkin, CheckinList, NextIds, Order, OrderPos, Voucher, Waiting};
use model_catalogue::{Item, Quota, Variation};
use std::marker::Model;

/// Puts or deletes one row.
#[derive(Drop)]
pub enum Change {
    /// Puts an item in the place of its id.
    PutItem(Item),
    /// Puts a variation in the place of its id.
    PutVariation(Variation),
    /// Puts a quota in the place of its id.
    PutQuota(Quota),
    /// Puts a voucher in the place of its id.
    PutVoucher(Voucher),
    /// Puts a cart position in the place of its id.
    PutCart(CartPos),
    /// Puts an order in the place of its id.
    PutOrder(Order),
    /// Puts an order position in the place of its id.
    PutPosition(OrderPos),
    /// Puts a waiting entry in the place of its id.
    PutWaiting(Waiting),
    /// Deletes the voucher with this id, if there is one.
    DropVoucher(u64),
    /// Deletes the cart position with this id, if there is one.
    DropCart(u64),
    /// Deletes the waiting entry with this id, if there is one.
    DropWaiting(u64),
    /// Puts a check-in list in the place of its id.
    PutCheckinList(CheckinList),
    /// Puts a check-in in the place of its id.
    PutCheckin(Checkin),
}

impl Change {
    /// How much room it needs in a book: for one row, and for each member of a quota that it puts.
    pub fn weight(&self) -> usize
        ensures { result ≡ change_weight self.now }
    {
        match self {
            Change::PutQuota(row) => row.weight(),
            _ => 1,
        }
    }
}

/// Changes in order, with the next ids that stand afterwards.
#[derive(Drop)]
pub struct Changes {
    list: Vec<Change>,
    next: NextIds,
}

impl Model for Changes {
    ghost use Rattle.model_rows.specs.Change.{Changed};

    ghost Value = { Changed };

    ghost view = { λ c. record { list = c.list.items; next = c.next } };
}

impl Changes {
    /// Changes of this list, with these next ids.
    pub fn new(list: Vec<Change>, next: NextIds) -> Self
        ensures list { result.list ≡ list.items }
        ensures next { result.next ≡ next }
    {
        Changes { list, next }
    }

    /// The changes in order.
    pub fn as_slice(&self) -> &[Change]
        ensures { result.now ≡ self.now.list }
    {
        self.list.as_slice()
    }

    /// How much room they need in a book. It is none where it is 2^64 or more.
    pub fn weight(&self) -> Option<usize>
        ensures some { IfSome result (λ count. count ≡ weight self.now.list) }
        ensures none { IfNone result (18446744073709551616 ≤ weight self.now.list) }
    {
        let mut count: usize = 0;
        for change in self.as_slice() {
            count = count.checked_add(change.weight())?;
        }
        Some(count)
    }

    /// The next ids that stand afterwards.
    pub fn next(&self) -> NextIds
        ensures { result ≡ self.now.next }
    {
        self.next
    }

    /// The changes in order, and the next ids that stand afterwards.
    pub fn into_parts(self) -> (Vec<Change>, NextIds)
        ensures list { result.0.items ≡ self.list }
        ensures next { result.1 ≡ self.next }
    {
        let Changes { list, next } = self;
        (list, next)
    }
}
