//! Which fields a body has.

/// A move of an order, by the last name of its path.
#[derive(Clone, Copy, Drop, PartialEq, Eq)]
pub enum MoveName {
    MarkPaid,
    MarkPending,
    MarkExpired,
    MarkCanceled,
    Extend,
}

/// Which fields a body has, and the id of the row that the path names for them. A body is an object, but for `Carts`.
#[derive(Clone, Copy, PartialEq, Eq)]
pub enum Form {
    Item,
    ItemPatch(u64),
    /// A new variation of the item with this id.
    Variation(u64),
    Quota,
    QuotaPatch(u64),
    Voucher,
    VoucherPatch(u64),
    /// No field is read.
    DropVoucher(u64),
    Cart,
    /// A list, whose entries are as the bodies of new cart positions.
    Carts,
    /// No field is read.
    DropCart(u64),
    Order,
    /// A move of the order with this number. The moment of `Extend` is the one field that a move has.
    Move(u64, MoveName),
    /// A new entry of the waiting list.
    Waiting,
    /// The priority is the one field that is read.
    WaitingPatch(u64),
    /// No field is read.
    DropWaiting(u64),
    /// No field is read: a voucher for the entry of the waiting list with this id.
    SendVoucher(u64),
    /// No field is read: periodic work.
    Periodic,
    CheckinList,
}
