//! What a request asks for.

ghost use Rattle.model_commands.specs.Fit.{IsFit};

use crate::carts::{Entry, NewCart};
use crate::doors::{NewCheckinList, Scan, Ticket};
use crate::orders::{Move, NewOrder};
use crate::vouchers::{NewVoucher, VoucherPatch};
use crate::waiting::{NewWaiting, WaitingPatch};
use base_values::{Known, List};
use model_catalogue::{ItemPatch, NewItem, NewQuota, NewVariation, QuotaPatch};

/// A request that may change the box office.
#[derive(Drop)]
pub enum Command {
    /// Adds an item, with its variations.
    AddItem(NewItem),
    /// Changes the item with this id.
    ChangeItem(u64, ItemPatch),
    /// Adds a variation to the item with this id.
    AddVariation(u64, NewVariation),
    /// Adds a quota.
    AddQuota(NewQuota),
    /// Gives the quota with this id another size.
    ResizeQuota(u64, QuotaPatch),
    /// Makes a voucher.
    AddVoucher(NewVoucher),
    /// Changes the voucher with this id.
    ChangeVoucher(u64, VoucherPatch),
    /// Deletes the voucher with this id.
    DropVoucher(u64),
    /// Adds a voucher for each row of a file whose code no voucher has, each row by itself.
    ImportVouchers(List<NewVoucher>),
    /// Adds a cart position.
    AddCart(NewCart),
    /// Adds a cart position for each entry, each by itself.
    AddCarts(List<Entry>),
    /// Deletes the cart position with this id.
    DropCart(u64),
    /// Makes an order.
    AddOrder(NewOrder),
    /// Moves the order with this number.
    MoveOrder(u64, Move),
    /// Adds an entry to the waiting list.
    AddWaiting(NewWaiting),
    /// Changes the entry of the waiting list with this id.
    ChangeWaiting(u64, WaitingPatch),
    /// Deletes the entry of the waiting list with this id.
    DropWaiting(u64),
    /// Sends a voucher to the entry of the waiting list with this id.
    SendVoucher(u64),
    /// Periodic work: ends what is overdue, then serves the waiting list.
    Periodic,
    /// Adds a check-in list.
    AddCheckinList(NewCheckinList),
    /// Checks a ticket in, or out, by the check-in list with this id.
    Redeem(u64, Ticket, Scan),
}

/// Rows of one kind, which are listed by id, 50 a page. The id of an order is its number.
#[derive(Clone, Copy, PartialEq, Eq)]
pub enum Resource {
    /// Items, with their variations.
    Items,
    /// Quotas.
    Quotas,
    /// Vouchers, with how many positions of pending and paid orders name them.
    Vouchers,
    /// Cart positions, dead ones too.
    Carts,
    /// Orders, with their positions.
    Orders,
    /// Entries of the waiting list.
    WaitingEntries,
    /// Check-in lists.
    CheckinLists,
    /// The positions that belong to the check-in list with this id, with their check-ins of it.
    Tickets(u64),
}

/// A request that only reads.
#[derive(Clone, Copy, PartialEq, Eq)]
pub enum Query {
    /// A page of a list; pages count from 1.
    List(Resource, u64),
    /// The row with this id.
    One(Resource, u64),
    /// What is left of the quota with this id.
    Availability(u64),
    /// How many positions belong to the check-in list with this id, have an entry, and are inside.
    Status(u64),
}

/// Which kind of request it is.
#[derive(Clone, Copy, PartialEq, Eq)]
pub enum Kind {
    /// A command that adds an item.
    AddItem,
    /// A command that changes an item.
    ChangeItem,
    /// A command that adds a variation.
    AddVariation,
    /// A command that adds a quota.
    AddQuota,
    /// A command that gives a quota another size.
    ResizeQuota,
    /// A command that makes a voucher.
    AddVoucher,
    /// A command that changes a voucher.
    ChangeVoucher,
    /// A command that deletes a voucher.
    DropVoucher,
    /// A command that adds a cart position.
    AddCart,
    /// A command that adds a cart position for each entry.
    AddCarts,
    /// A command that deletes a cart position.
    DropCart,
    /// A command that makes an order.
    AddOrder,
    /// A command that moves an order.
    MoveOrder,
    /// A command that adds an entry to the waiting list.
    AddWaiting,
    /// A command that changes an entry of the waiting list.
    ChangeWaiting,
    /// A command that deletes an entry of the waiting list.
    DropWaiting,
    /// A command that sends a voucher to an entry of the waiting list.
    SendVoucher,
    /// A command for periodic work.
    Periodic,
    /// A command that adds a check-in list.
    AddCheckinList,
    /// A command that checks a ticket in or out.
    Redeem,
    /// A query for a page of a list.
    List,
    /// A query for a row.
    One,
    /// A query for what is left of a quota.
    Availability,
    /// A query for the numbers of a check-in list.
    Status,
}

impl Known for Command {
    ghost promise = { IsFit };

    fn recall_invariant(&self) {
        match self {
            Command::AddItem(new) => new.recall_invariant(),
            Command::ChangeItem(_, patch) => patch.recall_invariant(),
            Command::AddVariation(_, new) => new.recall_invariant(),
            Command::AddQuota(new) => new.recall_invariant(),
            Command::ResizeQuota(_, patch) => patch.recall_invariant(),
            Command::AddVoucher(new) => new.recall_invariant(),
            Command::ChangeVoucher(_, patch) => patch.recall_invariant(),
            Command::ImportVouchers(rows) => rows.recall_invariant(),
            Command::AddCart(new) => new.recall_invariant(),
            Command::AddCarts(entries) => entries.recall_invariant(),
            Command::AddOrder(new) => new.recall_invariant(),
            Command::MoveOrder(_, change) => change.recall_invariant(),
            Command::AddWaiting(new) => new.recall_invariant(),
            Command::ChangeWaiting(_, patch) => patch.recall_invariant(),
            Command::AddCheckinList(new) => new.recall_invariant(),
            Command::Redeem(_, _, scan) => scan.recall_invariant(),
            Command::DropVoucher(_)
            | Command::DropCart(_)
            | Command::DropWaiting(_)
            | Command::SendVoucher(_)
            | Command::Periodic => {}
        }
    }
}
