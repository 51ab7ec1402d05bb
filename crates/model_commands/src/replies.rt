//! What a request is answered.

ghost use Rattle.std.specs.Prelude.{◌≡◌};
ghost use Rattle.model_commands.specs.Refusals.{number_of_refusal};

use crate::carts::Outcome;
use crate::doors::{DoorRefusal, DoorStatus, ListedTicket};
use crate::orders::OrderRefusal;
use crate::requests::{Kind, Resource};
use crate::vouchers::{Verdict, VoucherRefusal};
use crate::waiting::{PeriodicCounts, WaitingRefusal};
use base_values::List;
use model_catalogue::{CatalogueRefusal, ItemRows, PricedVariation, Quota};
use model_rows::{Availability, CartPos, CheckinList, OrderPos, OrderRows, Voucher, Waiting};

/// Why a request is refused.
#[derive(Clone, Copy, PartialEq, Eq)]
pub enum Refusal {
    /// The catalogue's refusal, with its number.
    Catalogue(CatalogueRefusal),
    /// The refusal of a call on vouchers, with its number.
    Voucher(VoucherRefusal),
    /// The refusal of a call on carts and orders, with its number.
    Order(OrderRefusal),
    /// The refusal of a call on the waiting list, with its number.
    Waiting(WaitingRefusal),
    /// The refusal of a call of the doors, with its number.
    Door(DoorRefusal),
    /// 59: the list has no such page.
    NoPage,
}

impl Refusal {
    /// The refusal's number.
    pub fn number(self) -> u8
        ensures { result ≡ number_of_refusal self }
    {
        match self {
            Refusal::Catalogue(refusal) => refusal.number(),
            Refusal::Voucher(refusal) => refusal.number(),
            Refusal::Order(refusal) => refusal.number(),
            Refusal::Waiting(refusal) => refusal.number(),
            Refusal::Door(refusal) => refusal.number(),
            Refusal::NoPage => 59,
        }
    }
}

/// A row as it is shown, a copy.
#[derive(Drop)]
pub enum Shown {
    /// An item with its variations.
    Item(ItemRows),
    /// A variation with its price.
    Variation(PricedVariation),
    Quota(Quota),
    /// A voucher, and how many positions of pending and paid orders name it.
    Voucher(Voucher, u64),
    Cart(CartPos),
    /// An order with its positions.
    Order(OrderRows),
    /// An entry of the waiting list.
    Waiting(Waiting),
    CheckinList(CheckinList),
    /// A position that belongs to a check-in list, with its check-ins of it.
    Ticket(ListedTicket),
}

/// A page of a list: how many rows the whole list has, and those of the page, at most 50.
#[derive(Drop)]
pub struct Page {
    pub resource: Resource,
    pub number: u64,
    pub count: u64,
    pub rows: List<Shown>,
}

/// What a request is answered.
#[derive(Drop)]
pub enum Reply {
    /// A row that was made.
    Made(Shown),
    /// A row that stands, as it is now.
    Found(Shown),
    /// What became of each entry of a bulk call.
    Results(List<Outcome>),
    /// What became of each row of a voucher file.
    Imported(List<Verdict>),
    /// A page of a list.
    Listed(Page),
    /// A row was deleted, or a voucher was sent.
    Gone,
    /// What is left of a quota.
    Availability(Availability),
    /// What periodic work did.
    Periodic(PeriodicCounts),
    /// A ticket was checked in or out; this is a copy of its position.
    Admitted(OrderPos),
    /// The numbers of a check-in list.
    Status(DoorStatus),
    /// The kind of the request, and why it is refused.
    Refused(Kind, Refusal),
}
