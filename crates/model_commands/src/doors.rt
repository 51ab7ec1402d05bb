//! What requests of the doors say, what they are answered, and why they are refused.

ghost use Rattle.std.specs.Prelude.{◌≡◌};
ghost use Rattle.model_commands.specs.Refusals.{number_of_door_refusal};
ghost use Rattle.model_commands.specs.declared.doors.DoorRefusal.TheVariants.{Memory, Catalogue};
ghost use Rattle.model_commands.specs.FitRequests.{IsFitCheckinList, IsFitScan};

use base_values::{Known, List, Moment, Text};
use model_catalogue::CatalogueRefusal;
use model_rows::{Checkin, CheckinKind, OrderPos};
use std::alloc::AllocError;
use thiserror::Error;

/// A new check-in list, with the ids of its items as they are given: repeated ones count once.
#[derive(Drop)]
pub struct NewCheckinList {
    pub name: Text,
    pub all_products: bool,
    pub limit_products: List<u64>,
    pub include_pending: bool,
    pub allow_multiple_entries: bool,
    pub allow_entry_after_exit: bool,
}

/// What a scanner shows of a ticket.
#[derive(Drop)]
pub enum Ticket {
    /// The id of its position.
    Position(u64),
    /// Its secret.
    Secret(Text),
    /// A text that no secret is: it is too long.
    Unreadable,
}

/// A scan at a door. Without a moment of its own it is made at the request's moment. A list and a position have a nonce
/// once, for good, so a scan that is sent again with its nonce adds nothing.
#[derive(Drop)]
pub struct Scan {
    pub kind: CheckinKind,
    pub nonce: Option<Text>,
    pub datetime: Option<Moment>,
    pub force: bool,
    pub ignore_unpaid: bool,
}

/// How many positions belong to a check-in list, how many of them have an entry, and how many are inside:
/// those whose last check-in is an entry.
#[derive(Clone, Copy, PartialEq, Eq)]
pub struct DoorStatus {
    pub positions: u64,
    pub entered: u64,
    pub inside: u64,
}

/// A position that belongs to a check-in list, with its check-ins of that list, by id.
#[derive(Drop)]
pub struct ListedTicket {
    pub position: OrderPos,
    pub checkins: List<Checkin>,
}

/// Why a call of the doors is refused.
#[derive(Clone, Copy, Debug, PartialEq, Eq, Error)]
pub enum DoorRefusal {
    /// 6: there is no memory.
    #[error("out of memory")]
    Memory,
    /// The catalogue's refusal, with its number.
    #[error("{0}")]
    Catalogue(CatalogueRefusal),
    /// 50: there is no such check-in list.
    #[error("check-in list not found")]
    NoList,
    /// 51: there is no such position.
    #[error("invalid")]
    Invalid,
    /// 52: the position's order is expired or cancelled.
    #[error("canceled")]
    Canceled,
    /// 53: the position's item isn't on the list.
    #[error("product")]
    Product,
    /// 54: the position's order isn't paid.
    #[error("unpaid")]
    Unpaid,
    /// 55: the position was let in already.
    #[error("already redeemed")]
    AlreadyRedeemed,
}

impl From<AllocError> for DoorRefusal {
    ghost from_gives = { λ _ e. e ≡ Memory };

    fn from(_e: AllocError) -> DoorRefusal {
        DoorRefusal::Memory
    }
}

impl From<CatalogueRefusal> for DoorRefusal {
    ghost from_gives = { λ r e. e ≡ Catalogue r };

    fn from(refusal: CatalogueRefusal) -> DoorRefusal {
        DoorRefusal::Catalogue(refusal)
    }
}

impl DoorRefusal {
    /// The refusal's number.
    pub fn number(self) -> u8
        ensures { result ≡ number_of_door_refusal self }
    {
        match self {
            DoorRefusal::Memory => 6,
            DoorRefusal::Catalogue(refusal) => refusal.number(),
            DoorRefusal::NoList => 50,
            DoorRefusal::Invalid => 51,
            DoorRefusal::Canceled => 52,
            DoorRefusal::Product => 53,
            DoorRefusal::Unpaid => 54,
            DoorRefusal::AlreadyRedeemed => 55,
        }
    }
}

impl Known for NewCheckinList {
    ghost promise = { IsFitCheckinList };

    fn recall_invariant(&self) {
        self.name.recall_invariant();
    }
}

impl Known for Scan {
    ghost promise = { IsFitScan };

    fn recall_invariant(&self) {
        self.nonce.recall_invariant();
        self.datetime.recall_invariant();
    }
}
