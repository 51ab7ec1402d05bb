//! What requests for the waiting list and periodic work say, and why they are refused.

ghost use Rattle.std.specs.Prelude.{◌≡◌};
ghost use Rattle.model_commands.specs.Refusals.{number_of_waiting_refusal};
ghost use Rattle.model_commands.specs.declared.waiting.WaitingRefusal.TheVariants.{Memory, Catalogue};
ghost use Rattle.model_commands.specs.FitRequests.{IsFitWaiting, IsFitWaitingPatch};

use base_values::{Known, Priority, Text};
use model_catalogue::CatalogueRefusal;
use std::alloc::AllocError;
use thiserror::Error;

/// A new entry of the waiting list: who waits for which product.
/// Entries of a higher priority are served first.
#[derive(Drop)]
pub struct NewWaiting {
    pub email: Text,
    pub item: u64,
    pub variation: Option<u64>,
    pub priority: Priority,
}

/// What is to change of an entry of the waiting list: its priority, where one is given.
#[derive(Clone, Copy, PartialEq, Eq)]
pub struct WaitingPatch {
    pub priority: Option<Priority>,
}

/// What periodic work did: how many pending orders expired, how many dead cart positions were deleted, and how many
/// entries of the waiting list were sent a voucher.
#[derive(Clone, Copy, PartialEq, Eq)]
pub struct PeriodicCounts {
    pub expired: u64,
    pub deleted: u64,
    pub sent: u64,
}

/// Why a call on the waiting list is refused.
#[derive(Clone, Copy, Debug, PartialEq, Eq, Error)]
pub enum WaitingRefusal {
    /// 6: there is no memory.
    #[error("out of memory")]
    Memory,
    /// The catalogue's refusal, with its number.
    #[error("{0}")]
    Catalogue(CatalogueRefusal),
    /// 28: no place is left of the quota with this id.
    #[error("quota {0} is sold out")]
    SoldOut(u64),
    /// 29: the product can be had without waiting.
    #[error("still available")]
    StillAvailable,
    /// 30: the same email waits for the same product.
    #[error("already waiting")]
    AlreadyWaiting,
    /// 31: the entry has a voucher.
    #[error("already sent")]
    AlreadySent,
    /// 32: there is no such entry.
    #[error("entry not found")]
    NoEntry,
}

impl From<AllocError> for WaitingRefusal {
    ghost from_gives = { λ _ e. e ≡ Memory };

    fn from(_e: AllocError) -> WaitingRefusal {
        WaitingRefusal::Memory
    }
}

impl From<CatalogueRefusal> for WaitingRefusal {
    ghost from_gives = { λ r e. e ≡ Catalogue r };

    fn from(refusal: CatalogueRefusal) -> WaitingRefusal {
        WaitingRefusal::Catalogue(refusal)
    }
}

impl WaitingRefusal {
    /// The refusal's number.
    pub fn number(self) -> u8
        ensures { result ≡ number_of_waiting_refusal self }
    {
        match self {
            WaitingRefusal::Memory => 6,
            WaitingRefusal::Catalogue(refusal) => refusal.number(),
            WaitingRefusal::SoldOut(_) => 28,
            WaitingRefusal::StillAvailable => 29,
            WaitingRefusal::AlreadyWaiting => 30,
            WaitingRefusal::AlreadySent => 31,
            WaitingRefusal::NoEntry => 32,
        }
    }
}

impl Known for NewWaiting {
    ghost promise = { IsFitWaiting };

    fn recall_invariant(&self) {
        self.email.recall_invariant();
        self.priority.recall_invariant();
    }
}

impl Known for WaitingPatch {
    ghost promise = { IsFitWaitingPatch };

    fn recall_invariant(&self) {
        self.priority.recall_invariant();
    }
}
