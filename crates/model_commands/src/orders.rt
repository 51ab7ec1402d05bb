//! What requests for orders say, and why they, and those for carts, are refused.

ghost use Rattle.std.specs.Prelude.{◌≡◌};
ghost use Rattle.model_commands.specs.Refusals.{number_of_order_refusal};
ghost use Rattle.model_commands.specs.Starts.{status_of};
ghost use Rattle.model_commands.specs.declared.orders.OrderRefusal.TheVariants.{Memory, Voucher};
ghost use Rattle.model_commands.specs.declared.vouchers.VoucherRefusal.TheVariants.{Catalogue};
ghost use Rattle.model_commands.specs.FitRequests.{IsFitOrder, IsFitMove};

use crate::carts::Asked;
use crate::vouchers::VoucherRefusal;
use base_values::{Known, List, Moment, Text};
use model_catalogue::CatalogueRefusal;
use model_rows::Status;
use std::alloc::AllocError;
use thiserror::Error;

/// What an order starts as.
#[derive(Clone, Copy, PartialEq, Eq)]
pub enum Start {
    /// It waits for its payment.
    Pending,
    /// It is paid at once.
    Paid,
}

/// A new order, pending or paid at once. Without an end it is kept for 14 days.
/// All cart positions of the carts that are named are consumed.
#[derive(Drop)]
pub struct NewOrder {
    pub email: Option<Text>,
    pub start: Start,
    pub expires: Option<Moment>,
    pub consume_carts: List<Text>,
    pub positions: List<Asked>,
}

impl Start {
    /// The status that the order has then.
    pub fn status(self) -> Status
        ensures { result ≡ status_of self }
    {
        match self {
            Start::Pending => Status::Pending,
            Start::Paid => Status::Paid,
        }
    }
}

/// What is to become of an order.
#[derive(Clone, Copy, PartialEq, Eq)]
pub enum Move {
    /// A pending or an expired order becomes paid.
    MarkPaid,
    /// A paid order becomes pending again.
    MarkPending,
    /// A pending order becomes expired.
    MarkExpired,
    /// An order that isn't cancelled becomes cancelled.
    MarkCanceled,
    /// A pending or an expired order gets this end, and is pending then.
    Extend(Moment),
}

/// Why a call on carts and orders is refused.
#[derive(Clone, Copy, Debug, PartialEq, Eq, Error)]
pub enum OrderRefusal {
    /// 6: there is no memory.
    #[error("out of memory")]
    Memory,
    /// The refusal of a voucher, of a quota or of the catalogue, with its number.
    #[error("{0}")]
    Voucher(VoucherRefusal),
    /// 40: there is no such cart position.
    #[error("cart position not found")]
    NoPosition,
    /// 41: there is no such order.
    #[error("order not found")]
    NoOrder,
    /// 42: the order's status, which is this one, doesn't allow it.
    #[error("not possible in this status")]
    WrongStatus(Status),
    /// 43: an order of no positions.
    #[error("no positions")]
    Empty,
    /// 44: more than 500 positions, entries or cart ids.
    #[error("too many")]
    TooMany,
    /// 45: the cart id doesn't end in `@api`.
    #[error("wrong cart")]
    BadCart,
}

impl From<AllocError> for OrderRefusal {
    ghost from_gives = { λ _ e. e ≡ Memory };

    fn from(_e: AllocError) -> OrderRefusal {
        OrderRefusal::Memory
    }
}

impl From<VoucherRefusal> for OrderRefusal {
    ghost from_gives = { λ r e. e ≡ Voucher r };

    fn from(refusal: VoucherRefusal) -> OrderRefusal {
        OrderRefusal::Voucher(refusal)
    }
}

impl From<CatalogueRefusal> for OrderRefusal {
    ghost from_gives = { λ r e. e ≡ Voucher (Catalogue r) };

    fn from(refusal: CatalogueRefusal) -> OrderRefusal {
        OrderRefusal::Voucher(VoucherRefusal::Catalogue(refusal))
    }
}

impl OrderRefusal {
    /// The refusal's number.
    pub fn number(self) -> u8
        ensures { result ≡ number_of_order_refusal self }
    {
        match self {
            OrderRefusal::Memory => 6,
            OrderRefusal::Voucher(refusal) => refusal.number(),
            OrderRefusal::NoPosition => 40,
            OrderRefusal::NoOrder => 41,
            OrderRefusal::WrongStatus(_) => 42,
            OrderRefusal::Empty => 43,
            OrderRefusal::TooMany => 44,
            OrderRefusal::BadCart => 45,
        }
    }
}

impl Known for NewOrder {
    ghost promise = { IsFitOrder };

    fn recall_invariant(&self) {
        self.email.recall_invariant();
        self.expires.recall_invariant();
        self.positions.recall_invariant();
    }
}

impl Known for Move {
    ghost promise = { IsFitMove };

    fn recall_invariant(&self) {
        if let Move::Extend(end) = self {
            end.recall_invariant();
        }
    }
}
