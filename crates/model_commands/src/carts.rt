//! What requests for cart positions say, and what became of the entries of a bulk call.

ghost use Rattle.model_commands.specs.FitRequests.{IsFitAsked, IsFitCart, IsFitEntry};

use crate::orders::OrderRefusal;
use base_values::{Cents, Known, Moment, Text};
use model_faults::EntryFault;
use model_rows::CartPos;

/// What a request asks for one position: a product, perhaps a price (cents) and the code of a voucher.
#[derive(Drop)]
pub struct Asked {
    pub item: u64,
    pub variation: Option<u64>,
    pub price: Option<Cents>,
    pub voucher: Option<Text>,
}

/// A new cart position. Without a cart id it gets one that is made, and without an end it is held for 1800 seconds.
#[derive(Drop)]
pub struct NewCart {
    pub asked: Asked,
    pub cart_id: Option<Text>,
    pub expires: Option<Moment>,
}

/// An entry of a bulk call: a cart position that is asked for, or what is wrong with what stands in its place.
#[derive(Drop)]
pub enum Entry {
    /// A cart position that is asked for.
    New(NewCart),
    /// What is wrong with what stands in its place.
    Faulty(EntryFault),
}

/// What became of an entry.
#[derive(Drop)]
pub enum Outcome {
    /// A cart position was added; this is a copy of it.
    Added(CartPos),
    /// The cart position was refused.
    Refused(OrderRefusal),
    /// Nothing could be asked for: what was wrong with the entry, as it was handed in.
    Faulty(EntryFault),
}

impl Known for Asked {
    ghost promise = { IsFitAsked };

    fn recall_invariant(&self) {
        self.price.recall_invariant();
    }
}

impl Known for NewCart {
    ghost promise = { IsFitCart };

    fn recall_invariant(&self) {
        self.asked.recall_invariant();
        self.cart_id.recall_invariant();
        self.expires.recall_invariant();
    }
}

impl Known for Entry {
    ghost promise = { IsFitEntry };

    fn recall_invariant(&self) {
        if let Entry::New(new) = self {
            new.recall_invariant();
        }
    }
}
