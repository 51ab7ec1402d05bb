//! Which keys the rows of a box office have.

ghost use Rattle.std.specs.Prelude.{◌≡◌};
ghost use Rattle.book_indexes.specs.declared.keys.Keys.{Keys};
ghost use Rattle.book_indexes.specs.Keys.{voucher_keys, cart_keys, order_keys, position_keys, waiting_keys, checkin_keys, end_if};

use crate::digests::{digest, pair};
use crate::keys::Keys;
use base_tables::Row;
use model_rows::{CartPos, Checkin, Order, OrderPos, Voucher, Waiting};

/// A row that is found by keys.
pub trait Keyed: Row {
    /// Its keys.
    ghost keys: { Self → Keys };

    /// Its keys.
    fn keys(&self) -> Keys
        ensures { result ≡ keys self.now };
}

/// A voucher is found by its end and by its code.
impl Keyed for Voucher {
    ghost keys = { voucher_keys };

    fn keys(&self) -> Keys {
        Keys {
            until: self.valid_until.map(|end| end.get()),
            text: Some(digest(self.code.as_str())),
            ..Keys::none()
        }
    }
}

/// A cart position is found by its end, by its voucher and by its cart.
impl Keyed for CartPos {
    ghost keys = { cart_keys };

    fn keys(&self) -> Keys {
        Keys {
            until: Some(self.expires.get()),
            named: self.voucher,
            text: Some(digest(self.cart_id.as_str())),
            group: None,
        }
    }
}

/// An order is found by its end, while it is pending.
impl Keyed for Order {
    ghost keys = { order_keys };

    fn keys(&self) -> Keys {
        Keys {
            until: end_if(self),
            ..Keys::none()
        }
    }
}

/// An order position is found by its voucher, by its secret and by its order.
impl Keyed for OrderPos {
    ghost keys = { position_keys };

    fn keys(&self) -> Keys {
        Keys {
            until: None,
            named: self.voucher,
            text: Some(digest(self.secret.as_str())),
            group: Some(self.order),
        }
    }
}

/// A waiting entry is found by its voucher; and while it has none, by its email, and as one of those that wait.
impl Keyed for Waiting {
    ghost keys = { waiting_keys };

    fn keys(&self) -> Keys {
        match self.voucher {
            Some(voucher) => Keys {
                named: Some(voucher),
                ..Keys::none()
            },
            None => Keys {
                until: None,
                named: None,
                text: Some(digest(self.email.as_str())),
                group: Some(0),
            },
        }
    }
}

/// A check-in is found by its position, and by its list and its position together.
impl Keyed for Checkin {
    ghost keys = { checkin_keys };

    fn keys(&self) -> Keys {
        Keys {
            named: Some(self.position),
            group: Some(pair(self.list, self.position)),
            ..Keys::none()
        }
    }
}

// The end of a pending order.
fn end_if(order: &Order) -> Option<u64>
    ensures { result ≡ end_if order.now }
{
    if order.status.is_pending() {
        Some(order.expires.get())
    } else {
        None
    }
}
