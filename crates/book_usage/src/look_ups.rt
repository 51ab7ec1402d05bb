//! The rows of a box office, found by their ids.

ghost use Rattle.std.specs.Prelude.{◌≡◌};
ghost use Rattle.std.specs.Option.{option_copied};
ghost use Rattle.model_rows.specs.Lists.{Lists, voucher_at, cart_at, order_at, position_at, waiting_at};
ghost use Rattle.model_rows.specs.Passages.{is_out};

use model_rows::{CartPos, Order, OrderPos, Voucher, Waiting};

/// Finds the rows of a box office by their ids.
pub trait LookUps {
    /// The rows.
    ghost rows: { Self → Lists };

    /// The voucher of an id.
    fn voucher(&self, id: u64) -> Option<&Voucher>
        ensures { option_copied result ≡ voucher_at id (rows self.now) };

    /// The cart position of an id.
    fn cart(&self, id: u64) -> Option<&CartPos>
        ensures { option_copied result ≡ cart_at id (rows self.now) };

    /// The order of an id.
    fn order(&self, id: u64) -> Option<&Order>
        ensures { option_copied result ≡ order_at id (rows self.now) };

    /// The order position of an id.
    fn position(&self, id: u64) -> Option<&OrderPos>
        ensures { option_copied result ≡ position_at id (rows self.now) };

    /// The waiting entry of an id.
    fn entry(&self, id: u64) -> Option<&Waiting>
        ensures { option_copied result ≡ waiting_at id (rows self.now) };
}

/// Tells which tickets have gone out.
pub trait Exits: LookUps {
    /// Whether a position has gone out: its last check-in, by whatever list, is an exit.
    fn is_out(&self, position: u64) -> bool
        ensures { result ≡ is_out position (Self.rows self.now).checkins };
}
