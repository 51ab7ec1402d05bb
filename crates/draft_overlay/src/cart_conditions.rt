//! Tests of cart positions, which are counted one change after another.

ghost use Rattle.std.specs.Prelude.{◌≡◌, ◌&&◌, Bool};
ghost use Rattle.model_catalogue.specs.Member.{is_in};
ghost use Rattle.model_rows.specs.declared.rows.CartPos.{CartPos};
ghost use Rattle.model_rows.specs.Conditions.{holds};

use base_values::Moment;
use model_catalogue::Quota;
use model_rows::CartPos;

/// A test of cart positions.
pub trait CartCondition {
    /// Whether this one passes.
    ghost passes: { Self → CartPos → Bool };

    /// Whether this one passes.
    fn passes(&self, cart: &CartPos) -> bool
        ensures { result ≡ passes self.now cart.now };
}

/// The cart positions that are live and name the voucher.
#[derive(Drop)]
pub struct Holds {
    pub at: Moment,
    pub voucher: u64,
}

impl CartCondition for Holds {
    ghost passes = { λ t c. holds t.at t.voucher c };

    fn passes(&self, cart: &CartPos) -> bool {
        cart.holds(self.at, self.voucher)
    }
}

/// The cart positions that are live, name the voucher and are for a product of the quota.
#[derive(Drop)]
pub struct HoldsIn<'q> {
    pub at: Moment,
    pub voucher: u64,
    pub quota: &'q Quota,
}

impl<'q> CartCondition for HoldsIn<'q> {
    ghost passes = { λ t c. holds t.at t.voucher c && is_in t.quota.now c.product };

    fn passes(&self, cart: &CartPos) -> bool {
        cart.holds(self.at, self.voucher) && self.quota.has(cart.product)
    }
}
