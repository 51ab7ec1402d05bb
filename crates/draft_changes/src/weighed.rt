//! What a request weighs in a quota: all that is used afterwards, less its own rows whose vouchers ignore quotas.

ghost use Rattle.std.specs.Prelude.{◌≡◌, count_by};
ghost use Rattle.std.specs.Option.{option_copied};
ghost use Rattle.model_rows.specs.Over.{is_free, is_free_cart, is_free_position, quota_weighed, is_over_size};
ghost use Rattle.model_rows.specs.Total.{total};
ghost use Rattle.model_rows.specs.Usage.{usage_of};

use base_values::Moment;
use book_usage::Exits;
use book_usage::rules::{cart_counts, ignores, takes_place};
use model_catalogue::Quota;
use model_rows::{CartPos, OrderPos, Own};

// Whether a request's own row counts in the quota, and its voucher ignores quotas.
fn is_free<R: Exits>(rows: &R, at: Moment, quota: &Quota, own: Own) -> bool
    ensures { result ≡ is_free (R.rows rows.now) at quota.now own }
{
    match own {
        Own::Cart(id) => is_free_cart(rows, at, quota, rows.cart(id)),
        Own::Position(id) => is_free_position(rows, quota, rows.position(id)),
    }
}

fn is_free_cart<R: Exits>(rows: &R, at: Moment, quota: &Quota, cart: Option<&CartPos>) -> bool
    ensures { result ≡ is_free_cart (R.rows rows.now) at quota.now (option_copied cart.entry) }
{
    match cart {
        None => false,
        Some(cart) => cart_counts(rows, at, quota, cart) && ignores(rows, cart.voucher),
    }
}

fn is_free_position<R: Exits>(rows: &R, quota: &Quota, position: Option<&OrderPos>) -> bool
    ensures { result ≡ is_free_position (R.rows rows.now) quota.now (option_copied position.entry) }
{
    match position {
        None => false,
        Some(row) => takes_place(rows, quota, row) && ignores(rows, row.voucher),
    }
}

fn free_count<R: Exits>(rows: &R, at: Moment, quota: &Quota, own: &[Own]) -> usize
    ensures { result ≡ count_by (is_free (R.rows rows.now) at quota.now) own.now }
{
    own.iter()
        .filter(|row| is_free(rows, at, quota, **row))
        .count()
}

/// Whether a request takes too much of a quota of which so much was used before, and is used now.
#[tactic(auto, unfolding(model_rows::specs::Over::quota_weighed))]
pub fn is_too_much<R: Exits>(
    rows: &R,
    at: Moment,
    quota: &Quota,
    own: &[Own],
    before: u128,
    after: u128,
) -> bool
    requires { after ≡ total (usage_of (R.rows rows.now) at quota.now) }
    ensures { result ≡ is_over_size quota.now.size before
        (quota_weighed (R.rows rows.now) at quota.now own.now) }
{
    let Some(size) = quota.size else {
        return false;
    };
    let size = u128::from(size.get());
    // Where all that is used isn't too much, the own rows needn't be looked up.
    if after <= size || after <= before {
        return false;
    }
    let weight = after.saturating_sub(free_count(rows, at, quota, own) as u128);
    size < weight && before < weight
}
