//! When a row counts, and what it counts: one function for each rule, over whatever finds the rows.

ghost use Rattle.std.specs.Prelude.{◌≡◌, ◌≤◌, ◌-◌};
ghost use Rattle.std.specs.Option.{option_copied};
ghost use Rattle.base_values.specs.Money.{last_cents};
ghost use Rattle.model_rows.specs.Conditions.{is_paid, is_pending, is_in_force, same_id};
ghost use Rattle.model_rows.specs.Fits.{fits};
ghost use Rattle.model_rows.specs.Over.{ignores};
ghost use Rattle.model_rows.specs.Usage.{stands_as, is_released, exit_counts, holds_place, takes_place, position_counts, uses, spends, blocks_if, is_covered_by, cart_counts};
ghost use Rattle.book_usage.specs.Covers.{cover_alike};
ghost use Rattle.book_usage.specs.Limits.{last_use};
ghost use Rattle.book_usage.specs.Shares.{status_share, exited_share, cart_share, waiting_share, blocked_share, held_name, used_name};

use crate::look_ups::{Exits, LookUps};
use base_values::Moment;
use book_catalogue::Catalogue;
use model_catalogue::{Product, Quota};
use model_rows::{CartPos, Order, OrderPos, Status, Voucher, Waiting};

/// Whether an order stands and is paid.
pub fn is_paid(order: Option<&Order>) -> bool
    ensures { result ≡ stands_as is_paid (option_copied order.entry) }
{
    order.is_some_and(|o| o.status.is_paid())
}

/// Whether an order stands and waits for its payment.
pub fn is_pending(order: Option<&Order>) -> bool
    ensures { result ≡ stands_as is_pending (option_copied order.entry) }
{
    order.is_some_and(|o| o.status.is_pending())
}

/// Whether an order stands and its positions use vouchers.
pub fn is_in_force(order: Option<&Order>) -> bool
    ensures { result ≡ stands_as is_in_force (option_copied order.entry) }
{
    order.is_some_and(|o| o.status.is_in_force())
}

/// Whether an order position is of a paid order, and for a product of the quota.
pub fn is_paid_in<R: LookUps>(rows: &R, quota: &Quota, position: &OrderPos) -> bool
    ensures { result ≡ position_counts is_paid (R.rows rows.now) quota.now position.now }
{
    is_paid(rows.order(position.order)) && quota.has(position.product)
}

/// Whether it is of a pending order, and for a product of the quota.
pub fn is_pending_in<R: LookUps>(rows: &R, quota: &Quota, position: &OrderPos) -> bool
    ensures { result ≡ position_counts is_pending (R.rows rows.now) quota.now position.now }
{
    is_pending(rows.order(position.order)) && quota.has(position.product)
}

/// Whether an order position has gone out, and the quota lets its place be sold again.
pub fn is_released<R: Exits>(rows: &R, quota: &Quota, position: &OrderPos) -> bool
    ensures { result ≡ is_released (R.rows rows.now) quota.now position.now }
{
    quota.release_after_exit && rows.is_out(position.id)
}

/// Whether it is of a paid order, for a product of the quota, and its place is released.
pub fn is_exited_in<R: Exits>(rows: &R, quota: &Quota, position: &OrderPos) -> bool
    ensures { result ≡ exit_counts (R.rows rows.now) quota.now position.now }
{
    is_paid(rows.order(position.order))
        && (quota.has(position.product) && is_released(rows, quota, position))
}

// Whether a position of an order of this status takes its place, where it is released or not.
fn holds_place(status: Status, released: bool) -> bool
    ensures { result ≡ holds_place status released }
{
    match status {
        Status::Pending => true,
        Status::Paid => !released,
        Status::Expired | Status::Cancelled => false,
    }
}

/// Whether it takes a place of the quota: its order is pending, or paid and its place isn't released.
pub fn takes_place<R: Exits>(rows: &R, quota: &Quota, position: &OrderPos) -> bool
    ensures { result ≡ takes_place (R.rows rows.now) quota.now position.now }
{
    match rows.order(position.order) {
        None => false,
        Some(order) => {
            holds_place(order.status, is_released(rows, quota, position))
                && quota.has(position.product)
        }
    }
}

/// Whether an order position uses the voucher: it names it, and its order is paid or pending.
pub fn uses<R: LookUps>(rows: &R, voucher: u64, position: &OrderPos) -> bool
    ensures { result ≡ uses voucher (R.rows rows.now) position.now }
{
    position.voucher == Some(voucher) && is_in_force(rows.order(position.order))
}

/// What an order position takes of the voucher's budget, in cents: its discount, where it uses the voucher, else 0.
pub fn spends<R: LookUps>(rows: &R, voucher: u64, position: &OrderPos) -> u64
    ensures value { result ≡ spends voucher (R.rows rows.now) position.now }
    ensures small { result ≤ last_cents }
{
    if uses(rows, voucher, position) {
        position.discount.get()
    } else {
        0
    }
}

/// Whether a voucher, if there is one, blocks places of the quota.
pub fn blocks(at: Moment, quota: &Quota, voucher: Option<&Voucher>) -> bool
    ensures { result ≡ blocks_if at quota.now (option_copied voucher.entry) }
{
    match voucher {
        None => false,
        Some(voucher) => voucher.blocks(at, quota),
    }
}

/// Whether the voucher that a row names stands and blocks places of the quota.
pub fn covers<R: LookUps>(rows: &R, at: Moment, quota: &Quota, voucher: Option<u64>) -> bool
    ensures { result ≡ is_covered_by (R.rows rows.now) at quota.now voucher }
{
    match voucher {
        None => false,
        Some(id) => blocks(at, quota, rows.voucher(id)),
    }
}

/// Whether a voucher is for this product: one in its quota, of its item, of its item and variation, or any.
pub fn fits(voucher: &Voucher, catalogue: &Catalogue, product: Product) -> bool
    ensures { result ≡ fits catalogue.now.lists voucher.now product }
{
    match voucher.quota {
        Some(id) => match catalogue.quota(id) {
            None => false,
            Some(quota) => quota.has(product),
        },
        None => voucher.fits_item(product),
    }
}

/// Whether both are none, or both are this id.
pub fn same_id(a: Option<u64>, b: Option<u64>) -> bool
    ensures { result ≡ same_id a b }
{
    a == b
}

// Whether both are none, or both are this moment.
fn same_end(a: Option<Moment>, b: Option<Moment>) -> bool
    ensures { result ≡ same_id a b }
{
    match a {
        None => b.is_none(),
        Some(end) => match b {
            None => false,
            Some(other) => end.get() == other.get(),
        },
    }
}

/// Whether two vouchers cover the same cart positions at each moment: both block places or neither does, until the same
/// moment, and they name the same quota, item and variation.
pub fn cover_alike(a: &Voucher, b: &Voucher) -> bool
    ensures { result ≡ cover_alike a.now b.now }
{
    a.block_quota == b.block_quota
        && same_end(a.valid_until, b.valid_until)
        && same_id(a.quota, b.quota)
        && same_id(a.item, b.item)
        && same_id(a.variation, b.variation)
}

/// Whether the voucher that a row names stands and ignores quotas.
pub fn ignores<R: LookUps>(rows: &R, voucher: Option<u64>) -> bool
    ensures { result ≡ ignores (R.rows rows.now) voucher }
{
    match voucher {
        None => false,
        Some(id) => rows.voucher(id).is_some_and(|v| v.allow_ignore_quota),
    }
}

/// Whether a cart position counts in the quota: it is live, for one of its products, and its voucher blocks no place of it.
pub fn cart_counts<R: LookUps>(rows: &R, at: Moment, quota: &Quota, cart: &CartPos) -> bool
    ensures { result ≡ cart_counts (R.rows rows.now) at quota.now cart.now }
{
    cart.is_live(at) && quota.has(cart.product) && !covers(rows, at, quota, cart.voucher)
}

/// 1 where an order position is of a paid order, and for a product of the quota.
#[tactic(auto, unfolding(crate::specs::Shares::status_share))]
pub fn paid_share<R: LookUps>(rows: &R, quota: &Quota, position: Option<&OrderPos>) -> u64
    ensures value { result ≡ status_share is_paid (R.rows rows.now) quota.now
        (option_copied position.entry) }
    ensures small { result ≤ 1 }
{
    match position {
        None => 0,
        Some(row) => u64::from(is_paid_in(rows, quota, row)),
    }
}

/// 1 where it is of a pending order, and for a product of the quota.
#[tactic(auto, unfolding(crate::specs::Shares::status_share))]
pub fn pending_share<R: LookUps>(rows: &R, quota: &Quota, position: Option<&OrderPos>) -> u64
    ensures value { result ≡ status_share is_pending (R.rows rows.now) quota.now
        (option_copied position.entry) }
    ensures small { result ≤ 1 }
{
    match position {
        None => 0,
        Some(row) => u64::from(is_pending_in(rows, quota, row)),
    }
}

/// 1 where it is of a paid order, for a product of the quota, and its place is released.
#[tactic(auto, unfolding(crate::specs::Shares::exited_share))]
pub fn exited_share<R: Exits>(rows: &R, quota: &Quota, position: Option<&OrderPos>) -> u64
    ensures value { result ≡ exited_share (R.rows rows.now) quota.now
        (option_copied position.entry) }
    ensures small { result ≤ 1 }
{
    match position {
        None => 0,
        Some(row) => u64::from(is_exited_in(rows, quota, row)),
    }
}

/// 1 where a cart position counts in the quota.
#[tactic(auto, unfolding(crate::specs::Shares::cart_share))]
pub fn cart_share<R: LookUps>(rows: &R, at: Moment, quota: &Quota, cart: Option<&CartPos>) -> u64
    ensures value { result ≡ cart_share (R.rows rows.now) at quota.now (option_copied cart.entry) }
    ensures small { result ≤ 1 }
{
    match cart {
        None => 0,
        Some(row) => u64::from(cart_counts(rows, at, quota, row)),
    }
}

/// 1 where a waiting entry counts in the quota: it has no voucher, and is for a product of the quota.
#[tactic(auto, unfolding(crate::specs::Shares::waiting_share))]
pub fn waiting_share(quota: &Quota, entry: Option<&Waiting>) -> u64
    ensures value { result ≡ waiting_share quota.now (option_copied entry.entry) }
    ensures small { result ≤ 1 }
{
    match entry {
        None => 0,
        Some(row) => u64::from(row.waits_for(quota)),
    }
}

/// How many of its uses a voucher that is redeemed so often has left.
pub fn left_of(voucher: &Voucher, redeemed: u64) -> u64
    ensures value { result ≡ voucher.now.max_usages - redeemed }
    ensures small { result ≤ last_use }
{
    u64::from(voucher.max_usages.get()).saturating_sub(redeemed)
}

/// How many places of the quota a voucher that is redeemed so often blocks.
#[tactic(auto, unfolding(crate::specs::Shares::blocked_share))]
pub fn blocked_share(at: Moment, quota: &Quota, redeemed: u64, voucher: Option<&Voucher>) -> u64
    ensures value { result ≡ blocked_share at quota.now redeemed (option_copied voucher.entry) }
    ensures small { result ≤ last_use }
{
    match voucher {
        Some(voucher) if voucher.blocks(at, quota) => left_of(voucher, redeemed),
        _ => 0,
    }
}

/// The voucher of which a cart position holds a use: the one that it names, while it is live.
pub fn held_name(at: Moment, cart: Option<&CartPos>) -> Option<u64>
    ensures { result ≡ held_name at (option_copied cart.entry) }
{
    match cart {
        Some(row) if row.is_live(at) => row.voucher,
        _ => None,
    }
}

/// The voucher that an order position uses: the one that it names, while its order is paid or pending.
pub fn used_name<R: LookUps>(rows: &R, position: Option<&OrderPos>) -> Option<u64>
    ensures { result ≡ used_name (R.rows rows.now) (option_copied position.entry) }
{
    match position {
        Some(row) if is_in_force(rows.order(row.order)) => row.voucher,
        _ => None,
    }
}
