//! What uses a quota at a later moment, by what has ended until then. Each row that is looked at for it is a step.

ghost use Rattle.std.specs.Prelude.{◌≡◌, ◌≤◌, ◌+◌, count_by, is_some, true};
ghost use Rattle.std.specs.Option.{option_copied};
ghost use Rattle.model_rows.specs.CameDue.{is_due_cart};
ghost use Rattle.model_rows.specs.Asked.{held_in};
ghost use Rattle.model_rows.specs.Lists.{voucher_at};
ghost use Rattle.model_rows.specs.Usage.{redeemed, cart_counts};
ghost use Rattle.book_usage.specs.Dues.{with_due_steps};
ghost use Rattle.book_usage.specs.Limits.{last_use, most_listed};
ghost use Rattle.book_store.specs.OneRow.{is_live_in};
ghost use Rattle.book_store.specs.Walks.{one_if};
ghost use Rattle.book_counts_over_time.specs.Later.{named_in, release_if, free_if, naming_if, with_release_steps, Stands};
ghost use Rattle.book_counts_over_time.specs.UsageUpdates.{count_moved, carts_lapsed, blocks_released, carts_freed, time_shift};
ghost use Rattle.book_counts_over_time.specs.Usages.{AreRedeemed};

use base_values::{Moment, Steps};
use book_store::Ended;
use book_store::counts::count_one;
use book_usage::rules::left_of;
use model_catalogue::Quota;
use model_rows::{CartPos, Usage, Voucher};
use std::sync::ledger::Ledger;

/// What vouchers that ended no longer block, and the cart positions that count in their place.
#[derive(Clone, Copy)]
pub struct Release {
    pub blocked: u64,
    pub carts: u64,
}

// How often a voucher that stands is redeemed.
fn redeemed_of<L: Ledger>(ended: &Ended<'_, L>, redeems: &[u64], voucher: u64) -> u64
    requires redeems { AreRedeemed ended.now.state.lists redeems.now }
    requires stands { is_some (voucher_at voucher ended.now.state.lists) ≡ true }
    ensures { result ≡ redeemed voucher ended.now.state.lists }
{
    match ended.place(voucher) {
        Ok(at) => redeems[at],
        Err(_) => 0,
    }
}

// What a voucher blocked, and how many live cart positions it covered.
#[tactic(auto, unfolding(crate::specs::Later::release_if, crate::specs::Later::free_if, crate::specs::Later::naming_if))]
fn release_of<L: Ledger>(
    ended: &Ended<'_, L>,
    redeems: &[u64],
    quota: &Quota,
    at: Moment,
    voucher: Option<&Voucher>,
    steps: &mut Steps<L>,
) -> Release
    requires redeems { AreRedeemed ended.now.state.lists redeems.now }
    requires stands { Stands ended.now.state.lists (option_copied voucher) }
    ensures blocked { result.blocked
        ≡ release_if ended.now.state.lists quota.now (option_copied voucher.entry) }
    ensures carts { result.carts
        ≡ free_if ended.now.state.lists at quota.now (option_copied voucher.entry) }
    ensures small { result.blocked ≤ last_use }
    ensures few { result.carts ≤ most_listed }
    ensures cost { steps.new
        ≤ steps.old + naming_if ended.now.state.lists (option_copied voucher.entry) }
{
    match voucher {
        None => Release {
            blocked: 0,
            carts: 0,
        },
        Some(voucher) => {
            if voucher.block_quota && voucher.hits(quota) {
                Release {
                    blocked: left_of(voucher, redeemed_of(ended, redeems, voucher.id)),
                    carts: freed_by(ended, voucher.id, quota, at, steps),
                }
            } else {
                Release {
                    blocked: 0,
                    carts: 0,
                }
            }
        }
    }
}

// 1 where a cart position is live, and for a product of the quota.
#[tactic(auto, unfolding(book_store::specs::Walks::one_if))]
fn hold_if(at: Moment, quota: &Quota, cart: Option<&CartPos>) -> u64
    ensures value { result ≡ one_if (is_live_in at quota.now) (option_copied cart.entry) }
    ensures small { result ≤ 1 }
{
    match cart {
        None => 0,
        Some(row) => count_one(row.is_live(at) && quota.has(row.product)),
    }
}

// How many cart positions that are live at a moment name the voucher and are for a product of the quota.
fn freed_by<L: Ledger>(
    ended: &Ended<'_, L>,
    voucher: u64,
    quota: &Quota,
    at: Moment,
    steps: &mut Steps<L>,
) -> u64
    ensures value { result ≡ held_in at quota.now voucher ended.now.state.lists }
    ensures few { result ≤ most_listed }
    ensures cost { steps.new ≡ steps.old + named_in voucher ended.now.state.lists }
{
    let mut count = 0;
    let carts = ended.naming(voucher);
    for place in 0..carts.len() {
        let cart = carts.at(place, steps);
        count += hold_if(at, quota, cart);
    }
    count
}

// 1 where a cart position counts in the quota.
#[tactic(auto, unfolding(book_store::specs::Walks::one_if))]
fn count_if<L: Ledger>(
    ended: &Ended<'_, L>,
    at: Moment,
    quota: &Quota,
    cart: Option<&CartPos>,
) -> u64
    ensures value { result
        ≡ one_if (cart_counts ended.now.state.lists at quota.now) (option_copied cart.entry) }
    ensures small { result ≤ 1 }
{
    match cart {
        None => 0,
        Some(row) => count_one(ended.counts(at, quota, row)),
    }
}

// How many cart positions counted in the quota at the moment of the store, and have ended since.
fn carts_lapsed<L: Ledger>(
    ended: &Ended<'_, L>,
    quota: &Quota,
    at: Moment,
    steps: &mut Steps<L>,
) -> u64
    requires { ended.now.state.moment ≤ at }
    ensures value { result
        ≡ carts_lapsed ended.now.state.lists ended.now.state.moment at quota.now }
    ensures few { result ≤ most_listed }
    ensures cost { steps.new ≡ steps.old
        + count_by (is_due_cart ended.now.state.moment at) ended.now.state.lists.carts }
{
    let from = ended.moment();
    let mut count = 0;
    let carts = ended.carts(at);
    for place in 0..carts.len() {
        let cart = carts.at(place, steps);
        count += count_if(ended, from, quota, cart);
    }
    count
}

// What a count is after some came and some went, at most 2^64 - 1.
fn moved_far(count: u64, come: u128, gone: u128) -> u64
    requires { come ≤ 18446744073709551616 }
    ensures value { result ≡ count_moved count come gone }
    ensures fits { count ≤ 18446744073709551615 }
{
    (u128::from(count) + come)
        .min(18_446_744_073_709_551_615)
        .saturating_sub(gone) as u64
}

/// What all vouchers that ended no longer block, and the cart positions that count in their place.
#[derive(Clone, Copy)]
pub struct Releases {
    pub blocked: u128,
    pub carts: u128,
}

// What the vouchers that have ended since the moment of the store blocked, and how many live cart positions they covered.
fn blocks_released<L: Ledger>(
    ended: &Ended<'_, L>,
    redeems: &[u64],
    quota: &Quota,
    at: Moment,
    steps: &mut Steps<L>,
) -> Releases
    requires moment { ended.now.state.moment ≤ at }
    requires redeems { AreRedeemed ended.now.state.lists redeems.now }
    ensures blocked { result.blocked
        ≡ blocks_released ended.now.state.lists ended.now.state.moment at quota.now }
    ensures carts { result.carts
        ≡ carts_freed ended.now.state.lists ended.now.state.moment at quota.now }
    ensures few { result.carts ≤ 18446744073709551616 }
    ensures cost { steps.new ≤ with_release_steps ended.now.state at steps.old }
{
    let mut blocked = 0;
    let mut carts = 0;
    let vouchers = ended.vouchers(at);
    for place in 0..vouchers.len() {
        let voucher = vouchers.at(place, steps);
        let release = release_of(ended, redeems, quota, at, voucher, steps);
        blocked += u128::from(release.blocked);
        carts += u128::from(release.carts);
    }
    Releases { blocked, carts }
}

/// The usage of a quota at a moment, by that at the moment of the store.
pub fn later<L: Ledger>(
    ended: &Ended<'_, L>,
    redeems: &[u64],
    quota: &Quota,
    usage: Usage,
    at: Moment,
    steps: &mut Steps<L>,
) -> Usage
    requires moment { ended.now.state.moment ≤ at }
    requires redeems { AreRedeemed ended.now.state.lists redeems.now }
    ensures value { result
        ≡ time_shift ended.now.state.lists ended.now.state.moment at quota.now usage }
    ensures fits { usage.blocked ≤ 18446744073709551615 }
    ensures cost { steps.new ≤ with_due_steps ended.now.state at steps.old }
{
    ended.recall_invariant();
    let lapsed = carts_lapsed(ended, quota, at, steps);
    let released = blocks_released(ended, redeems, quota, at, steps);
    Usage {
        blocked: moved_far(usage.blocked, 0, released.blocked),
        carts: moved_far(usage.carts, released.carts, u128::from(lapsed)),
        ..usage
    }
}
