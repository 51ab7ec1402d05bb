//! What uses a quota, counted over all rows of a book.

ghost use Rattle.std.specs.Prelude.{◌≡◌, ◌≤◌, count_by};
ghost use Rattle.model_rows.specs.Conditions.{is_paid, is_pending};
ghost use Rattle.model_rows.specs.Usage.{usage_of, position_counts, is_released, exit_counts, blocked_by, is_covered, cart_counts, waits_for};
ghost use Rattle.book_usage.specs.Counts.{paid_in, pending_in, exited_in, blocked_in, carts_in_quota};

use base_values::Moment;
use book_usage::Book;
use book_usage::rules::{blocks, is_paid, is_pending, left_of};
use model_catalogue::Quota;
use model_rows::passages::is_exit_if;
use model_rows::{CartPos, OrderPos, Usage, Voucher};

/// What uses any quota at a moment, whether it stands or not. All rows are looked at: for a quota that is new, or whose
/// products change, or whether it releases places.
#[tactic(auto, unfolding(model_rows::specs::Usage::usage_of))]
pub fn recount<B: Book>(book: &B, quota: &Quota, at: Moment) -> Usage
    ensures { result ≡ usage_of (B.state book.now).lists at quota.now }
{
    Usage {
        paid: paid_in(book, quota),
        pending: pending_in(book, quota),
        blocked: blocked_in(book, quota, at),
        carts: carts_in(book, quota, at),
        waiting: waiting_in(book, quota),
        exited: exited_in(book, quota),
    }
}

// The positions of paid orders.
fn paid_in<B: Book>(book: &B, quota: &Quota) -> u64
    ensures { result ≡ paid_in (B.state book.now).lists quota.now }
{
    let positions = book.positions();
    positions
        .iter()
        .filter(|p| is_paid_in(book, quota, p))
        .count() as u64
}

fn is_paid_in<B: Book>(book: &B, quota: &Quota, position: &OrderPos) -> bool
    ensures { result ≡ position_counts is_paid (B.state book.now).lists quota.now position.now }
{
    is_paid(book.order(position.order)) && quota.has(position.product)
}

// The positions of pending orders.
fn pending_in<B: Book>(book: &B, quota: &Quota) -> u64
    ensures { result ≡ pending_in (B.state book.now).lists quota.now }
{
    let positions = book.positions();
    positions
        .iter()
        .filter(|p| is_pending_in(book, quota, p))
        .count() as u64
}

fn is_pending_in<B: Book>(book: &B, quota: &Quota, position: &OrderPos) -> bool
    ensures { result ≡ position_counts is_pending (B.state book.now).lists quota.now position.now }
{
    is_pending(book.order(position.order)) && quota.has(position.product)
}

// The places that vouchers block.
fn blocked_in<B: Book>(book: &B, quota: &Quota, at: Moment) -> u64
    ensures { result ≡ blocked_in (B.state book.now).lists at quota.now }
{
    book.recall_invariant();
    let mut blocked = 0;
    for voucher in book.vouchers() {
        blocked += blocked_by(book, quota, at, voucher);
    }
    blocked
}

// The places that a voucher blocks.
#[tactic(auto, unfolding(model_rows::specs::Usage::blocked_by))]
fn blocked_by<B: Book>(book: &B, quota: &Quota, at: Moment, voucher: &Voucher) -> u64
    ensures value { result ≡ blocked_by (B.state book.now).lists at quota.now voucher.now }
    ensures small { result ≤ 4294967295 }
{
    if voucher.blocks(at, quota) {
        left_of(voucher, book.redeemed(voucher.id))
    } else {
        0
    }
}

// The cart positions.
fn carts_in<B: Book>(book: &B, quota: &Quota, at: Moment) -> u64
    ensures { result ≡ carts_in_quota (B.state book.now).lists at quota.now }
{
    let carts = book.carts();
    carts
        .iter()
        .filter(|c| cart_counts(book, quota, at, c))
        .count() as u64
}

fn cart_counts<B: Book>(book: &B, quota: &Quota, at: Moment, cart: &CartPos) -> bool
    ensures { result ≡ cart_counts (B.state book.now).lists at quota.now cart.now }
{
    cart.is_live(at) && quota.has(cart.product) && !is_covered(book, quota, at, cart)
}

// Whether the voucher that a cart position names blocks places of the quota.
fn is_covered<B: Book>(book: &B, quota: &Quota, at: Moment, cart: &CartPos) -> bool
    ensures { result ≡ is_covered (B.state book.now).lists at quota.now cart.now }
{
    match cart.voucher {
        None => false,
        Some(id) => blocks(at, quota, book.voucher(id)),
    }
}

// The entries that wait.
fn waiting_in<B: Book>(book: &B, quota: &Quota) -> u64
    ensures { result ≡ count_by (waits_for quota.now) (B.state book.now).lists.waiting }
{
    let entries = book.waiting();
    entries.iter().filter(|e| e.waits_for(quota)).count() as u64
}

// The positions of paid orders that have gone out, where the quota releases places.
fn exited_in<B: Book>(book: &B, quota: &Quota) -> u64
    ensures { result ≡ exited_in (B.state book.now).lists quota.now }
{
    let positions = book.positions();
    positions
        .iter()
        .filter(|p| is_exited_in(book, quota, p))
        .count() as u64
}

fn is_exited_in<B: Book>(book: &B, quota: &Quota, position: &OrderPos) -> bool
    ensures { result ≡ exit_counts (B.state book.now).lists quota.now position.now }
{
    is_paid(book.order(position.order))
        && (quota.has(position.product) && is_released(book, quota, position))
}

// Whether a position has gone out, and the quota lets its place be sold again.
#[tactic(auto, unfolding(model_rows::specs::Passages::is_out))]
fn is_released<B: Book>(book: &B, quota: &Quota, position: &OrderPos) -> bool
    ensures { result ≡ is_released (B.state book.now).lists quota.now position.now }
{
    quota.release_after_exit && is_exit_if(book.last_at(position.id))
}
