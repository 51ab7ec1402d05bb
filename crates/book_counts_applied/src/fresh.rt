//! All that is kept beside rows, counted afresh in one pass over them: what each row counts is added to the quotas that it touches. No row
//! before it matters, and none goes.

ghost use Rattle.std.specs.Prelude.{◌≡◌, ◌≤◌, ◌<◌, ◌++◌, [], ◌∷◌, length, map, vec_capacity, None, Some};
ghost use Rattle.model_rows.specs.Headroom.{held};
ghost use Rattle.model_rows.specs.Usage.{redeemed, spent};
ghost use Rattle.book_counts_over_time.specs.UsageUpdates.{block_shift, cart_shift, waiting_shift};
ghost use Rattle.book_counts_over_time.specs.Redemptions.{position_shift};
ghost use Rattle.book_counts_over_time.specs.Usages.{AreUsages, AreRedeemed};
ghost use Rattle.book_counts_applied.specs.Fresh.{AllShifted, after_each, position_comes, cart_comes, entry_comes, voucher_comes};
ghost use Rattle.book_counts_applied.specs.Settled.{nothing, AreSmall};

use base_values::Moment;
use book_counts_over_time::redemptions::{redeemed_in, vouchers};
use book_counts_over_time::shift::{UsageUpdate, count_moved};
use book_counts_over_time::touched::{shift_hit, shift_product};
use book_store::Store;
use book_usage::rules::{
    blocked_share, cart_share, exited_share, paid_share, pending_share, waiting_share,
};
use model_catalogue::Quota;
use model_rows::{CartPos, OrderPos, Usage, Voucher, Waiting};

// An order position comes.
#[derive(Drop)]
struct PositionComes<'s> {
    store: &'s Store,
    row: &'s OrderPos,
}

impl<'s> UsageUpdate for PositionComes<'s> {
    ghost shift = { λ s. position_shift s.store.now.state.lists (Some s.row.now) None };

    ghost ready = { λ s. Unit {0} };

    fn shifted(&self, quota: &Quota, usage: Usage) -> Usage {
        Usage {
            paid: count_moved(
                usage.paid,
                paid_share(self.store, quota, Some(self.row)),
                paid_share(self.store, quota, None),
            ),
            pending: count_moved(
                usage.pending,
                pending_share(self.store, quota, Some(self.row)),
                pending_share(self.store, quota, None),
            ),
            exited: count_moved(
                usage.exited,
                exited_share(self.store, quota, Some(self.row)),
                exited_share(self.store, quota, None),
            ),
            ..usage
        }
    }
}

// A cart position comes.
#[derive(Drop)]
struct CartComes<'s> {
    store: &'s Store,
    at: Moment,
    row: &'s CartPos,
}

impl<'s> UsageUpdate for CartComes<'s> {
    ghost shift = { λ s. cart_shift s.store.now.state.lists s.at (Some s.row.now) None };

    ghost ready = { λ s. Unit {0} };

    fn shifted(&self, quota: &Quota, usage: Usage) -> Usage {
        Usage {
            carts: count_moved(
                usage.carts,
                cart_share(self.store, self.at, quota, Some(self.row)),
                cart_share(self.store, self.at, quota, None),
            ),
            ..usage
        }
    }
}

// A waiting entry comes.
#[derive(Drop)]
struct EntryComes<'s> {
    row: &'s Waiting,
}

impl<'s> UsageUpdate for EntryComes<'s> {
    ghost shift = { λ s. waiting_shift (Some s.row.now) None };

    ghost ready = { λ s. Unit {0} };

    fn shifted(&self, quota: &Quota, usage: Usage) -> Usage {
        Usage {
            waiting: count_moved(
                usage.waiting,
                waiting_share(quota, Some(self.row)),
                waiting_share(quota, None),
            ),
            ..usage
        }
    }
}

// A voucher that is redeemed so often comes.
#[derive(Drop)]
struct VoucherComes<'s> {
    at: Moment,
    spent: u64,
    row: &'s Voucher,
}

impl<'s> UsageUpdate for VoucherComes<'s> {
    ghost shift = { λ s. block_shift s.at s.spent (Some s.row.now) None };

    ghost ready = { λ s. Unit {0} };

    fn shifted(&self, quota: &Quota, usage: Usage) -> Usage {
        Usage {
            blocked: count_moved(
                usage.blocked,
                blocked_share(self.at, quota, self.spent, Some(self.row)),
                blocked_share(self.at, quota, self.spent, None),
            ),
            ..usage
        }
    }
}

// Adds what one order position counts.
fn add_position<'s>(store: &'s Store, usages: &mut Vec<Usage>, row: &'s OrderPos)
    requires { length usages.old.items ≡ length store.now.state.lists.catalogue.quotas }
    ensures { AllShifted (position_comes store.now.state.lists row.now) store.now.state.lists
        usages.old usages.new }
{
    let shift = PositionComes { store, row };
    shift_product(store.catalogue(), usages, row.product, &shift);
}

// Adds what one cart position counts.
fn add_cart<'s>(store: &'s Store, usages: &mut Vec<Usage>, at: Moment, row: &'s CartPos)
    requires { length usages.old.items ≡ length store.now.state.lists.catalogue.quotas }
    ensures { AllShifted
        (cart_comes store.now.state.lists at row.now) store.now.state.lists usages.old usages.new }
{
    let shift = CartComes { store, at, row };
    shift_product(store.catalogue(), usages, row.product, &shift);
}

// Adds what one waiting entry counts.
fn add_entry<'s>(store: &'s Store, usages: &mut Vec<Usage>, row: &'s Waiting)
    requires { length usages.old.items ≡ length store.now.state.lists.catalogue.quotas }
    ensures { AllShifted (entry_comes row.now) store.now.state.lists usages.old usages.new }
{
    let shift = EntryComes { row };
    shift_product(store.catalogue(), usages, row.product, &shift);
}

// Adds what one voucher blocks.
fn add_voucher<'s>(
    store: &'s Store,
    usages: &mut Vec<Usage>,
    redeems: &[u64],
    at: Moment,
    row: &'s Voucher,
)
    requires same { length usages.old.items ≡ length store.now.state.lists.catalogue.quotas }
    requires redeems { AreRedeemed store.now.state.lists redeems.now }
    ensures { AllShifted (voucher_comes store.now.state.lists at row.now) store.now.state.lists
        usages.old usages.new }
{
    let spent = redeemed_in(store, redeems, row.id);
    let shift = VoucherComes { at, spent, row };
    shift_hit(store.catalogue(), usages, row, &shift);
}

// Adds what these order positions count: of paid orders, of pending ones, and where they have gone out.
fn add_positions(store: &Store, usages: &mut Vec<Usage>, rows: &[OrderPos])
    requires { length usages.old.items ≡ length store.now.state.lists.catalogue.quotas }
    ensures { AllShifted (after_each (position_comes store.now.state.lists) rows.now)
        store.now.state.lists usages.old usages.new }
{
    for row in rows {
        add_position(store, usages, row);
    }
}

// Adds what these vouchers block.
fn add_vouchers(
    store: &Store,
    usages: &mut Vec<Usage>,
    redeems: &[u64],
    at: Moment,
    rows: &[Voucher],
)
    requires same { length usages.old.items ≡ length store.now.state.lists.catalogue.quotas }
    requires redeems { AreRedeemed store.now.state.lists redeems.now }
    ensures { AllShifted (after_each (voucher_comes store.now.state.lists at) rows.now)
        store.now.state.lists usages.old usages.new }
{
    for row in rows {
        add_voucher(store, usages, redeems, at, row);
    }
}

// Adds what all cart positions count.
fn add_carts(store: &Store, usages: &mut Vec<Usage>, at: Moment)
    requires { length usages.old.items ≡ length store.now.state.lists.catalogue.quotas }
    ensures { AllShifted (after_each
        (cart_comes store.now.state.lists at) store.now.state.lists.carts) store.now.state.lists
        usages.old usages.new }
{
    for row in store.carts().rows().iter() {
        add_cart(store, usages, at, row);
    }
}

// Adds what all waiting entries count.
fn add_entries(store: &Store, usages: &mut Vec<Usage>)
    requires { length usages.old.items ≡ length store.now.state.lists.catalogue.quotas }
    ensures { AllShifted (after_each entry_comes store.now.state.lists.waiting)
        store.now.state.lists usages.old usages.new }
{
    for row in store.waiting().rows().iter() {
        add_entry(store, usages, row);
    }
}

// Pushes a value, for which there is room.
fn push_reserved<T: Drop>(kept: &mut Vec<T>, value: T)
    requires { length kept.old.items < vec_capacity kept.old }
    ensures items { kept.new.items ≡ kept.old.items ++ value ∷ [] }
    ensures capacity { vec_capacity kept.old ≤ vec_capacity kept.new }
{
    let _ = kept.push(value);
}

// Nothing is used of any of these quotas.
fn clear_usages(quotas: &[Quota], usages: &mut Vec<Usage>)
    requires { length quotas.now ≤ vec_capacity usages.old }
    ensures items { usages.new.items ≡ map (λ q. nothing) quotas.now }
{
    usages.clear();
    for quota in quotas {
        let _ = quota;
        push_reserved(usages, Usage::NONE);
    }
}

/// How often each voucher is redeemed, counted afresh.
pub fn count_redeems(store: &Store, redeems: &mut Vec<u64>, rows: &[Voucher])
    requires { length rows.now ≤ vec_capacity redeems.old }
    ensures { redeems.new.items ≡ map (λ v. redeemed v.id store.now.state.lists) rows.now }
{
    redeems.clear();
    for row in rows {
        push_reserved(redeems, store.redeemed(row.id));
    }
}

/// What is spent of the budget of each voucher, counted afresh.
pub fn count_spents(store: &Store, spents: &mut Vec<u128>, rows: &[Voucher])
    requires { length rows.now ≤ vec_capacity spents.old }
    ensures { spents.new.items ≡ map (λ v. spent v.id store.now.state.lists) rows.now }
{
    spents.clear();
    for row in rows {
        push_reserved(spents, store.spent(row.id));
    }
}

/// How many cart positions that are live at a moment name each voucher, counted afresh.
pub fn count_holds(store: &Store, holds: &mut Vec<u64>, at: Moment, rows: &[Voucher])
    requires { length rows.now ≤ vec_capacity holds.old }
    ensures { holds.new.items ≡ map (λ v. held at v.id store.now.state.lists) rows.now }
{
    holds.clear();
    for row in rows {
        push_reserved(holds, store.held(row.id, at));
    }
}

/// The usages of all quotas, counted afresh.
pub fn count_usages(store: &Store, usages: &mut Vec<Usage>, redeems: &[u64])
    requires room { length store.now.state.lists.catalogue.quotas ≤ vec_capacity usages.old }
    requires redeems { AreRedeemed store.now.state.lists redeems.now }
    requires small { AreSmall store.now.state.lists }
    ensures { AreUsages store.now.state.lists store.now.state.moment usages.new.items }
{
    store.recall_invariant();
    let at = store.moment();
    clear_usages(store.catalogue().quotas(), usages);
    add_positions(store, usages, store.positions().rows().as_slice());
    add_vouchers(store, usages, redeems, at, vouchers(store));
    add_carts(store, usages, at);
    add_entries(store, usages);
}
