//! The counts that a book keeps, after changes of which it is known which counts they change: the rows are put, and then these
//! counts. Nothing is counted.

ghost use Rattle.std.specs.Prelude.{◌≡◌, ◌≤◌, ◌+◌, ℕ, true, length, map};
ghost use Rattle.model_rows.specs.declared.rows.Usage.{Usage};
ghost use Rattle.std.specs.List.{list_all};
ghost use Rattle.base_tables.specs.Tables.{AreInOrder};
ghost use Rattle.base_values.specs.Money.{last_cents};
ghost use Rattle.model_rows.specs.Change.{after_change, after_all, changes_applied, change_applied};
ghost use Rattle.model_rows.specs.Weight.{change_weight, weight};
ghost use Rattle.book_usage.specs.Dues.{counts_of_changes};
ghost use Rattle.book_usage.specs.Limits.{last_use};
ghost use Rattle.book_counts_over_time.specs.Beside.{AreBeside, room_left};
ghost use Rattle.book_counts_over_time.specs.Held.{AreHeldNow};
ghost use Rattle.book_counts_over_time.specs.Spends.{AreSpent};
ghost use Rattle.book_counts_over_time.specs.Usages.{AreUsages, AreRedeemed};
ghost use Rattle.book_counts_applied.specs.Spared.{spares_used};
ghost use Rattle.book_counts_applied.specs.Settled.{put_each, redeemed_at, spent_at, used_at, AllCounted, AllFit, ArePutsNew, AreSmall, IsCarried, IsOfRows, KeepsQuotas, KeepsVouchers};

use crate::beside::{keep_place, set_one};
use crate::counted::Counted;
use base_values::Moment;
use book_counts_over_time::holds::{held_by, hold_at, hold_drop, hold_put};
use book_counts_over_time::redemptions::vouchers;
use book_counts_over_time::shift::{forget, keep};
use book_store::Store;
use book_usage::rules::left_of;
use model_catalogue::Quota;
use model_rows::{Change, Changes, CountRows, OrderPos, QuotaCount, Usage, Voucher, VoucherCount};

// Puts each of these counts beside its quota.
fn set_usages(quotas: &[Quota], usages: &mut Vec<Usage>, counts: &[QuotaCount])
    requires order { AreInOrder (λ q. q.id) quotas.now }
    requires same { length usages.old.items ≡ length quotas.now }
    ensures kept { (f : ℕ → Usage) → usages.old.items ≡ map (λ q. f q.id) quotas.now
        → usages.new.items
        ≡ map (λ q. put_each (λ c. c.quota) (λ c. c.usage) counts.now f q.id) quotas.now }
{
    for i in 0..counts.len() {
        set_one(quotas, usages, counts[i].quota, counts[i].usage);
    }
}

// Puts how often each of these vouchers is redeemed beside it.
fn set_redeems(rows: &[Voucher], redeems: &mut Vec<u64>, counts: &[VoucherCount])
    requires order { AreInOrder (λ v. v.id) rows.now }
    requires same { length redeems.old.items ≡ length rows.now }
    ensures kept { (f : ℕ → ℕ) → redeems.old.items ≡ map (λ v. f v.id) rows.now
        → redeems.new.items
        ≡ map (λ v. put_each (λ c. c.voucher) (λ c. c.redeemed) counts.now f v.id) rows.now }
{
    for i in 0..counts.len() {
        set_one(rows, redeems, counts[i].voucher, counts[i].redeemed);
    }
}

// Puts what is spent of each of these vouchers beside it.
fn set_spents(rows: &[Voucher], spents: &mut Vec<u128>, counts: &[VoucherCount])
    requires order { AreInOrder (λ v. v.id) rows.now }
    requires same { length spents.old.items ≡ length rows.now }
    ensures kept { (f : ℕ → ℕ) → spents.old.items ≡ map (λ v. f v.id) rows.now
        → spents.new.items
        ≡ map (λ v. put_each (λ c. c.voucher) (λ c. c.spent) counts.now f v.id) rows.now }
{
    for i in 0..counts.len() {
        set_one(rows, spents, counts[i].voucher, u128::from(counts[i].spent));
    }
}

// Keeps what is kept beside quotas where a change comes.
fn keep_usages(store: &Store, usages: &mut Vec<Usage>, change: &Change)
    requires same { length usages.old.items ≡ length store.now.state.lists.catalogue.quotas }
    requires room { change_weight change.now ≤ room_left usages.old }
    ensures kept { KeepsQuotas change.now store.now.state.lists usages.old usages.new }
    ensures room { room_left usages.old ≤ room_left usages.new + change_weight change.now }
{
    let catalogue = store.catalogue();
    catalogue.recall_invariant();
    match change {
        Change::PutQuota(row) => keep_place(catalogue.quotas(), usages, row.id, Usage::NONE),
        _ => {}
    }
}

// Keeps what is kept beside vouchers where a change comes, and another value for a new one.
fn keep_beside<U: Copy + Drop>(store: &Store, kept: &mut Vec<U>, change: &Change, other: U)
    requires same { length kept.old.items ≡ length store.now.state.lists.vouchers }
    requires room { change_weight change.now ≤ room_left kept.old }
    ensures kept { KeepsVouchers other change.now store.now.state.lists kept.old kept.new }
    ensures room { room_left kept.old ≤ room_left kept.new + change_weight change.now }
{
    store.recall_invariant();
    match change {
        Change::PutVoucher(row) => keep_place(vouchers(store), kept, row.id, other),
        Change::DropVoucher(id) => forget(vouchers(store), kept, *id),
        _ => {}
    }
}

// Keeps how many live cart positions name each voucher where a change comes.
fn keep_holds(store: &Store, holds: &mut Vec<u64>, change: &Change)
    requires held { AreHeldNow store.now.state holds.old.items }
    requires room { change_weight change.now ≤ room_left holds.old }
    ensures held { AreHeldNow (change_applied change.now store.now.state) holds.new.items }
    ensures room { room_left holds.old ≤ room_left holds.new + change_weight change.now }
{
    match change {
        Change::PutVoucher(row) => keep_hold(store, holds, row),
        Change::DropVoucher(id) => drop_hold(store, holds, *id),
        Change::PutCart(row) => hold_put(store, holds, row),
        Change::DropCart(id) => hold_drop(store, holds, *id),
        _ => {}
    }
}

fn keep_hold(store: &Store, holds: &mut Vec<u64>, row: &Voucher)
    requires held { AreHeldNow store.now.state holds.old.items }
    requires room { 1 ≤ room_left holds.old }
    ensures held { AreHeldNow (change_applied (Change.PutVoucher row.now) store.now.state)
        holds.new.items }
    ensures room { room_left holds.old ≤ room_left holds.new + 1 }
{
    store.recall_invariant();
    let held = held_by(store, holds, row.id, store.moment());
    keep(vouchers(store), holds, row.id, held);
}

fn drop_hold(store: &Store, holds: &mut Vec<u64>, id: u64)
    requires held { AreHeldNow store.now.state holds.old.items }
    ensures held { AreHeldNow
        (change_applied (Change.DropVoucher id) store.now.state) holds.new.items }
    ensures room { room_left holds.old ≤ room_left holds.new }
{
    store.recall_invariant();
    forget(vouchers(store), holds, id);
}

// A voucher may be used at most 2^32 - 1 times.
fn few_uses(row: &Voucher)
    ensures { row.now.max_usages ≤ last_use }
{
    let _ = left_of(row, 0);
}

// A discount is at most 99,999,999.99.
fn few_cents(row: &OrderPos)
    ensures { row.now.discount ≤ last_cents }
{
    let _ = row.discount.get();
}

// Uses and discounts stay such where a change comes.
pub(crate) fn stay_small(store: &Store, change: &Change)
    requires { AreSmall store.now.state.lists }
    ensures { AreSmall (after_change change.now store.now.state.lists) }
{
    let _ = store;
    match change {
        Change::PutVoucher(row) => few_uses(row),
        Change::DropVoucher(_) => {}
        Change::PutPosition(row) => few_cents(row),
        _ => {}
    }
}

// Makes one change of the rows, and keeps what is kept beside them.
fn carry(store: &mut Store, counted: &mut Counted, change: Change)
    requires same { IsOfRows store.old.state.lists counted.old }
    requires fits { AllFit (change_weight change) store.old.room counted.old }
    requires held { AreHeldNow store.old.state counted.old.holds.items }
    requires small { AreSmall store.old.state.lists }
    ensures state { store.new.state ≡ change_applied change store.old.state }
    ensures room { store.old.room ≤ store.new.room + change_weight change }
    ensures kept { IsCarried change store.old.state.lists counted.old counted.new }
    ensures held { AreHeldNow (change_applied change store.old.state) counted.new.holds.items }
    ensures small { AreSmall (after_change change store.old.state.lists) }
{
    stay_small(store, &change);
    keep_usages(store, &mut counted.usages, &change);
    keep_beside(store, &mut counted.redeems, &change, 0);
    keep_beside(store, &mut counted.spents, &change, 0);
    keep_holds(store, &mut counted.holds, &change);
    store.apply_one(change);
}

// Makes these changes of the rows in order, and keeps what is kept beside them: the usages are those at an earlier moment.
fn carry_all(store: &mut Store, counted: &mut Counted, from: Moment, mut list: Vec<Change>)
    requires usages { AreUsages store.old.state.lists from counted.old.usages.items }
    requires redeems { AreRedeemed store.old.state.lists counted.old.redeems.items }
    requires spents { AreSpent store.old.state.lists counted.old.spents.items }
    requires held { AreHeldNow store.old.state counted.old.holds.items }
    requires small { AreSmall store.old.state.lists }
    requires new { ArePutsNew (redeemed_at store.old.state) list.items store.old.state.lists }
    requires unspent { ArePutsNew (spent_at store.old.state) list.items store.old.state.lists }
    requires fits { AllFit (weight list.items) store.old.room counted.old }
    ensures state { store.new.state
        ≡ record store.old.state { lists = after_all list.items store.old.state.lists } }
    ensures usages { AreBeside (λ q. q.id) (used_at (record store.old.state { moment = from }))
        store.new.state.lists.catalogue.quotas counted.new.usages.items }
    ensures redeems { AreBeside (λ v. v.id) (redeemed_at store.old.state)
        store.new.state.lists.vouchers counted.new.redeems.items }
    ensures spents { AreBeside (λ v. v.id) (spent_at store.old.state)
        store.new.state.lists.vouchers counted.new.spents.items }
    ensures held { AreHeldNow store.new.state counted.new.holds.items }
    ensures small { AreSmall store.new.state.lists }
{
    let _ = from;
    store.recall_invariant();
    let catalogue = store.catalogue();
    catalogue.recall_invariant();
    list.reverse();
    while let Some(change) = list.pop() {
        carry(store, counted, change);
    }
}

/// Makes these changes at a moment, where the counts that they change are known: each quota's usage, how often each voucher is
/// redeemed, what is spent of its budget, and how many live cart positions name it, is then as if it were counted afresh. No
/// voucher that is redeemed is among those that the changes drop: a count that stays as it was isn't told, and what is kept of
/// such a one would be lost.
pub fn settle(
    store: &mut Store,
    counted: &mut Counted,
    changes: Changes,
    counts: &CountRows,
    at: Moment,
)
    requires moment { store.old.state.moment ≤ at }
    requires kept { AllCounted store.old.state counted.old }
    requires counts { counts.now ≡ counts_of_changes changes at store.old.state }
    requires spared { list_all (spares_used store.old.state.lists) changes.list ≡ true }
    requires fits { AllFit (weight changes.list) store.old.room counted.old }
    ensures state { store.new.state ≡ changes_applied changes at store.old.state }
    ensures kept { AllCounted store.new.state counted.new }
{
    store.recall_invariant();
    let old = store.catalogue();
    old.recall_invariant();
    let (list, next) = changes.into_parts();
    let from = store.moment();
    hold_at(store, &mut counted.holds, at);
    store.set(next, at);
    carry_all(store, counted, from, list);
    store.recall_invariant();
    let catalogue = store.catalogue();
    catalogue.recall_invariant();
    set_usages(catalogue.quotas(), &mut counted.usages, counts.quotas());
    set_redeems(vouchers(store), &mut counted.redeems, counts.vouchers());
    set_spents(vouchers(store), &mut counted.spents, counts.vouchers());
}
