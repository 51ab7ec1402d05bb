//! A book that keeps counters.

ghost use Rattle.std.specs.Prelude.{◌≡◌, ◌≤◌, ◌+◌, [], Some, OnOk, IsTrue, ◌↔◌, true};
ghost use Rattle.std.specs.List.{list_all};
ghost use Rattle.model_catalogue.specs.CatalogueLists.{quota_at};
ghost use Rattle.model_rows.specs.Lists.{empty};
ghost use Rattle.model_rows.specs.Headroom.{held};
ghost use Rattle.model_rows.specs.Usage.{redeemed, spent, usage_of};
ghost use Rattle.model_rows.specs.Change.{changes_applied};
ghost use Rattle.model_rows.specs.Weight.{weight};
ghost use Rattle.book_usage.specs.Dues.{with_due_steps, counts_of_changes};
ghost use Rattle.book_usage.specs.Limits.{most_listed, most_spent};
ghost use Rattle.book_counts_applied.specs.Spared.{spares_used};

use base_tables::place_of;
use base_values::{Moment, Steps};
use book_counts_applied::again::count_again;
use book_counts_applied::counted::Counted;
use book_counts_applied::settle::settle;
use book_counts_applied::spared::spare_used;
use book_counts_over_time::holds::held_by;
use book_counts_over_time::redemptions::redeemed_in;
use book_counts_over_time::spends::spent_in;
use book_counts_over_time::usage_later::later;
use book_store::{Ended, Store};
use model_catalogue::Quota;
use model_rows::{Changes, CountRows, NextIds, Usage};
use std::alloc::{AllocError, Global};
use std::marker::Model;
use std::sync::ledger::Ledger;

/// A book that keeps the usage of each quota at its moment, how often each voucher is redeemed, what is spent of its budget,
/// and how many live cart positions name it.
#[derive(Drop)]
pub struct Counters {
    store: Store,
    counted: Counted,
}

impl Model for Counters {
    ghost use Rattle.std.specs.Prelude.{min};
    ghost use Rattle.book_usage.specs.BookView.{BookView};
    ghost use Rattle.book_counts_over_time.specs.Beside.{room_left};
    ghost use Rattle.book_counts_applied.specs.Settled.{AllCounted};

    ghost Value = { BookView };

    ghost view = { λ c. record {
      state = c.store.state;
      room = min c.store.room (min (room_left c.counted.usages) (min (room_left c.counted.redeems)
          (min (room_left c.counted.spents) (room_left c.counted.holds))));
    } };

    ghost invariant = { λ c. AllCounted c.store.state c.counted };
}

impl Counters {
    /// The rows.
    pub fn store(&self) -> &Store
        ensures { result.now.state ≡ self.now.state }
    {
        &self.store
    }

    /// How many positions of pending and paid orders name the voucher.
    pub fn redeemed_by(&self, voucher: u64) -> u64
        ensures value { result ≡ redeemed voucher self.now.state.lists }
        ensures few { result ≤ most_listed }
    {
        redeemed_in(&self.store, &self.counted.redeems, voucher)
    }

    /// What is spent of the voucher's budget, in cents.
    pub fn spent_by(&self, voucher: u64) -> u128
        ensures value { result ≡ spent voucher self.now.state.lists }
        ensures few { result ≤ most_spent }
    {
        spent_in(&self.store, &self.counted.spents, voucher)
    }

    /// How many cart positions that are live at a moment name the voucher.
    pub fn held_at(&self, voucher: u64, at: Moment) -> u64
        ensures value { result ≡ held at voucher self.now.state.lists }
        ensures few { result ≤ most_listed }
    {
        held_by(&self.store, &self.counted.holds, voucher, at)
    }
}

impl Counters {
    /// What uses a quota at a moment that isn't before the book's.
    pub fn usage_later<L: Ledger>(&self, quota: &Quota, at: Moment, steps: &mut Steps<L>) -> Usage
        requires moment { self.now.state.moment ≤ at }
        requires stands { quota_at quota.now.id self.now.state.lists.catalogue ≡ Some quota.now }
        ensures value { result ≡ usage_of self.now.state.lists at quota.now }
        ensures cost { steps.new ≤ with_due_steps self.now.state at (steps.old + 1) }
    {
        self.store.recall_invariant();
        let catalogue = self.store.catalogue();
        catalogue.recall_invariant();
        match place_of(catalogue.quotas(), quota.id) {
            Ok(place) => {
                let ended = Ended::of(&self.store);
                later(
                    &ended,
                    &self.counted.redeems,
                    quota,
                    self.counted.usages[place],
                    at,
                    steps,
                )
            }
            Err(_) => Usage::NONE,
        }
    }
}

impl Counters {
    // Whether there are no changes, and no time passes.
    fn is_still(&self, changes: &Changes, at: Moment) -> bool
        ensures none { result ≡ true → changes.now.list ≡ [] }
        ensures moment { result ≡ true → at ≤ self.now.state.moment }
    {
        changes.as_slice().is_empty() && !self.store.moment().is_before(at)
    }

    // Sets the ids that new rows get, where no row changes and no time passes.
    fn put_next(&mut self, next: NextIds, at: Moment)
        requires { self.old.state.moment ≡ at }
        ensures { self.new.state ≡ record self.old.state { next = next; moment = at } }
    {
        self.store.set(next, at);
    }

    // Makes exactly these changes, at a moment, and counts all again.
    fn count_all(&mut self, changes: Changes, at: Moment)
        requires { weight changes.list ≤ self.old.room }
        ensures { self.new.state ≡ changes_applied changes at self.old.state }
    {
        count_again(&mut self.store, &mut self.counted, changes, at);
    }

    /// Makes exactly these changes, at a moment, and counts all again, unless nothing changes. It costs all rows: where the counts that changes
    /// change are known, `settle_all` takes them over.
    pub fn apply_all(&mut self, changes: Changes, at: Moment)
        requires room { weight changes.list ≤ self.old.room }
        requires moment { self.old.state.moment ≤ at }
        ensures { self.new.state ≡ changes_applied changes at self.old.state }
    {
        if self.is_still(&changes, at) {
            self.put_next(changes.next(), at);
        } else {
            self.count_all(changes, at);
        }
    }

    // Whether these changes drop no voucher that is redeemed.
    fn spares_used(&self, changes: &Changes) -> bool
        ensures { result ≡ list_all (spares_used self.now.state.lists) changes.now.list }
    {
        spare_used(&self.store, &self.counted.redeems, changes.as_slice())
    }

    // Makes exactly these changes, at a moment, and puts the counts that they change. Nothing is counted.
    fn put_counts(&mut self, changes: Changes, counts: &CountRows, at: Moment)
        requires room { weight changes.list ≤ self.old.room }
        requires moment { self.old.state.moment ≤ at }
        requires counts { counts.now ≡ counts_of_changes changes at self.old.state }
        requires spared { list_all (spares_used self.old.state.lists) changes.list ≡ true }
        ensures { self.new.state ≡ changes_applied changes at self.old.state }
    {
        settle(&mut self.store, &mut self.counted, changes, counts, at);
    }

    /// Makes exactly these changes, at a moment, where the counts that they change are known. These are put, unless a voucher
    /// goes that is redeemed: then they are counted again.
    pub fn settle_all(&mut self, changes: Changes, counts: &CountRows, at: Moment)
        requires room { weight changes.list ≤ self.old.room }
        requires moment { self.old.state.moment ≤ at }
        requires counts { counts.now ≡ counts_of_changes changes at self.old.state }
        ensures { self.new.state ≡ changes_applied changes at self.old.state }
    {
        if self.spares_used(&changes) {
            self.put_counts(changes, counts, at);
        } else {
            self.apply_all(changes, at);
        }
    }

    /// An empty box office: no rows, every next id 1, moment 0.
    pub fn new(alloc: Global) -> Self
        ensures { result.state ≡ empty }
    {
        Counters {
            store: Store::new(alloc),
            counted: Counted {
                usages: Vec::new(alloc),
                redeems: Vec::new(alloc),
                spents: Vec::new(alloc),
                holds: Vec::new(alloc),
            },
        }
    }

    /// Takes the memory that these changes need.
    pub fn reserve_for(&mut self, changes: &Changes) -> Result<(), AllocError>
        ensures ok { OnOk result (weight changes.now.list ≤ self.new.room) }
        ensures same { self.new.state ≡ self.old.state }
    {
        let Some(count) = changes.weight() else {
            return Err(AllocError);
        };
        self.counted.usages.reserve(count)?;
        self.counted.redeems.reserve(count)?;
        self.counted.spents.reserve(count)?;
        self.counted.holds.reserve(count)?;
        self.store.reserve(count)
    }

    // Changes of so much weight can be made without taking memory.
    fn room_left(&self) -> usize
        ensures { result ≡ self.now.room }
    {
        let usages = self.counted.usages.capacity() - self.counted.usages.len();
        let redeems = self.counted.redeems.capacity() - self.counted.redeems.len();
        let spents = self.counted.spents.capacity() - self.counted.spents.len();
        let holds = self.counted.holds.capacity() - self.counted.holds.len();
        let beside = redeems.min(spents.min(holds));
        self.store.room().min(usages.min(beside))
    }

    /// Whether these changes can be made without taking memory.
    pub fn has_room_for(&self, changes: &Changes) -> bool
        ensures { IsTrue result ↔ (weight changes.now.list ≤ self.now.room) }
    {
        let room = self.room_left();
        changes.weight().is_some_and(|count| count <= room)
    }
}
