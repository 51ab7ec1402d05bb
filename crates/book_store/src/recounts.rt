//! Usage, counted afresh.

ghost use Rattle.std.specs.Prelude.{◌≡◌, ◌≤◌, ◌+◌, count_by, length};
ghost use Rattle.model_rows.specs.Usage.{usage_of, blocked_by, waits_for};
ghost use Rattle.book_usage.specs.Limits.{last_use};
ghost use Rattle.book_usage.specs.Counts.{paid_in, pending_in, exited_in, blocked_in, carts_in_quota};
ghost use Rattle.book_store.specs.OneRow.{recount_steps};

use crate::counts::count_one;
use crate::store::Store;
use base_values::{Moment, Steps};
use book_usage::rules::{cart_counts, is_exited_in, is_paid_in, is_pending_in, left_of};
use model_catalogue::Quota;
use model_rows::{Usage, Voucher};
use std::sync::ledger::Ledger;

impl Store {
    /// What uses a quota, counted afresh. It takes a step for each row that it looks at: each order position three
    /// times, each voucher, cart position and waiting entry once.
    #[tactic(auto, unfolding(model_rows::specs::Usage::usage_of))]
    pub fn recount<L: Ledger>(&self, at: Moment, quota: &Quota, steps: &mut Steps<L>) -> Usage
        ensures value { result ≡ usage_of self.now.state.lists at quota.now }
        ensures cost { steps.new ≡ steps.old + recount_steps self.now.state.lists }
    {
        Usage {
            paid: self.paid_in(quota, steps),
            pending: self.pending_in(quota, steps),
            blocked: self.blocked_in(at, quota, steps),
            carts: self.carts_in_quota(at, quota, steps),
            waiting: self.waiting_in(quota, steps),
            exited: self.exited_in(quota, steps),
        }
    }

    // The positions of paid orders.
    fn paid_in<L: Ledger>(&self, quota: &Quota, steps: &mut Steps<L>) -> u64
        ensures value { result ≡ paid_in self.now.state.lists quota.now }
        ensures cost { steps.new ≡ steps.old + length self.now.state.lists.positions }
    {
        let mut count = 0;
        for row in self.positions().rows().as_slice() {
            steps.tick();
            count += count_one(is_paid_in(self, quota, row));
        }
        count
    }

    // The positions of pending orders.
    fn pending_in<L: Ledger>(&self, quota: &Quota, steps: &mut Steps<L>) -> u64
        ensures value { result ≡ pending_in self.now.state.lists quota.now }
        ensures cost { steps.new ≡ steps.old + length self.now.state.lists.positions }
    {
        let mut count = 0;
        for row in self.positions().rows().as_slice() {
            steps.tick();
            count += count_one(is_pending_in(self, quota, row));
        }
        count
    }

    // The positions of paid orders that are released.
    fn exited_in<L: Ledger>(&self, quota: &Quota, steps: &mut Steps<L>) -> u64
        ensures value { result ≡ exited_in self.now.state.lists quota.now }
        ensures cost { steps.new ≡ steps.old + length self.now.state.lists.positions }
    {
        let mut count = 0;
        for row in self.positions().rows().as_slice() {
            steps.tick();
            count += count_one(is_exited_in(self, quota, row));
        }
        count
    }

    // The places that vouchers block.
    fn blocked_in<L: Ledger>(&self, at: Moment, quota: &Quota, steps: &mut Steps<L>) -> u64
        ensures value { result ≡ blocked_in self.now.state.lists at quota.now }
        ensures cost { steps.new ≡ steps.old + length self.now.state.lists.vouchers }
    {
        let mut blocked = 0;
        for row in self.vouchers().rows().as_slice() {
            steps.tick();
            blocked += self.blocked_by(at, quota, row);
        }
        blocked
    }

    // The places that a voucher blocks.
    #[tactic(auto, unfolding(model_rows::specs::Usage::blocked_by))]
    fn blocked_by(&self, at: Moment, quota: &Quota, voucher: &Voucher) -> u64
        ensures value { result ≡ blocked_by self.now.state.lists at quota.now voucher.now }
        ensures small { result ≤ last_use }
    {
        if voucher.blocks(at, quota) {
            left_of(voucher, self.redeemed(voucher.id))
        } else {
            0
        }
    }

    // The cart positions.
    fn carts_in_quota<L: Ledger>(&self, at: Moment, quota: &Quota, steps: &mut Steps<L>) -> u64
        ensures value { result ≡ carts_in_quota self.now.state.lists at quota.now }
        ensures cost { steps.new ≡ steps.old + length self.now.state.lists.carts }
    {
        let mut count = 0;
        for row in self.carts().rows().iter() {
            steps.tick();
            count += count_one(cart_counts(self, at, quota, row));
        }
        count
    }

    // The entries that wait.
    fn waiting_in<L: Ledger>(&self, quota: &Quota, steps: &mut Steps<L>) -> u64
        ensures value { result ≡ count_by (waits_for quota.now) self.now.state.lists.waiting }
        ensures cost { steps.new ≡ steps.old + length self.now.state.lists.waiting }
    {
        let mut count = 0;
        for row in self.waiting().rows().iter() {
            steps.tick();
            count += count_one(row.waits_for(quota));
        }
        count
    }
}
