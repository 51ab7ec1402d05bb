//! The counters as a book.

ghost use Rattle.std.specs.Prelude.{◌≡◌, ◌≤◌, ◌+◌, Some};
ghost use Rattle.model_catalogue.specs.CatalogueLists.{quota_at};
ghost use Rattle.model_rows.specs.Usage.{usage_of};
ghost use Rattle.book_usage.specs.Dues.{with_due_steps};

use crate::counters::Counters;
use base_tables::Sparse;
use base_values::{List, Moment, Steps, Text};
use book_usage::{Book, Catalogue, LookUps, PositionTest};
use model_catalogue::{Product, Quota};
use model_rows::{
    CartPos, Changes, Checkin, CheckinList, NextIds, Order, OrderPos, Passage, Usage, Voucher,
    Waiting,
};
use std::alloc::{AllocError, Global};
use std::sync::ledger::Ledger;

impl Book for Counters {
    ghost state = { λ b. b.state };

    ghost room = { λ b. b.room };

    fn recall_invariant(&self) {
        self.store().recall_invariant();
    }

    fn catalogue(&self) -> &Catalogue {
        self.store().catalogue()
    }

    fn moment(&self) -> Moment {
        self.store().moment()
    }

    fn next_ids(&self) -> NextIds {
        self.store().next_ids()
    }

    fn voucher(&self, id: u64) -> Option<&Voucher> {
        self.store().voucher(id)
    }

    fn voucher_of(&self, code: &str) -> Option<&Voucher> {
        self.store().voucher_of(code)
    }

    fn position_with(&self, secret: &str) -> Option<&OrderPos> {
        self.store().position_with(secret)
    }

    fn naming(&self, voucher: u64) -> u64 {
        self.store().naming(voucher)
    }

    fn cart(&self, id: u64) -> Option<&CartPos> {
        self.store().cart(id)
    }

    fn order(&self, id: u64) -> Option<&Order> {
        self.store().order(id)
    }

    fn position(&self, id: u64) -> Option<&OrderPos> {
        self.store().position(id)
    }

    fn entry(&self, id: u64) -> Option<&Waiting> {
        self.store().entry(id)
    }

    fn checkin_list(&self, id: u64) -> Option<&CheckinList> {
        self.store().checkin_list(id)
    }

    fn checkin(&self, id: u64) -> Option<&Checkin> {
        self.store().checkin(id)
    }

    fn count_ordered<T: PositionTest>(&self, order: u64, test: &T) -> u64 {
        self.store().count_ordered(order, test)
    }

    fn positions_of(&self, alloc: Global, order: u64) -> Result<List<OrderPos>, AllocError> {
        self.store().positions_of(alloc, order)
    }

    fn carts_in(&self, alloc: Global, carts: &[Text]) -> Result<Vec<u64>, AllocError> {
        self.store().carts_in(alloc, carts)
    }

    fn carts_naming(&self, alloc: Global, voucher: u64) -> Result<Vec<u64>, AllocError> {
        self.store().ids_naming(alloc, voucher)
    }

    fn checkins_of(
        &self,
        alloc: Global,
        list: u64,
        position: u64,
    ) -> Result<List<Checkin>, AllocError> {
        self.store().checkins_of(alloc, list, position)
    }

    fn last_at(&self, position: u64) -> Option<Passage> {
        self.store().last_at(position)
    }

    fn waiters(&self, alloc: Global) -> Result<Vec<u64>, AllocError> {
        self.store().waiters(alloc)
    }

    fn is_waiting(&self, email: &str, product: Product) -> bool {
        self.store().is_waiting(email, product)
    }

    fn due_orders(&self, alloc: Global, at: Moment) -> Result<Vec<u64>, AllocError> {
        self.store().due_orders(alloc, at)
    }

    fn dead_carts(&self, alloc: Global, at: Moment) -> Result<Vec<u64>, AllocError> {
        self.store().dead_carts(alloc, at)
    }

    fn vouchers(&self) -> &[Voucher] {
        self.store().vouchers().rows().as_slice()
    }

    fn carts(&self) -> &Sparse<CartPos> {
        self.store().carts().rows()
    }

    fn orders(&self) -> &[Order] {
        self.store().orders().rows().as_slice()
    }

    fn positions(&self) -> &[OrderPos] {
        self.store().positions().rows().as_slice()
    }

    fn checkin_lists(&self) -> &[CheckinList] {
        self.store().checkin_lists().as_slice()
    }

    fn checkins(&self) -> &[Checkin] {
        self.store().checkins().rows().as_slice()
    }

    fn waiting(&self) -> &Sparse<Waiting> {
        self.store().waiting().rows()
    }

    fn usage_at<L: Ledger>(&self, quota: &Quota, at: Moment, steps: &mut Steps<L>) -> Usage
        requires moment { self.now.state.moment ≤ at }
        requires stands { quota_at quota.now.id self.now.state.lists.catalogue ≡ Some quota.now }
        ensures value { result ≡ usage_of self.now.state.lists at quota.now }
        ensures cost { steps.new ≤ with_due_steps self.now.state at (steps.old + 1) }
    {
        self.usage_later(quota, at, steps)
    }

    fn redeemed(&self, voucher: u64) -> u64 {
        self.redeemed_by(voucher)
    }

    fn spent(&self, voucher: u64) -> u128 {
        self.spent_by(voucher)
    }

    fn held(&self, voucher: u64, at: Moment) -> u64 {
        self.held_at(voucher, at)
    }

    fn held_in(&self, voucher: u64, quota: &Quota, at: Moment) -> u64 {
        self.store().held_in(voucher, quota, at)
    }

    fn reserve(&mut self, changes: &Changes) -> Result<(), AllocError> {
        self.reserve_for(changes)
    }

    fn has_room(&self, changes: &Changes) -> bool {
        self.has_room_for(changes)
    }

    fn apply(&mut self, changes: Changes, at: Moment) {
        self.apply_all(changes, at);
    }
}
