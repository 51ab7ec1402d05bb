//! A book that counts.

ghost use Rattle.std.specs.Prelude.{◌≡◌, ◌≤◌, ◌+◌, ◌↔◌, ℕ, OnOk, IsTrue, [], min, count_by};
ghost use Rattle.std.specs.Option.{option_copied};
ghost use Rattle.model_rows.specs.Lists.{empty};
ghost use Rattle.model_rows.specs.Usage.{redeemed, usage_of, blocked_by, waits_for};
ghost use Rattle.model_rows.specs.Change.{changes_applied, after_all, change_applied};
ghost use Rattle.model_rows.specs.Weight.{change_weight, weight};
ghost use Rattle.book_usage.specs.Counts.{paid_in, pending_in, exited_in, blocked_in, carts_in_quota};
ghost use Rattle.book_usage.specs.Limits.{most_listed, last_use};
ghost use Rattle.book_usage.specs.Naming.{position_names, cart_names, entry_names};

use base_tables::{Rows, Sparse};
use base_values::{List, Moment, Steps, Text};
use book_usage::rules::{
    cart_counts, is_exited_in, is_paid_in, is_pending_in, left_of, spends, uses,
};
use book_usage::{Book, Catalogue, Exits, LookUps, PositionTest};
use model_catalogue::{Product, Quota};
use model_rows::passages::{is_exit_if, later};
use model_rows::{
    CartPos, Change, Changes, Checkin, CheckinList, NextIds, Order, OrderPos, Passage, Usage,
    Voucher, Waiting,
};
use std::alloc::{AllocError, Global};
use std::marker::Model;
use std::sync::ledger::Ledger;

/// A book that counts afresh at each call.
#[derive(Drop)]
pub struct Recount {
    catalogue: Catalogue,
    vouchers: Rows<Voucher>,
    carts: Sparse<CartPos>,
    orders: Rows<Order>,
    positions: Rows<OrderPos>,
    waiting: Sparse<Waiting>,
    checkin_lists: Rows<CheckinList>,
    checkins: Rows<Checkin>,
    next: NextIds,
    moment: Moment,
}

impl Model for Recount {
    ghost use Rattle.std.specs.Prelude.{min};
    ghost use Rattle.book_usage.specs.BookView.{BookView};

    ghost Value = { BookView };

    ghost view = { λ b. record {
      state = record {
        lists = record {
          catalogue = b.catalogue.lists;
          vouchers = b.vouchers.rows;
          carts = b.carts.rows;
          orders = b.orders.rows;
          positions = b.positions.rows;
          waiting = b.waiting.rows;
          checkin_lists = b.checkin_lists.rows;
          checkins = b.checkins.rows;
        };
        next = b.next;
        moment = b.moment;
      };
      room = min b.catalogue.room (min (min b.vouchers.room b.carts.room)
          (min (min b.orders.room b.positions.room)
          (min b.waiting.room (min b.checkin_lists.room b.checkins.room))));
    } };
}

impl Recount {
    /// An empty box office: no rows, every next id 1, moment 0.
    pub fn new(alloc: Global) -> Self
        ensures { result.state ≡ empty }
    {
        Recount {
            catalogue: Catalogue::new(alloc),
            vouchers: Rows::new(alloc),
            carts: Sparse::new(alloc),
            orders: Rows::new(alloc),
            positions: Rows::new(alloc),
            waiting: Sparse::new(alloc),
            checkin_lists: Rows::new(alloc),
            checkins: Rows::new(alloc),
            next: NextIds::first(),
            moment: Moment::new(0),
        }
    }

    fn apply_one(&mut self, change: Change)
        requires { change_weight change ≤ self.old.room }
        ensures lists { self.new.state ≡ change_applied change self.old.state }
        ensures room { self.old.room ≤ self.new.room + change_weight change }
    {
        match change {
            Change::PutItem(row) => self.catalogue.put_item(row),
            Change::PutVariation(row) => self.catalogue.put_variation(row),
            Change::PutQuota(row) => self.catalogue.put_quota(row),
            Change::PutVoucher(row) => self.vouchers.put(row),
            Change::PutCart(row) => self.carts.put(row),
            Change::PutOrder(row) => self.orders.put(row),
            Change::PutPosition(row) => self.positions.put(row),
            Change::PutWaiting(row) => self.waiting.put(row),
            Change::DropVoucher(id) => self.vouchers.delete(id),
            Change::DropCart(id) => self.carts.delete(id),
            Change::DropWaiting(id) => self.waiting.delete(id),
            Change::PutCheckinList(row) => self.checkin_lists.put(row),
            Change::PutCheckin(row) => self.checkins.put(row),
        }
    }
}

impl Recount {
    fn redeemed_by(&self, voucher: u64) -> u64
        ensures value { result ≡ redeemed voucher self.now.state.lists }
        ensures few { result ≤ most_listed }
    {
        let positions = self.positions.as_slice();
        positions.iter().filter(|p| uses(self, voucher, p)).count() as u64
    }

    fn blocked_in(&self, at: Moment, quota: &Quota) -> u64
        ensures { result ≡ blocked_in self.now.state.lists at quota.now }
    {
        let mut blocked = 0;
        for voucher in self.vouchers.as_slice() {
            blocked += self.blocked_by(at, quota, voucher);
        }
        blocked
    }

    #[tactic(auto, unfolding(model_rows::specs::Usage::blocked_by))]
    fn blocked_by(&self, at: Moment, quota: &Quota, voucher: &Voucher) -> u64
        ensures value { result ≡ blocked_by self.now.state.lists at quota.now voucher.now }
        ensures small { result ≤ last_use }
    {
        if voucher.blocks(at, quota) {
            left_of(voucher, self.redeemed_by(voucher.id))
        } else {
            0
        }
    }

    fn count_carts(&self, at: Moment, quota: &Quota) -> u64
        ensures { result ≡ carts_in_quota self.now.state.lists at quota.now }
    {
        self.carts
            .iter()
            .filter(|c| cart_counts(self, at, quota, c))
            .count() as u64
    }

    fn paid_in(&self, quota: &Quota) -> u64
        ensures { result ≡ paid_in self.now.state.lists quota.now }
    {
        let positions = self.positions.as_slice();
        positions
            .iter()
            .filter(|p| is_paid_in(self, quota, p))
            .count() as u64
    }

    fn pending_in(&self, quota: &Quota) -> u64
        ensures { result ≡ pending_in self.now.state.lists quota.now }
    {
        let positions = self.positions.as_slice();
        positions
            .iter()
            .filter(|p| is_pending_in(self, quota, p))
            .count() as u64
    }

    fn exited_in(&self, quota: &Quota) -> u64
        ensures { result ≡ exited_in self.now.state.lists quota.now }
    {
        let positions = self.positions.as_slice();
        positions
            .iter()
            .filter(|p| is_exited_in(self, quota, p))
            .count() as u64
    }

    // How many order positions name the voucher.
    fn naming_positions(&self, voucher: u64) -> u64
        ensures value { result ≡ count_by (position_names voucher) self.now.state.lists.positions }
        ensures few { result ≤ most_listed }
    {
        let positions = self.positions.as_slice();
        positions
            .iter()
            .filter(|p| p.voucher == Some(voucher))
            .count() as u64
    }

    // How many cart positions name it, dead ones too.
    fn naming_carts(&self, voucher: u64) -> u64
        ensures value { result ≡ count_by (cart_names voucher) self.now.state.lists.carts }
        ensures few { result ≤ most_listed }
    {
        self.carts
            .iter()
            .filter(|c| c.voucher == Some(voucher))
            .count() as u64
    }

    // How many waiting entries name it.
    fn naming_entries(&self, voucher: u64) -> u64
        ensures value { result ≡ count_by (entry_names voucher) self.now.state.lists.waiting }
        ensures few { result ≤ most_listed }
    {
        self.waiting
            .iter()
            .filter(|e| e.voucher == Some(voucher))
            .count() as u64
    }

    fn waiting_in(&self, quota: &Quota) -> u64
        ensures { result ≡ count_by (waits_for quota.now) self.now.state.lists.waiting }
    {
        self.waiting.iter().filter(|e| e.waits_for(quota)).count() as u64
    }
}

impl LookUps for Recount {
    ghost rows = { λ b. b.state.lists };

    fn voucher(&self, id: u64) -> Option<&Voucher> {
        self.vouchers.get(id)
    }

    fn cart(&self, id: u64) -> Option<&CartPos> {
        self.carts.get(id)
    }

    fn order(&self, id: u64) -> Option<&Order> {
        self.orders.get(id)
    }

    fn position(&self, id: u64) -> Option<&OrderPos> {
        self.positions.get(id)
    }

    fn entry(&self, id: u64) -> Option<&Waiting> {
        self.waiting.get(id)
    }
}

impl Exits for Recount {
    #[tactic(auto, unfolding(model_rows::specs::Passages::is_out))]
    fn is_out(&self, position: u64) -> bool {
        is_exit_if(self.last_at(position))
    }
}

impl Book for Recount {
    ghost state = { λ b. b.state };

    ghost room = { λ b. b.room };

    fn recall_invariant(&self) {
        self.vouchers.recall_invariant();
        self.carts.recall_invariant();
        self.orders.recall_invariant();
        self.positions.recall_invariant();
        self.waiting.recall_invariant();
        self.checkin_lists.recall_invariant();
        self.checkins.recall_invariant();
    }

    fn catalogue(&self) -> &Catalogue {
        &self.catalogue
    }

    fn moment(&self) -> Moment {
        self.moment
    }

    fn next_ids(&self) -> NextIds {
        self.next
    }

    fn voucher(&self, id: u64) -> Option<&Voucher> {
        LookUps::voucher(self, id)
    }

    fn voucher_of(&self, code: &str) -> Option<&Voucher> {
        self.vouchers().iter().find(|v| v.code.same(code))
    }

    fn position_with(&self, secret: &str) -> Option<&OrderPos> {
        self.positions().iter().find(|p| p.secret.same(secret))
    }

    fn naming(&self, voucher: u64) -> u64 {
        self.naming_positions(voucher) + self.naming_carts(voucher) + self.naming_entries(voucher)
    }

    fn cart(&self, id: u64) -> Option<&CartPos> {
        LookUps::cart(self, id)
    }

    fn order(&self, id: u64) -> Option<&Order> {
        LookUps::order(self, id)
    }

    fn position(&self, id: u64) -> Option<&OrderPos> {
        LookUps::position(self, id)
    }

    fn entry(&self, id: u64) -> Option<&Waiting> {
        LookUps::entry(self, id)
    }

    fn checkin_list(&self, id: u64) -> Option<&CheckinList> {
        self.checkin_lists.get(id)
    }

    fn checkin(&self, id: u64) -> Option<&Checkin> {
        self.checkins.get(id)
    }

    fn count_ordered<T: PositionTest>(&self, order: u64, test: &T) -> u64 {
        let positions = self.positions.as_slice();
        positions
            .iter()
            .filter(|p| p.order == order && test.passes(p))
            .count() as u64
    }

    fn positions_of(&self, alloc: Global, order: u64) -> Result<List<OrderPos>, AllocError> {
        let mut rows = Vec::new(alloc);
        for row in self.positions.as_slice() {
            if row.order == order {
                rows.push(row.copy(alloc)?)?;
            }
        }
        Ok(List::new(rows))
    }

    fn carts_in(&self, alloc: Global, carts: &[Text]) -> Result<Vec<u64>, AllocError> {
        self.carts
            .iter()
            .filter(|row| row.is_in_one_of(carts))
            .map(|row| row.id)
            .collect(alloc)
    }

    fn carts_naming(&self, alloc: Global, voucher: u64) -> Result<Vec<u64>, AllocError> {
        self.carts
            .iter()
            .filter(|row| row.voucher == Some(voucher))
            .map(|row| row.id)
            .collect(alloc)
    }

    fn checkins_of(
        &self,
        alloc: Global,
        list: u64,
        position: u64,
    ) -> Result<List<Checkin>, AllocError> {
        let mut rows = Vec::new(alloc);
        for row in self.checkins.as_slice() {
            if row.list == list && row.position == position {
                rows.push(row.copy(alloc)?)?;
            }
        }
        Ok(List::new(rows))
    }

    fn last_at(&self, position: u64) -> Option<Passage> {
        let mut last = None;
        for row in self.checkins.as_slice() {
            if row.position == position {
                last = Some(later(last, Passage::of(row)));
            }
        }
        last
    }

    fn waiters(&self, alloc: Global) -> Result<Vec<u64>, AllocError> {
        let mut ids = Vec::new(alloc);
        for row in self.waiting.iter() {
            if row.voucher.is_none() {
                ids.push(row.id)?;
            }
        }
        Ok(ids)
    }

    fn is_waiting(&self, email: &str, product: Product) -> bool {
        self.waiting.iter().any(|row| row.waits_as(email, product))
    }

    fn due_orders(&self, alloc: Global, at: Moment) -> Result<Vec<u64>, AllocError> {
        self.orders
            .as_slice()
            .iter()
            .filter(|row| row.is_due(at))
            .map(|row| row.id)
            .collect(alloc)
    }

    fn dead_carts(&self, alloc: Global, at: Moment) -> Result<Vec<u64>, AllocError> {
        self.carts
            .iter()
            .filter(|row| !row.is_live(at))
            .map(|row| row.id)
            .collect(alloc)
    }

    fn vouchers(&self) -> &[Voucher] {
        self.vouchers.as_slice()
    }

    fn carts(&self) -> &Sparse<CartPos> {
        &self.carts
    }

    fn orders(&self) -> &[Order] {
        self.orders.as_slice()
    }

    fn positions(&self) -> &[OrderPos] {
        self.positions.as_slice()
    }

    fn waiting(&self) -> &Sparse<Waiting> {
        &self.waiting
    }

    fn checkin_lists(&self) -> &[CheckinList] {
        self.checkin_lists.as_slice()
    }

    fn checkins(&self) -> &[Checkin] {
        self.checkins.as_slice()
    }

    #[tactic(auto, unfolding(model_rows::specs::Usage::usage_of))]
    fn usage_at<L: Ledger>(&self, quota: &Quota, at: Moment, _steps: &mut Steps<L>) -> Usage {
        Usage {
            paid: self.paid_in(quota),
            pending: self.pending_in(quota),
            blocked: self.blocked_in(at, quota),
            carts: self.count_carts(at, quota),
            waiting: self.waiting_in(quota),
            exited: self.exited_in(quota),
        }
    }

    fn redeemed(&self, voucher: u64) -> u64 {
        self.redeemed_by(voucher)
    }

    fn spent(&self, voucher: u64) -> u128 {
        let mut cents = 0;
        for position in self.positions.as_slice() {
            cents += u128::from(spends(self, voucher, position));
        }
        cents
    }

    fn held(&self, voucher: u64, at: Moment) -> u64 {
        self.carts.iter().filter(|c| c.holds(at, voucher)).count() as u64
    }

    fn held_in(&self, voucher: u64, quota: &Quota, at: Moment) -> u64 {
        self.carts
            .iter()
            .filter(|c| c.holds(at, voucher) && quota.has(c.product))
            .count() as u64
    }

    fn reserve(&mut self, changes: &Changes) -> Result<(), AllocError> {
        let Some(count) = changes.weight() else {
            return Err(AllocError);
        };
        self.catalogue.reserve(count)?;
        self.vouchers.reserve(count)?;
        self.carts.reserve(count)?;
        self.orders.reserve(count)?;
        self.positions.reserve(count)?;
        self.waiting.reserve(count)?;
        self.checkin_lists.reserve(count)?;
        self.checkins.reserve(count)
    }

    fn has_room(&self, changes: &Changes) -> bool {
        let room = self.room_left();
        changes.weight().is_some_and(|count| count <= room)
    }

    fn apply(&mut self, changes: Changes, at: Moment) {
        let (list, next) = changes.into_parts();
        self.apply_list(list);
        self.next = next;
        self.moment = at;
    }
}

impl Recount {
    // Changes of so much weight can be applied without taking memory.
    fn room_left(&self) -> usize
        ensures { result ≡ self.now.room }
    {
        let sold = self.vouchers.room().min(self.carts.room());
        let ordered = self.orders.room().min(self.positions.room());
        let door = self.checkin_lists.room().min(self.checkins.room());
        let others = ordered.min(self.waiting.room().min(door));
        self.catalogue.room().min(sold.min(others))
    }

    fn apply_list(&mut self, mut list: Vec<Change>)
        requires { weight list.items ≤ self.old.room }
        ensures { self.new.state
            ≡ record self.old.state { lists = after_all list.items self.old.state.lists } }
    {
        list.reverse();
        while let Some(change) = list.pop() {
            self.apply_one(change);
        }
    }
}
