//! What names a voucher.

ghost use Rattle.std.specs.Prelude.{◌≡◌, ◌≤◌, ◌+◌, length, IfOk};
ghost use Rattle.base_values.specs.Money.{last_cents};
ghost use Rattle.model_rows.specs.Conditions.{is_live_cart};
ghost use Rattle.model_rows.specs.Lists.{cart_at, position_at};
ghost use Rattle.model_rows.specs.Usage.{redeemed, spent, spends};
ghost use Rattle.model_rows.specs.Headroom.{held};
ghost use Rattle.model_rows.specs.Asked.{held_in};
ghost use Rattle.book_usage.specs.Limits.{most_listed, most_naming, most_spent};
ghost use Rattle.book_usage.specs.Naming.{naming, position_names, cart_names, entry_names, cart_ids_naming};
ghost use Rattle.book_store.specs.Found.{FindsPositions, FindsCarts, FindsEntries};
ghost use Rattle.book_store.specs.OneRow.{use_at, is_live_in};
ghost use Rattle.book_store.specs.Walks.{one_if, amount_of};

use crate::counts::count_one;
use crate::store::Store;
use base_index::Found;
use base_values::Moment;
use book_usage::LookUps;
use book_usage::rules::{is_in_force, spends};
use model_catalogue::Quota;
use std::alloc::{AllocError, Global};

impl Store {
    /// The ids of the order positions that name a voucher.
    pub fn positions_naming(&self, voucher: u64) -> Found<'_>
        ensures finds { FindsPositions (position_names voucher) self.now.state.lists result }
        ensures few { length result ≤ most_listed }
    {
        self.positions().naming(voucher)
    }

    /// The ids of the cart positions that name a voucher, dead ones too.
    pub fn carts_naming(&self, voucher: u64) -> Found<'_>
        ensures finds { FindsCarts (cart_names voucher) self.now.state.lists result }
        ensures all { result ≡ cart_ids_naming voucher self.now.state.lists }
        ensures few { length result ≤ most_listed }
    {
        self.carts().naming(voucher)
    }

    /// The ids of the waiting entries to which a voucher was sent.
    pub fn entries_naming(&self, voucher: u64) -> Found<'_>
        ensures finds { FindsEntries (entry_names voucher) self.now.state.lists result }
        ensures few { length result ≤ most_listed }
    {
        self.waiting().naming(voucher)
    }

    /// The ids of the cart positions that name the voucher, dead ones too, in order.
    pub fn ids_naming(&self, alloc: Global, voucher: u64) -> Result<Vec<u64>, AllocError>
        ensures { IfOk result (λ ids. ids.items ≡ cart_ids_naming voucher self.now.state.lists) }
    {
        self.carts_naming(voucher).to_vec(alloc)
    }

    /// How many order positions, cart positions and waiting entries name the voucher. Nothing is walked for it.
    pub fn naming(&self, voucher: u64) -> u64
        ensures value { result ≡ naming voucher self.now.state.lists }
        ensures few { result ≤ most_naming }
    {
        let positions = self.positions_naming(voucher).len() as u64;
        let carts = self.carts_naming(voucher).len() as u64;
        let entries = self.entries_naming(voucher).len() as u64;
        positions + carts + entries
    }

    // Whether the order position of an id is of an order whose positions use vouchers.
    #[tactic(auto, unfolding(crate::specs::Walks::one_if))]
    fn use_of(&self, id: u64) -> u64
        ensures value { result ≡ use_at id self.now.state.lists }
        ensures small { result ≤ 1 }
    {
        match self.position(id) {
            None => 0,
            Some(row) => count_one(is_in_force(self.order(row.order))),
        }
    }

    /// How many positions of pending and paid orders name the voucher: a walk over the positions that name it.
    pub fn redeemed(&self, voucher: u64) -> u64
        ensures value { result ≡ redeemed voucher self.now.state.lists }
        ensures few { result ≤ most_listed }
    {
        let mut count = 0;
        let named = self.positions_naming(voucher);
        for place in 0..named.len() {
            count += self.use_of(named.at(place));
        }
        count
    }

    // What the order position of an id takes of a voucher's budget, in cents.
    #[tactic(auto, unfolding(crate::specs::Walks::amount_of))]
    fn spend_of(&self, voucher: u64, id: u64) -> u64
        ensures value { result ≡ amount_of (spends voucher self.now.state.lists)
            (position_at id self.now.state.lists) }
        ensures small { result ≤ last_cents }
    {
        match self.position(id) {
            None => 0,
            Some(row) => spends(self, voucher, row),
        }
    }

    /// What is spent of the voucher's budget, in cents: a walk over the order positions that name it.
    pub fn spent(&self, voucher: u64) -> u128
        ensures value { result ≡ spent voucher self.now.state.lists }
        ensures few { result ≤ most_spent }
    {
        let mut total = 0;
        let named = self.positions_naming(voucher);
        for place in 0..named.len() {
            total += u128::from(self.spend_of(voucher, named.at(place)));
        }
        total
    }

    // Whether the cart position of an id is live.
    #[tactic(auto, unfolding(crate::specs::Walks::one_if))]
    fn hold_of(&self, at: Moment, id: u64) -> u64
        ensures value { result ≡ one_if (is_live_cart at) (cart_at id self.now.state.lists) }
        ensures small { result ≤ 1 }
    {
        match self.cart(id) {
            None => 0,
            Some(row) => count_one(row.is_live(at)),
        }
    }

    /// How many cart positions that are live at a moment name the voucher: a walk over those that name it.
    pub fn held(&self, voucher: u64, at: Moment) -> u64
        ensures value { result ≡ held at voucher self.now.state.lists }
        ensures few { result ≤ most_listed }
    {
        let mut count = 0;
        let named = self.carts_naming(voucher);
        for place in 0..named.len() {
            count += self.hold_of(at, named.at(place));
        }
        count
    }

    /// 1 where the cart position of an id is live, and for a product of the quota.
    #[tactic(auto, unfolding(crate::specs::Walks::one_if))]
    pub fn hold_in_of(&self, at: Moment, quota: &Quota, id: u64) -> u64
        ensures value { result
            ≡ one_if (is_live_in at quota.now) (cart_at id self.now.state.lists) }
        ensures small { result ≤ 1 }
    {
        match self.cart(id) {
            None => 0,
            Some(row) => count_one(row.is_live(at) && quota.has(row.product)),
        }
    }

    /// How many cart positions that are live at a moment name the voucher and are for a product of the quota:
    /// a walk over those that name it.
    pub fn held_in(&self, voucher: u64, quota: &Quota, at: Moment) -> u64
        ensures value { result ≡ held_in at quota.now voucher self.now.state.lists }
        ensures few { result ≤ most_listed }
    {
        let mut count = 0;
        let named = self.carts_naming(voucher);
        for place in 0..named.len() {
            count += self.hold_in_of(at, quota, named.at(place));
        }
        count
    }
}
