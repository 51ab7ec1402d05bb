//! What keeps the rows.

ghost use Rattle.std.specs.Prelude.{◌≡◌, ◌≤◌, ◌+◌, ◌↔◌, ℕ, Bool, IfOk, OnOk, IsTrue, Some};
ghost use Rattle.model_catalogue.specs.CatalogueLists.{quota_at};
ghost use Rattle.std.specs.Option.{option_copied};
ghost use Rattle.model_rows.specs.declared.rows.OrderPos.{OrderPos};
ghost use Rattle.model_rows.specs.Lists.{State, voucher_at, cart_at, order_at, position_at, positions_of, waiting_at, checkin_list_at, checkin_at, checkins_by};
ghost use Rattle.model_rows.specs.Passages.{last_at};
ghost use Rattle.model_rows.specs.Usage.{redeemed, spent, usage_of};
ghost use Rattle.model_rows.specs.Change.{changes_applied};
ghost use Rattle.model_rows.specs.Weight.{weight};
ghost use Rattle.model_rows.specs.Headroom.{held};
ghost use Rattle.model_rows.specs.Asked.{held_in};
ghost use Rattle.model_rows.specs.Named.{voucher_of};
ghost use Rattle.model_rows.specs.Asked.{with_secret};
ghost use Rattle.model_rows.specs.Waits.{is_waiting};
ghost use Rattle.model_rows.specs.Due.{due_orders, dead_carts};
ghost use Rattle.book_usage.specs.Dues.{with_due_steps};
ghost use Rattle.book_usage.specs.Limits.{most_listed, most_naming, most_spent};
ghost use Rattle.book_usage.specs.Naming.{naming, cart_ids_naming};
ghost use Rattle.book_usage.specs.OfOrder.{count_ordered};
ghost use Rattle.book_usage.specs.Waiters.{waiter_ids};
ghost use Rattle.model_rows.specs.Kept.{IsKept};
ghost use Rattle.model_rows.specs.Consumed.{carts_consumed};

use base_tables::Sparse;
use base_values::{List, Moment, Steps, Text};
use book_catalogue::Catalogue;
use model_catalogue::{Product, Quota};
use model_rows::{
    CartPos, Changes, Checkin, CheckinList, NextIds, Order, OrderPos, Passage, Usage, Voucher,
    Waiting,
};
use std::alloc::{AllocError, Global};
use std::sync::ledger::Ledger;

/// A test of order positions.
pub trait PositionTest {
    /// Whether this one passes.
    ghost passes: { Self → OrderPos → Bool };

    /// Whether this one passes.
    fn passes(&self, position: &OrderPos) -> bool
        ensures { result ≡ passes self.now position.now };
}

/// Keeps the rows of a box office, and answers how much of each quota is used.
pub trait Book {
    /// The rows, the next ids and the moment.
    ghost state: { Self → State };

    /// Changes of so much weight can be applied without taking memory.
    ghost room: { Self → ℕ };

    /// Ids rise in each list of sales and of the door, and none of these lists is longer than 2^32.
    fn recall_invariant(&self)
        ensures { IsKept most_listed (state self.now).lists };

    /// All that is for sale.
    fn catalogue(&self) -> &Catalogue
        ensures { result.now.lists ≡ (state self.now).lists.catalogue };

    /// The moment of the last `apply`.
    fn moment(&self) -> Moment
        ensures { result ≡ (state self.now).moment };

    /// The ids that new rows get.
    fn next_ids(&self) -> NextIds
        ensures { result ≡ (state self.now).next };

    /// The voucher of an id.
    fn voucher(&self, id: u64) -> Option<&Voucher>
        ensures { option_copied result ≡ voucher_at id (state self.now).lists };

    /// The first voucher with that code.
    fn voucher_of(&self, code: &str) -> Option<&Voucher>
        ensures { option_copied result ≡ voucher_of code.now (state self.now).lists };

    /// The first order position with that secret.
    fn position_with(&self, secret: &str) -> Option<&OrderPos>
        ensures { option_copied result ≡ with_secret secret.now (state self.now).lists };

    /// How many order positions, cart positions and waiting entries name the voucher.
    fn naming(&self, voucher: u64) -> u64
        ensures value { result ≡ naming voucher (state self.now).lists }
        ensures few { result ≤ most_naming };

    /// The cart position of an id.
    fn cart(&self, id: u64) -> Option<&CartPos>
        ensures { option_copied result ≡ cart_at id (state self.now).lists };

    /// The order of an id.
    fn order(&self, id: u64) -> Option<&Order>
        ensures { option_copied result ≡ order_at id (state self.now).lists };

    /// The order position of an id.
    fn position(&self, id: u64) -> Option<&OrderPos>
        ensures { option_copied result ≡ position_at id (state self.now).lists };

    /// The waiting entry of an id.
    fn entry(&self, id: u64) -> Option<&Waiting>
        ensures { option_copied result ≡ waiting_at id (state self.now).lists };

    /// The check-in list of an id.
    fn checkin_list(&self, id: u64) -> Option<&CheckinList>
        ensures { option_copied result ≡ checkin_list_at id (state self.now).lists };

    /// The check-in of an id.
    fn checkin(&self, id: u64) -> Option<&Checkin>
        ensures { option_copied result ≡ checkin_at id (state self.now).lists };

    /// How many positions of the order pass the test.
    fn count_ordered<T: PositionTest>(&self, order: u64, test: &T) -> u64
        ensures value { result ≡ count_ordered order (T.passes test.now) (state self.now).lists }
        ensures few { result ≤ most_listed };

    /// Copies of the positions of an order, by id.
    fn positions_of(&self, alloc: Global, order: u64) -> Result<List<OrderPos>, AllocError>
        ensures { IfOk result (λ rows. rows ≡ positions_of order (state self.now).lists) };

    /// The ids of the cart positions of these carts, dead ones too, in order.
    fn carts_in(&self, alloc: Global, carts: &[Text]) -> Result<Vec<u64>, AllocError>
        ensures { IfOk result
            (λ ids. ids.items ≡ carts_consumed carts.now (state self.now).lists) };

    /// The ids of the cart positions that name the voucher, dead ones too, in order.
    fn carts_naming(&self, alloc: Global, voucher: u64) -> Result<Vec<u64>, AllocError>
        ensures { IfOk result (λ ids. ids.items ≡ cart_ids_naming voucher (state self.now).lists) };

    /// Copies of the check-ins of a position by a list, by id.
    fn checkins_of(
        &self,
        alloc: Global,
        list: u64,
        position: u64,
    ) -> Result<List<Checkin>, AllocError>
        ensures { IfOk result (λ rows. rows ≡ checkins_by list position (state self.now).lists) };

    /// The last check-in of a position, by whatever list: by its moment, and then by its id.
    fn last_at(&self, position: u64) -> Option<Passage>
        ensures { result ≡ last_at position (state self.now).lists.checkins };

    /// The ids of the waiting entries without voucher, in order.
    fn waiters(&self, alloc: Global) -> Result<Vec<u64>, AllocError>
        ensures { IfOk result (λ ids. ids.items ≡ waiter_ids (state self.now).lists) };

    /// Whether an entry of this email waits, without a voucher, for this product.
    fn is_waiting(&self, email: &str, product: Product) -> bool
        ensures { result ≡ is_waiting email.now product (state self.now).lists };

    /// The numbers of the pending orders that ended before a moment, in order.
    fn due_orders(&self, alloc: Global, at: Moment) -> Result<Vec<u64>, AllocError>
        ensures { IfOk result (λ ids. ids.items ≡ due_orders at (state self.now).lists) };

    /// The ids of the cart positions that are dead at a moment, in order.
    fn dead_carts(&self, alloc: Global, at: Moment) -> Result<Vec<u64>, AllocError>
        ensures { IfOk result (λ ids. ids.items ≡ dead_carts at (state self.now).lists) };

    /// All vouchers, by id.
    fn vouchers(&self) -> &[Voucher]
        ensures { result.now ≡ (state self.now).lists.vouchers };

    /// All cart positions, by id.
    fn carts(&self) -> &Sparse<CartPos>
        ensures { result.now.rows ≡ (state self.now).lists.carts };

    /// All orders, by id.
    fn orders(&self) -> &[Order]
        ensures { result.now ≡ (state self.now).lists.orders };

    /// All order positions, by id.
    fn positions(&self) -> &[OrderPos]
        ensures { result.now ≡ (state self.now).lists.positions };

    /// All check-in lists, by id.
    fn checkin_lists(&self) -> &[CheckinList]
        ensures { result.now ≡ (state self.now).lists.checkin_lists };

    /// All check-ins, by id.
    fn checkins(&self) -> &[Checkin]
        ensures { result.now ≡ (state self.now).lists.checkins };

    /// The whole waiting list, by id.
    fn waiting(&self) -> &Sparse<Waiting>
        ensures { result.now.rows ≡ (state self.now).lists.waiting };

    /// What uses a quota that stands, at a moment that isn't before the book's. It takes at most a step for each cart
    /// position and voucher that came due since the book's moment, one for each cart position that names one of these
    /// vouchers, and one more.
    fn usage_at<L: Ledger>(&self, quota: &Quota, at: Moment, steps: &mut Steps<L>) -> Usage
        requires moment { (state self.now).moment ≤ at }
        requires stands { quota_at quota.now.id (state self.now).lists.catalogue ≡ Some quota.now }
        ensures value { result ≡ usage_of (state self.now).lists at quota.now }
        ensures cost { steps.new ≤ with_due_steps (state self.now) at (steps.old + 1) };

    /// How many positions of pending and paid orders name the voucher.
    fn redeemed(&self, voucher: u64) -> u64
        ensures value { result ≡ redeemed voucher (state self.now).lists }
        ensures few { result ≤ most_listed };

    /// What is spent of the voucher's budget, in cents: the discounts of the positions of pending and paid orders that name it, added up.
    fn spent(&self, voucher: u64) -> u128
        ensures value { result ≡ spent voucher (state self.now).lists }
        ensures few { result ≤ most_spent };

    /// How many cart positions that are live at a moment name the voucher.
    fn held(&self, voucher: u64, at: Moment) -> u64
        ensures value { result ≡ held at voucher (state self.now).lists }
        ensures few { result ≤ most_listed };

    /// How many cart positions that are live at a moment name the voucher and are for a product of the quota.
    fn held_in(&self, voucher: u64, quota: &Quota, at: Moment) -> u64
        ensures value { result ≡ held_in at quota.now voucher (state self.now).lists }
        ensures few { result ≤ most_listed };

    /// Takes the memory that these changes need.
    fn reserve(&mut self, changes: &Changes) -> Result<(), AllocError>
        ensures ok { OnOk result (weight changes.now.list ≤ room self.new) }
        ensures same { state self.new ≡ state self.old };

    /// Whether these changes can be applied without taking memory.
    fn has_room(&self, changes: &Changes) -> bool
        ensures { IsTrue result ↔ (weight changes.now.list ≤ room self.now) };

    /// Makes exactly these changes, at a moment that isn't before the book's.
    fn apply(&mut self, changes: Changes, at: Moment)
        requires room { weight changes.list ≤ room self.old }
        requires moment { (state self.old).moment ≤ at }
        ensures { state self.new ≡ changes_applied changes at (state self.old) };
}
