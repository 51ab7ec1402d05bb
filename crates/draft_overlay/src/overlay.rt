//! The rows of a book, with changes.

ghost use Rattle.std.specs.Prelude.{◌≡◌, [], IfOk, OnOk, OnErr, length, take, ◌≤◌, ◌<◌, ◌+◌, ◌-◌, ◌^◌, ◌||◌, count_by, if◌then◌else◌, is_none, false};
ghost use Rattle.std.specs.Option.{option_copied};
ghost use Rattle.model_rows.specs.Lists.{cart_at, order_at, waiting_at, checkin_list_at, checkin_at};
ghost use Rattle.model_rows.specs.Named.{voucher_of, is_used};
ghost use Rattle.model_rows.specs.Passages.{last_at};
ghost use Rattle.book_usage.specs.Naming.{naming};
ghost use Rattle.book_usage.specs.Limits.{most_listed, most_spent};
ghost use Rattle.draft_overlay.specs.Limits.{most_changes, most_with_changes};
ghost use Rattle.draft_overlay.specs.Names.{name_gone, touches_names};
ghost use Rattle.draft_overlay.specs.Coded.{IsLeast, lesser, IsPutBelow, IsUnchanged, is_place, put_if, first_unchanged};
ghost use Rattle.book_log.specs.Places.{touches, touches_table, last_place};
ghost use Rattle.model_rows.specs.Kept.{IsKept};
ghost use Rattle.base_tables.specs.Tables.{sum_at};
ghost use Rattle.model_rows.specs.Headroom.{held};
ghost use Rattle.model_rows.specs.Asked.{held_in};
ghost use Rattle.draft_overlay.specs.Logs.{Log, rows_of, rows_at, log_with, IsSale, AreSales};
ghost use Rattle.model_rows.specs.Conditions.{is_in_force, names};
ghost use Rattle.book_usage.specs.OfOrder.{count_ordered};
ghost use Rattle.draft_overlay.specs.Purchases.{ArePurchasesOf, puts_ordered};
ghost use Rattle.model_rows.specs.Usage.{stands_as, uses, redeemed, spent};

use crate::cart_conditions::{CartCondition, Holds, HoldsIn};
use crate::purchases::{Purchase, copy_purchases, put_purchases};
use crate::row_names::{cart_name, entry_name, is_name, name_put};
use base_values::Moment;
use book_log::rows::{
    cart_after, cart_in, checkin_in, checkin_list_in, last_checkin_in, order_after, order_in,
    position_in, voucher_in, waiting_after, waiting_in,
};
use book_log::{ChangeLog, KeyLog, Table, code_key, digest};
use book_usage::rules::is_in_force;
use book_usage::{Book, Catalogue, Exits, LookUps, PositionTest};
use model_catalogue::Quota;
use model_rows::passages::is_exit_if;
use model_rows::{
    CartPos, Change, Checkin, CheckinList, Order, OrderPos, Passage, Voucher, Waiting,
};
use std::alloc::{AllocError, Global};
use std::marker::Model;

/// The most changes that an overlay takes: 2^32.
const MOST_CHANGES: usize = 4_294_967_296;

/// The rows of a book, with changes that aren't applied yet.
#[derive(Drop)]
pub struct Overlay<'a, B: Book> {
    book: &'a B,
    log: ChangeLog,
    codes: KeyLog,
}

impl<'a, B: Book> Model for Overlay<'a, B> {
    ghost use Rattle.draft_overlay.specs.Logs.{Log};
    ghost use Rattle.draft_overlay.specs.Overlays.{IsOverlay};

    ghost Value = { Log };

    ghost view = { λ s. record { base = (B.state s.book.now).lists; changes = s.log } };

    // What is for sale is as in the book, each order position that is put is a new one, and each change has its key.
    ghost invariant = { λ s. IsOverlay (B.state s.book.now).lists s.log s.codes };
}

impl<'a, B: Book> Overlay<'a, B> {
    /// The rows of a book, without changes.
    pub fn new(alloc: Global, book: &'a B) -> Self
        ensures base { result.base ≡ (B.state book.now).lists }
        ensures log { result.changes ≡ [] }
    {
        Overlay {
            book,
            log: ChangeLog::new(alloc),
            codes: KeyLog::new(alloc),
        }
    }

    /// All that is for sale.
    pub fn catalogue(&self) -> &Catalogue
        ensures { result.now.lists ≡ (rows_of self.now).catalogue }
    {
        self.book.catalogue()
    }

    /// The first voucher with that code.
    pub fn voucher_of(&self, code: &str) -> Option<&Voucher>
        ensures { option_copied result ≡ voucher_of code.now (rows_of self.now) }
    {
        self.book.recall_invariant();
        match lesser(self.unchanged_of(code), self.put_of(code)) {
            None => None,
            Some(id) => self.voucher(id),
        }
    }

    // The least id of the book's vouchers with that code that no change touches.
    fn unchanged_of(&self, code: &str) -> Option<u64>
        ensures { IsLeast (IsUnchanged code.now self.now) result }
    {
        self.book.recall_invariant();
        let first = self.book.voucher_of(code)?;
        if self.is_unchanged(first.id) {
            return Some(first.id);
        }
        self.first_unchanged(code)
    }

    // The least id of the book's vouchers with that code that no change touches, where a change touches the book's first one.
    fn first_unchanged(&self, code: &str) -> Option<u64>
        ensures { result ≡ first_unchanged code.now self.now }
    {
        let vouchers = self.book.vouchers();
        let first = vouchers
            .iter()
            .find(|v| v.code.same(code) && self.is_unchanged(v.id));
        first.map(|v| v.id)
    }

    // Whether no change touches the voucher.
    fn is_unchanged(&self, voucher: u64) -> bool
        ensures { result ≡ is_none (last_place (touches 3 voucher) self.now.changes) }
    {
        self.log.last(Table::Vouchers, voucher).is_none()
    }

    // The least id of the vouchers with that code that changes put.
    fn put_of(&self, code: &str) -> Option<u64>
        ensures { IsLeast (IsPutBelow (length self.now.changes) code.now self.now) result }
    {
        let mut least = None;
        let mut found = self.codes.last(digest(code));
        'earlier: while let Some(place) = found {
            least = lesser(least, self.put_if(place, self.log.get(place), code));
            found = self.codes.before(place);
        }
        least
    }

    // The id of the voucher with that code that the change at a place puts, where no later one touches it.
    fn put_if(&self, place: usize, change: &Change, code: &str) -> Option<u64>
        ensures { result ≡ put_if code.now place self.now change.now }
    {
        match change {
            Change::PutVoucher(row) => {
                if row.code.same(code) && self.is_last(place, row.id) {
                    Some(row.id)
                } else {
                    None
                }
            }
            _ => None,
        }
    }

    // Whether the change at this place is the last one that touches the voucher.
    fn is_last(&self, place: usize, voucher: u64) -> bool
        ensures { result ≡ is_place place (last_place (touches 3 voucher) self.now.changes) }
    {
        self.log.last(Table::Vouchers, voucher) == Some(place)
    }

    /// Whether a row names the voucher.
    #[tactic(auto, using(crate::proofs::Names::used_if_named))]
    pub fn is_used(&self, voucher: u64) -> bool
        ensures { result ≡ is_used voucher (rows_of self.now) }
    {
        0 < self.naming(voucher)
    }

    // How many rows name the voucher: as many as in the book, where no change touches a row that may.
    fn naming(&self, voucher: u64) -> u64
        ensures { result ≡ naming voucher (rows_of self.now) }
    {
        let mut count = self.book.naming(voucher);
        if !self.touches_names() {
            return count;
        }
        for i in 0..self.log.len() {
            count = self.naming_after(i, voucher, count);
        }
        count
    }

    // The count after one more change.
    fn naming_after(&self, i: usize, voucher: u64, count: u64) -> u64
        requires place { i < length self.now.changes }
        requires before { count ≡ naming voucher (rows_at i self.now) }
        requires few { count ≤ 12884901888 + i }
        ensures value { result ≡ naming voucher (rows_at (i + 1) self.now) }
        ensures few { result ≤ 12884901888 + i + 1 }
    {
        self.book.recall_invariant();
        let change = self.log.get(i);
        let come = u64::from(is_name(voucher, name_put(change)));
        let gone = u64::from(is_name(voucher, self.name_gone(i, change)));
        (count + come).saturating_sub(gone)
    }

    // The voucher that the row named which a change replaces or drops.
    fn name_gone(&self, i: usize, change: &Change) -> Option<u64>
        requires { i ≤ length self.now.changes }
        ensures { result ≡ name_gone (rows_at i self.now) change.now }
    {
        match change {
            Change::PutCart(row) => cart_name(self.cart_at(i, row.id)),
            Change::DropCart(id) => cart_name(self.cart_at(i, *id)),
            Change::PutWaiting(row) => entry_name(self.waiting_at(i, row.id)),
            Change::DropWaiting(id) => entry_name(self.waiting_at(i, *id)),
            _ => None,
        }
    }

    // The waiting entry as it was before a change.
    fn waiting_at(&self, i: usize, id: u64) -> Option<&Waiting>
        requires { i ≤ length self.now.changes }
        ensures { option_copied result ≡ waiting_at id (rows_at i self.now) }
    {
        waiting_after(&self.log, i, id, self.book.entry(id))
    }

    // Whether a change touches a row that may name a voucher.
    fn touches_names(&self) -> bool
        ensures { result ≡ touches_names self.now.changes }
    {
        self.touches_carts() || self.puts_positions() || self.log.touches(Table::Waiting)
    }

    // Whether a change touches a cart position.
    fn touches_carts(&self) -> bool
        ensures { result ≡ touches_table 4 self.now.changes }
    {
        self.log.touches(Table::Carts)
    }

    // Whether a change puts an order position.
    fn puts_positions(&self) -> bool
        ensures { result ≡ touches_table 6 self.now.changes }
    {
        self.log.touches(Table::Positions)
    }

    /// Adds a change, or refuses where 2^32 stand or there is no memory: then the changes are as they were.
    pub fn push(&mut self, change: Change) -> Result<(), AllocError>
        requires { IsSale change (rows_of self.old) }
        ensures ok { OnOk result (self.new ≡ log_with change self.old) }
        ensures err { OnErr result (self.new ≡ self.old) }
    {
        let count = self.log.len();
        let key = code_key(&change);
        self.log.push(change)?;
        if count == MOST_CHANGES || self.codes.push(key).is_err() {
            self.log.truncate(count);
            return Err(AllocError);
        }
        Ok(())
    }

    /// How often orders that stand use the voucher.
    pub fn redeemed(&self, voucher: u64) -> u64
        ensures value { result ≡ redeemed voucher (rows_of self.now) }
        ensures few { result ≤ most_with_changes }
    {
        let mut count = self.book.redeemed(voucher);
        if !self.may_turn(voucher) {
            return count;
        }
        for i in 0..self.log.len() {
            count = self.redeemed_after(i, voucher, count);
        }
        count
    }

    // Whether changes may turn uses of the voucher: they put an order whose positions may name it, or an order position.
    fn may_turn(&self, voucher: u64) -> bool
        ensures { result ≡ false
            → redeemed voucher (rows_of self.now) ≡ redeemed voucher self.now.base }
    {
        if !self.puts_orders() {
            return false;
        }
        if self.puts_positions() {
            return true;
        }
        self.book.naming(voucher) != 0
    }

    // Whether a change puts an order or an order position: no other one makes a voucher redeemed more or less often.
    fn puts_orders(&self) -> bool
        ensures { result ≡ (touches_table 5 self.now.changes || touches_table 6 self.now.changes) }
    {
        self.log.touches(Table::Orders) || self.puts_positions()
    }

    /// How often the voucher was used before the changes: by orders that stood and by carts that are live at a moment.
    pub fn uses_before(&self, voucher: u64, at: Moment) -> u64
        ensures value { result ≡ redeemed voucher self.now.base + held at voucher self.now.base }
        ensures few { result ≤ most_with_changes }
    {
        self.book.redeemed(voucher) + self.book.held(voucher, at)
    }

    /// What was spent of the voucher before the changes, in cents.
    pub fn spent_before(&self, voucher: u64) -> u128
        ensures value { result ≡ spent voucher self.now.base }
        ensures few { result ≤ most_spent }
    {
        self.book.spent(voucher)
    }

    // The count after one more change.
    fn redeemed_after(&self, i: usize, voucher: u64, count: u64) -> u64
        requires place { i < length self.now.changes }
        requires before { count ≡ redeemed voucher (rows_at i self.now) }
        requires few { count ≤ most_listed + i }
        ensures value { result ≡ redeemed voucher (rows_at (i + 1) self.now) }
        ensures few { result ≤ most_listed + i + 1 }
    {
        self.book.recall_invariant();
        match self.log.get(i) {
            Change::PutOrder(row) => {
                let own = self.count_ordered(i, row.id, &Names { voucher });
                let more = count_if(row.status.is_in_force(), own);
                let less = count_if(self.is_in_force_at(i, row.id), own);
                (count + more).saturating_sub(less)
            }
            Change::PutPosition(row) => count + u64::from(self.uses_at(i, voucher, row)),
            _ => count,
        }
    }

    // Whether an order position used the voucher before a change.
    fn uses_at(&self, i: usize, voucher: u64, position: &OrderPos) -> bool
        requires { i ≤ length self.now.changes }
        ensures { result ≡ uses voucher (rows_at i self.now) position.now }
    {
        position.voucher == Some(voucher) && self.is_in_force_at(i, position.order)
    }

    // Whether the order stood before a change, so that its positions used vouchers.
    fn is_in_force_at(&self, i: usize, id: u64) -> bool
        requires { i ≤ length self.now.changes }
        ensures { result ≡ stands_as is_in_force (order_at id (rows_at i self.now)) }
    {
        is_in_force(self.order_at(i, id))
    }

    // The order as it was before a change.
    fn order_at(&self, i: usize, id: u64) -> Option<&Order>
        requires { i ≤ length self.now.changes }
        ensures { option_copied result ≡ order_at id (rows_at i self.now) }
    {
        order_after(&self.log, i, id, self.book.order(id))
    }

    /// How many positions of the order pass the test, as they are after the first `i` changes.
    pub fn count_ordered<T: PositionTest>(&self, i: usize, order: u64, test: &T) -> u64
        requires { i ≤ length self.now.changes }
        ensures value { result ≡ count_ordered order (T.passes test.now) (rows_at i self.now) }
        ensures few { result ≤ most_with_changes }
    {
        self.book.recall_invariant();
        let kept = self.book.count_ordered(order, test);
        kept + self.count_put(i, order, test)
    }

    /// The purchases of an order, one for each of its positions, in whatever order.
    pub fn purchases_of(&self, alloc: Global, order: u64) -> Result<Vec<Purchase>, AllocError>
        ensures { IfOk result (λ list. ArePurchasesOf order (rows_of self.now) list.items) }
    {
        self.book.recall_invariant();
        let rows = self.book.positions_of(alloc, order)?;
        let mut purchases = copy_purchases(alloc, self, rows.as_slice())?;
        if !self.puts_positions() {
            return Ok(purchases);
        }
        put_purchases(&mut purchases, self, order, self.log.as_slice())?;
        Ok(purchases)
    }

    // How many positions of the order that pass the test the first `i` changes put.
    fn count_put<T: PositionTest>(&self, i: usize, order: u64, test: &T) -> u64
        requires { i ≤ length self.now.changes }
        ensures value { result
            ≡ count_by (puts_ordered order (T.passes test.now)) (take i self.now.changes) }
        ensures few { result ≤ most_changes }
    {
        if !self.puts_positions() {
            return 0;
        }
        let log = self.log.as_slice();
        log[..i]
            .iter()
            .filter(|change| puts_ordered(change, order, test))
            .count() as u64
    }

    /// How many cart positions that are live at a moment name the voucher.
    pub fn held(&self, voucher: u64, at: Moment) -> u64
        ensures value { result ≡ held at voucher (rows_of self.now) }
        ensures few { result ≤ most_with_changes }
    {
        let count = self.book.held(voucher, at);
        self.count_carts(count, &Holds { at, voucher })
    }

    /// How many cart positions that are live at a moment name the voucher and are for a product of the quota.
    pub fn held_in(&self, voucher: u64, quota: &Quota, at: Moment) -> u64
        ensures { result ≡ held_in at quota.now voucher (rows_of self.now) }
    {
        let count = self.book.held_in(voucher, quota, at);
        self.count_carts(count, &HoldsIn { at, voucher, quota })
    }

    // How many cart positions pass the test, by the number in the book.
    fn count_carts<T: CartCondition>(&self, book: u64, test: &T) -> u64
        requires before { book ≡ count_by (T.passes test.now) self.now.base.carts }
        requires few { book ≤ most_listed }
        ensures value { result ≡ count_by (T.passes test.now) (rows_of self.now).carts }
        ensures few { result ≤ most_with_changes }
    {
        if !self.touches_carts() {
            return book;
        }
        let mut count = book;
        for i in 0..self.log.len() {
            count = self.count_after(i, test, count);
        }
        count
    }

    // The count after one more change.
    fn count_after<T: CartCondition>(&self, i: usize, test: &T, count: u64) -> u64
        requires place { i < length self.now.changes }
        requires before { count ≡ count_by (T.passes test.now) (rows_at i self.now).carts }
        requires few { count ≤ most_listed + i }
        ensures value { result ≡ count_by (T.passes test.now) (rows_at (i + 1) self.now).carts }
        ensures few { result ≤ most_listed + i + 1 }
    {
        self.book.recall_invariant();
        match self.log.get(i) {
            Change::PutCart(row) => {
                let come = u64::from(test.passes(row));
                let gone = self.count_at(i, row.id, test);
                (count + come).saturating_sub(gone)
            }
            Change::DropCart(id) => count.saturating_sub(self.count_at(i, *id, test)),
            _ => count,
        }
    }

    // Whether the row that a cart position had before a change passes the test.
    fn count_at<T: CartCondition>(&self, i: usize, id: u64, test: &T) -> u64
        requires { i ≤ length self.now.changes }
        ensures { result ≡ sum_at (λ c. if T.passes test.now c then 1 else 0)
            (cart_at id (rows_at i self.now)) }
    {
        match self.cart_at(i, id) {
            None => 0,
            Some(cart) => u64::from(test.passes(cart)),
        }
    }

    // The cart position as it was before a change.
    fn cart_at(&self, i: usize, id: u64) -> Option<&CartPos>
        requires { i ≤ length self.now.changes }
        ensures { option_copied result ≡ cart_at id (rows_at i self.now) }
    {
        cart_after(&self.log, i, id, self.book.cart(id))
    }

    /// Ids rise in each list of sales, no list is too long to be counted, and what is for sale hasn't changed.
    pub fn recall_invariant(&self)
        ensures kept { IsKept (most_listed + length self.now.changes) (rows_of self.now) }
        ensures few { length self.now.changes ≤ most_changes }
        ensures sales { AreSales self.now.changes self.now.base }
    {
        self.book.recall_invariant();
    }

    /// How many changes there are: at most 2^32.
    pub fn len(&self) -> usize
        ensures value { result ≡ length self.now.changes }
        ensures few { result ≤ most_changes }
    {
        self.log.len()
    }

    /// Undoes all but the first changes.
    pub fn truncate(&mut self, count: usize)
        requires { count ≤ length self.old.changes }
        ensures { self.new ≡ record self.old { changes = take count self.old.changes } }
    {
        self.codes.truncate(count);
        self.log.truncate(count);
    }

    /// The changes in order.
    pub fn into_log(self) -> Vec<Change>
        ensures { result.items ≡ self.entry.changes }
    {
        let Overlay {
            book: _,
            log,
            codes: _,
        } = self;
        log.into_vec()
    }

    /// The check-in list of an id.
    pub fn checkin_list(&self, id: u64) -> Option<&CheckinList>
        ensures { option_copied result ≡ checkin_list_at id (rows_of self.now) }
    {
        checkin_list_in(&self.log, id, self.book.checkin_list(id))
    }

    /// The last check-in of a position, by whatever list: by its moment, and then by its id.
    pub fn last_at(&self, position: u64) -> Option<Passage>
        ensures { result ≡ last_at position (rows_of self.now).checkins }
    {
        last_checkin_in(&self.log, position, self.book.last_at(position))
    }

    /// The check-in of an id.
    pub fn checkin(&self, id: u64) -> Option<&Checkin>
        ensures { option_copied result ≡ checkin_at id (rows_of self.now) }
    {
        checkin_in(&self.log, id, self.book.checkin(id))
    }
}

impl<'a, B: Book> LookUps for Overlay<'a, B> {
    ghost rows = { λ log. rows_of log };

    fn voucher(&self, id: u64) -> Option<&Voucher> {
        voucher_in(&self.log, id, self.book.voucher(id))
    }

    fn cart(&self, id: u64) -> Option<&CartPos> {
        cart_in(&self.log, id, self.book.cart(id))
    }

    fn order(&self, id: u64) -> Option<&Order> {
        order_in(&self.log, id, self.book.order(id))
    }

    fn position(&self, id: u64) -> Option<&OrderPos> {
        position_in(&self.log, id, self.book.position(id))
    }

    fn entry(&self, id: u64) -> Option<&Waiting> {
        waiting_in(&self.log, id, self.book.entry(id))
    }
}

impl<'a, B: Book> Exits for Overlay<'a, B> {
    #[tactic(auto, unfolding(model_rows::specs::Passages::is_out))]
    fn is_out(&self, position: u64) -> bool {
        is_exit_if(self.last_at(position))
    }
}

// The lesser of two ids, or the one that there is.
fn lesser(a: Option<u64>, b: Option<u64>) -> Option<u64>
    ensures { result ≡ lesser a b }
{
    match (a, b) {
        (Some(a), Some(b)) => Some(a.min(b)),
        (Some(a), None) => Some(a),
        (None, b) => b,
    }
}

/// All of a count, or nothing.
pub fn count_if(test: bool, count: u64) -> u64
    ensures { result ≡ (if test then count else 0) }
{
    if test { count } else { 0 }
}

// Whether the change puts a position of the order that passes the test.
fn puts_ordered<T: PositionTest>(change: &Change, order: u64, test: &T) -> bool
    ensures { result ≡ puts_ordered order (T.passes test.now) change.now }
{
    match change {
        Change::PutPosition(row) => row.order == order && test.passes(row),
        _ => false,
    }
}

// A test of order positions: those that name the voucher.
#[derive(Drop)]
struct Names {
    voucher: u64,
}

impl PositionTest for Names {
    ghost passes = { λ t p. names t.voucher p.voucher };

    fn passes(&self, position: &OrderPos) -> bool {
        position.voucher == Some(self.voucher)
    }
}
