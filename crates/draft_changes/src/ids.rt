//! The ids that the next rows of a draft get, and whether its tables take one more row.

ghost use Rattle.std.specs.Prelude.{◌≡◌, ◌≤◌, ◌<◌, ◌+◌};
ghost use Rattle.model_rows.specs.Full.{takes_cart, takes_voucher, takes_order, takes_positions, takes_waiting, takes_checkin_list, takes_checkin};
ghost use Rattle.draft_changes.specs.DraftState.{HasNextIds, now};

use crate::draft::Draft;
use base_values::codes::LAST_ORDER;
use book_usage::Book;
use model_catalogue::{LAST_ID, MOST_ROWS, takes_rows};

impl<'a, B: Book> Draft<'a, B> {
    /// The id that the next cart position gets.
    pub fn next_cart(&self) -> u64
        ensures { result ≡ (now self.now).next.cart }
    {
        self.next.cart
    }

    /// Whether the table of cart positions takes one more row: fewer than 1,000,000 stand,
    /// and the next id is at most 9,007,199,254,740,991.
    pub fn takes_cart(&self) -> bool
        ensures { result ≡ takes_cart (now self.now) }
    {
        self.tallies.here().carts < MOST_ROWS && self.next.cart <= LAST_ID
    }

    /// Counts the id of a cart position as used.
    pub fn use_cart_id(&mut self)
        requires { (now self.old).next.cart < 9007199254740992 }
        ensures { HasNextIds (record self.old.next { cart = self.old.next.cart + 1 })
            self.old self.new }
    {
        self.next.cart += 1;
    }

    /// The id that the next order gets.
    pub fn next_order(&self) -> u64
        ensures { result ≡ (now self.now).next.order }
    {
        self.next.order
    }

    /// Whether the table of orders takes one more row, in a draft that has changed no order: fewer than
    /// 17,210,367 stand, and the next id is at most 17,210,367, the last that has a code.
    pub fn takes_order(&self) -> bool
        requires { (now self.now).lists.orders ≡ self.now.log.base.orders }
        ensures { result ≡ takes_order (now self.now) }
    {
        self.book.orders().len() < LAST_ORDER as usize && self.next.order <= u64::from(LAST_ORDER)
    }

    /// Counts the id of an order as used.
    pub fn use_order_id(&mut self)
        requires { (now self.old).next.order < 9007199254740992 }
        ensures { HasNextIds (record self.old.next { order = self.old.next.order + 1 })
            self.old self.new }
    {
        self.next.order += 1;
    }

    /// The id that the next order position gets.
    pub fn next_position(&self) -> u64
        ensures { result ≡ (now self.now).next.position }
    {
        self.next.position
    }

    /// Whether the table of order positions takes so many more rows, in a draft that has changed none of them:
    /// at most 1,000,000 stand with them, and their ids are at most 9,007,199,254,740,991.
    pub fn takes_positions(&self, count: usize) -> bool
        requires { (now self.now).lists.positions ≡ self.now.log.base.positions }
        ensures { result ≡ takes_positions count (now self.now) }
    {
        takes_rows(count, self.next.position, self.book.positions())
    }

    /// Counts the ids of so many order positions as used.
    pub fn use_position_ids(&mut self, count: usize)
        requires { (now self.old).next.position + count ≤ 9007199254740992 }
        ensures { HasNextIds (record self.old.next { position = self.old.next.position + count })
            self.old self.new }
    {
        self.next.position += count as u64;
    }

    /// The id that the next voucher gets.
    pub fn next_voucher(&self) -> u64
        ensures { result ≡ (now self.now).next.voucher }
    {
        self.next.voucher
    }

    /// Whether the table of vouchers takes one more row: fewer than 1,000,000 stand,
    /// and the next id is at most 9,007,199,254,740,991.
    pub fn takes_voucher(&self) -> bool
        ensures { result ≡ takes_voucher (now self.now) }
    {
        self.tallies.here().vouchers < MOST_ROWS && self.next.voucher <= LAST_ID
    }

    /// Counts the id of a voucher as used.
    pub fn use_voucher_id(&mut self)
        requires { (now self.old).next.voucher < 9007199254740992 }
        ensures { HasNextIds (record self.old.next { voucher = self.old.next.voucher + 1 })
            self.old self.new }
    {
        self.next.voucher += 1;
    }

    /// The id that the next waiting entry gets.
    pub fn next_waiting(&self) -> u64
        ensures { result ≡ (now self.now).next.waiting }
    {
        self.next.waiting
    }

    /// Whether the table of waiting entries takes one more row, in a draft that has changed none of them:
    /// fewer than 1,000,000 stand, and the next id is at most 9,007,199,254,740,991.
    pub fn takes_waiting(&self) -> bool
        requires { (now self.now).lists.waiting ≡ self.now.log.base.waiting }
        ensures { result ≡ takes_waiting (now self.now) }
    {
        let rows = self.book.waiting().len();
        rows < MOST_ROWS && self.next.waiting <= LAST_ID
    }

    /// Counts the id of a waiting entry as used.
    pub fn use_waiting_id(&mut self)
        requires { (now self.old).next.waiting < 9007199254740992 }
        ensures { HasNextIds (record self.old.next { waiting = self.old.next.waiting + 1 })
            self.old self.new }
    {
        self.next.waiting += 1;
    }

    /// The id that the next check-in list gets.
    pub fn next_checkin_list(&self) -> u64
        ensures { result ≡ (now self.now).next.list }
    {
        self.next.list
    }

    /// Whether the table of check-in lists takes one more row, in a draft that has changed none of them:
    /// fewer than 1,000,000 stand, and the next id is at most 9,007,199,254,740,991.
    pub fn takes_checkin_list(&self) -> bool
        requires { (now self.now).lists.checkin_lists ≡ self.now.log.base.checkin_lists }
        ensures { result ≡ takes_checkin_list (now self.now) }
    {
        self.book.checkin_lists().len() < MOST_ROWS && self.next.list <= LAST_ID
    }

    /// Counts the id of a check-in list as used.
    pub fn use_checkin_list_id(&mut self)
        requires { (now self.old).next.list < 9007199254740992 }
        ensures { HasNextIds (record self.old.next { list = self.old.next.list + 1 })
            self.old self.new }
    {
        self.next.list += 1;
    }

    /// The id that the next check-in gets.
    pub fn next_checkin(&self) -> u64
        ensures { result ≡ (now self.now).next.checkin }
    {
        self.next.checkin
    }

    /// Whether the table of check-ins takes one more row, in a draft that has changed none of them:
    /// fewer than 1,000,000 stand, and the next id is at most 9,007,199,254,740,991.
    pub fn takes_checkin(&self) -> bool
        requires { (now self.now).lists.checkins ≡ self.now.log.base.checkins }
        ensures { result ≡ takes_checkin (now self.now) }
    {
        self.book.checkins().len() < MOST_ROWS && self.next.checkin <= LAST_ID
    }

    /// Counts the id of a check-in as used.
    pub fn use_checkin_id(&mut self)
        requires { (now self.old).next.checkin < 9007199254740992 }
        ensures { HasNextIds (record self.old.next { checkin = self.old.next.checkin + 1 })
            self.old self.new }
    {
        self.next.checkin += 1;
    }
}
