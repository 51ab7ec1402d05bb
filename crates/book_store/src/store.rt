//! All tables of a box office.

ghost use Rattle.std.specs.Prelude.{◌≡◌, ◌≤◌, ◌+◌, OnOk};
ghost use Rattle.std.specs.Option.{option_copied};
ghost use Rattle.model_rows.specs.Lists.{empty, checkin_list_at, checkin_at};
ghost use Rattle.model_rows.specs.Change.{change_applied};
ghost use Rattle.model_rows.specs.Weight.{change_weight};
ghost use Rattle.model_rows.specs.Kept.{IsKept};
ghost use Rattle.book_usage.specs.Limits.{most_listed};

use base_tables::{Rows, Sparse};
use base_values::Moment;
use book_indexes::Indexed;
use book_usage::{Catalogue, LookUps};
use model_rows::{
    CartPos, Change, Checkin, CheckinList, NextIds, Order, OrderPos, Voucher, Waiting,
};
use std::alloc::{AllocError, Global};
use std::marker::Model;

/// The tables of a box office, the ids that new rows get, and the moment of the last changes.
/// Rows are found by their ids and by their keys; what it costs to find some goes by how many they are.
#[derive(Drop)]
pub struct Store {
    catalogue: Catalogue,
    vouchers: Indexed<Voucher>,
    carts: Indexed<CartPos, Sparse<CartPos>>,
    orders: Indexed<Order>,
    positions: Indexed<OrderPos>,
    waiting: Indexed<Waiting, Sparse<Waiting>>,
    checkin_lists: Rows<CheckinList>,
    checkins: Indexed<Checkin>,
    next: NextIds,
    moment: Moment,
}

impl Model for Store {
    ghost use Rattle.std.specs.Prelude.{min};
    ghost use Rattle.book_usage.specs.BookView.{BookView};

    ghost Value = { BookView };

    ghost view = { λ b. record {
      state = record {
        lists = record {
          catalogue = b.catalogue.lists;
          vouchers = b.vouchers.rows;
          carts = b.carts.rows;
          orders = b.orders.rows;
          positions = b.positions.rows;
          waiting = b.waiting.rows;
          checkin_lists = b.checkin_lists.rows;
          checkins = b.checkins.rows;
        };
        next = b.next;
        moment = b.moment;
      };
      room = min b.catalogue.room (min (min b.vouchers.room b.carts.room)
          (min (min b.orders.room b.positions.room)
          (min b.waiting.room (min b.checkin_lists.room b.checkins.room))));
    } };
}

impl Store {
    /// An empty box office: no rows, every next id 1, moment 0.
    pub fn new(alloc: Global) -> Self
        ensures { result.state ≡ empty }
    {
        Store {
            catalogue: Catalogue::new(alloc),
            vouchers: Indexed::new(alloc),
            carts: Indexed::new(alloc),
            orders: Indexed::new(alloc),
            positions: Indexed::new(alloc),
            waiting: Indexed::new(alloc),
            checkin_lists: Rows::new(alloc),
            checkins: Indexed::new(alloc),
            next: NextIds::first(),
            moment: Moment::new(0),
        }
    }

    /// Ids rise in each list of sales and of the door, and none of these lists is longer than 2^32.
    pub fn recall_invariant(&self)
        ensures { IsKept most_listed self.now.state.lists }
    {
        self.vouchers.recall_invariant();
        self.carts.recall_invariant();
        self.orders.recall_invariant();
        self.positions.recall_invariant();
        self.waiting.recall_invariant();
        self.checkin_lists.recall_invariant();
        self.checkins.recall_invariant();
    }

    /// All that is for sale.
    pub fn catalogue(&self) -> &Catalogue
        ensures { result.now.lists ≡ self.now.state.lists.catalogue }
    {
        &self.catalogue
    }

    /// The moment of the last changes.
    pub fn moment(&self) -> Moment
        ensures { result ≡ self.now.state.moment }
    {
        self.moment
    }

    /// The ids that new rows get.
    pub fn next_ids(&self) -> NextIds
        ensures { result ≡ self.now.state.next }
    {
        self.next
    }
}

impl Store {
    /// The table of vouchers.
    pub fn vouchers(&self) -> &Indexed<Voucher>
        ensures { result.now.rows ≡ self.now.state.lists.vouchers }
    {
        &self.vouchers
    }

    /// The table of cart positions.
    pub fn carts(&self) -> &Indexed<CartPos, Sparse<CartPos>>
        ensures { result.now.rows ≡ self.now.state.lists.carts }
    {
        &self.carts
    }

    /// The table of orders.
    pub fn orders(&self) -> &Indexed<Order>
        ensures { result.now.rows ≡ self.now.state.lists.orders }
    {
        &self.orders
    }

    /// The table of order positions.
    pub fn positions(&self) -> &Indexed<OrderPos>
        ensures { result.now.rows ≡ self.now.state.lists.positions }
    {
        &self.positions
    }

    /// The waiting list.
    pub fn waiting(&self) -> &Indexed<Waiting, Sparse<Waiting>>
        ensures { result.now.rows ≡ self.now.state.lists.waiting }
    {
        &self.waiting
    }

    /// The table of check-in lists.
    pub fn checkin_lists(&self) -> &Rows<CheckinList>
        ensures { result.now.rows ≡ self.now.state.lists.checkin_lists }
    {
        &self.checkin_lists
    }

    /// The table of check-ins.
    pub fn checkins(&self) -> &Indexed<Checkin>
        ensures { result.now.rows ≡ self.now.state.lists.checkins }
    {
        &self.checkins
    }

    /// The check-in list of an id.
    pub fn checkin_list(&self, id: u64) -> Option<&CheckinList>
        ensures { option_copied result ≡ checkin_list_at id self.now.state.lists }
    {
        self.checkin_lists.get(id)
    }

    /// The check-in of an id.
    pub fn checkin(&self, id: u64) -> Option<&Checkin>
        ensures { option_copied result ≡ checkin_at id self.now.state.lists }
    {
        self.checkins.get(id)
    }
}

impl LookUps for Store {
    ghost rows = { λ b. b.state.lists };

    fn voucher(&self, id: u64) -> Option<&Voucher> {
        self.vouchers.get(id)
    }

    fn cart(&self, id: u64) -> Option<&CartPos> {
        self.carts.get(id)
    }

    fn order(&self, id: u64) -> Option<&Order> {
        self.orders.get(id)
    }

    fn position(&self, id: u64) -> Option<&OrderPos> {
        self.positions.get(id)
    }

    fn entry(&self, id: u64) -> Option<&Waiting> {
        self.waiting.get(id)
    }
}

impl Store {
    /// Takes memory, so that changes of so much weight can be made.
    pub fn reserve(&mut self, weight: usize) -> Result<(), AllocError>
        ensures ok { OnOk result (weight ≤ self.new.room) }
        ensures same { self.new.state ≡ self.old.state }
    {
        self.catalogue.reserve(weight)?;
        self.vouchers.reserve(weight)?;
        self.carts.reserve(weight)?;
        self.orders.reserve(weight)?;
        self.positions.reserve(weight)?;
        self.waiting.reserve(weight)?;
        self.checkin_lists.reserve(weight)?;
        self.checkins.reserve(weight)
    }

    /// Changes of so much weight can be made without taking memory.
    pub fn room(&self) -> usize
        ensures { result ≡ self.now.room }
    {
        let sold = self.vouchers.room().min(self.carts.room());
        let ordered = self.orders.room().min(self.positions.room());
        let door = self.checkin_lists.room().min(self.checkins.room());
        let others = ordered.min(self.waiting.room().min(door));
        self.catalogue.room().min(sold.min(others))
    }

    /// Makes one change.
    pub fn apply_one(&mut self, change: Change)
        requires { change_weight change ≤ self.old.room }
        ensures lists { self.new.state ≡ change_applied change self.old.state }
        ensures room { self.old.room ≤ self.new.room + change_weight change }
    {
        match change {
            Change::PutItem(row) => self.catalogue.put_item(row),
            Change::PutVariation(row) => self.catalogue.put_variation(row),
            Change::PutQuota(row) => self.catalogue.put_quota(row),
            Change::PutVoucher(row) => self.vouchers.put(row),
            Change::PutCart(row) => self.carts.put(row),
            Change::PutOrder(row) => self.orders.put(row),
            Change::PutPosition(row) => self.positions.put(row),
            Change::PutWaiting(row) => self.waiting.put(row),
            Change::DropVoucher(id) => self.vouchers.delete(id),
            Change::DropCart(id) => self.carts.delete(id),
            Change::DropWaiting(id) => self.waiting.delete(id),
            Change::PutCheckinList(row) => self.checkin_lists.put(row),
            Change::PutCheckin(row) => self.checkins.put(row),
        }
    }

    /// Sets the ids that new rows get, and the moment.
    pub fn set(&mut self, next: NextIds, moment: Moment)
        ensures state { self.new.state ≡ record self.old.state { next = next; moment = moment } }
        ensures room { self.new.room ≡ self.old.room }
    {
        self.next = next;
        self.moment = moment;
    }
}
