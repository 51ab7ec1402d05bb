//! What a count at a later moment may look at.

ghost use Rattle.std.specs.Prelude.{◌≡◌, ◌≤◌, IfOk, IfErr, length};
ghost use Rattle.base_tables.specs.Tables.{IsPlace, IsGap};
ghost use Rattle.model_rows.specs.CameDue.{is_due_cart, is_due_voucher};
ghost use Rattle.model_rows.specs.Kept.{IsKept};
ghost use Rattle.model_rows.specs.Usage.{cart_counts};
ghost use Rattle.book_usage.specs.Limits.{most_listed};
ghost use Rattle.book_usage.specs.Naming.{cart_names};
ghost use Rattle.book_store.specs.Found.{FindsCarts, FindsVouchers};

use crate::store::Store;
use base_tables::{Rows, Sparse, place_of};
use base_values::Moment;
use book_indexes::Walk;
use book_usage::rules::cart_counts;
use model_catalogue::Quota;
use model_rows::{CartPos, Voucher};
use std::marker::{Model, PhantomData};
use std::sync::ledger::Ledger;

/// What ended in a store since the moment of its last changes, and what names that, by walks whose steps are counted in one
/// ledger. No other row is shown, and no table as a whole.
#[derive(Drop)]
pub struct Ended<'s, L: Ledger> {
    store: &'s Store,
    ledger: PhantomData<L>,
}

impl<'s, L: Ledger> Model for Ended<'s, L> {
    ghost use Rattle.book_usage.specs.BookView.{BookView};

    ghost Value = { BookView };

    ghost view = { λ e. e.store.now };
}

impl<'s, L: Ledger> Ended<'s, L> {
    /// What ended in this store.
    pub fn of(store: &'s Store) -> Self
        ensures { result ≡ store.now }
    {
        Ended {
            store,
            ledger: PhantomData,
        }
    }

    /// Ids rise in each list of sales and of the door, and none of these lists is longer than 2^32.
    pub fn recall_invariant(&self)
        ensures { IsKept most_listed self.now.state.lists }
    {
        self.store.recall_invariant();
    }

    /// The moment of the last changes.
    pub fn moment(&self) -> Moment
        ensures { result ≡ self.now.state.moment }
    {
        self.store.moment()
    }

    /// The cart positions that ended since then, and before a moment.
    pub fn carts(&self, to: Moment) -> Walk<'s, CartPos, Sparse<CartPos>, L>
        requires { self.now.state.moment ≤ to }
        ensures rows { result.rows ≡ self.now.state.lists.carts }
        ensures finds { FindsCarts (is_due_cart self.now.state.moment to) self.now.state.lists
            result.ids }
        ensures few { length result.ids ≤ most_listed }
    {
        let store = self.store;
        Walk::over(store.carts(), store.carts_due(store.moment(), to))
    }

    /// The vouchers that ended since then, and before a moment.
    pub fn vouchers(&self, to: Moment) -> Walk<'s, Voucher, Rows<Voucher>, L>
        requires { self.now.state.moment ≤ to }
        ensures rows { result.rows ≡ self.now.state.lists.vouchers }
        ensures finds { FindsVouchers (is_due_voucher self.now.state.moment to) self.now.state.lists
            result.ids }
        ensures few { length result.ids ≤ most_listed }
    {
        let store = self.store;
        Walk::over(store.vouchers(), store.vouchers_due(store.moment(), to))
    }

    /// The cart positions that name a voucher, dead ones too.
    pub fn naming(&self, voucher: u64) -> Walk<'s, CartPos, Sparse<CartPos>, L>
        ensures rows { result.rows ≡ self.now.state.lists.carts }
        ensures finds { FindsCarts (cart_names voucher) self.now.state.lists result.ids }
        ensures few { length result.ids ≤ most_listed }
    {
        let store = self.store;
        Walk::over(store.carts(), store.carts_naming(voucher))
    }

    /// Whether a cart position counts in the quota at a moment.
    pub fn counts(&self, at: Moment, quota: &Quota, cart: &CartPos) -> bool
        ensures { result ≡ cart_counts self.now.state.lists at quota.now cart.now }
    {
        cart_counts(self.store, at, quota, cart)
    }

    /// Where the voucher of an id stands among all by id, or where it would.
    pub fn place(&self, voucher: u64) -> Result<usize, usize>
        ensures found { IfOk result (IsPlace (λ v. v.id) self.now.state.lists.vouchers voucher) }
        ensures absent { IfErr result (IsGap (λ v. v.id) self.now.state.lists.vouchers voucher) }
    {
        self.store.recall_invariant();
        place_of(self.store.vouchers().rows().as_slice(), voucher)
    }
}
