//! Vouchers by their codes, and what came due.

ghost use Rattle.std.specs.Prelude.{◌≡◌, ◌≤◌, length, is_some};
ghost use Rattle.std.specs.Option.{option_copied};
ghost use Rattle.model_rows.specs.Named.{voucher_of};
ghost use Rattle.model_rows.specs.CameDue.{is_due_cart, is_due_voucher};
ghost use Rattle.book_usage.specs.Limits.{most_listed};
ghost use Rattle.book_store.specs.Found.{FindsCarts, FindsVouchers};
ghost use Rattle.book_store.specs.OneRow.{coded_at};

use crate::store::Store;
use base_index::Found;
use base_values::Moment;
use book_indexes::digest;
use book_usage::LookUps;
use model_rows::Voucher;

impl Store {
    // The voucher of an id, if it has the code.
    fn coded_at(&self, id: u64, code: &str) -> Option<&Voucher>
        ensures found { option_copied result ≡ coded_at id code.now self.now.state.lists }
        ensures some { is_some result ≡ is_some (coded_at id code.now self.now.state.lists) }
    {
        self.voucher(id).filter(|row| row.code.same(code))
    }

    /// The first voucher with that code: a walk over those whose codes have its digest.
    pub fn voucher_of(&self, code: &str) -> Option<&Voucher>
        ensures { option_copied result ≡ voucher_of code.now self.now.state.lists }
    {
        self.recall_invariant();
        let ids = self.vouchers().with_text(digest(code));
        for place in 0..ids.len() {
            let found = self.coded_at(ids.at(place), code);
            if found.is_some() {
                return found;
            }
        }
        None
    }

    /// The ids of the vouchers that end at one moment or later, and before another.
    pub fn vouchers_due(&self, from: Moment, to: Moment) -> Found<'_>
        requires { from ≤ to }
        ensures finds { FindsVouchers (is_due_voucher from to) self.now.state.lists result }
        ensures few { length result ≤ most_listed }
    {
        self.vouchers().ending(from.get(), to.get())
    }

    /// The ids of the cart positions that end at one moment or later, and before another.
    pub fn carts_due(&self, from: Moment, to: Moment) -> Found<'_>
        requires { from ≤ to }
        ensures finds { FindsCarts (is_due_cart from to) self.now.state.lists result }
        ensures few { length result ≤ most_listed }
    {
        self.carts().ending(from.get(), to.get())
    }
}
