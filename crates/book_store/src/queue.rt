//! Who waits.

ghost use Rattle.std.specs.Prelude.{◌≡◌, find, is_some, IfOk};
ghost use Rattle.std.specs.Option.{option_copied};
ghost use Rattle.model_rows.specs.Waits.{is_waiting, waits_as};
ghost use Rattle.book_usage.specs.Waiters.{waiter_ids};
ghost use Rattle.book_store.specs.OneRow.{entry_as};

use crate::store::Store;
use book_indexes::digest;
use book_usage::LookUps;
use model_catalogue::Product;
use model_rows::Waiting;
use std::alloc::{AllocError, Global};

/// All entries without voucher belong to this one.
const QUEUE: u64 = 0;

impl Store {
    /// The ids of the waiting entries without voucher, in order.
    pub fn waiters(&self, alloc: Global) -> Result<Vec<u64>, AllocError>
        ensures { IfOk result (λ ids. ids.items ≡ waiter_ids self.now.state.lists) }
    {
        self.waiting().in_group(QUEUE).to_vec(alloc)
    }

    // The waiting entry of an id, if it is of this email and waits, without a voucher, for this product.
    fn waiting_at(&self, id: u64, email: &str, product: Product) -> Option<&Waiting>
        ensures found { option_copied result ≡ entry_as id email.now product self.now.state.lists }
        ensures some { is_some result
            ≡ is_some (entry_as id email.now product self.now.state.lists) }
    {
        self.entry(id).filter(|row| row.waits_as(email, product))
    }

    // The first of these entries: a walk over those that wait and whose emails have the digest.
    fn entry_waiting(&self, email: &str, product: Product) -> Option<&Waiting>
        ensures { option_copied result
            ≡ find (waits_as email.now product) self.now.state.lists.waiting }
    {
        self.recall_invariant();
        let ids = self.waiting().with_text(digest(email));
        for place in 0..ids.len() {
            let found = self.waiting_at(ids.at(place), email, product);
            if found.is_some() {
                return found;
            }
        }
        None
    }

    /// Whether an entry of this email waits, without a voucher, for this product.
    pub fn is_waiting(&self, email: &str, product: Product) -> bool
        ensures { result ≡ is_waiting email.now product self.now.state.lists }
    {
        self.entry_waiting(email, product).is_some()
    }
}
