//! What came due of the book that counts.

use crate::recount::Recount;
use base_values::Moment;
use book_usage::{Book, Dues};
use model_rows::{Changes, CountRows};
use std::alloc::{AllocError, Global};

impl Dues for Recount {
    fn due_carts(&self, alloc: Global, at: Moment) -> Result<Vec<u64>, AllocError> {
        let from = self.moment();
        self.carts()
            .iter()
            .filter(|cart| cart.ends_between(from, at))
            .map(|cart| cart.id)
            .collect(alloc)
    }

    fn due_vouchers(&self, alloc: Global, at: Moment) -> Result<Vec<u64>, AllocError> {
        let from = self.moment();
        self.vouchers()
            .iter()
            .filter(|voucher| voucher.ends_between(from, at))
            .map(|voucher| voucher.id)
            .collect(alloc)
    }

    // A book that counts afresh keeps no counts.
    fn settle(&mut self, changes: Changes, counts: &CountRows, at: Moment) {
        let _ = counts;
        self.apply(changes, at);
    }
}
