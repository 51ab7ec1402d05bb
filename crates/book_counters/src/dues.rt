//! What came due of the counters' book.

use crate::counters::Counters;
use base_tables::ids::sorted;
use base_values::Moment;
use book_usage::Dues;
use model_rows::{Changes, CountRows};
use std::alloc::{AllocError, Global};

impl Dues for Counters {
    fn due_carts(&self, alloc: Global, at: Moment) -> Result<Vec<u64>, AllocError> {
        let store = self.store();
        let from = store.moment();
        let ids = store.carts().ending(from.get(), at.get()).to_vec(alloc)?;
        Ok(sorted(ids))
    }

    fn due_vouchers(&self, alloc: Global, at: Moment) -> Result<Vec<u64>, AllocError> {
        let store = self.store();
        let from = store.moment();
        let ids = store.vouchers().ending(from.get(), at.get()).to_vec(alloc)?;
        Ok(sorted(ids))
    }

    fn settle(&mut self, changes: Changes, counts: &CountRows, at: Moment) {
        self.settle_all(changes, counts, at);
    }
}
