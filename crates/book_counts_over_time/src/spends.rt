//! What is spent of the vouchers' budgets, as it is kept.

ghost use Rattle.std.specs.Prelude.{◌≡◌, ◌≤◌};
ghost use Rattle.model_rows.specs.Usage.{spent};
ghost use Rattle.book_usage.specs.Limits.{most_spent};
ghost use Rattle.book_counts_over_time.specs.Spends.{ArePriced, AreSpent};

use crate::redemptions::vouchers;
use base_tables::place_of;
use book_store::Store;

/// What is spent of the voucher's budget, in cents: as it is kept, or else counted afresh.
pub fn spent_in(store: &Store, spents: &[u128], voucher: u64) -> u128
    requires spents { AreSpent store.now.state.lists spents.now }
    requires priced { ArePriced store.now.state.lists }
    ensures value { result ≡ spent voucher store.now.state.lists }
    ensures few { result ≤ most_spent }
{
    store.recall_invariant();
    match place_of(vouchers(store), voucher) {
        Ok(at) => spents[at],
        Err(_) => store.spent(voucher),
    }
}
