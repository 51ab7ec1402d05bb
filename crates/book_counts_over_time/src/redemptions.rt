//! Uses of vouchers, as they are kept.

ghost use Rattle.std.specs.Prelude.{◌≡◌, ◌≤◌};
ghost use Rattle.model_rows.specs.Usage.{redeemed};
ghost use Rattle.book_usage.specs.Limits.{most_listed};
ghost use Rattle.book_counts_over_time.specs.Redemptions.{count_after_turn};
ghost use Rattle.book_counts_over_time.specs.Usages.{AreRedeemed};

use base_tables::place_of;
use book_store::Store;
use model_rows::Voucher;

/// All vouchers, by id.
pub fn vouchers(store: &Store) -> &[Voucher]
    ensures { result.now ≡ store.now.state.lists.vouchers }
{
    store.vouchers().rows().as_slice()
}

/// How many positions of pending and paid orders name the voucher: as it is kept, or else counted afresh.
pub fn redeemed_in(store: &Store, redeems: &[u64], voucher: u64) -> u64
    requires { AreRedeemed store.now.state.lists redeems.now }
    ensures value { result ≡ redeemed voucher store.now.state.lists }
    ensures few { result ≤ most_listed }
{
    store.recall_invariant();
    match place_of(vouchers(store), voucher) {
        Ok(at) => redeems[at],
        Err(_) => store.redeemed(voucher),
    }
}

/// A count with one more, or one less.
pub fn count_after_turn(count: u64, up: bool) -> u64
    ensures { result ≡ count_after_turn up count }
{
    if up {
        count.saturating_add(1)
    } else {
        count.saturating_sub(1)
    }
}
