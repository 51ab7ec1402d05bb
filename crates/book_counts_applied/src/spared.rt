//! Whether changes leave each voucher that is redeemed.

ghost use Rattle.std.specs.Prelude.{◌≡◌};
ghost use Rattle.std.specs.List.{list_all};
ghost use Rattle.book_counts_over_time.specs.Usages.{AreRedeemed};
ghost use Rattle.book_counts_applied.specs.Spared.{spares_used};

use book_counts_over_time::redemptions::redeemed_in;
use book_store::Store;
use model_rows::Change;

/// Whether these changes drop no voucher that is redeemed by the rows before them.
pub fn spare_used(store: &Store, redeems: &[u64], changes: &[Change]) -> bool
    requires { AreRedeemed store.now.state.lists redeems.now }
    ensures { result ≡ list_all (spares_used store.now.state.lists) changes.now }
{
    for change in changes {
        if !spares_used(store, redeems, change) {
            return false;
        }
    }
    true
}

// Whether one of them does.
fn spares_used(store: &Store, redeems: &[u64], change: &Change) -> bool
    requires { AreRedeemed store.now.state.lists redeems.now }
    ensures { result ≡ spares_used store.now.state.lists change.now }
{
    match change {
        Change::DropVoucher(id) => redeemed_in(store, redeems, *id) == 0,
        _ => true,
    }
}
