//! How many live cart positions name each voucher, kept beside the vouchers.

ghost use Rattle.std.specs.Prelude.{◌≡◌, ◌≤◌, ◌&&◌, count_by, length, vec_capacity, Some, true, false};
ghost use Rattle.base_tables.specs.Tables.{AreInOrder};
ghost use Rattle.model_rows.specs.CameDue.{is_due_cart};
ghost use Rattle.model_rows.specs.Change.{change_applied};
ghost use Rattle.model_rows.specs.Headroom.{held};
ghost use Rattle.model_rows.specs.Lists.{cart_at};
ghost use Rattle.book_store.specs.Walks.{one_if};
ghost use Rattle.book_usage.specs.Limits.{most_listed};
ghost use Rattle.book_usage.specs.Naming.{cart_names};
ghost use Rattle.book_usage.specs.Shares.{held_name};
ghost use Rattle.book_counts_over_time.specs.Beside.{Stays, StepsBeside};
ghost use Rattle.book_counts_over_time.specs.Held.{AreHeld, AreHeldNow, named_by};
ghost use Rattle.book_counts_over_time.specs.Redemptions.{turn};

use crate::redemptions::{count_after_turn, vouchers};
use base_tables::place_of;
use base_values::Moment;
use book_store::Store;
use book_store::counts::count_one;
use book_usage::LookUps;
use book_usage::rules::held_name;
use model_rows::{CartPos, Change, Voucher};

// Counts one more, or one less, for the voucher of a name, if it stands.
fn turn_one(vouchers: &[Voucher], counts: &mut Vec<u64>, name: Option<u64>, up: bool)
    requires order { AreInOrder (λ v. v.id) vouchers.now }
    requires same { length counts.old.items ≡ length vouchers.now }
    ensures counts { StepsBeside (λ v. v.id) (turn up name) vouchers.now counts.old counts.new }
    ensures room { vec_capacity counts.new ≡ vec_capacity counts.old }
    ensures same { length counts.new.items ≡ length counts.old.items }
{
    let Some(id) = name else {
        return;
    };
    match place_of(vouchers, id) {
        Err(_) => {}
        Ok(at) => {
            counts[at] = count_after_turn(counts[at], up);
        }
    }
}

/// The numbers where a cart position is put.
pub fn hold_put(store: &Store, holds: &mut Vec<u64>, row: &CartPos)
    requires { AreHeldNow store.now.state holds.old.items }
    ensures held { AreHeldNow
        (change_applied (Change.PutCart row.now) store.now.state) holds.new.items }
    ensures stays { Stays holds.old holds.new }
{
    store.recall_invariant();
    let at = store.moment();
    let gone = held_name(at, store.cart(row.id));
    turn_one(vouchers(store), holds, held_name(at, Some(row)), true);
    turn_one(vouchers(store), holds, gone, false);
}

/// The numbers where the cart position of an id is dropped.
pub fn hold_drop(store: &Store, holds: &mut Vec<u64>, id: u64)
    requires { AreHeldNow store.now.state holds.old.items }
    ensures held { AreHeldNow
        (change_applied (Change.DropCart id) store.now.state) holds.new.items }
    ensures stays { Stays holds.old holds.new }
{
    store.recall_invariant();
    let gone = held_name(store.moment(), store.cart(id));
    turn_one(vouchers(store), holds, gone, false);
}

// The voucher that the cart position of an id names.
fn name_at(store: &Store, id: u64) -> Option<u64>
    ensures { result ≡ named_by (cart_at id store.now.state.lists) }
{
    match store.cart(id) {
        None => None,
        Some(row) => row.voucher,
    }
}

/// The numbers at a later moment. It costs the cart positions that have ended until then.
pub fn hold_at(store: &Store, holds: &mut Vec<u64>, at: Moment)
    requires moment { store.now.state.moment ≤ at }
    requires held { AreHeldNow store.now.state holds.old.items }
    ensures held { AreHeld store.now.state.lists at holds.new.items }
    ensures stays { Stays holds.old holds.new }
{
    store.recall_invariant();
    let ids = store.carts_due(store.moment(), at);
    for place in 0..ids.len() {
        let name = name_at(store, ids.at(place));
        turn_one(vouchers(store), holds, name, false);
    }
}

// 1 where the cart position of an id names the voucher.
#[tactic(auto, unfolding(book_store::specs::Walks::one_if))]
fn name_of(store: &Store, id: u64, voucher: u64) -> u64
    ensures value { result ≡ one_if (cart_names voucher) (cart_at id store.now.state.lists) }
    ensures small { result ≤ 1 }
{
    match store.cart(id) {
        None => 0,
        Some(row) => count_one(row.voucher == Some(voucher)),
    }
}

// How many cart positions name the voucher and have ended since the moment of the store, before another.
fn ended_holds(store: &Store, voucher: u64, at: Moment) -> u64
    requires { store.now.state.moment ≤ at }
    ensures value { result ≡ count_by (λ c. is_due_cart store.now.state.moment at c
        && cart_names voucher c) store.now.state.lists.carts }
{
    let mut count = 0;
    let ids = store.carts_due(store.moment(), at);
    for place in 0..ids.len() {
        count += name_of(store, ids.at(place), voucher);
    }
    count
}

// Whether the moment isn't before that of the store, and fewer cart positions have ended since than name the voucher.
fn is_near(store: &Store, voucher: u64, at: Moment) -> bool
    ensures { result ≡ true → store.now.state.moment ≤ at }
{
    let from = store.moment();
    !at.is_before(from) && store.carts_due(from, at).len() < store.carts_naming(voucher).len()
}

/// How many cart positions that are live at a moment name the voucher: as it is kept, less those that have ended since,
/// or else a walk over those that name it. The walk that is shorter is taken.
pub fn held_by(store: &Store, holds: &[u64], voucher: u64, at: Moment) -> u64
    requires { AreHeldNow store.now.state holds.now }
    ensures value { result ≡ held at voucher store.now.state.lists }
    ensures few { result ≤ most_listed }
{
    store.recall_invariant();
    if is_near(store, voucher, at) {
        if let Ok(place) = place_of(vouchers(store), voucher) {
            return holds[place].saturating_sub(ended_holds(store, voucher, at));
        }
    }
    store.held(voucher, at)
}
