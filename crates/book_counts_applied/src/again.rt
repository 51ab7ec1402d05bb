//! Changes of which it isn't known which counts they change: the rows are put, and then all that is kept beside them is counted afresh.

ghost use Rattle.std.specs.Prelude.{◌≡◌, ◌≤◌, ◌+◌, length};
ghost use Rattle.model_rows.specs.Change.{after_change, after_all, changes_applied, change_applied};
ghost use Rattle.model_rows.specs.Weight.{change_weight, weight};
ghost use Rattle.book_counts_applied.specs.Settled.{AllCounted, AllFit, AreSmall, IsOfRows};

use crate::counted::Counted;
use crate::fresh::{count_holds, count_redeems, count_spents, count_usages};
use crate::settle::stay_small;
use base_values::Moment;
use book_counts_over_time::redemptions::vouchers;
use book_store::Store;
use model_rows::{Change, Changes};

// Makes one change of the rows.
fn put_row(store: &mut Store, change: Change)
    requires room { change_weight change ≤ store.old.room }
    requires small { AreSmall store.old.state.lists }
    ensures state { store.new.state ≡ change_applied change store.old.state }
    ensures room { store.old.room ≤ store.new.room + change_weight change }
    ensures small { AreSmall (after_change change store.old.state.lists) }
{
    stay_small(store, &change);
    store.apply_one(change);
}

// Makes these changes of the rows in order. No more rows come than these changes have weight.
fn put_rows(store: &mut Store, mut list: Vec<Change>)
    requires room { weight list.items ≤ store.old.room }
    requires small { AreSmall store.old.state.lists }
    ensures state { store.new.state
        ≡ record store.old.state { lists = after_all list.items store.old.state.lists } }
    ensures small { AreSmall store.new.state.lists }
    ensures quotas { length store.new.state.lists.catalogue.quotas
        ≤ length store.old.state.lists.catalogue.quotas + weight list.items }
    ensures vouchers { length store.new.state.lists.vouchers
        ≤ length store.old.state.lists.vouchers + weight list.items }
{
    list.reverse();
    while let Some(change) = list.pop() {
        put_row(store, change);
    }
}

/// Makes these changes at a moment, and counts all that is kept beside the rows afresh. It costs all rows.
pub fn count_again(store: &mut Store, counted: &mut Counted, changes: Changes, at: Moment)
    requires same { IsOfRows store.old.state.lists counted.old }
    requires small { AreSmall store.old.state.lists }
    requires fits { AllFit (weight changes.list) store.old.room counted.old }
    ensures state { store.new.state ≡ changes_applied changes at store.old.state }
    ensures kept { AllCounted store.new.state counted.new }
{
    let (list, next) = changes.into_parts();
    store.set(next, at);
    put_rows(store, list);
    count_redeems(store, &mut counted.redeems, vouchers(store));
    count_spents(store, &mut counted.spents, vouchers(store));
    count_holds(store, &mut counted.holds, store.moment(), vouchers(store));
    count_usages(store, &mut counted.usages, &counted.redeems);
}
