//! The tests of check-in lists and check-ins.

ghost use Rattle.std.specs.Prelude.{◌≡◌, ◌↔◌, IsTrue, true};
ghost use Rattle.std.specs.List.{AllByRecursion};
ghost use Rattle.model_invariant.specs.Checkins.{has_item, HasItems, IsCheckedIn, IsDoorOf};
ghost use Rattle.model_damage.specs.Tests.{TellsWhether};

use crate::are_once;
use base_tables::are_rising;
use book_usage::{Book, Catalogue};
use model_rows::{Checkin, CheckinList};
use std::alloc::{AllocError, Global};

// Whether the item of each id stands.
fn are_items(catalogue: &Catalogue, ids: &[u64]) -> bool
    ensures { let items = catalogue.now.lists.items in
        IsTrue result ↔ AllByRecursion (λ id. has_item items id ≡ true) ids.now }
{
    ids.iter().all(|id| catalogue.item(*id).is_some())
}

// Whether the items of a list rise and stand.
fn has_items(catalogue: &Catalogue, row: &CheckinList) -> bool
    ensures { IsTrue result ↔ HasItems catalogue.now.lists.items row.now }
{
    are_rising(&row.limit_products) && are_items(catalogue, row.limit_products.as_slice())
}

// Whether it is so of each list.
fn all_have_items<B: Book>(book: &B) -> bool
    ensures { let lists = (B.state book.now).lists in
        IsTrue result ↔ AllByRecursion (HasItems lists.catalogue.items) lists.checkin_lists }
{
    let catalogue = book.catalogue();
    let lists = book.checkin_lists();
    for row in lists {
        if !has_items(catalogue, row) {
            return false;
        }
    }
    true
}

// Whether the list and the order position of a check-in stand.
fn is_checked_in<B: Book>(book: &B, row: &Checkin) -> bool
    ensures { let lists = (B.state book.now).lists in
        IsTrue result ↔ IsCheckedIn lists.checkin_lists lists.positions row.now }
{
    book.checkin_list(row.list).is_some() && book.position(row.position).is_some()
}

// Whether it is so of each check-in.
fn all_checked_in<B: Book>(book: &B) -> bool
    ensures { let lists = (B.state book.now).lists in IsTrue result
        ↔ AllByRecursion (IsCheckedIn lists.checkin_lists lists.positions) lists.checkins }
{
    let checkins = book.checkins();
    for row in checkins {
        if !is_checked_in(book, row) {
            return false;
        }
    }
    true
}

/// Whether the items of each check-in list rise and stand, the list and the order position of each check-in stand, and no
/// list has a nonce twice for a position.
pub fn is_door<B: Book>(alloc: Global, book: &B) -> Result<bool, AllocError>
    ensures { TellsWhether result (IsDoorOf (B.state book.now).lists) }
{
    let once = are_once(alloc, book)?;
    Ok(all_have_items(book) && all_checked_in(book) && once)
}
