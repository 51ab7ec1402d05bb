//! The test of ids: in each table they rise, count from 1, and are below the next one.

ghost use Rattle.std.specs.Prelude.{◌↔◌, ◌≤◌, ◌<◌, IsTrue};
ghost use Rattle.std.specs.List.{AllByRecursion};
ghost use Rattle.model_invariant.specs.Ids.{AreNumbered, AllNumbered};
ghost use Rattle.model_damage.specs.Told.{lists_of};

use base_tables::{Row, rises};
use model_damage::FileRows;

/// Whether each id is at least 1.
pub(crate) fn are_from_one<T: Row>(rows: &[T]) -> bool
    ensures { IsTrue result ↔ AllByRecursion (λ row. 1 ≤ T.key row) rows.now }
{
    rows.iter().all(|row| row.id() >= 1)
}

// Whether each id is below the next one.
fn are_below<T: Row>(next: u64, rows: &[T]) -> bool
    ensures { IsTrue result ↔ AllByRecursion (λ row. T.key row < next) rows.now }
{
    rows.iter().all(|row| row.id() < next)
}

// Whether ids rise, and each is at least 1 and below the next one.
fn are_numbered<T: Row>(next: u64, rows: &[T]) -> bool
    ensures { IsTrue result ↔ AreNumbered T.key next rows.now }
{
    rises(rows) && (are_from_one(rows) && are_below(next, rows))
}

/// Whether in each table ids rise, and each is at least 1 and below the next one of its table.
pub fn keeps_ids(rows: &FileRows) -> bool
    ensures { IsTrue result ↔ AllNumbered rows.now.next (lists_of rows.now) }
{
    let next = &rows.next;
    are_numbered(next.item, &rows.items)
        && are_numbered(next.variation, &rows.variations)
        && are_numbered(next.quota, &rows.quotas)
        && are_numbered(next.voucher, &rows.vouchers)
        && are_numbered(next.cart, &rows.carts)
        && are_numbered(next.order, &rows.orders)
        && are_numbered(next.position, &rows.positions)
        && are_numbered(next.waiting, &rows.waiting)
        && are_numbered(next.list, &rows.checkin_lists)
        && are_numbered(next.checkin, &rows.checkins)
}
