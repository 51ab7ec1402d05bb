//! The next ids of a box office: are they in range?

ghost use Rattle.std.specs.Prelude.{◌↔◌, IsTrue};
ghost use Rattle.model_invariant.specs.Range.{IsNextId, AllNextIds};

use base_values::codes::LAST_ORDER;
use model_catalogue::LAST_ID;
use model_rows::NextIds;

/// Whether the next id is at least 1, and at most the one behind the last.
pub fn is_next_id(last: u64, next: u64) -> bool
    ensures { IsTrue result ↔ IsNextId last next }
{
    1 <= next && next - 1 <= last
}

/// Whether it is so of the next id of each table of rows.
pub fn are_next_ids(next: &NextIds) -> bool
    ensures { IsTrue result ↔ AllNextIds next.now }
{
    is_next_id(LAST_ID, next.item)
        && is_next_id(LAST_ID, next.variation)
        && is_next_id(LAST_ID, next.quota)
        && is_next_id(LAST_ID, next.voucher)
        && is_next_id(LAST_ID, next.cart)
        && is_next_id(u64::from(LAST_ORDER), next.order)
        && is_next_id(LAST_ID, next.position)
        && is_next_id(LAST_ID, next.waiting)
        && is_next_id(LAST_ID, next.list)
        && is_next_id(LAST_ID, next.checkin)
}
