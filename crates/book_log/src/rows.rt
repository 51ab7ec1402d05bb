//! The rows of a book with the changes of a log: what the last change of a row puts, or what stands in the book.

ghost use Rattle.std.specs.Prelude.{◌≡◌, ◌≤◌, length, take};
ghost use Rattle.std.specs.Option.{option_copied};
ghost use Rattle.model_catalogue.specs.CatalogueLists.{quota_at};
ghost use Rattle.model_rows.specs.Change.{after_all};
ghost use Rattle.model_rows.specs.Passages.{last_at};
ghost use Rattle.model_rows.specs.Lists.{Lists, voucher_at, cart_at, order_at, position_at, waiting_at, checkin_list_at, checkin_at};
ghost use Rattle.book_log.specs.NewCheckins.{AreNewCheckins, last_with, last_with_all};
ghost use Rattle.book_log.specs.RowsAfter.{IsRowAfter};
ghost use Rattle.book_log.specs.Puts.{quota_put, voucher_put, cart_put, order_put, position_put, waiting_put, checkin_list_put, checkin_put};

use crate::change_log::{ChangeLog, Table};
use model_catalogue::Quota;
use model_rows::passages::later;
use model_rows::{
    CartPos, Change, Checkin, CheckinList, Order, OrderPos, Passage, Voucher, Waiting,
};

/// The quota of an id with all changes, where this one stands before them.
pub fn quota_in<'l>(log: &'l ChangeLog, id: u64, before: Option<&'l Quota>) -> Option<&'l Quota>
    ensures { IsRowAfter log.now (λ l. quota_at id l.catalogue) before.entry result }
{
    match log.last(Table::Quotas, id) {
        None => before,
        Some(place) => quota_put(log.get(place)),
    }
}

/// The voucher of an id with all changes, where this one stands before them.
pub fn voucher_in<'l>(
    log: &'l ChangeLog,
    id: u64,
    before: Option<&'l Voucher>,
) -> Option<&'l Voucher>
    ensures { IsRowAfter log.now (voucher_at id) before.entry result }
{
    match log.last(Table::Vouchers, id) {
        None => before,
        Some(place) => voucher_put(log.get(place)),
    }
}

/// The cart position of an id with all changes, where this one stands before them.
pub fn cart_in<'l>(log: &'l ChangeLog, id: u64, before: Option<&'l CartPos>) -> Option<&'l CartPos>
    ensures { IsRowAfter log.now (cart_at id) before.entry result }
{
    match log.last(Table::Carts, id) {
        None => before,
        Some(place) => cart_put(log.get(place)),
    }
}

/// The order of an id with all changes, where this one stands before them.
pub fn order_in<'l>(log: &'l ChangeLog, id: u64, before: Option<&'l Order>) -> Option<&'l Order>
    ensures { IsRowAfter log.now (order_at id) before.entry result }
{
    match log.last(Table::Orders, id) {
        None => before,
        Some(place) => order_put(log.get(place)),
    }
}

/// The order position of an id with all changes, where this one stands before them.
pub fn position_in<'l>(
    log: &'l ChangeLog,
    id: u64,
    before: Option<&'l OrderPos>,
) -> Option<&'l OrderPos>
    ensures { IsRowAfter log.now (position_at id) before.entry result }
{
    match log.last(Table::Positions, id) {
        None => before,
        Some(place) => position_put(log.get(place)),
    }
}

/// The waiting entry of an id with all changes, where this one stands before them.
pub fn waiting_in<'l>(
    log: &'l ChangeLog,
    id: u64,
    before: Option<&'l Waiting>,
) -> Option<&'l Waiting>
    ensures { IsRowAfter log.now (waiting_at id) before.entry result }
{
    match log.last(Table::Waiting, id) {
        None => before,
        Some(place) => waiting_put(log.get(place)),
    }
}

/// The check-in list of an id with all changes, where this one stands before them.
pub fn checkin_list_in<'l>(
    log: &'l ChangeLog,
    id: u64,
    before: Option<&'l CheckinList>,
) -> Option<&'l CheckinList>
    ensures { IsRowAfter log.now (checkin_list_at id) before.entry result }
{
    match log.last(Table::CheckinLists, id) {
        None => before,
        Some(place) => checkin_list_put(log.get(place)),
    }
}

/// The check-in of an id with all changes, where this one stands before them.
pub fn checkin_in<'l>(
    log: &'l ChangeLog,
    id: u64,
    before: Option<&'l Checkin>,
) -> Option<&'l Checkin>
    ensures { IsRowAfter log.now (checkin_at id) before.entry result }
{
    match log.last(Table::Checkins, id) {
        None => before,
        Some(place) => checkin_put(log.get(place)),
    }
}

/// The last check-in of a position with all changes, where this one is it before them, and each check-in that they put
/// is a new one. It goes over the changes where they put any.
pub fn last_checkin_in(log: &ChangeLog, position: u64, before: Option<Passage>) -> Option<Passage>
    ensures { (lists : Lists) → AreNewCheckins log.now lists
        → before ≡ last_at position lists.checkins
        → result ≡ last_at position (after_all log.now lists).checkins }
{
    if !log.touches(Table::Checkins) {
        return before;
    }
    last_with_all(log.as_slice(), position, before)
}

// The last check-in of a position, change by change.
fn last_with_all(changes: &[Change], position: u64, before: Option<Passage>) -> Option<Passage>
    ensures { result ≡ last_with_all position changes.now before }
{
    let mut last = before;
    for change in changes {
        last = last_with(last, position, change);
    }
    last
}

// The last check-in of a position, where a change may put one more.
fn last_with(last: Option<Passage>, position: u64, change: &Change) -> Option<Passage>
    ensures { result ≡ last_with position change.now last }
{
    match change {
        Change::PutCheckin(row) if row.position == position => {
            Some(later(last, Passage::of(row)))
        }
        _ => last,
    }
}

/// The cart position of an id after the first `count` changes, where this one stands before them.
pub fn cart_after<'l>(
    log: &'l ChangeLog,
    count: usize,
    id: u64,
    before: Option<&'l CartPos>,
) -> Option<&'l CartPos>
    requires { count ≤ length log.now }
    ensures { IsRowAfter (take count log.now) (cart_at id) before.entry result }
{
    match log.last_before(count, Table::Carts, id) {
        None => before,
        Some(place) => cart_put(log.get(place)),
    }
}

/// The order of an id after the first `count` changes, where this one stands before them.
pub fn order_after<'l>(
    log: &'l ChangeLog,
    count: usize,
    id: u64,
    before: Option<&'l Order>,
) -> Option<&'l Order>
    requires { count ≤ length log.now }
    ensures { IsRowAfter (take count log.now) (order_at id) before.entry result }
{
    match log.last_before(count, Table::Orders, id) {
        None => before,
        Some(place) => order_put(log.get(place)),
    }
}

/// The waiting entry of an id after the first `count` changes, where this one stands before them.
pub fn waiting_after<'l>(
    log: &'l ChangeLog,
    count: usize,
    id: u64,
    before: Option<&'l Waiting>,
) -> Option<&'l Waiting>
    requires { count ≤ length log.now }
    ensures { IsRowAfter (take count log.now) (waiting_at id) before.entry result }
{
    match log.last_before(count, Table::Waiting, id) {
        None => before,
        Some(place) => waiting_put(log.get(place)),
    }
}

// The quota that a change puts.
fn quota_put(change: &Change) -> Option<&Quota>
    ensures { option_copied result ≡ quota_put change.now }
{
    match change {
        Change::PutQuota(row) => Some(row),
        _ => None,
    }
}

// The voucher that a change puts.
fn voucher_put(change: &Change) -> Option<&Voucher>
    ensures { option_copied result ≡ voucher_put change.now }
{
    match change {
        Change::PutVoucher(row) => Some(row),
        _ => None,
    }
}

// The cart position that a change puts.
fn cart_put(change: &Change) -> Option<&CartPos>
    ensures { option_copied result ≡ cart_put change.now }
{
    match change {
        Change::PutCart(row) => Some(row),
        _ => None,
    }
}

// The order that a change puts.
fn order_put(change: &Change) -> Option<&Order>
    ensures { option_copied result ≡ order_put change.now }
{
    match change {
        Change::PutOrder(row) => Some(row),
        _ => None,
    }
}

// The order position that a change puts.
fn position_put(change: &Change) -> Option<&OrderPos>
    ensures { option_copied result ≡ position_put change.now }
{
    match change {
        Change::PutPosition(row) => Some(row),
        _ => None,
    }
}

// The waiting entry that a change puts.
fn waiting_put(change: &Change) -> Option<&Waiting>
    ensures { option_copied result ≡ waiting_put change.now }
{
    match change {
        Change::PutWaiting(row) => Some(row),
        _ => None,
    }
}

// The check-in list that a change puts.
fn checkin_list_put(change: &Change) -> Option<&CheckinList>
    ensures { option_copied result ≡ checkin_list_put change.now }
{
    match change {
        Change::PutCheckinList(row) => Some(row),
        _ => None,
    }
}

// The check-in that a change puts.
fn checkin_put(change: &Change) -> Option<&Checkin>
    ensures { option_copied result ≡ checkin_put change.now }
{
    match change {
        Change::PutCheckin(row) => Some(row),
        _ => None,
    }
}
