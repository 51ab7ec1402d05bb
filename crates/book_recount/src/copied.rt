//! Which counts changes change that no draft has counted: they are made in a copy.

ghost use Rattle.std.specs.Prelude.{◌≡◌, ◌≤◌, ◌++◌, [], ◌∷◌, map, IfOk, OnOk};
ghost use Rattle.model_rows.specs.declared.changes.Change.{Change};
ghost use Rattle.model_rows.specs.declared.changes.Change.TheVariants.{PutQuota, PutVoucher, PutCart, PutOrder, PutPosition, PutWaiting, PutCheckin};
ghost use Rattle.book_usage.specs.Dues.{counts_of_changes};
ghost use Rattle.book_recount.specs.Copied.{counted_rows, puts_of};

use crate::recount::Recount;
use base_tables::{Row, Sparse};
use base_values::Moment;
use book_counts_to_write::counts_between;
use book_usage::Book;
use model_catalogue::Quota;
use model_rows::{CartPos, Change, Changes, Checkin, CountRows, Order, OrderPos, Voucher, Waiting};
use std::alloc::{AllocError, Global};

/// The counts that are to be written with any changes of a book, at a moment that isn't before the book's: those of the
/// quotas and vouchers that are new or whose counts differ, and the ids of the vouchers that are gone.
/// It is refused where there is no memory.
/// All rows that count are copied, the changes are made in the copy, and each quota of it is counted over all its rows.
pub fn counts_after<B: Book>(
    book: &B,
    alloc: Global,
    changes: Changes,
    at: Moment,
) -> Result<CountRows, AllocError>
    requires moment { (B.state book.now).moment ≤ at }
    ensures { IfOk result (λ rows. rows ≡ counts_of_changes changes at (B.state book.now)) }
{
    let mut copy = copy_of(book, alloc)?;
    copy.reserve(&changes)?;
    copy.apply(changes, at);
    let rows = counts_between(alloc, book, &copy)?;
    Ok(rows)
}

// A copy of the rows that count.
fn copy_of<B: Book>(book: &B, alloc: Global) -> Result<Recount, AllocError>
    ensures lists { IfOk result (λ copy. copy.state.lists ≡ counted_rows (B.state book.now).lists) }
    ensures moment { IfOk result (λ copy. copy.state.moment ≡ (B.state book.now).moment) }
{
    book.recall_invariant();
    book.catalogue().recall_invariant();
    let list = puts_of(book, alloc)?;
    let changes = Changes::new(list, book.next_ids());
    let mut copy = Recount::new(alloc);
    copy.reserve(&changes)?;
    copy.apply(changes, book.moment());
    Ok(copy)
}

// The changes that put them.
fn puts_of<B: Book>(book: &B, alloc: Global) -> Result<Vec<Change>, AllocError>
    ensures { IfOk result (λ list. list.items ≡ puts_of (B.state book.now).lists) }
{
    let mut list = Vec::new(alloc);
    add_rows(alloc, book.catalogue().quotas(), &mut list)?;
    add_rows(alloc, book.vouchers(), &mut list)?;
    add_rows(alloc, book.orders(), &mut list)?;
    add_rows(alloc, book.positions(), &mut list)?;
    add_sparse(alloc, book.carts(), &mut list)?;
    add_sparse(alloc, book.waiting(), &mut list)?;
    add_rows(alloc, book.checkins(), &mut list)?;
    Ok(list)
}

// Adds the changes that put these rows.
fn add_rows<T: Put>(alloc: Global, rows: &[T], list: &mut Vec<Change>) -> Result<(), AllocError>
    ensures { OnOk result (list.new.items ≡ list.old.items ++ map T.change rows.now) }
{
    for row in rows {
        add_row(alloc, row, list)?;
    }
    Ok(())
}

// Adds the changes that put these rows, which don't lie side by side.
fn add_sparse<T: Put>(
    alloc: Global,
    rows: &Sparse<T>,
    list: &mut Vec<Change>,
) -> Result<(), AllocError>
    ensures { OnOk result (list.new.items ≡ list.old.items ++ map T.change rows.now.rows) }
{
    for row in rows.iter() {
        add_row(alloc, row, list)?;
    }
    Ok(())
}

fn add_row<T: Put>(alloc: Global, row: &T, list: &mut Vec<Change>) -> Result<(), AllocError>
    ensures { OnOk result (list.new.items ≡ list.old.items ++ T.change row.now ∷ []) }
{
    let change = row.to_change(alloc)?;
    Ok(list.push(change)?)
}

// A row that can be copied into another book.
trait Put: Row {
    // The change that puts it.
    ghost change: { Self → Change };

    // The change that puts a copy of it.
    fn to_change(&self, alloc: Global) -> Result<Change, AllocError>
        ensures { IfOk result (λ put. put ≡ change self.now) };
}

impl Put for Quota {
    ghost change = { λ r. PutQuota r };

    fn to_change(&self, alloc: Global) -> Result<Change, AllocError> {
        Ok(Change::PutQuota(self.copy(alloc)?))
    }
}

impl Put for Voucher {
    ghost change = { λ r. PutVoucher r };

    fn to_change(&self, alloc: Global) -> Result<Change, AllocError> {
        Ok(Change::PutVoucher(self.copy(alloc)?))
    }
}

impl Put for CartPos {
    ghost change = { λ r. PutCart r };

    fn to_change(&self, alloc: Global) -> Result<Change, AllocError> {
        Ok(Change::PutCart(self.copy(alloc)?))
    }
}

impl Put for Order {
    ghost change = { λ r. PutOrder r };

    fn to_change(&self, alloc: Global) -> Result<Change, AllocError> {
        Ok(Change::PutOrder(self.copy(alloc)?))
    }
}

impl Put for OrderPos {
    ghost change = { λ r. PutPosition r };

    fn to_change(&self, alloc: Global) -> Result<Change, AllocError> {
        Ok(Change::PutPosition(self.copy(alloc)?))
    }
}

impl Put for Waiting {
    ghost change = { λ r. PutWaiting r };

    fn to_change(&self, alloc: Global) -> Result<Change, AllocError> {
        Ok(Change::PutWaiting(self.copy(alloc)?))
    }
}

impl Put for Checkin {
    ghost change = { λ r. PutCheckin r };

    fn to_change(&self, alloc: Global) -> Result<Change, AllocError> {
        Ok(Change::PutCheckin(self.copy(alloc)?))
    }
}
