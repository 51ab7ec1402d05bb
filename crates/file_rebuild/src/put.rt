//! Rows of one kind are put into a book.

ghost use Rattle.std.specs.Prelude.{◌≡◌, ◌≤◌, map, IfOk, OnOk};
ghost use Rattle.model_rows.specs.declared.changes.Change.{Change};
ghost use Rattle.model_rows.specs.Change.{changes_applied};

use crate::book::put;
use base_values::Moment;
use book_usage::Book;
use model_rows::{Change, NextIds};
use std::alloc::{AllocError, Global};

/// A row that is put into a book.
pub(crate) trait Put: Drop {
    // the change that puts it
    ghost change: { Self → Change };

    /// The change that puts it.
    fn into_change(self) -> Change
        ensures { result ≡ change self };
}

// The changes that put these rows.
fn changes<T: Put>(alloc: Global, rows: Vec<T>) -> Result<Vec<Change>, AllocError>
    ensures { IfOk result (λ all. all.items ≡ map T.change rows.items) }
{
    rows.into_iter().map(T::into_change).collect(alloc)
}

/// Puts rows one after another, at a moment that isn't before the book's. Where memory is refused the book stays as it is.
pub(crate) fn put_rows<B: Book, T: Put>(
    alloc: Global,
    book: &mut B,
    rows: Vec<T>,
    next: NextIds,
    at: Moment,
) -> Result<(), AllocError>
    requires { (B.state book.old).moment ≤ at }
    ensures done { OnOk result (B.state book.new ≡ changes_applied
        (record { list = map T.change rows.items; next = next }) at (B.state book.old)) }
    ensures moment { (B.state book.new).moment ≤ at }
{
    let changes = changes(alloc, rows)?;
    put(book, changes, next, at)
}
