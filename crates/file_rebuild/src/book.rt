//! The book of a file: its rows are put, table by table.

ghost use Rattle.std.specs.Prelude.{◌≡◌, ◌≤◌, OnOk};
ghost use Rattle.model_rows.specs.Change.{changes_applied};

use base_values::Moment;
use book_usage::Book;
use model_rows::{Change, Changes, NextIds};
use std::alloc::AllocError;

/// Makes these changes, at a moment that isn't before the book's. Where memory is refused the book stays as it is.
pub(crate) fn put<B: Book>(
    book: &mut B,
    list: Vec<Change>,
    next: NextIds,
    at: Moment,
) -> Result<(), AllocError>
    requires { (B.state book.old).moment ≤ at }
    ensures done { OnOk result (B.state book.new
        ≡ changes_applied (record { list = list.items; next = next }) at (B.state book.old)) }
    ensures moment { (B.state book.new).moment ≤ at }
{
    let changes = Changes::new(list, next);
    book.reserve(&changes)?;
    book.apply(changes, at);
    Ok(())
}
