//! Which counts differ in how many tickets are out.

ghost use Rattle.std.specs.Prelude.{◌≡◌, IfOk};
ghost use Rattle.model_rows.specs.CountRows.{exits_after};

use crate::told::has_exits;
use book_usage::Book;
use model_rows::QuotaCount;
use std::alloc::{AllocError, Global};

/// The counts among these that differ in how many tickets are out from what the book has, or whose quota it hasn't. Each costs a look-up of
/// its quota.
pub fn exits_that_differ<B: Book>(
    book: &B,
    alloc: Global,
    counts: &[QuotaCount],
) -> Result<Vec<QuotaCount>, AllocError>
    ensures { IfOk result (λ rows. rows.items ≡ exits_after (B.state book.now) counts.now) }
{
    counts
        .iter()
        .filter(|count| !has_exits(book, count))
        .copied()
        .collect(alloc)
}
