//! Which counts are to be written with changes.

ghost use Rattle.std.specs.Prelude.{◌≡◌, ◌≤◌, IfOk};
ghost use Rattle.model_rows.specs.Change.{changes_applied, after_all};
ghost use Rattle.model_rows.specs.CountRows.{counts_after};
ghost use Rattle.book_tally.specs.CountDeltas.{AreCountDeltas};

use crate::due::due_quotas;
use crate::exits::exits_that_differ;
use crate::walk::{Walk, ids_rise, put_quotas};
use base_values::Moment;
use book_tally::CountDeltas;
use book_usage::Dues;
use model_rows::{Changes, CountRows};
use std::alloc::{AllocError, Global};

/// The counts that are to be written with changes of a book, at a moment that isn't before the book's, by what they shift:
/// those of the quotas and vouchers that are new or whose counts differ, which of these differ in how many tickets are
/// out, and the ids of the vouchers that are gone.
/// It is refused where there is no memory, and where a count doesn't fit in 64 bits.
/// Only those quotas are asked that the shifts name, that changes put, or that what came due reaches. No row is looked up but
/// what came due; a quota that is new, or whose products change, or whether it releases places, is counted over all rows.
pub fn counts_by_shifts<B: Dues>(
    book: &B,
    alloc: Global,
    changes: &Changes,
    deltas: &CountDeltas,
    at: Moment,
) -> Result<CountRows, AllocError>
    requires moment { (B.state book.now).moment ≤ at }
    requires deltas { AreCountDeltas (B.state book.now).lists
        (after_all changes.now.list (B.state book.now).lists) at deltas.now }
    ensures { IfOk result (λ rows. rows
        ≡ counts_after (B.state book.now) (changes_applied changes.now at (B.state book.now))) }
{
    ids_rise(book);
    let changes = changes.as_slice();
    let put = put_quotas(alloc, changes)?;
    let due = due_quotas(book, alloc, at)?;
    let walk = Walk {
        book,
        changes,
        deltas,
        at,
        put: &put,
        due: &due,
    };
    let ids = walk.asked(alloc)?;
    let quotas = walk.quotas(alloc, ids.as_slice())?;
    let exits = exits_that_differ(book, alloc, quotas.as_slice())?;
    let vouchers = walk.vouchers(alloc)?;
    let gone = walk.gone(alloc)?;
    Ok(CountRows::new(quotas, exits, vouchers, gone))
}
