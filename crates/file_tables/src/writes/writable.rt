//! What is written one after another.

ghost use Rattle.std.specs.Prelude.{ℕ};
ghost use Rattle.file_rows.specs.Tables.{Tables};
ghost use Rattle.file_meaning.specs.Free.{IsFree};
ghost use Rattle.file_tables.specs.Numbered.{NumbersOn};
ghost use Rattle.file_tables.specs.Steps.{made_each, next_each};

use file_schema::RowError;
use sqlite::{Alter, Transaction};
use std::alloc::Global;

/// What a commit writes. Members of quotas and of check-in lists have no id of their own: their rows are numbered on from a
/// number that is free.
pub trait Writable {
    // what it makes of the tables, by the number that is free
    ghost made: { Self → ℕ → Tables → Tables };

    // the number that is free afterwards
    ghost next: { Self → ℕ → ℕ };

    /// Writes it, and says which number is free afterwards. Refusals: 6, 60 where the file has no such table, 63.
    fn write<S: Alter>(
        &self,
        alloc: Global,
        tx: &mut Transaction<'_, S>,
        from: u64,
    ) -> Result<u64, RowError>
        ensures { NumbersOn S.Store tx.old tx.new from
            (made self.now from) (next self.now from) result };

    ghost stays_free: { (x : Self) (from : ℕ) (t : Tables) → IsFree from t → IsFree (next x from) (made x from t) };
}

/// Writes one after another, and says which number is free afterwards.
pub(crate) fn write_each<S: Alter, T: Writable>(
    alloc: Global,
    tx: &mut Transaction<'_, S>,
    things: &[T],
    from: u64,
) -> Result<u64, RowError>
    ensures { NumbersOn S.Store tx.old tx.new from
        (made_each T.made T.next things.now from) (next_each T.next things.now from) result }
{
    let mut free = from;
    'things: for thing in things {
        free = thing.write(alloc, tx, free)?;
    }
    Ok(free)
}
