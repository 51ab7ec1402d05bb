//! What is read of a file whole: tables one after another.

ghost use Rattle.std.specs.Prelude.{◌≡◌, ℕ, max, false, All};
ghost use Rattle.sqlite_trees.specs.Tree.{Trees};
ghost use Rattle.sqlite_schema.specs.declared.schema.Schema.{Schema};
ghost use Rattle.file_reads.specs.Damage.{HasMeaning, HasNoMeaning};
ghost use Rattle.file_scan.specs.Reading.{ReadsTables, HoldsTable, IsDamagedTable, OfBoth, Both, Either};

use crate::progress::Progress;
use crate::table::rows_in;
use file_reads::Loaded;
use file_schema::RowError;
use sqlite::{Alter, Connection};
use std::alloc::Global;

/// What can be read of a file.
pub(crate) trait Whole: Drop {
    // it is what trees show
    ghost is_in: { Trees → Self → Type 0 };

    // its values are within their limits
    ghost fits: { Self → Type 0 };

    // the first version that has all of these tables
    ghost since: { ℕ };

    // a file has all of these tables, or lacks one of them
    ghost stands: { Schema → Type 0 };

    ghost lacks: { Schema → Type 0 };

    // a row of one of these tables is that of no value within its limits
    ghost is_damaged: { Trees → Type 0 };

    /// Reads it. The connection stays as it is.
    /// Refusals: 6, 60 where the file lacks one of the tables with these columns, 62 where a value can't be read, 63. That a table
    /// is lacking is told though a value of another one can't be read.
    fn read<S: Alter, P: Progress>(
        alloc: Global,
        conn: &mut Connection<S>,
        progress: &mut P,
    ) -> Result<Self, RowError>
        requires { conn.old.in_transaction ≡ false }
        ensures { ReadsTables since is_in fits stands lacks is_damaged
            S.Store conn.old conn.new result };
}

/// The rows of a single table.
impl<T: Loaded> Whole for Vec<T> {
    ghost is_in = { λ trees rows. HoldsTable T.as_row T.tree trees rows.items };

    ghost fits = { λ rows. All T.fits rows.items };

    ghost since = { T.since };

    ghost stands = { λ s. HasMeaning s T.text };

    ghost lacks = { λ s. HasNoMeaning s T.text };

    ghost is_damaged = { IsDamagedTable T.as_row T.fits T.tree };

    fn read<S: Alter, P: Progress>(
        alloc: Global,
        conn: &mut Connection<S>,
        progress: &mut P,
    ) -> Result<Vec<T>, RowError> {
        rows_in(alloc, conn, progress)
    }
}

/// Reads the first, and then the second.
pub(crate) fn read_both<S: Alter, A: Whole, B: Whole, P: Progress>(
    alloc: Global,
    conn: &mut Connection<S>,
    progress: &mut P,
) -> Result<(A, B), RowError>
    requires { conn.old.in_transaction ≡ false }
    ensures { ReadsTables (max A.since B.since) (λ trees. OfBoth (A.is_in trees) (B.is_in trees))
        (OfBoth A.fits B.fits) (Both A.stands B.stands) (Either A.lacks B.lacks)
        (Either A.is_damaged B.is_damaged) S.Store conn.old conn.new result }
{
    match A::read(alloc, conn, progress) {
        Ok(first) => match B::read(alloc, conn, progress) {
            Ok(second) => Ok((first, second)),
            Err(error) => Err(error),
        },
        Err(RowError::Damaged) => match B::read(alloc, conn, progress) {
            Ok(_) => Err(RowError::Damaged),
            Err(error) => Err(error),
        },
        Err(error) => Err(error),
    }
}

impl<A: Whole, B: Whole> Whole for (A, B) {
    ghost is_in = { λ trees. OfBoth (A.is_in trees) (B.is_in trees) };

    ghost fits = { OfBoth A.fits B.fits };

    ghost since = { max A.since B.since };

    ghost stands = { Both A.stands B.stands };

    ghost lacks = { Either A.lacks B.lacks };

    ghost is_damaged = { Either A.is_damaged B.is_damaged };

    fn read<S: Alter, P: Progress>(
        alloc: Global,
        conn: &mut Connection<S>,
        progress: &mut P,
    ) -> Result<(A, B), RowError> {
        read_both(alloc, conn, progress)
    }
}
