//! Columns that stand side by side, read one after another.

ghost use Rattle.std.specs.Prelude.{◌≡◌, ◌≤◌, length, drop, [], ◌∷◌, ⊤, IfOk, IfErr};
ghost use Rattle.sqlite_value.specs.Order.{Row as Shown};
ghost use Rattle.file_rows.specs.Unread.{IsUnread, IsOfNoFit};

use file_rows::Column;
use file_schema::RowError;
use sqlite::Row;
use std::alloc::Global;

/// The values of columns that stand side by side, up to the last one.
pub(crate) trait Columns: Sized {
    // the values as they stand in the file
    ghost cells: { Self → Shown };

    // each is within its limits
    ghost fit: { Self → Type 0 };

    /// From the columns of a row from this place on. Refusals: 62 where they are more or fewer, or one holds no such value, 6.
    fn read_from(alloc: Global, row: &Row, at: usize) -> Result<Self, RowError>
        requires { at ≤ length row.now }
        ensures values { IfOk result (λ x. drop at row.now ≡ cells x) }
        ensures limits { IfOk result fit }
        ensures refused { IfErr result (IsUnread (IsOfNoFit fit cells (drop at row.now))) };
}

/// No column is left.
impl Columns for () {
    ghost cells = { λ x. [] };

    ghost fit = { λ x. ⊤ };

    #[tactic(auto, using(crate::proofs::ColumnLemmas::split_at, crate::proofs::ColumnLemmas::past_end))]
    fn read_from(_: Global, row: &Row, at: usize) -> Result<(), RowError> {
        if at < row.column_count() {
            return Err(RowError::Damaged);
        }
        Ok(())
    }
}

/// A column, and those behind it.
impl<A: Column + Drop, B: Columns> Columns for (A, B) {
    ghost cells = { λ x. A.Column.cell x.0 ∷ B.cells x.1 };

    ghost fit = { λ x. A.Column.fits x.0 × B.fit x.1 };

    #[tactic(auto, using(crate::proofs::ColumnLemmas::split_at, crate::proofs::ColumnLemmas::past_end))]
    fn read_from(alloc: Global, row: &Row, at: usize) -> Result<(A, B), RowError> {
        if at >= row.column_count() {
            return Err(RowError::Damaged);
        }
        match A::read(alloc, row, at) {
            Ok(first) => match B::read_from(alloc, row, at + 1) {
                Ok(others) => Ok((first, others)),
                Err(error) => Err(error),
            },
            Err(error) => Err(error),
        }
    }
}
