//! A value in a column.

ghost use Rattle.std.specs.Prelude.{◌≡◌, ◌≢◌, ◌<◌, ◌^◌, ⊤, false, IfOk, IfErr, IfSome, IsTrue};
ghost use Rattle.sqlite_value.specs.declared.value.Value.{Value};
ghost use Rattle.sqlite_value.specs.declared.value.Value.TheVariants.{Null};
ghost use Rattle.sqlite_value.specs.Value.{owned};
ghost use Rattle.sqlite_value.specs.Order.{column};
ghost use Rattle.sqlite.specs.Values.{or_null, bound_value};
ghost use Rattle.file_schema.specs.declared.error.RowError.TheVariants.{Store};
ghost use Rattle.file_rows.specs.Cells as cell;
ghost use Rattle.file_rows.specs.Unread.{IsOfNoFit, UnreadAt};

use file_schema::RowError;
use sqlite::Row;
use sqlite::types::FromSql;
use sqlite_value::value::ValueRef;
use std::alloc::Global;

/// What a column can hold.
pub trait Column {
    // the value as it stands in the file
    ghost cell: { Self → Value };

    // it is within the limits of such a value
    ghost fits: { Self → Type 0 };

    /// As a parameter of a statement. It is refused with 63 where the file has no such number.
    fn bind(&self) -> Result<ValueRef<'_>, RowError>
        ensures value { IfOk result (λ v. bound_value (owned v) ≡ cell self.now) }
        ensures refused { IfErr result (λ e. e ≡ Store) };

    /// From the column at this place of a row, from 0. Refusals: 62 where it holds no such value within its limits, 6.
    fn read(alloc: Global, row: &Row, at: usize) -> Result<Self, RowError>
        ensures value { IfOk result (λ x. column row.now at ≡ cell x) }
        ensures limits { IfOk result fits }
        ensures refused { UnreadAt row.now at result (IsOfNoFit fits cell (column row.now at)) };
}

// The value of a column, of a kind that the store knows.
pub(crate) fn value_at<T: FromSql>(row: &Row, at: usize) -> Result<T, RowError>
    ensures value { IfOk result (T.FromSql.reads_as (column row.now at)) }
    ensures refused { UnreadAt row.now at result (¬ T.FromSql.is_readable (column row.now at)) }
{
    match row.get(at) {
        Ok(value) => Ok(value),
        Err(error) => Err(RowError::of(error)),
    }
}

impl Column for u64 {
    ghost cell = { cell.number };

    ghost fits = { λ n. ⊤ };

    fn bind(&self) -> Result<ValueRef<'_>, RowError> {
        match i64::try_from(*self) {
            Ok(n) => Ok(ValueRef::Int(n)),
            Err(_) => Err(RowError::Store),
        }
    }

    fn read(_: Global, row: &Row, at: usize) -> Result<u64, RowError> {
        value_at(row, at)
    }
}

impl Column for u32 {
    ghost cell = { cell.number };

    ghost fits = { λ n. n < 2 ^ 32 };

    fn bind(&self) -> Result<ValueRef<'_>, RowError> {
        Ok(ValueRef::Int(i64::from(*self)))
    }

    fn read(_: Global, row: &Row, at: usize) -> Result<u32, RowError> {
        value_at(row, at)
    }
}

impl Column for bool {
    ghost cell = { cell.truth };

    ghost fits = { λ b. ⊤ };

    fn bind(&self) -> Result<ValueRef<'_>, RowError> {
        Ok(ValueRef::Int(if *self { 1 } else { 0 }))
    }

    fn read(_: Global, row: &Row, at: usize) -> Result<bool, RowError> {
        match value_at(row, at) {
            Ok(0i64) => Ok(false),
            Ok(1i64) => Ok(true),
            Ok(_) => Err(RowError::Damaged),
            Err(error) => Err(error),
        }
    }
}

/// What may be null.
impl<T: Column + Drop> Column for Option<T> {
    ghost cell = { or_null T.cell };

    ghost fits = { λ o. IfSome o T.fits };

    fn bind(&self) -> Result<ValueRef<'_>, RowError> {
        match self {
            None => Ok(ValueRef::Null),
            Some(value) => value.bind(),
        }
    }

    fn read(alloc: Global, row: &Row, at: usize) -> Result<Option<T>, RowError> {
        match is_null(row, at) {
            Ok(true) => Ok(None),
            Ok(false) => match T::read(alloc, row, at) {
                Ok(value) => Ok(Some(value)),
                Err(error) => Err(error),
            },
            Err(error) => Err(error),
        }
    }
}

fn is_null(row: &Row, at: usize) -> Result<bool, RowError>
    ensures null { IfOk result (λ null. IsTrue null → column row.now at ≡ Null) }
    ensures other { IfOk result (λ null. null ≡ false → column row.now at ≢ Null) }
    ensures refused { UnreadAt row.now at result ⊥ }
{
    match row.get_ref(at) {
        Ok(ValueRef::Null) => Ok(true),
        Ok(_) => Ok(false),
        Err(error) => Err(RowError::of(error)),
    }
}
