//! Numbers within limits in columns.

ghost use Rattle.std.specs.Prelude.{◌≡◌, ◌≢◌, ◌≤◌, ℕ, IfOk};
ghost use Rattle.sqlite_value.specs.declared.value.Value.TheVariants.{Int};
ghost use Rattle.sqlite_value.specs.Order.{column};
ghost use Rattle.base_values.specs.Counts.{IsUses, IsSize, IsPriority};
ghost use Rattle.base_values.specs.Moments.{IsMoment};
ghost use Rattle.base_values.specs.Money.{IsMoney};
ghost use Rattle.file_rows.specs.Cells as cell;
ghost use Rattle.file_rows.specs.Unread.{UnreadAt};

use crate::column::{Column, value_at};
use base_values::cents::LAST_CENTS;
use base_values::moment::LAST_MOMENT;
use base_values::{Cents, MOST_PLACES, MOST_PRIORITY, MOST_USES, Moment, Priority, Size, Uses};
use file_schema::RowError;
use sqlite::Row;
use sqlite_value::value::ValueRef;
use std::alloc::Global;

// The number in a column, which has to be in this range.
pub(crate) fn number_in(row: &Row, at: usize, from: u64, to: u64) -> Result<u64, RowError>
    ensures value { IfOk result (λ n. column row.now at ≡ cell.number n) }
    ensures limits { IfOk result (λ n. (from ≤ n) × (n ≤ to)) }
    ensures refused { UnreadAt row.now at result
        ((n : ℕ) → from ≤ n → n ≤ to → column row.now at ≢ cell.number n) }
{
    match value_at::<u64>(row, at) {
        Ok(n) if from <= n && n <= to => Ok(n),
        Ok(_) => Err(RowError::Damaged),
        Err(error) => Err(error),
    }
}

impl Column for Cents {
    ghost cell = { cell.number };

    ghost fits = { IsMoney };

    fn bind(&self) -> Result<ValueRef<'_>, RowError> {
        Ok(ValueRef::Int(self.get() as i64))
    }

    fn read(_: Global, row: &Row, at: usize) -> Result<Cents, RowError> {
        match number_in(row, at, 0, LAST_CENTS) {
            Ok(n) => Ok(Cents::new(n)),
            Err(error) => Err(error),
        }
    }
}

impl Column for Moment {
    ghost cell = { cell.number };

    ghost fits = { IsMoment };

    fn bind(&self) -> Result<ValueRef<'_>, RowError> {
        Ok(ValueRef::Int(self.get() as i64))
    }

    fn read(_: Global, row: &Row, at: usize) -> Result<Moment, RowError> {
        match number_in(row, at, 0, LAST_MOMENT) {
            Ok(n) => Ok(Moment::new(n)),
            Err(error) => Err(error),
        }
    }
}

impl Column for Uses {
    ghost cell = { cell.number };

    ghost fits = { IsUses };

    fn bind(&self) -> Result<ValueRef<'_>, RowError> {
        Ok(ValueRef::Int(i64::from(self.get())))
    }

    fn read(_: Global, row: &Row, at: usize) -> Result<Uses, RowError> {
        match number_in(row, at, 1, MOST_USES) {
            Ok(n) => Ok(Uses::new(n as u32)),
            Err(error) => Err(error),
        }
    }
}

impl Column for Size {
    ghost cell = { cell.number };

    ghost fits = { IsSize };

    fn bind(&self) -> Result<ValueRef<'_>, RowError> {
        Ok(ValueRef::Int(i64::from(self.get())))
    }

    fn read(_: Global, row: &Row, at: usize) -> Result<Size, RowError> {
        match number_in(row, at, 0, MOST_PLACES) {
            Ok(n) => Ok(Size::new(n as u32)),
            Err(error) => Err(error),
        }
    }
}

impl Column for Priority {
    ghost cell = { Int };

    ghost fits = { IsPriority };

    fn bind(&self) -> Result<ValueRef<'_>, RowError> {
        Ok(ValueRef::Int(i64::from(self.get())))
    }

    fn read(_: Global, row: &Row, at: usize) -> Result<Priority, RowError> {
        match value_at::<i32>(row, at) {
            Ok(n) if -MOST_PRIORITY <= n && n <= MOST_PRIORITY => Ok(Priority::new(n)),
            Ok(_) => Err(RowError::Damaged),
            Err(error) => Err(error),
        }
    }
}
