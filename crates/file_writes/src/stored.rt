//! A row that has its place in a table of the file.

ghost use Rattle.std.specs.Prelude.{ℕ, IfOk, if◌then◌else◌};
ghost use Rattle.sqlite_value.specs.Order.{Row};
ghost use Rattle.file_schema.specs.Inside.{StaysInside, RunsInside};
ghost use Rattle.file_rows.specs.Tables.{Tables};
ghost use Rattle.file_rows.specs.Changes.{Changes};
ghost use Rattle.file_rows.specs.Written.{WhileInside, WritesInside};
ghost use Rattle.file_writes.specs.Statements.{AreStatementsOf};

use crate::bound::run_bound;
use file_rows::Column;
use file_schema::RowError;
use sqlite::{Alter, Transaction};

/// The statements on one row of a table, whose first parameter is the row's number.
#[derive(Clone, Copy)]
pub struct Statements {
    /// INSERT of all columns.
    pub insert: &'static str,
    /// UPDATE of all columns of the row.
    pub update: &'static str,
    /// DELETE of the row.
    pub remove: &'static str,
}

/// A row that has its place in a table of the file. Each call is one statement inside a transaction, and leaves the last
/// commit as it is. Refusals: 6, 60 where the file has no such table, 63.
pub trait Stored {
    // the row's id
    ghost key: { Self → ℕ };

    // the row as an INSERT of all columns writes it
    ghost as_row: { Self → Row };

    // the tables with this row more, and without the rows of an id
    ghost with_row: { Self → Tables → Tables };

    ghost without_row: { ℕ → Tables → Tables };

    /// The statements of the table.
    fn statements() -> Statements
        ensures { AreStatementsOf as_row key with_row without_row
            result.insert.now result.update.now result.remove.now };

    /// Runs a statement whose parameters are the row's columns in order. Says how many rows it wrote.
    fn run<S: Alter>(&self, tx: &mut Transaction<'_, S>, sql: &str) -> Result<usize, RowError>
        ensures inside { StaysInside S.Store tx.old.conn tx.new.conn }
        ensures ran { RunsInside S.Store tx.old tx.new sql.now (as_row self.now) result };

    /// Adds the row, whose id has to be new.
    final fn insert<S: Alter>(&self, tx: &mut Transaction<'_, S>) -> Result<(), RowError>
        ensures { WritesInside S.Store tx.old tx.new (Changes (with_row self.now)) result }
    {
        self.run(tx, Self::statements().insert)?;
        Ok(())
    }

    /// Puts the row in the place of the one with its id, and says whether there was one.
    final fn update<S: Alter>(&self, tx: &mut Transaction<'_, S>) -> Result<bool, RowError>
        ensures inside { StaysInside S.Store tx.old.conn tx.new.conn }
        ensures written { WhileInside S.Store tx.old tx.new (λ old new. IfOk result (λ stood.
            Changes (if stood then (λ t. with_row self.now (without_row (key self.now) t))
            else without_row (key self.now)) old new)) }
    {
        match self.run(tx, Self::statements().update)? {
            0 => Ok(false),
            1 => Ok(true),
            _ => Err(RowError::Store),
        }
    }

    /// Removes the row of this id, if there is one.
    final fn remove<S: Alter>(tx: &mut Transaction<'_, S>, id: u64) -> Result<(), RowError>
        ensures { WritesInside S.Store tx.old tx.new (Changes (without_row id)) result }
    {
        run_bound(tx, Self::statements().remove, &[id.bind()])?;
        Ok(())
    }
}

/// Puts the row in the place of its id, instead of the row that stood there.
pub fn put<S: Alter, T: Stored>(tx: &mut Transaction<'_, S>, row: &T) -> Result<(), RowError>
    ensures { WritesInside S.Store tx.old tx.new
        (Changes (λ t. T.with_row row.now (T.without_row (T.key row.now) t))) result }
{
    let stood = row.update(tx)?;
    if stood {
        return Ok(());
    }
    row.insert(tx)
}
