//! One statement inside a transaction.

ghost use Rattle.sqlite.specs.Values.{bound};
ghost use Rattle.file_schema.specs.Inside.{StaysInside, RunsInside};

use crate::RowError;
use sqlite::{Alter, Transaction};
use sqlite_value::value::ValueRef;

/// Runs a statement that shows no rows. Says how many rows it wrote.
pub fn run<S: Alter>(
    tx: &mut Transaction<'_, S>,
    sql: &str,
    params: &[ValueRef<'_>],
) -> Result<usize, RowError>
    ensures inside { StaysInside S.Store tx.old.conn tx.new.conn }
    ensures ran { RunsInside S.Store tx.old tx.new sql.now (bound params.now) result }
{
    match tx.execute(sql, params) {
        Ok(count) => Ok(count),
        Err(error) => Err(RowError::of(error)),
    }
}
