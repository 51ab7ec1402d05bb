//! Columns as the parameters of a statement.

ghost use Rattle.std.specs.Prelude.{◌≡◌, ◌≤◌, length, true, Ok, IfOk};
ghost use Rattle.sqlite_value.specs.Order.{Row};
ghost use Rattle.sqlite.specs.State.{Executes};
ghost use Rattle.file_schema.specs.Clean.{WhileClean};
ghost use Rattle.file_schema.specs.Inside.{StaysInside};
ghost use Rattle.file_writes.specs.Bound.{AreBound};

use file_schema::{RowError, run};
use sqlite::{Alter, Transaction};
use sqlite_value::value::ValueRef;

// Runs a statement with these columns, at most 16, as many as the widest table has. One that couldn't be bound refuses it.
pub(crate) fn run_bound<S: Alter>(
    tx: &mut Transaction<'_, S>,
    sql: &str,
    columns: &[Result<ValueRef<'_>, RowError>],
) -> Result<usize, RowError>
    requires { length columns.now ≤ 16 }
    ensures inside { StaysInside S.Store tx.old.conn tx.new.conn }
    ensures ran { WhileClean S.Store tx.old.conn.now tx.new.conn.now (λ old new.
        old.in_transaction ≡ true → IfOk result (λ count. (values : Row)
        → AreBound columns.now values → Executes sql.now values old new (Ok count))) }
{
    let mut params = [ValueRef::Null; 16];
    let count = columns.len();
    'columns: for at in 0..count {
        match columns[at] {
            Ok(value) => params[at] = value,
            Err(error) => return Err(error),
        }
    }
    run(tx, sql, &params[..count])
}
