//! A row that a table of the file shows.

ghost use Rattle.std.specs.Prelude.{◌≡◌, ℕ, map, List, [], All, IfOk, IfErr};
ghost use Rattle.sqlite_value.specs.Order.{Row as Shown};
ghost use Rattle.sqlite_schema.specs.declared.schema.Schema.{Schema};
ghost use Rattle.sqlite.specs.Values.{bound};
ghost use Rattle.sqlite.specs.State.{KeepsCommit, Shown as Shows};
ghost use Rattle.file_schema.specs.Clean.{WhileClean, LeavesNoMore};
ghost use Rattle.file_schema.specs.Inside.{KeepsCommitInside};
ghost use Rattle.file_rows.specs.Unread.{IsUnread, IsOfNoFit};
ghost use Rattle.file_reads.specs.Alone.{RunsAloneSince};
ghost use Rattle.file_reads.specs.Damage.{IsDamaged, IsFor, IsForReading, HasNoMeaning};
ghost use Rattle.file_reads.specs.Select.{IsSelectSince};

use file_schema::RowError;
use sqlite::{Alter, Row, Transaction};
use sqlite_value::value::ValueRef;
use std::alloc::Global;

/// A row that a table of the file shows.
pub trait Loaded: Drop {
    // the row as a SELECT of all columns shows it
    ghost as_row: { Self → Shown };

    // its values are within their limits
    ghost fits: { Self → Type 0 };

    // the SELECT of all columns of the table
    ghost text: { List ℕ };

    // the number of the table's tree
    ghost tree: { ℕ };

    // the first version that has the table
    ghost since: { ℕ };

    /// The SELECT of all columns of the table.
    fn statement() -> &'static str
        ensures text { result.now ≡ text }
        ensures select { IsSelectSince since text tree [] }
        ensures reads { (s : Schema) → IsForReading s text }
        ensures alone { RunsAloneSince since text };

    /// From a row that is shown. Refusals: 62 where it is the row of no such value within its limits, 6.
    fn read(alloc: Global, row: &Row) -> Result<Self, RowError>
        ensures value { IfOk result (λ w. row.now ≡ as_row w) }
        ensures limits { IfOk result fits }
        ensures refused { IfErr result (IsUnread (IsOfNoFit fits as_row row.now)) };
}

fn read_rows<T: Loaded>(alloc: Global, rows: &[Row]) -> Result<Vec<T>, RowError>
    ensures values { IfOk result (λ all. map T.Loaded.as_row all.items ≡ rows.now) }
    ensures limits { IfOk result (λ all. All T.Loaded.fits all.items) }
    ensures refused { IfErr result (IsUnread (IsDamaged T.Loaded.as_row T.Loaded.fits rows.now)) }
{
    let mut all = Vec::new(alloc);
    'rows: for row in rows {
        let item = match T::read(alloc, row) {
            Ok(item) => item,
            Err(error) => return Err(error),
        };
        match all.push(item) {
            Ok(()) => {}
            Err(_) => return Err(RowError::Memory),
        }
    }
    Ok(all)
}

/// The rows that a SELECT shows.
pub(crate) fn rows_of<S: Alter, T: Loaded>(
    alloc: Global,
    tx: &mut Transaction<'_, S>,
    sql: &str,
    params: &[ValueRef<'_>],
) -> Result<Vec<T>, RowError>
    ensures same { tx.new.conn.ghost_name ≡ tx.old.conn.ghost_name }
    ensures shown { WhileClean S.Store tx.old.conn.now tx.new.conn.now (λ old new.
        IfOk result
        (λ all. Shows sql.now (bound params.now) old new (map T.Loaded.as_row all.items))) }
    ensures limits { IfOk result (λ all. All T.Loaded.fits all.items) }
    ensures refused { WhileClean S.Store tx.old.conn.now tx.new.conn.now (λ old new.
        IsForReading old.now.schema sql.now
        → IfErr result (IsFor (HasNoMeaning old.now.schema sql.now)
        ((rows : List Shown) × Shows sql.now (bound params.now) old new rows
        × IsDamaged T.Loaded.as_row T.Loaded.fits rows))) }
    ensures kept { KeepsCommitInside S.Store tx.old.conn.now tx.new.conn.now }
    ensures kept_reading { WhileClean S.Store tx.old.conn.now tx.new.conn.now (λ old new.
        IsForReading old.now.schema sql.now → KeepsCommit old new) }
    ensures crash { LeavesNoMore S.Store tx.old.conn.now tx.new.conn.now }
{
    match tx.query_all(sql, params) {
        Ok(rows) => read_rows(alloc, rows.as_slice()),
        Err(error) => Err(RowError::of(error)),
    }
}
