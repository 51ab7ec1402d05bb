//! What takes the rows of a query, one after another.

ghost use Rattle.std.specs.Prelude.{◌≡◌, ℕ, [], false, IfOk, IfErr, OnOk, IsTrue};
ghost use Rattle.sqlite_value.specs.Order.{Row as Shown};
ghost use Rattle.sqlite_schema.specs.declared.schema.Schema.{Schema};
ghost use Rattle.sqlite.specs.Held.{state};
ghost use Rattle.sqlite.specs.State.{HasCleanDisk};
ghost use Rattle.file_reads.specs.Alone.{RunsAloneIn};
ghost use Rattle.file_reads.specs.Damage.{HasNoMeaning, IsFor, IsForReading};
ghost use Rattle.file_reads.specs.Select.{IsSelectIn};
ghost use Rattle.file_scan.specs.Rests.{OnlyReads};
ghost use Rattle.file_scan.specs.Stopped.{IsStopped, WhereStopped};
ghost use Rattle.file_scan.specs.Took.{TakesAll, TakesSome, BreaksOff};
ghost use Rattle.file_scan.specs.Reading.{IsUnchangedWhere};

use crate::progress::Progress;
use file_schema::RowError;
use sqlite::{Alter, Connection, Row};
use std::alloc::Global;

/// What takes the rows of a query, one after another.
pub trait Taker<E> {
    // what a row that is taken makes of it
    ghost takes: { Self → Shown → Self → Type 0 };

    // what a row makes of it that is refused
    ghost stops: { Self → Shown → E → Self → Type 0 };

    /// Takes a row, or refuses it.
    fn take(&mut self, alloc: Global, row: &Row) -> Result<(), E>
        ensures taken { OnOk result (takes self.old row.now self.new) }
        ensures stopped { IfErr result (λ e. stops self.old row.now e self.new) };
}

/// Hands each row of a query to a taker, in the order in which they come, up to the one that it refuses, whose refusal is answered. The
/// progress hears of each that was taken. The connection stays as it is. Refusals: 6, 60 where the query has no meaning in the file, 63.
pub fn each_row<S: Alter, E: Drop, K: Taker<E>, P: Progress>(
    alloc: Global,
    conn: &mut Connection<S>,
    sql: &str,
    taker: &mut K,
    progress: &mut P,
) -> Result<Result<(), E>, RowError>
    requires outside { conn.old.in_transaction ≡ false }
    requires reads { (s : Schema) → IsForReading s sql.now }
    ensures whole { IfOk result (λ r. OnOk r (TakesAll K.Taker.takes sql.now
        (state S.Store conn.old) (state S.Store conn.new) taker.old taker.new)) }
    ensures stopped { IfOk result (λ r. IfErr r (λ e. TakesSome K.Taker.takes
        (λ k row n. K.Taker.stops k row e n) sql.now
        (state S.Store conn.old) (state S.Store conn.new) taker.old taker.new)) }
    ensures broken { IfErr result (λ _. BreaksOff K.Taker.takes sql.now
        (state S.Store conn.old) (state S.Store conn.new) taker.old taker.new) }
    ensures refused { HasCleanDisk (state S.Store conn.new)
        → IfErr result (IsFor (HasNoMeaning (state S.Store conn.old).now.schema sql.now) ⊥) }
    ensures store { HasCleanDisk (state S.Store conn.new) → (s : Schema) (tree : ℕ)
        → IsSelectIn s sql.now tree [] → RunsAloneIn s sql.now
        → IsTrue (state S.Store conn.old).is_open → (state S.Store conn.old).now.schema ≡ s
        → IfErr result
        (WhereStopped (IsStopped (state S.Store conn.old) (state S.Store conn.new))) }
    ensures same { IsUnchangedWhere (λ holds. IfOk result (λ _. holds)) S.Store conn.old conn.new }
    ensures only { OnlyReads S.Store conn.old conn.new }
{
    let mut rows = match conn.query(sql, &[]) {
        Ok(rows) => rows,
        Err(error) => return Err(RowError::of(error)),
    };
    'rows: for count in 0..u64::MAX {
        let next = match rows.next() {
            Ok(next) => next,
            Err(error) => return Err(RowError::of(error)),
        };
        let Some(row) = next else {
            return Ok(Ok(()));
        };
        if let Err(refusal) = taker.take(alloc, row) {
            return Ok(Err(refusal));
        }
        progress.row();
    }
    Err(RowError::Store)
}
