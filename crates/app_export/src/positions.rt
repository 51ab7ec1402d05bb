//! The order positions of a file, handed to a sink one after another.

ghost use Rattle.std.specs.Prelude.{◌≡◌, ◌≢◌, false, IfOk, IfErr, OnOk};
ghost use Rattle.sqlite.specs.Held.{state};
ghost use Rattle.file_rows.specs.Unread.{IsUnread};
ghost use Rattle.model_export.specs.declared.row.ExportRow.{ExportRow};
ghost use Rattle.model_export.specs.Exported.{rows_exported};
ghost use Rattle.file_scan.specs.Rests.{Rests};
ghost use Rattle.app_export.specs.Cells.{IsFitLine, cells};
ghost use Rattle.app_export.specs.Faults.{IsOfMachine, fault_of_walk};
ghost use Rattle.app_export.specs.Handed.{OfFitTables, OfOffice, IsFrontOf, HandsAll, HandsSome, StopsAt};
ghost use Rattle.file_schema.specs.Clean.{LeavesNoMore};

use file_rows::Column;
use file_scan::{Progress, Taker, each_row};
use file_schema::RowError;
use model_export::{ExportRow, Sink, SinkFault};
use sqlite::{Alter, Connection, Row};
use std::alloc::Global;

/// Why not all order positions were handed on.
#[derive(Clone, Copy, PartialEq, Eq, Drop)]
pub enum WalkError {
    /// The sink's refusal.
    Sink(SinkFault),
    /// 6, 60, 62 or 63: a row wasn't read.
    Rows(RowError),
}

// A line, from the row that shows it. Refusals: 62 where it is the row of no line within its limits, 6.
fn line_of(alloc: Global, row: &Row) -> Result<ExportRow, RowError>
    ensures line { IfOk result (λ e. row.now ≡ cells e) }
    ensures refused { IfErr result (IsUnread ((e : ExportRow) → IsFitLine e → row.now ≢ cells e)) }
{
    if row.column_count() != 8 {
        return Err(RowError::Damaged);
    }
    Ok(ExportRow {
        order: Column::read(alloc, row, 0)?,
        positionid: Column::read(alloc, row, 1)?,
        status: Column::read(alloc, row, 2)?,
        item: Column::read(alloc, row, 3)?,
        variation: Column::read(alloc, row, 4)?,
        price: Column::read(alloc, row, 5)?,
        voucher: Column::read(alloc, row, 6)?,
        secret: Column::read(alloc, row, 7)?,
    })
}

/// A walk over order positions, of which each is handed to a sink.
#[derive(Drop)]
pub struct Walk<K> {
    /// What takes them.
    pub sink: K,
}

// Each row is handed on as a line.
impl<K: Sink> Taker<WalkError> for Walk<K> {
    ghost use Rattle.model_export.specs.declared.row.ExportRow.{ExportRow};

    ghost takes = { λ old row new. (e : ExportRow) × (row ≡ cells e)
        × K.Sink.takes old.sink e new.sink };

    ghost stops = { λ old row fault new. StopsAt K.Sink.refuses old.sink row fault new.sink };

    fn take(&mut self, alloc: Global, row: &Row) -> Result<(), WalkError> {
        match line_of(alloc, row) {
            Ok(line) => match self.sink.row(alloc, &line) {
                Ok(()) => Ok(()),
                Err(fault) => Err(WalkError::Sink(fault)),
            },
            Err(error) => Err(WalkError::Rows(error)),
        }
    }
}

/// Hands the order positions of the box office that a file holds to a sink, order by order, each one's by their numbers there, one at a
/// time, of which the store holds some; the progress hears of each that was taken. The connection stays as it is. Where the sink refuses
/// one, that refusal is answered as it came, and those before it were taken; else 6, 60, 62, and 63 where the store fails. 60 and 62 aren't
/// answered of tables that hold a shop whose values are within their limits.
pub fn stream_positions<S: Alter, K: Sink, P: Progress>(
    alloc: Global,
    conn: &mut Connection<S>,
    walk: &mut Walk<K>,
    progress: &mut P,
) -> Result<(), WalkError>
    requires { conn.old.in_transaction ≡ false }
    ensures all { OnOk result (HandsAll K.Sink.takes K.Sink.refuses (λ rows. OfOffice
        (state S.Store conn.old) (state S.Store conn.new) (λ lists. rows ≡ rows_exported lists))
        walk.old.sink walk.new.sink) }
    ensures some { IfErr result (HandsSome K.Sink.takes K.Sink.refuses
        (λ rows. OfOffice (state S.Store conn.old) (state S.Store conn.new)
        (λ lists. IsFrontOf rows (rows_exported lists))) walk.old.sink walk.new.sink) }
    ensures cause { OfFitTables (state S.Store conn.old) (state S.Store conn.new)
        (IfErr result (λ e. IsOfMachine (fault_of_walk e))) }
    ensures rests { Rests (state S.Store conn.old) (state S.Store conn.new) }
    ensures mode { conn.new.in_transaction ≡ false }
    ensures crash { LeavesNoMore S.Store conn.old conn.new }
{
    let sql =
        "SELECT p.order_id, p.positionid, o.status, p.item_id, p.variation_id, p.price, v.code, p.secret FROM order_positions AS p JOIN orders AS o ON o.id = p.order_id LEFT JOIN vouchers AS v ON v.id = p.voucher_id ORDER BY p.order_id, p.positionid";
    let taken = match each_row(alloc, conn, sql, walk, progress) {
        Ok(taken) => taken,
        Err(error) => return Err(WalkError::Rows(error)),
    };
    match taken {
        Ok(()) => Ok(()),
        Err(fault) => Err(fault),
    }
}
