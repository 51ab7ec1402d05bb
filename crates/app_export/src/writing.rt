//! The order positions of a file, written as CSV while they are read.

ghost use Rattle.std.specs.Prelude.{◌≡◌, false};
ghost use Rattle.app_csv.specs.Handing.{IsReady, gathered_text};
ghost use Rattle.app_csv.specs.PositionLines.{header_line};
ghost use Rattle.app_export.specs.Faults.{fault_of_walk};
ghost use Rattle.app_export.specs.Written.{ExportsText};
ghost use Rattle.web_cli.specs.Saying.{OnPage};

use crate::positions::{Walk, WalkError, stream_positions};
use app_csv::{CsvSink, Lines};
use base_devices::Drain;
use file_scan::Progress;
use file_schema::RowError;
use model_damage::Rule;
use model_export::SinkFault;
use sqlite::{Alter, Connection};
use std::alloc::Global;
use web_cli::RunFault;

/// Why an export breaks off, as the program tells it: 6, 73 where what it is written to refuses, 63 where the store fails. A value that is
/// none is told as the rule of limits, 62.2, and a table that isn't there as 60.
pub fn fault_of_walk(error: WalkError) -> RunFault
    ensures { result ≡ fault_of_walk error }
{
    match error {
        WalkError::Sink(SinkFault::Memory) => RunFault::Memory,
        WalkError::Sink(SinkFault::Output) => RunFault::Unwritten,
        WalkError::Rows(RowError::Memory) => RunFault::Memory,
        WalkError::Rows(RowError::Foreign) => RunFault::NotAShop,
        WalkError::Rows(RowError::Damaged) => RunFault::Damaged(Rule::Limits),
        WalkError::Rows(RowError::Store) => RunFault::Store,
    }
}

// Hands the order positions of a database to a sink that has gathered the names of the columns, one after another, and on what it gathered.
fn write_into<S: Alter, W: Drain, P: Progress>(
    alloc: Global,
    connection: &mut Connection<S>,
    walk: &mut Walk<CsvSink<'_, W>>,
    progress: &mut P,
) -> Result<(), RunFault>
    requires outside { connection.old.in_transaction ≡ false }
    requires ready { IsReady walk.old.sink.lines.now }
    requires names { gathered_text walk.old.sink.lines.now ≡ header_line }
    ensures same { walk.new.sink.out.ghost_name ≡ walk.old.sink.out.ghost_name }
    ensures exported { OnPage W.Drain (ExportsText S.Store connection.old connection.new)
        walk.old.sink.out.now walk.new.sink.out.now result }
{
    if let Err(error) = stream_positions(alloc, connection, walk, progress) {
        return Err(fault_of_walk(error));
    }
    match walk.sink.hand_on(alloc) {
        Ok(()) => Ok(()),
        Err(fault) => Err(fault_of_walk(WalkError::Sink(fault))),
    }
}

// Writes the order positions of a database that is in no transaction.
fn write_outside<S: Alter, W: Drain, P: Progress>(
    alloc: Global,
    connection: &mut Connection<S>,
    writer: &mut W,
    progress: &mut P,
) -> Result<(), RunFault>
    requires { connection.old.in_transaction ≡ false }
    ensures { OnPage W.Drain (ExportsText S.Store connection.old connection.new)
        writer.old writer.new result }
{
    let Ok(mut lines) = Lines::new(alloc) else {
        return Err(RunFault::Memory);
    };
    let mut walk = Walk {
        sink: CsvSink::over(writer, &mut lines),
    };
    write_into(alloc, connection, &mut walk, progress)
}

/// Writes the order positions of the box office that a database holds as CSV while it reads them, one at a time: all of them, or beside a
/// fault a beginning; the progress hears of each. The connection stays as it is. Where a transaction is open nothing is written, and that
/// is fault 63. Of a shop whose values are within their limits the fault is 6, 63 or 73.
pub fn write_positions<S: Alter, W: Drain, P: Progress>(
    alloc: Global,
    connection: &mut Connection<S>,
    writer: &mut W,
    progress: &mut P,
) -> Result<(), RunFault>
    ensures { OnPage W.Drain (ExportsText S.Store connection.old connection.new)
        writer.old writer.new result }
{
    if !connection.is_autocommit() {
        return Err(RunFault::Store);
    }
    write_outside(alloc, connection, writer, progress)
}
