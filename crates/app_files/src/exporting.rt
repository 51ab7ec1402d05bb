//! The order positions of the shop in a database are exported.

ghost use Rattle.std.specs.Prelude.{ℕ, List};
ghost use Rattle.sqlite.specs.Held.{state};
ghost use Rattle.base_devices.specs.Reported.{Adds};
ghost use Rattle.app_files.specs.Exported.{IsExported};
ghost use Rattle.web_cli.specs.Saying.{CountsEnd};

use crate::filed::{Filed, connection_of};
use crate::opening::open_shop;
use crate::progress::Shown;
use app_export::write_positions;
use base_devices::Drain;
use book_usage::Book;
use sqlite::{Alter, Connection};
use std::alloc::Global;
use web_cli::Console;
use web_handler::Office;

// What a terminal is shown of an export: how many of an office's order positions were written.
fn shown_of<'a, O: Console, B: Book>(rt: &'a O, office: &Office<B>) -> Shown<'a, O> {
    Shown::exporting(rt, office.book().positions().len() as u64)
}

/// `export`: opens the shop in a database, lets the office go, and writes the order positions as CSV while it reads them, one at a time.
/// Faults: 60, 61 and 62 where the database holds no shop that is whole, each for its cause alone, and then nothing is written; 73 where the
/// writer fails, 63 where the store does, and 6, and then a beginning was written. Nothing has changed in the database. A terminal shows how
/// many positions were written, out of how many.
pub fn export_shop<O: Console, S: Alter + Drop, W: Drain>(
    rt: &O,
    alloc: Global,
    connection: Connection<S>,
    writer: &mut W,
) -> Filed<S, ()>
    ensures { (text : List ℕ)
        × IsExported S.Store text (state S.Store connection) result.connection result.outcome
        × Adds (W.taken writer.old) text (W.taken writer.new)
        × CountsEnd result.outcome (W.failures writer.old) (W.failures writer.new) }
{
    match open_shop(rt, alloc, connection) {
        Ok(opened) => {
            let mut shown = shown_of(rt, &opened.office);
            let mut connection = connection_of(opened);
            let outcome = write_positions(alloc, &mut connection, writer, &mut shown);
            let _ = shown.end();
            Filed {
                connection,
                outcome,
            }
        }
        Err(filed) => filed,
    }
}
