//! The shop in a database is opened for a command.

ghost use Rattle.std.specs.Prelude.{IfOk, IfErr};
ghost use Rattle.sqlite.specs.Held.{state};
ghost use Rattle.app_files.specs.Came.{CameTo};
ghost use Rattle.app_files.specs.Served.{OpensAs, StaysUnopened, handler_of};

use crate::faults::fault_of_opening;
use crate::filed::{Filed, Opened};
use crate::progress::Shown;
use book_counters::Counters;
use file_open::open_file;
use file_tables::HandedBack;
use sqlite::{Alter, Connection};
use std::alloc::Global;
use web_cli::Console;

/// Opens the shop in a database, or gives what becomes of the command that it was to be opened for; and how many rows were read. Faults: 60, 61
/// and 62 where the database holds no shop that is whole, each for its cause alone, 63 and 6. Opening changes nothing, in a crash too. A
/// terminal shows how many rows were read.
pub(crate) fn open_counted<O: Console, S: Alter, T: Drop>(
    rt: &O,
    alloc: Global,
    connection: Connection<S>,
    rows: &mut u64,
) -> Result<Opened<S, Counters>, Filed<S, T>>
    ensures opens { IfOk result (λ it. OpensAs S.Store (state S.Store connection) (handler_of it)) }
    ensures stays { IfErr result (CameTo S.Store (StaysUnopened S.Store) connection) }
{
    let mut shown = Shown::opening(rt);
    let opened = open_file(alloc, connection, &mut shown);
    *rows = shown.end();
    match opened {
        Ok((tables, office)) => Ok(Opened { tables, office }),
        Err(HandedBack { connection, error }) => Err(Filed {
            connection,
            outcome: Err(fault_of_opening(error)),
        }),
    }
}

/// Opens the shop in a file, where nobody asks how many rows were read.
pub(crate) fn open_shop<O: Console, S: Alter, T: Drop>(
    rt: &O,
    alloc: Global,
    connection: Connection<S>,
) -> Result<Opened<S, Counters>, Filed<S, T>>
    ensures opens { IfOk result (λ it. OpensAs S.Store (state S.Store connection) (handler_of it)) }
    ensures stays { IfErr result (CameTo S.Store (StaysUnopened S.Store) connection) }
{
    let mut rows = 0;
    open_counted(rt, alloc, connection, &mut rows)
}
