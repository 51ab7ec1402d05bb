//! The vouchers of a CSV file are added to the shop in a database.

ghost use Rattle.std.specs.Prelude.{◌⊎◌, Ok};
ghost use Rattle.app_files.specs.Came.{CameTo, OrUnopened};
ghost use Rattle.web_server.specs.Clock.{IsRead};
ghost use Rattle.app_files.specs.Imported.{AddsAll, AddsFrom, AddsNothing, IsOpenedAndImported};
ghost use Rattle.app_files.specs.Served.{handler_of};
ghost use Rattle.app_files.specs.Stored.{stored_meaning};
ghost use Rattle.web_cli.specs.declared.fault.RunFault.TheVariants.{Memory};

use crate::acting::act_opened;
use crate::faults::fault_of_file;
use crate::filed::{Filed, Opened, connection_of};
use crate::opening::open_shop;
use crate::progress::tell_read;
use crate::words::ImportWords;
use app_csv::{codes_of, read_vouchers};
use base_values::{Body, List};
use book_usage::Dues;
use model_commands::{Command, NewVoucher};
use sqlite::{Alter, Connection};
use std::alloc::Global;
use web_cli::{Console, RunFault};
use web_server::System;

// Adds the vouchers that were read.
fn add_vouchers<R: System, S: Alter + Drop, B: Dues + Drop>(
    rt: &R,
    alloc: Global,
    opened: Opened<S, B>,
    vouchers: List<NewVoucher>,
) -> Filed<S, Body>
    ensures { AddsAll (IsRead R.shows R.gives) (stored_meaning S.Store) vouchers
        (handler_of opened) result.connection result.outcome
        ⊎ AddsNothing Memory (handler_of opened) result.connection result.outcome }
{
    match codes_of(alloc, vouchers.as_slice()) {
        Ok(codes) => act_opened(
            rt,
            alloc,
            opened,
            ImportWords { codes },
            Command::ImportVouchers(vouchers),
        ),
        Err(_) => Filed {
            connection: connection_of(opened),
            outcome: Err(RunFault::Memory),
        },
    }
}

// Adds the vouchers that the lines of a text ask for.
fn add_read<R: System + Console, S: Alter + Drop, B: Dues + Drop>(
    rt: &R,
    alloc: Global,
    opened: Opened<S, B>,
    text: &[u8],
) -> Filed<S, Body>
    ensures { AddsFrom (IsRead R.shows R.gives) (stored_meaning S.Store) (Ok text.now)
        (handler_of opened) result.connection result.outcome }
{
    match read_vouchers(alloc, text) {
        Ok(vouchers) => {
            tell_read(rt, vouchers.as_slice().len() as u64);
            add_vouchers(rt, alloc, opened, vouchers)
        }
        Err(fault) => Filed {
            connection: connection_of(opened),
            outcome: Err(fault_of_file(fault)),
        },
    }
}

// Adds the vouchers of a file to a shop that was opened.
fn import_opened<R: System + Console, S: Alter + Drop, B: Dues + Drop>(
    rt: &R,
    alloc: Global,
    opened: Opened<S, B>,
    source: Result<Body, RunFault>,
) -> Filed<S, Body>
    ensures { AddsFrom (IsRead R.shows R.gives) (stored_meaning S.Store) source
        (handler_of opened) result.connection result.outcome }
{
    match source {
        Ok(text) => add_read(rt, alloc, opened, text.as_slice()),
        Err(fault) => Filed {
            connection: connection_of(opened),
            outcome: Err(fault),
        },
    }
}

/// `import-vouchers`: opens the shop in a database and adds the vouchers of a CSV file, whose bytes are handed in, or why they can't be,
/// as one arrival without key, at what the system's clock shows with a draw of the system; tells of each row what became of it, in a line
/// `CODE VERDICT`. Faults, in this order: 60, 61 and 62 where the database holds no shop that is whole, each for its cause alone; that of
/// the file, or 70 to 74 for what it says; 85 where there is no clock or no draw; 63 where the store refused the rows or memory ran out
/// within it; and 6. Beside a fault nothing has changed.
pub fn import_shop<R: System + Console, S: Alter + Drop>(
    rt: &R,
    alloc: Global,
    connection: Connection<S>,
    source: Result<Body, RunFault>,
) -> Filed<S, Body>
    ensures { CameTo S.Store (OrUnopened S.Store
        (IsOpenedAndImported (IsRead R.shows R.gives) S.Store (stored_meaning S.Store) source))
        connection result }
{
    match open_shop(rt, alloc, connection) {
        Ok(opened) => import_opened(rt, alloc, opened, source),
        Err(filed) => filed,
    }
}
