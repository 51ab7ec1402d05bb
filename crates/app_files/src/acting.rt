//! A command of the program's own is carried out at the shop in a database.

ghost use Rattle.std.specs.Prelude.{◌≡◌};
ghost use Rattle.web_handler.specs.Streams.{HandlerView, handler_with};
ghost use Rattle.web_server.specs.Clock.{IsRead};
ghost use Rattle.app_files.specs.Acting.{Acts, ActsFrom, own_arrival, told_of};
ghost use Rattle.app_files.specs.Served.{handler_of};
ghost use Rattle.app_files.specs.Stored.{stored_meaning};
ghost use Rattle.web_arrivals.specs.HandlerView.{trait_meaning};

use crate::filed::{Filed, Opened, connection_of};
use base_devices::Tick;
use base_values::{Answer, Body};
use book_usage::Dues;
use file_tables::SqlTables;
use model_answers::{Key, Tables};
use model_commands::Command;
use office_deliveries::{Arrival, Request, Wording};
use office_once::Shop;
use sqlite::Alter;
use std::alloc::Global;
use web_cli::RunFault;
use web_connection::Failure;
use web_handler::Office;
use web_server::{System, read_tick};

// The arrival that the command is.
fn arrival(alloc: Global, tick: Tick, command: Command) -> Arrival
    ensures { result ≡ own_arrival command tick }
{
    Arrival {
        clock: tick.clock,
        draw: tick.draw,
        token: 0,
        key: Key::new(Vec::new(alloc)),
        request: Request::Write(command),
    }
}

// What is told of its answer.
fn told(answer: Answer) -> Result<Body, RunFault>
    ensures { result ≡ told_of answer }
{
    match answer {
        Answer::Decided(response) => Ok(response.body),
        Answer::Unavailable => Err(RunFault::Store),
    }
}

// Has the shop of an office carry the command out at that tick, and gives its tables back.
fn act_over<T: Tables + Drop, B: Dues + Drop, W: Wording + Drop>(
    alloc: Global,
    tick: Tick,
    tables: T,
    office: Office<B>,
    wording: W,
    command: Command,
) -> (T, Result<Body, RunFault>)
    ensures { (last : HandlerView T) × Acts (W.words wording) command tick
        (trait_meaning T.Tables)
        (handler_with tables office.organizer office.event office.state) last result.1
        × (result.0 ≡ last.tables) }
{
    let mut shop = Shop::over(tables, office, wording);
    let answer = shop.act(alloc, arrival(alloc, tick, command));
    (shop.into_tables(), told(answer))
}

// Carries the command out at that tick.
fn act_at<S: Alter + Drop, B: Dues + Drop, W: Wording + Drop>(
    alloc: Global,
    tick: Tick,
    opened: Opened<S, B>,
    wording: W,
    command: Command,
) -> Filed<S, Body>
    ensures { (last : HandlerView (SqlTables S))
        × Acts (W.words wording) command tick (stored_meaning S.Store)
        (handler_of opened) last result.outcome × (result.connection ≡ last.tables.connection) }
{
    let Opened { tables, office } = opened;
    let (tables, outcome) = act_over(alloc, tick, tables, office, wording, command);
    Filed {
        connection: tables.into_connection(),
        outcome,
    }
}

/// Carries a command out over tables that were opened together with their office, at what the system's clock shows with a draw of the
/// system, and tells in these words what was done. Faults: 63 where the store refused it or memory ran out within it, and 85 where there
/// is no clock or no draw.
pub(crate) fn act_opened<R: System, S: Alter + Drop, B: Dues + Drop, W: Wording + Drop>(
    rt: &R,
    alloc: Global,
    opened: Opened<S, B>,
    wording: W,
    command: Command,
) -> Filed<S, Body>
    ensures { ActsFrom (IsRead R.shows R.gives) (W.words wording) command (stored_meaning S.Store)
        (handler_of opened) result.connection result.outcome }
{
    match read_tick(rt) {
        Some(tick) => act_at(alloc, tick, opened, wording, command),
        // The command is let go by name, as a whole: part by part is a way of the proof for each of its kinds.
        None => {
            drop(command);
            Filed {
                connection: connection_of(opened),
                outcome: Err(RunFault::Run(Failure::Clock)),
            }
        }
    }
}
