//! The shop in a database is served.

ghost use Rattle.std.specs.Prelude.{◌⊎◌};
ghost use Rattle.web_cli.specs.Saying.{OnPage, TellsListening};
ghost use Rattle.web_server.specs.Clock.{IsRead};
ghost use Rattle.app_files.specs.Came.{CameTo};
ghost use Rattle.app_files.specs.Served.{IsOpenedAndServed, IsSilent, LeadsFrom, StaysUnopened, handler_of};
ghost use Rattle.app_files.specs.Stored.{stored_meaning};
ghost use Rattle.web_http.specs.Written.{writer_page};

use crate::filed::{Filed, Opened, connection_of};
use crate::opening::open_counted;
use base_devices::Drain;
use book_usage::Dues;
use file_tables::SqlTables;
use sqlite::{Alter, Connection};
use std::alloc::Global;
use std::net::{Net, TcpListener, TcpStream};
use std::time::Clock;
use web_cli::{Console, RunFault, ServeOptions};
use web_handler::{HttpWording, ShopHandler};
use web_server::{Log, Logged, System, run_over_tcp};

// Serves a handler, and hands back the connection of its tables.
fn serve_handler<
    R: Net<Listener = TcpListener, Stream = TcpStream> + Clock + System + Console,
    S: Alter + Drop,
    B: Dues + Drop,
    W: Drain,
>(
    rt: &R,
    alloc: Global,
    log: &Log<'_, R>,
    options: &ServeOptions<'_>,
    handler: ShopHandler<SqlTables<S>, B>,
    writer: &mut W,
) -> Filed<S, ()>
    ensures said { OnPage W.Drain (TellsListening options.now.text.now)
        writer.old writer.new result.outcome }
    ensures leads { LeadsFrom (IsRead R.shows R.gives) (stored_meaning S.Store)
        options.now.connections handler result.connection result.outcome }
{
    let mut logged = Logged::new(log, handler);
    let outcome = run_over_tcp(rt, alloc, log, options, &mut logged, writer);
    Filed {
        connection: logged.into_handler().into_tables().into_connection(),
        outcome,
    }
}

// Serves tables that were opened together with their office.
fn serve_opened<
    R: Net<Listener = TcpListener, Stream = TcpStream> + Clock + System + Console,
    S: Alter + Drop,
    B: Dues + Drop,
    W: Drain,
>(
    rt: &R,
    alloc: Global,
    log: &Log<'_, R>,
    options: &ServeOptions<'_>,
    opened: Opened<S, B>,
    writer: &mut W,
) -> Filed<S, ()>
    ensures said { OnPage W.Drain (TellsListening options.now.text.now)
        writer.old writer.new result.outcome }
    ensures leads { LeadsFrom (IsRead R.shows R.gives)
        (stored_meaning S.Store) options.now.connections
        (handler_of opened) result.connection result.outcome }
{
    match HttpWording::new(alloc, opened.office.organizer(), opened.office.event()) {
        Ok(words) => {
            let Opened { tables, office } = opened;
            let handler = ShopHandler::with_words(tables, office, words);
            serve_handler(rt, alloc, log, options, handler, writer)
        }
        Err(_) => Filed {
            connection: connection_of(opened),
            outcome: Err(RunFault::Memory),
        },
    }
}

/// `serve`: opens the shop in a database, listens at an address, says so, and answers the callers that come, many of them at once, each request
/// from the shop as the one before left it; a log is told what happens. Faults: 60, 61 and 62 where the database holds no shop that is whole, each for its cause alone, 63
/// and 6, and then nothing is said and nothing has changed; 81 where the address can't be listened at or takes no callers any more; 83
/// where that it listens couldn't be said.
pub fn serve_shop<
    R: Net<Listener = TcpListener, Stream = TcpStream> + Clock + System + Console,
    S: Alter + Drop,
    W: Drain,
>(
    rt: &R,
    alloc: Global,
    connection: Connection<S>,
    log: &Log<'_, R>,
    options: &ServeOptions<'_>,
    writer: &mut W,
) -> Filed<S, ()>
    ensures said { OnPage W.Drain (TellsListening options.now.text.now)
        writer.old writer.new result.outcome }
    ensures served { CameTo S.Store (IsOpenedAndServed (IsRead R.shows R.gives) S.Store
        (stored_meaning S.Store) options.now.connections) connection result
        ⊎ (CameTo S.Store (StaysUnopened S.Store) connection result
        × IsSilent (writer_page W.Drain writer.old) (writer_page W.Drain writer.new)) }
{
    let mut rows = 0;
    match open_counted(rt, alloc, connection, &mut rows) {
        Ok(opened) => {
            log.tell_opened(rows);
            serve_opened(rt, alloc, log, options, opened, writer)
        }
        Err(filed) => filed,
    }
}
