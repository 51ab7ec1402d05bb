//! A stream of requests to the shop of an office.

ghost use Rattle.web_connection.specs.Outside.{RunsFrom, outside};
ghost use Rattle.web_arrivals.specs.HandlerView.{handler_with, trait_meaning};
ghost use Rattle.web_arrivals.specs.Served.{Serves};

use crate::handler::ShopHandler;
use base_devices::{Drain, Source, Ticks};
use book_usage::Dues;
use model_answers::Tables;
use office_once::Office;
use std::alloc::Global;
use web_connection::{Failure, run_connection};

/// Answers a stream of requests from the shop of an office over tables that hold it.
pub fn run_office<R: Source, K: Ticks, T: Tables + Drop, B: Dues + Drop, W: Drain>(
    alloc: Global,
    reader: &mut R,
    ticks: &mut K,
    tables: T,
    office: Office<B>,
    writer: &mut W,
) -> Result<(), Failure>
    ensures { RunsFrom (Serves (trait_meaning T.Tables))
        (handler_with tables office.organizer office.event office.state)
        (outside R.Source K.Ticks W.Drain reader.old ticks.old writer.old)
        (outside R.Source K.Ticks W.Drain reader.new ticks.new writer.new) result }
{
    let Ok(handler) = ShopHandler::over(alloc, tables, office) else {
        return Err(Failure::Memory);
    };
    run_connection(alloc, reader, ticks, handler, writer)
}
