//! Opens a shop in SQLite's memory, for a stream of requests to it.

ghost use Rattle.std.specs.Prelude.{◌+◌, ◌≤◌};
ghost use Rattle.web_connection.specs.Run.{CountedAll, device_counts, devices_at, most_reads};
ghost use Rattle.app_run.specs.House.{ServesFresh, no_handler};

use crate::opening::open_memory;
use base_devices::{Drain, Source, Ticks};
use std::alloc::Global;
use web_connection::Failure;
use web_handler::run_office;

/// Answers a stream of requests from the shop that `feed` begins with, which is opened for it in SQLite's memory.
pub fn run_memory_shop<R: Source, T: Ticks, W: Drain>(
    alloc: Global,
    reader: &mut R,
    ticks: &mut T,
    writer: &mut W,
) -> Result<(), Failure>
    ensures leads { ServesFresh
        (devices_at R.Source T.Ticks W.Drain reader.old ticks.old no_handler writer.old)
        (devices_at R.Source T.Ticks W.Drain reader.new ticks.new no_handler writer.new) result }
    ensures counted { CountedAll result
        (device_counts R.Source T.Ticks W.Drain reader.old ticks.old writer.old)
        (device_counts R.Source T.Ticks W.Drain reader.new ticks.new writer.new) }
    ensures calls { R.calls reader.new ≤ R.calls reader.old + most_reads }
{
    match open_memory(alloc) {
        Ok((tables, office)) => run_office(alloc, reader, ticks, tables, office, writer),
        Err(_) => Err(Failure::Memory),
    }
}
