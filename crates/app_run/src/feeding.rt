//! `feed`: requests from a reader, answers to a writer.

ghost use Rattle.app_run.specs.Feed.{Feeds, FeedsTexts, OnPorts};
ghost use Rattle.web_cli.specs.Values.{feed_values};

use crate::opening::open_memory;
use base_devices::{Drain, Source};
use base_values::Moment;
use std::alloc::Global;
use web_cli::fault::ended;
use web_cli::{RunFault, feed_values};
use web_connection::Failure;
use web_handler::feed_office;

/// Reads requests to the end of the input, and writes the answers that a fresh shop gives, which is opened for it and whose tables are
/// SQLite's, in its memory. Ticks, reads and faults are those of `feed_office`; fault 6 also where there is no memory for that shop, and
/// then nothing is read.
pub fn feed<R: Source, W: Drain>(
    alloc: Global,
    from: Moment,
    step: u64,
    reader: &mut R,
    writer: &mut W,
) -> Result<(), Failure>
    ensures { OnPorts R.Source W.Drain (Feeds from step)
        reader.old writer.old reader.new writer.new result }
{
    match open_memory(alloc) {
        Ok((tables, office)) => feed_office(alloc, tables, office, from, step, reader, writer),
        Err(_) => Err(Failure::Memory),
    }
}

/// Runs `feed` by the texts of the command line. Where one of them can't be read it is fault 84, which names it, and nothing is read and
/// nothing written.
pub fn feed_texts<R: Source, W: Drain>(
    alloc: Global,
    from: &str,
    step: &str,
    reader: &mut R,
    writer: &mut W,
) -> Result<(), RunFault>
    ensures { OnPorts R.Source W.Drain (FeedsTexts (feed_values from.now step.now))
        reader.old writer.old reader.new writer.new result }
{
    match feed_values(from, step) {
        Ok((from, step)) => ended(feed(alloc, from, step, reader, writer)),
        Err(argument) => Err(RunFault::Argument(argument)),
    }
}
