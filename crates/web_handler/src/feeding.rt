//! Requests from a reader, answers to a writer, at moments that count on.

ghost use Rattle.std.specs.Prelude.{◌≡◌};
ghost use Rattle.base_devices.specs.Blanks.{IsBlankOf};
ghost use Rattle.web_arrivals.specs.HandlerView.{handler_with, trait_meaning};
ghost use Rattle.web_handler.specs.Fed.{FeedsHandler, ports_at};

use crate::office::run_office;
use base_devices::{Drain, Source};
use base_values::{Moment, Steps};
use book_usage::Dues;
use model_answers::Tables;
use office_once::Office;
use std::alloc::Global;
use std::marker::{Brand, PhantomData};
use std::sync::ledger::{Blank, Ledger};
use web_cli::{FeedTicks, Pace};
use web_connection::Failure;

// Feeds an office as `feed_office` does, with a ledger for the failures of its ticks.
fn feed_with<P: Pace, E: Ledger, T: Tables + Drop, B: Dues + Drop, R: Source, W: Drain>(
    alloc: Global,
    tables: T,
    office: Office<B>,
    from: Moment,
    step: u64,
    reader: &mut R,
    writer: &mut W,
    blank: Blank,
) -> Result<(), Failure>
    requires from { from ≡ P.from }
    requires step { step ≡ P.step }
    requires blank { IsBlankOf E.Ledger blank }
    ensures { FeedsHandler (trait_meaning T.Tables)
        (handler_with tables office.organizer office.event office.state) P.from P.step
        (ports_at R.Source W.Drain reader.old writer.old)
        (ports_at R.Source W.Drain reader.new writer.new) result }
{
    let mut ticks = FeedTicks::<P, E> {
        from,
        step,
        reported: 0,
        failures: Steps::<E>::new(blank),
        pace: PhantomData,
    };
    run_office(alloc, reader, &mut ticks, tables, office, writer)
}

/// Reads requests to the end of the input, and writes the answers that the shop of an office gives, whatever its tables are. The first request
/// comes at that moment, and each other one that many seconds after the one before it, but none after the last moment that there
/// is. It reads at most 1,000,000 times. Faults: 6 (there was no memory for the handler or for what is read), 82 (the reader failed, or its limit is
/// met), 83 (the writer failed), 85 (2^64 - 1 ticks were told).
pub fn feed_office<T: Tables + Drop, B: Dues + Drop, R: Source, W: Drain>(
    alloc: Global,
    tables: T,
    office: Office<B>,
    from: Moment,
    step: u64,
    reader: &mut R,
    writer: &mut W,
) -> Result<(), Failure>
    ensures { FeedsHandler (trait_meaning T.Tables)
        (handler_with tables office.organizer office.event office.state) from step
        (ports_at R.Source W.Drain reader.old writer.old)
        (ports_at R.Source W.Drain reader.new writer.new) result }
{
    feed_with::<Brand, Brand, T, B, R, W>(
        alloc,
        tables,
        office,
        from,
        step,
        reader,
        writer,
        Blank::new(1),
    )
}
