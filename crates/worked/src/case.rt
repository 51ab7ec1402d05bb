//! One case.

ghost use Rattle.base_devices.specs.Blanks.{IsBlankOf};

use crate::cut::Cut;
use crate::listed::Listed;
use app_run::run_memory_shop;
use base_dates::read_moment;
use base_devices::{Device, Drain, Source, Ticks};
use base_values::{Moment, Steps};
use std::alloc::{AllocError, Global};
use std::io::Write;
use std::marker::Brand;
use std::sync::ledger::{Blank, Ledger};
use web_connection::Failure;

/// The most bytes that come at a time where a case comes in one piece.
pub(crate) const WHOLE: usize = 65536;

/// What answers a stream of requests.
pub(crate) trait Answers {
    /// Answers it.
    fn answer<R: Source, T: Ticks, W: Drain>(
        &mut self,
        alloc: Global,
        reader: &mut R,
        ticks: &mut T,
        writer: &mut W,
    ) -> Result<(), Failure>;
}

/// A box office that is made for the stream, in SQLite's memory.
#[derive(Clone, Copy)]
struct Fresh;

impl Answers for Fresh {
    fn answer<R: Source, T: Ticks, W: Drain>(
        &mut self,
        alloc: Global,
        reader: &mut R,
        ticks: &mut T,
        writer: &mut W,
    ) -> Result<(), Failure> {
        run_memory_shop(alloc, reader, ticks, writer)
    }
}

/// The moments that the first line of a case lists, and how many of them stand before a bar: these were told before.
pub(crate) fn moments(alloc: Global, line: &str) -> anyhow::Result<(Vec<Moment>, usize)> {
    let mut moments = Vec::new(alloc);
    let mut reported = 0;
    for word in line.split(' ') {
        if word == "|" {
            reported = moments.len();
        } else if !word.is_empty() {
            moments.push(read_moment(word)?)?;
        }
    }
    Ok((moments, reported))
}

// How the stream ends, and what is written, with a ledger for each count.
fn run<A: Ledger, B: Ledger, C: Ledger, D: Ledger, E: Ledger, S: Answers>(
    alloc: Global,
    moments: &[Moment],
    reported: usize,
    input: Cut<'_>,
    shop: &mut S,
    output: &mut Vec<u8>,
    reads: Blank,
    read_failures: Blank,
    writes: Blank,
    write_failures: Blank,
    tick_failures: Blank,
) -> Result<(), Failure>
    requires reads { IsBlankOf A.Ledger reads }
    requires read_failures { IsBlankOf B.Ledger read_failures }
    requires writes { IsBlankOf C.Ledger writes }
    requires write_failures { IsBlankOf D.Ledger write_failures }
    requires tick_failures { IsBlankOf E.Ledger tick_failures }
{
    let mut reader = Device {
        inner: input,
        calls: Steps::<A>::new(reads),
        failures: Steps::<B>::new(read_failures),
    };
    let mut writer = Device {
        inner: output,
        calls: Steps::<C>::new(writes),
        failures: Steps::<D>::new(write_failures),
    };
    let mut ticks = Listed {
        moments,
        reported,
        failures: Steps::<E>::new(tick_failures),
    };
    shop.answer(alloc, &mut reader, &mut ticks, &mut writer)
}

/// How a case ends, and in the lines below what is written, where this answers it and at most so many bytes come at a time.
pub(crate) fn answer_case<S: Answers>(
    alloc: Global,
    case: &[u8],
    most: usize,
    shop: &mut S,
) -> anyhow::Result<Vec<u8>> {
    let Some(end) = case.iter().position(|b| *b == b'\n') else {
        return Ok(Vec::new(alloc));
    };
    let line = str::from_utf8(&case[..end])?;
    let (moments, reported) = moments(alloc, line)?;
    let stream = Cut::new(&case[end + 1..], most);
    let mut written = Vec::new(alloc);
    let ended = run::<Brand, Brand, Brand, Brand, Brand, S>(
        alloc,
        moments.as_slice(),
        reported,
        stream,
        shop,
        &mut written,
        Blank::new(1),
        Blank::new(1),
        Blank::new(1),
        Blank::new(1),
        Blank::new(1),
    );
    let mut shown = Vec::new(alloc);
    match ended {
        Ok(()) => shown.extend_from_slice(b"ended\n")?,
        Err(failure) => writeln!(shown, "fault {}", failure.number())?,
    }
    shown.extend_from_slice(written.as_slice())?;
    Ok(shown)
}

/// Answers a case by a box office of its own.
pub(crate) fn answered(alloc: Global, case: &[u8], most: usize) -> anyhow::Result<Vec<u8>> {
    answer_case(alloc, case, most, &mut Fresh)
}
