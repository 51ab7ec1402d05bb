//! A connection, from its first byte to its end.

ghost use Rattle.std.specs.Prelude.{◌≡◌, ◌+◌, []};
ghost use Rattle.web_connection.specs.Run.{AtTick, CountedIn, IsReadBuffer, TakesIn};
ghost use Rattle.web_connection.specs.Outside.{RunsFrom, RunsOver, outside};

use crate::buffers::Buffers;
use crate::failure::Failure;
use crate::handler::Handler;
use crate::step::answer_ready;
use base_devices::device::{Drain, Source, Ticks};
use std::alloc::Global;
use web_http::frames::Frames;

/// Reads once, and adds what came. Whether anything came.
fn take_in<R: Source>(
    frames: &mut Frames,
    input: &mut [u8],
    reader: &mut R,
) -> Result<bool, Failure>
    requires { IsReadBuffer input.old }
    ensures leads { TakesIn result frames.old.left frames.new.left
        (R.left reader.old) (R.left reader.new) }
    ensures counted { CountedIn result (R.failures reader.old) (R.failures reader.new) }
    ensures calls { R.calls reader.new ≡ R.calls reader.old + 1 }
{
    let Ok(n) = reader.read(input) else {
        return Err(Failure::Input);
    };
    if n == 0 {
        return Ok(false);
    }
    match frames.feed(&input[..n]) {
        Ok(()) => Ok(true),
        Err(_) => Err(Failure::Memory),
    }
}

/// Reads to the end, and answers each message.
fn answer_all<R: Source, T: Ticks, D: Handler, W: Drain>(
    alloc: Global,
    buffers: &mut Buffers,
    reader: &mut R,
    ticks: &mut T,
    handler: &mut D,
    writer: &mut W,
) -> Result<(), Failure>
    requires { buffers.old.frames.left ≡ [] }
    ensures { RunsOver (AtTick T.reads D.serves) handler.old handler.new
        (outside R.Source T.Ticks W.Drain reader.old ticks.old writer.old)
        (outside R.Source T.Ticks W.Drain reader.new ticks.new writer.new) result }
{
    let Buffers { frames, input } = buffers;
    for turn in 0..1_000_000u32 {
        match answer_ready(alloc, frames, ticks, handler, writer) {
            Ok(true) => {}
            Ok(false) => return Ok(()),
            Err(failure) => return Err(failure),
        }
        match take_in(frames, &mut input.bytes, reader) {
            Ok(true) => {}
            Ok(false) => return Ok(()),
            Err(failure) => return Err(failure),
        }
    }
    match answer_ready(alloc, frames, ticks, handler, writer) {
        Ok(true) => Err(Failure::Limit),
        Ok(false) => Ok(()),
        Err(failure) => Err(failure),
    }
}

/// Reads to the end of the stream, or of the connection, and writes the answer of each message in order and nothing
/// else. It reads at most 1,000,000 times, at most 65,536 bytes a time. Where it fails, what was written is the front of
/// that text: faults 6 (there was no memory for what is read), 82 (the reader failed, or its limit is met), 83 (the writer
/// failed), 85 (the clock failed). What the room held before makes no difference.
pub fn run_stream<R: Source, T: Ticks, D: Handler, W: Drain>(
    alloc: Global,
    buffers: &mut Buffers,
    reader: &mut R,
    ticks: &mut T,
    handler: &mut D,
    writer: &mut W,
) -> Result<(), Failure>
    ensures { RunsOver (AtTick T.reads D.serves) handler.old handler.new
        (outside R.Source T.Ticks W.Drain reader.old ticks.old writer.old)
        (outside R.Source T.Ticks W.Drain reader.new ticks.new writer.new) result }
{
    buffers.frames.clear();
    answer_all(alloc, buffers, reader, ticks, handler, writer)
}

/// Answers a stream of requests at a handler that is there for it alone.
pub fn run_connection<R: Source, T: Ticks, D: Handler + Drop, W: Drain>(
    alloc: Global,
    reader: &mut R,
    ticks: &mut T,
    handler: D,
    writer: &mut W,
) -> Result<(), Failure>
    ensures { RunsFrom (AtTick T.reads D.serves) handler
        (outside R.Source T.Ticks W.Drain reader.old ticks.old writer.old)
        (outside R.Source T.Ticks W.Drain reader.new ticks.new writer.new) result }
{
    let mut handler = handler;
    let Ok(mut buffers) = Buffers::new(alloc) else {
        return Err(Failure::Memory);
    };
    run_stream(alloc, &mut buffers, reader, ticks, &mut handler, writer)
}
