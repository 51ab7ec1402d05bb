//! One message of a connection, and all that are whole.

ghost use Rattle.web_connection.specs.Run.{AtTick, Steps, ServesReady, Counted, cursor};

use crate::failure::{Failure, Step};
use crate::handler::Handler;
use base_devices::device::{Drain, Ticks};
use std::alloc::Global;
use web_http::frames::Frames;
use web_http::write::{write_answer, write_fault};

/// Takes the first message, if it is whole, and answers it.
pub fn step<T: Ticks, D: Handler, W: Drain>(
    alloc: Global,
    frames: &mut Frames,
    ticks: &mut T,
    handler: &mut D,
    writer: &mut W,
) -> Result<Step, Failure>
    ensures leads { Steps (AtTick T.reads D.serves)
        (cursor frames.old.left (T.reported ticks.old) handler.old (W.taken writer.old))
        (cursor frames.new.left (T.reported ticks.new) handler.new (W.taken writer.new)) result }
    ensures counted { Counted result (T.failures ticks.old) (T.failures ticks.new)
        (W.failures writer.old) (W.failures writer.new) }
{
    match frames.next() {
        None => Ok(Step::Waits),
        Some(Err(fault)) => match write_fault(writer, fault) {
            Ok(()) => Ok(Step::Ends),
            Err(_) => Err(Failure::Output),
        },
        Some(Ok(())) => {
            let Some(frame) = frames.taken() else {
                unreachable!();
            };
            let closes = frame.closes();
            let Ok(tick) = ticks.tick() else {
                return Err(Failure::Clock);
            };
            let answer = handler.serve(alloc, tick, &frame);
            match write_answer(writer, &answer, closes) {
                Ok(()) => Ok(if closes { Step::Ends } else { Step::Goes }),
                Err(_) => Err(Failure::Output),
            }
        }
    }
}

/// Answers each message that is whole. Whether the connection goes on.
pub fn answer_ready<T: Ticks, D: Handler, W: Drain>(
    alloc: Global,
    frames: &mut Frames,
    ticks: &mut T,
    handler: &mut D,
    writer: &mut W,
) -> Result<bool, Failure>
    ensures leads { ServesReady (AtTick T.reads D.serves)
        (cursor frames.old.left (T.reported ticks.old) handler.old (W.taken writer.old))
        (cursor frames.new.left (T.reported ticks.new) handler.new (W.taken writer.new)) result }
    ensures counted { Counted result (T.failures ticks.old) (T.failures ticks.new)
        (W.failures writer.old) (W.failures writer.new) }
{
    loop {
        match step(alloc, frames, ticks, handler, writer) {
            Ok(Step::Waits) => return Ok(true),
            Ok(Step::Ends) => return Ok(false),
            Ok(Step::Goes) => {}
            Err(failure) => return Err(failure),
        }
    }
}
