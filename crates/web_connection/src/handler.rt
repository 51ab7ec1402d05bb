//! Who answers the messages of a connection.

ghost use Rattle.base_devices.specs.declared.device.Tick.{Tick};
ghost use Rattle.base_values.specs.declared.answer.Answer.{Answer};
ghost use Rattle.web_http.specs.Messages.{Message};

use base_devices::device::Tick;
use base_values::answer::Answer;
use std::alloc::Global;
use web_http::frame::Frame;

/// Who answers the messages of a connection.
pub trait Handler {
    // at this tick the message may be answered so, which leads to that handler
    ghost serves: { Self → Tick → Message → Answer → Self → Type 0 };

    /// Answers a message. Where a growth is refused that is `Answer::Unavailable`.
    fn serve(&mut self, alloc: Global, tick: Tick, frame: &Frame<'_>) -> Answer
        ensures { serves self.old tick frame.now result self.new };
}
