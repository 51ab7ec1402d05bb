//! Requests as they come.

ghost use Rattle.std.specs.Prelude.{◌≡◌};
ghost use Rattle.office_deliveries.specs.Deliveries.{is_write};
ghost use Rattle.office_deliveries.specs.Fit.{IsFitRequest, IsFitArrival};

use base_values::{Draw, Known, Moment, Response};
use model_answers::Key;
use model_commands::{Command, Query};

/// What a request asks for.
#[derive(Drop)]
pub enum Request {
    /// A command.
    Write(Command),
    /// A write that was refused before it was a command.
    WriteRefused(Response),
    /// A question.
    Read(Query),
    /// A read that was refused before it was a question.
    ReadRefused(Response),
}

impl Request {
    /// Whether it may change the shop.
    pub fn is_write(&self) -> bool
        ensures { result ≡ is_write self.now }
    {
        matches!(self, Request::Write(_) | Request::WriteRefused(_))
    }
}

impl Known for Request {
    ghost promise = { IsFitRequest };

    fn recall_invariant(&self) {
        if let Request::Write(command) = self {
            command.recall_invariant();
        }
    }
}

/// A request as it comes: the clock's moment, a draw, the number of its token, and its key.
#[derive(Drop)]
pub struct Arrival {
    pub clock: Moment,
    pub draw: Draw,
    pub token: u64,
    pub key: Key,
    pub request: Request,
}

impl Known for Arrival {
    ghost promise = { IsFitArrival };

    fn recall_invariant(&self) {
        self.draw.recall_invariant();
        self.request.recall_invariant();
    }
}
