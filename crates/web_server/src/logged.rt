//! A handler whose requests are told of.

ghost use Rattle.std.specs.Prelude.{◌≡◌};

use crate::clock::System;
use crate::log::Log;
use base_devices::Tick;
use base_values::Answer;
use std::alloc::Global;
use std::marker::Model;
use std::time::Clock;
use web_cli::Console;
use web_connection::Handler;
use web_http::Frame;

/// Who is told whose turn it is.
pub trait NamesCaller {
    /// The next requests are of the caller of this number.
    fn name_caller(&mut self, caller: u64)
        ensures { self.new ≡ self.old };
}

/// A handler whose requests are told of: it answers as the one below it does.
#[derive(Drop)]
pub struct Logged<'a, R, D: Handler> {
    log: &'a Log<'a, R>,
    handler: D,
    caller: u64,
}

impl<'a, R, D: Handler> Model for Logged<'a, R, D> {
    ghost Value = { D };

    ghost view = { λ n. n.handler };
}

impl<'a, R, D: Handler> Logged<'a, R, D> {
    /// A handler whose requests are told of in a log.
    pub fn new(log: &'a Log<'a, R>, handler: D) -> Self
        ensures { result ≡ handler }
    {
        Logged {
            log,
            handler,
            caller: 0,
        }
    }

    /// The handler itself.
    pub fn into_handler(self) -> D
        ensures { result ≡ self.entry }
    {
        self.handler
    }
}

impl<R, D: Handler> NamesCaller for Logged<'_, R, D> {
    fn name_caller(&mut self, caller: u64) {
        self.caller = caller;
    }
}

impl<R: Clock + System + Console, D: Handler> Handler for Logged<'_, R, D> {
    ghost serves = { D.serves };

    fn serve(&mut self, alloc: Global, tick: Tick, frame: &Frame<'_>) -> Answer {
        let start = self.log.start();
        let moment = tick.clock;
        let answer = self.handler.serve(alloc, tick, frame);
        if let Some(start) = start {
            self.log
                .tell_request(start, moment, self.caller, frame, &answer);
        }
        answer
    }
}
