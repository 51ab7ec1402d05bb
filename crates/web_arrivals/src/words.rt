//! The words of the house.

ghost use Rattle.std.specs.Prelude.{◌≡◌, IfOk, option_map};
ghost use Rattle.sha2.specs.Sha256.{sha256};
ghost use Rattle.web_api.specs.Token.{token_of};
ghost use Rattle.web_responses.specs.Replies.{words};
ghost use Rattle.web_arrivals.specs.Coming.{arrival_with};

use crate::coming::arrival_of;
use base_devices::Tick;
use base_values::{Response, Slug};
use model_commands::Reply;
use office_deliveries::{Arrival, Wording};
use std::alloc::{AllocError, Global};
use std::marker::Model;
use web_api::{ApiRouter, key_of};
use web_http::Frame;

/// The words of the house of an organizer's event: what a message asks for, and what a reply is told. Contracts see the two
/// slugs.
#[derive(Drop)]
pub struct HttpWording {
    router: ApiRouter,
}

impl Model for HttpWording {
    ghost use Rattle.web_api.specs.Slugs.{Slugs};

    ghost Value = { Slugs };

    ghost view = { λ w. w.router };
}

impl HttpWording {
    /// The words of the house with these slugs.
    pub fn new(alloc: Global, organizer: &Slug, event: &Slug) -> Result<Self, AllocError>
        ensures organizer { IfOk result (λ w. w.organizer ≡ organizer.now) }
        ensures event { IfOk result (λ w. w.event ≡ event.now) }
    {
        let router = ApiRouter::new(alloc, organizer, event)?;
        Ok(HttpWording { router })
    }

    /// The SHA-256 digest of a message's token, where it has one.
    pub fn token_digest(&self, frame: &Frame<'_>) -> Option<[u8; 32]>
        ensures { result ≡ option_map sha256 (token_of frame.now) }
    {
        self.router.token_digest(frame)
    }

    /// The arrival that a message is, where its token has this number, or else what is told without one.
    pub fn arrival(
        &self,
        alloc: Global,
        tick: Tick,
        frame: &Frame<'_>,
        number: Option<u64>,
    ) -> Result<Result<Arrival, Response>, AllocError>
        ensures { IfOk result
            (λ r. r ≡ arrival_with self.now.organizer self.now.event number tick frame.now) }
    {
        let call = self.router.read_request(alloc, frame, number)?;
        let key = key_of(alloc, frame)?;
        Ok(arrival_of(tick, number.unwrap_or(0), key, call))
    }
}

impl Wording for HttpWording {
    ghost words = { λ w. words w.organizer w.event };

    fn words(&self, alloc: Global, reply: &Reply) -> Result<Response, AllocError> {
        self.router.words(alloc, reply)
    }
}
