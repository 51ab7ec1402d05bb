//! The words of a shop: which command a message is, and what a reply says.

ghost use Rattle.std.specs.Prelude.{◌≡◌, IfOk, option_map};
ghost use Rattle.sha2.specs.Sha256.{sha256};
ghost use Rattle.web_api.specs.Token.{token_of};
ghost use Rattle.web_api.specs.Call.{call};
ghost use Rattle.web_responses.specs.Replies.{words};

use crate::call::{Call, call_of};
use crate::path::{target_of, ticket_named};
use crate::routes::{Route, routes};
use crate::token;
use base_values::{Response, Slug};
use matchit::Router;
use model_commands::Reply;
use std::alloc::{AllocError, Global};
use std::marker::Model;
use web_http::Frame;
use web_responses::{invalid_token, no_credentials};

/// The words of the shop of an organizer's event. Contracts see the two slugs.
#[derive(Drop)]
pub struct ApiRouter {
    organizer: Slug,
    event: Slug,
    router: Router<Route>,
}

impl Model for ApiRouter {
    ghost use Rattle.std.specs.Prelude.{◌≡◌};
    ghost use Rattle.web_api.specs.Slugs.{Slugs};
    ghost use Rattle.web_api.specs.Routes.{all_routes};

    ghost Value = { Slugs };

    ghost view = { λ w. record { organizer = w.organizer; event = w.event } };

    ghost invariant = { λ w. w.router ≡ all_routes };
}

impl ApiRouter {
    /// The words of the shop with these slugs.
    pub fn new(alloc: Global, organizer: &Slug, event: &Slug) -> Result<ApiRouter, AllocError>
        ensures organizer { IfOk result (λ w. w.organizer ≡ organizer.now) }
        ensures event { IfOk result (λ w. w.event ≡ event.now) }
    {
        let Ok(router) = routes(alloc) else {
            return Err(AllocError);
        };
        let organizer = organizer.copy(alloc)?;
        let event = event.copy(alloc)?;
        Ok(ApiRouter {
            organizer,
            event,
            router,
        })
    }

    /// The SHA-256 digest of a message's token, where it has one: what follows `Token`
    /// (in any case) and one space in its first `Authorization` field.
    pub fn token_digest(&self, frame: &Frame<'_>) -> Option<[u8; 32]>
        ensures { result ≡ option_map sha256 (token_of frame.now) }
    {
        token::token_digest(frame)
    }

    /// What a message asks for, where `known` is the row of its token, if the shop has it.
    /// The tests go in this order: the token (401), the path (404), the method (405), for a list
    /// its page (404), for a write the body as JSON, as an object or for a bulk call as a list, and by its fields (400),
    /// and then for an order's path its code (404).
    #[tactic(auto, unfolding(crate::specs::Call::call))]
    pub fn read_request(
        &self,
        alloc: Global,
        frame: &Frame<'_>,
        known: Option<u64>,
    ) -> Result<Call, AllocError>
        ensures { IfOk result (λ c. c ≡ call self.now.organizer self.now.event frame.now known) }
    {
        if token::token_of(frame).is_none() {
            return Ok(Call::Unauthorized(no_credentials(alloc)?));
        }
        if known.is_none() {
            return Ok(Call::Unauthorized(invalid_token(alloc)?));
        }
        let target = target_of(
            &self.router,
            self.organizer.as_str(),
            self.event.as_str(),
            frame.target(),
        );
        let ticket = ticket_named(self.organizer.as_str(), self.event.as_str(), frame.target());
        call_of(alloc, frame, ticket, target)
    }

    /// The words of a reply.
    pub fn words(&self, alloc: Global, reply: &Reply) -> Result<Response, AllocError>
        ensures { IfOk result
            (λ response. response ≡ words self.now.organizer self.now.event reply.now) }
    {
        web_responses::words(alloc, self.organizer.as_str(), self.event.as_str(), reply)
    }
}
