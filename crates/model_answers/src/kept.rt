//! Answers that are kept.

ghost use Rattle.std.specs.Prelude.{◌≡◌, IfOk};
ghost use Rattle.model_answers.specs.KeptAnswers.{lasts, is_for};

use crate::key::Key;
use base_values::{Body, Moment, Response};
use std::alloc::{AllocError, Global};

/// How long an answer is kept, in seconds.
pub const A_DAY: u64 = 86_400;

/// An answer that is kept: the number of its token, its key, the moment of the request that was carried out, and what
/// that was told.
#[derive(Drop)]
pub struct Kept {
    pub token: u64,
    pub key: Key,
    pub at: Moment,
    pub response: Response,
}

/// A copy of what was told.
pub fn copy_response(alloc: Global, response: &Response) -> Result<Response, AllocError>
    ensures { IfOk result (λ copy. copy ≡ response.now) }
{
    Ok(Response {
        status: response.status,
        allow: response.allow,
        body: Body::new(response.body.as_slice().to_vec(alloc)?),
    })
}

impl Kept {
    /// Whether it is still kept at a moment: for 86,400 seconds from its own.
    pub fn lasts(&self, now: Moment) -> bool
        ensures { result ≡ lasts now self.now.at }
    {
        now.get() < self.at.get() + A_DAY
    }

    /// Whether it is what was told under this key of this token, and still kept at a moment.
    pub fn is_for(&self, token: u64, key: &[u8], now: Moment) -> bool
        ensures { result ≡ is_for token key.now now self.now }
    {
        !key.is_empty() && self.token == token && self.key.as_slice() == key && self.lasts(now)
    }

    /// A copy.
    pub fn copy(&self, alloc: Global) -> Result<Self, AllocError>
        ensures { IfOk result (λ copy. copy ≡ self.now) }
    {
        Ok(Kept {
            token: self.token,
            key: self.key.copy(alloc)?,
            at: self.at,
            response: copy_response(alloc, &self.response)?,
        })
    }
}
