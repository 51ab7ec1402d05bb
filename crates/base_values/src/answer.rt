//! Answers to requests.

ghost use Rattle.std.specs.Prelude.{◌≡◌};

use crate::status_code::StatusCode;
use std::marker::Model;

/// The methods that a path has, where another one was asked for.
#[derive(Clone, Copy, PartialEq, Eq)]
pub struct Methods {
    pub get: bool,
    pub post: bool,
    pub patch: bool,
    pub delete: bool,
}

/// The body of an answer, which contracts see as the list of its bytes.
#[derive(Drop)]
pub struct Body {
    bytes: Vec<u8>,
}

impl Model for Body {
    ghost use Rattle.std.specs.Prelude.{List, ℕ};

    ghost Value = { List ℕ };

    ghost view = { λ b. b.bytes.items };
}

impl Body {
    /// The body of these bytes.
    pub fn new(bytes: Vec<u8>) -> Self
        ensures { result ≡ bytes.items }
    {
        Body { bytes }
    }

    /// Its bytes.
    pub fn as_slice(&self) -> &[u8]
        ensures { result.now ≡ self.now }
    {
        self.bytes.as_slice()
    }
}

/// What a request is told: the part of an answer that a repeat gets again.
#[derive(Drop)]
pub struct Response {
    pub status: StatusCode,
    /// Only with 405.
    pub allow: Option<Methods>,
    pub body: Body,
}

/// The answer to a request.
#[derive(Drop)]
pub enum Answer {
    /// The request was decided.
    Decided(Response),
    /// 503: a growth or a call of the store was refused, and nothing has changed. It takes no memory.
    Unavailable,
}
