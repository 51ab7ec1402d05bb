//! A message, where it lies in the buffer.

ghost use Rattle.std.specs.Prelude.{◌≡◌, Some, option_map};
ghost use Rattle.httparse.specs.Spans.{IsRequestWithin};
ghost use Rattle.web_http.specs.Messages.{first_named, closes};
ghost use Rattle.web_http.specs.Found.{message_at};

use crate::fields::{first_named, says_close};
use httparse::spans::{HeaderSpan, RequestSpans};
use std::marker::Model;

/// A whole message.
#[derive(Drop)]
pub struct Frame<'a> {
    head: &'a [u8],
    headers: &'a [HeaderSpan],
    spans: RequestSpans,
    body: &'a [u8],
}

impl<'a> Model for Frame<'a> {
    ghost use Rattle.web_http.specs.Messages.{Message};

    ghost Value = { Message };

    ghost use Rattle.web_http.specs.Shown.{message_shown, IsShown};

    ghost view = { message_shown };

    ghost invariant = { IsShown };
}

impl<'a> Frame<'a> {
    /// The message whose head's spans lie in those lines.
    pub(crate) fn new(
        head: &'a [u8],
        headers: &'a [HeaderSpan],
        spans: RequestSpans,
        body: &'a [u8],
    ) -> Frame<'a>
        requires { IsRequestWithin head.now headers.now spans }
        ensures { result ≡ message_at head.now headers.now spans body.now }
    {
        Frame {
            head,
            headers,
            spans,
            body,
        }
    }

    /// The method.
    pub fn method(&self) -> &'a [u8]
        ensures { result.now ≡ self.now.method }
    {
        self.spans.method.of(self.head)
    }

    /// The target.
    pub fn target(&self) -> &'a [u8]
        ensures { result.now ≡ self.now.target }
    {
        self.spans.path.of(self.head)
    }

    /// The body.
    pub fn body(&self) -> &'a [u8]
        ensures { result.now ≡ self.now.body }
    {
        self.body
    }

    /// The value of the first field of that name.
    pub fn field(&self, name: &[u8]) -> Option<&'a [u8]>
        ensures { option_map (λ v. v.now) result ≡ first_named name.now self.now.fields }
    {
        first_named(self.head, &self.headers[..self.spans.headers], name)
    }

    /// Whether the connection ends after the message.
    pub fn closes(&self) -> bool
        ensures { result ≡ closes self.now }
    {
        self.spans.version == 0 || says_close(self.head, &self.headers[..self.spans.headers])
    }
}
