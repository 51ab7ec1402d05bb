//! The head of an answer, gathered without memory.

ghost use Rattle.std.specs.Prelude.{◌≡◌, ◌≤◌, length, Some};
ghost use Rattle.std.specs.List.{flat_map};
ghost use Rattle.web_http.specs.Text.{when, phrase, head_room, challenge, close_field, status_line, content_fields, allow_field, head_text};

use arrayvec::ArrayVec;
use base_values::{Methods, StatusCode};
use itoa::Buffer;

/// A part of a head, or all of it.
type Part = ArrayVec<u8, 256>;

// The pieces, one after another.
fn gather(pieces: &[&[u8]]) -> Part
    requires { length (flat_map (λ p. p.now) pieces.now) ≤ head_room }
    ensures { result.items ≡ flat_map (λ p. p.now) pieces.now }
{
    let mut part = ArrayVec::new();
    for piece in pieces {
        let _ = part.try_extend_from_slice(piece);
    }
    part
}

// The text where the test holds, and nothing elsewhere.
pub fn when(holds: bool, text: &[u8]) -> &[u8]
    ensures { result.now ≡ when holds text.now }
{
    if holds { text } else { b"" }
}

// The status as one of the crate that knows its digits and its phrase.
fn coded(status: StatusCode) -> Option<http::StatusCode>
    ensures { result ≡ Some status }
{
    match http::StatusCode::from_u16(status.as_u16()) {
        Ok(code) => Some(code),
        Err(_) => None,
    }
}

// The phrase of a status, empty where it has none.
fn phrase(status: http::StatusCode) -> &'static [u8]
    ensures value { result.now ≡ phrase status }
    ensures short { length result.now ≤ 31 }
{
    // A status has three digits, and no phrase of such a one is longer.
    let code = status.as_u16();
    prove!(code < 1000);
    match status.canonical_reason() {
        Some(text) => text.as_bytes(),
        None => b"",
    }
}

// The first line.
fn status_line(status: StatusCode) -> Part
    ensures text { result.items ≡ status_line status }
    ensures short { length result.items ≤ 46 }
{
    let Some(code) = coded(status) else {
        return ArrayVec::new();
    };
    gather(&[
        b"HTTP/1.1 ",
        code.as_str().as_bytes(),
        b" ",
        phrase(code),
        b"\r\n",
    ])
}

// What the content is, where there is one.
fn content_fields(status: StatusCode, size: usize) -> Part
    ensures { result.items ≡ content_fields status size }
{
    if status.as_u16() == 204 {
        return ArrayVec::new();
    }
    let mut buffer = Buffer::new();
    gather(&[
        b"Content-Type: application/json\r\nContent-Length: ",
        buffer.format(size).as_bytes(),
        b"\r\n",
    ])
}

// A 401 says how to come in.
fn challenge(status: StatusCode) -> Part
    ensures { result.items ≡ challenge status }
{
    gather(&[when(status.as_u16() == 401, b"WWW-Authenticate: Token\r\n")])
}

// Which methods the path has, where that is told.
fn allow_field(allow: Option<Methods>) -> Part
    ensures { result.items ≡ allow_field allow }
{
    let Some(path) = allow else {
        return ArrayVec::new();
    };
    gather(&[
        b"Allow: ",
        when(path.get, b"GET"),
        when(path.get & path.post, b", "),
        when(path.post, b"POST"),
        when((path.get | path.post) & path.patch, b", "),
        when(path.patch, b"PATCH"),
        when((path.get | path.post | path.patch) & path.delete, b", "),
        when(path.delete, b"DELETE"),
        b"\r\n",
    ])
}

// That the connection ends after the answer.
fn close_field(closes: bool) -> Part
    ensures { result.items ≡ close_field closes }
{
    gather(&[when(closes, b"Connection: close\r\n")])
}

/// The head of an answer with a body of that size, and the empty line that ends it.
pub fn head_of(status: StatusCode, allow: Option<Methods>, size: usize, closes: bool) -> Part
    ensures { result.items ≡ head_text status allow size closes }
{
    let line = status_line(status);
    let content = content_fields(status, size);
    let challenge = challenge(status);
    let allow = allow_field(allow);
    let close = close_field(closes);
    gather(&[
        line.as_slice(),
        content.as_slice(),
        challenge.as_slice(),
        allow.as_slice(),
        close.as_slice(),
        b"\r\n",
    ])
}
