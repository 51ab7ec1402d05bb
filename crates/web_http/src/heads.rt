//! The head at the front of the bytes that came.

ghost use Rattle.std.specs.Prelude.{◌≡◌, List, length};
ghost use Rattle.httparse.specs.declared.spans.HeaderSpan.{HeaderSpan};
ghost use Rattle.web_http.specs.Heads.{field_room, Undecided, IsLastLine, FindsHead, WithinHead};

use httparse::Status;
use httparse::spans::{HeaderSpan, RequestSpans, parse_request};

/// The most bytes of a head.
pub const HEAD_LIMIT: usize = 16_384;

/// What the front of the bytes is.
#[derive(Clone, Copy, Drop)]
pub enum Head {
    Whole(usize, RequestSpans),
    Bad,
    Long,
    Waits,
}

/// How many bytes the lines that have ended take, of those that a head may have.
pub fn last_line(bytes: &[u8]) -> usize
    ensures { IsLastLine bytes.now result }
{
    let mut n = if bytes.len() < HEAD_LIMIT {
        bytes.len()
    } else {
        HEAD_LIMIT
    };
    while n > 0 && bytes[n - 1] != b'\n' {
        n -= 1;
    }
    n
}

/// What bytes that settle nothing are.
fn unfinished(bytes: &[u8]) -> Head
    requires { Undecided bytes.now }
    ensures finds { (headers : List HeaderSpan) → FindsHead bytes.now headers result }
    ensures within { (headers : List HeaderSpan) → WithinHead bytes.now headers result }
{
    if bytes.len() < HEAD_LIMIT {
        Head::Waits
    } else {
        Head::Long
    }
}

/// The head at the front of the bytes.
pub fn head_of(bytes: &[u8], headers: &mut [HeaderSpan]) -> Head
    requires { length headers.old ≡ field_room }
    ensures finds { FindsHead bytes.now headers.new result }
    ensures within { WithinHead bytes.now headers.new result }
{
    let end = last_line(bytes);
    if end == 0 {
        return unfinished(bytes);
    }
    match parse_request(&bytes[..end], headers) {
        Ok(Status::Complete(head)) => Head::Whole(end, head),
        Ok(Status::Partial) => unfinished(bytes),
        Err(_) => Head::Bad,
    }
}
