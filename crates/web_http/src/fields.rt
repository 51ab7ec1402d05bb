//! What the fields of a head say of the body.

ghost use Rattle.std.specs.Prelude.{◌≡◌, ◌≤◌, length, All, option_map, reverse};
ghost use Rattle.httparse.specs.Spans.{IsHeaderWithin};
ghost use Rattle.web_http.specs.Found.{fields_at};
ghost use Rattle.web_http.specs.Messages.{same_word, first_named, declared_length, check_fields, lists_close, says_close};
ghost use Rattle.httparse.specs.Grammar.{skip_ows, trim_ows};

use crate::fault::FrameFault;
use base_values::number_of;
use httparse::is_space_or_tab;
use httparse::spans::HeaderSpan;

/// The most fields of a head.
pub const FIELD_LIMIT: usize = 64;

/// The most bytes of a body.
pub const BODY_LIMIT: u64 = 1_048_576;

/// Whether the words are equal but for ASCII case.
pub fn same_word(a: &[u8], b: &[u8]) -> bool
    ensures { result ≡ same_word a.now b.now }
{
    if a.len() != b.len() {
        return false;
    }
    let mut same = true;
    for i in 0..b.len() {
        same &= a[i].to_ascii_lowercase() == b[i].to_ascii_lowercase();
    }
    same
}

/// The value of the first field of that name.
pub fn first_named<'a>(head: &'a [u8], headers: &[HeaderSpan], name: &[u8]) -> Option<&'a [u8]>
    requires { All (IsHeaderWithin (length head.now)) headers.now }
    ensures { option_map (λ v. v.now) result
        ≡ first_named name.now (fields_at head.now headers.now) }
{
    for header in headers {
        if same_word(header.name.of(head), name) {
            return Some(header.value.of(head));
        }
    }
    None
}

// The length that the fields declare for the body.
fn declared_length(head: &[u8], headers: &[HeaderSpan]) -> Result<u64, FrameFault>
    requires { All (IsHeaderWithin (length head.now)) headers.now }
    ensures { result ≡ declared_length (fields_at head.now headers.now) }
{
    let mut seen: Option<&[u8]> = None;
    for header in headers {
        if same_word(header.name.of(head), b"content-length") {
            if seen.is_some() {
                return Err(FrameFault::BadHead);
            }
            seen = Some(header.value.of(head));
        }
    }
    match seen {
        None => Ok(0),
        Some(value) => match number_of(value) {
            None => Err(FrameFault::BadHead),
            Some(n) => {
                if n > BODY_LIMIT {
                    Err(FrameFault::BodyTooLarge)
                } else {
                    Ok(n)
                }
            }
        },
    }
}

/// The length of the body, or the first fault of the fields.
pub fn check_fields(head: &[u8], headers: &[HeaderSpan]) -> Result<u64, FrameFault>
    requires { All (IsHeaderWithin (length head.now)) headers.now }
    ensures { result ≡ check_fields (fields_at head.now headers.now) }
{
    if headers.len() > FIELD_LIMIT {
        return Err(FrameFault::HeadTooLarge);
    }
    if first_named(head, headers, b"transfer-encoding").is_some() {
        return Err(FrameFault::UnknownCoding);
    }
    declared_length(head, headers)
}

// The text without the blanks at its start.
fn trim_start(mut s: &[u8]) -> &[u8]
    ensures { result.now ≡ skip_ows s.now }
{
    while let [first, rest @ ..] = s
        && is_space_or_tab(*first)
    {
        s = rest;
    }
    s
}

// The text without the blanks at its end.
fn trim_end(mut s: &[u8]) -> &[u8]
    ensures { result.now ≡ reverse (skip_ows (reverse s.now)) }
{
    while let [rest @ .., last] = s
        && is_space_or_tab(*last)
    {
        s = rest;
    }
    s
}

// The text without the blanks at both ends.
fn trim_ows(s: &[u8]) -> &[u8]
    ensures { result.now ≡ trim_ows s.now }
{
    trim_end(trim_start(s))
}

// Whether one of the words between the commas is `close`.
fn lists_close(value: &[u8]) -> bool
    ensures { result ≡ lists_close value.now }
{
    value
        .split(|b| *b == b',')
        .any(|word| same_word(trim_ows(word), b"close"))
}

/// Whether a `Connection` field lists `close`.
pub fn says_close(head: &[u8], headers: &[HeaderSpan]) -> bool
    requires { All (IsHeaderWithin (length head.now)) headers.now }
    ensures { result ≡ says_close (fields_at head.now headers.now) }
{
    for header in headers {
        if same_word(header.name.of(head), b"connection") && lists_close(header.value.of(head)) {
            return true;
        }
    }
    false
}
