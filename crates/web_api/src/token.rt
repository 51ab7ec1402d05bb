//! The token of a message.

ghost use Rattle.std.specs.Prelude.{◌≡◌, option_map, codes};
ghost use Rattle.std.specs.Str.{str_eq_ignore_ascii_case};
ghost use Rattle.sha2.specs.Sha256.{sha256};
ghost use Rattle.web_api.specs.Path.{bytes_of};
ghost use Rattle.web_api.specs.Token.{token_in, token_of};

use sha2::{Digest, Sha256};
use web_http::Frame;

/// Whether a word is the scheme and one space, in any case.
fn is_scheme(word: &[u8]) -> bool
    ensures { result ≡ str_eq_ignore_ascii_case word.now (codes "Token ") }
{
    word.eq_ignore_ascii_case(b"Token ")
}

/// The token of an `Authorization` value: what follows the scheme and one space.
fn token_in(value: &[u8]) -> Option<&[u8]>
    ensures { option_map bytes_of result ≡ token_in value.now }
{
    if value.len() >= 6 && is_scheme(&value[..6]) {
        Some(&value[6..])
    } else {
        None
    }
}

/// The token of a message, from its first `Authorization` field.
pub(crate) fn token_of<'a>(frame: &Frame<'a>) -> Option<&'a [u8]>
    ensures { option_map bytes_of result ≡ token_of frame.now }
{
    token_in(frame.field(b"authorization")?)
}

/// The SHA-256 digest of a message's token, where it has one.
pub(crate) fn token_digest(frame: &Frame<'_>) -> Option<[u8; 32]>
    ensures { result ≡ option_map sha256 (token_of frame.now) }
{
    match token_of(frame) {
        None => None,
        Some(token) => Some(Sha256::digest(token)),
    }
}
