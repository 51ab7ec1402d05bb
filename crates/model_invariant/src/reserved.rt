//! The form of the codes that the shop makes.

ghost use Rattle.std.specs.Prelude.{◌≡◌};
ghost use Rattle.std.specs.List.{list_all};
ghost use Rattle.model_invariant.specs.Reserved.{is_lower_hex, ends_as_made, goes_on_as_made, is_reserved};

use base_values::Text;
use base_values::digits::is_digits;

// Whether a byte is 0 to 9 or a to f.
fn is_lower_hex(b: u8) -> bool
    ensures { result ≡ is_lower_hex b }
{
    matches!(b, b'0'..=b'9' | b'a'..=b'f')
}

// Whether each byte is.
fn are_lower_hex(text: &[u8]) -> bool
    ensures { result ≡ list_all is_lower_hex text.now }
{
    text.iter().all(|b| is_lower_hex(*b))
}

// Whether it is `z` and one or more digits.
fn ends_as_made(text: &[u8]) -> bool
    ensures { result ≡ ends_as_made text.now }
{
    match text.split_first() {
        None => false,
        Some((first, digits)) => *first == b'z' && !digits.is_empty() && is_digits(digits),
    }
}

// Whether it is 32 lower case hex digits, `z` and one or more digits.
fn goes_on_as_made(text: &[u8]) -> bool
    ensures { result ≡ goes_on_as_made text.now }
{
    if text.len() < 32 {
        return false;
    }
    let (digits, end) = text.split_at(32);
    are_lower_hex(digits) && ends_as_made(end)
}

/// Whether a code has the form of those that the shop makes: `W`, 32 lower case hex digits, `z` and
/// one or more digits.
pub fn is_reserved(code: &Text) -> bool
    ensures { result ≡ is_reserved code.now }
{
    match code.as_str().as_bytes().split_first() {
        None => false,
        Some((first, rest)) => *first == b'W' && goes_on_as_made(rest),
    }
}
