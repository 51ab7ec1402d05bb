//! Numbers as texts of digits.

ghost use Rattle.std.specs.Prelude.{◌≡◌, ◌*◌, ◌^◌, ◌<◌, ◌≤◌, ◌+◌, length, IfSome};
ghost use Rattle.base_values.specs.Digits.{is_digits, number_of};

/// Whether each byte is a digit.
pub fn is_digits(text: &[u8]) -> bool
    ensures { result ≡ is_digits text.now }
{
    text.iter().all(|b| b.is_ascii_digit())
}

/// The number that 1 to 18 digits write.
pub fn number_of(text: &[u8]) -> Option<u64>
    ensures value { result ≡ number_of text.now }
    ensures small { IfSome result (λ n. n < 10 ^ length text.now) }
{
    if text.is_empty() || text.len() > 18 {
        return None;
    }
    let mut n: u64 = 0;
    for b in text {
        if !b.is_ascii_digit() {
            return None;
        }
        n = n * 10 + (*b - b'0') as u64;
    }
    Some(n)
}
