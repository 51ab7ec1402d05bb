//! Counts.

ghost use Rattle.std.specs.Prelude.{◌≡◌, if◌then◌else◌};

/// 1 where it is so.
pub fn count_one(is: bool) -> u64
    ensures { result ≡ (if is then 1 else 0) }
{
    if is { 1 } else { 0 }
}
