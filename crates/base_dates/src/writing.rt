//! The texts of moments.

ghost use Rattle.std.specs.Prelude.{◌≡◌, ◌≤◌, IfOk, string_bytes};
ghost use Rattle.base_values.specs.Moments.{last_moment};
ghost use Rattle.base_dates.specs.Civil.{moment_text};

use base_values::moment::Moment;
use jiff::Timestamp;
use jiff::tz::Offset;
use std::alloc::{AllocError, Global};

/// The text of a moment, as `2026-05-01T10:00:00Z`.
pub fn moment_text(alloc: Global, moment: Moment) -> Result<String, AllocError>
    ensures { IfOk result (λ s. string_bytes s ≡ moment_text moment) }
{
    seconds_text(alloc, moment.get())
}

fn seconds_text(alloc: Global, second: u64) -> Result<String, AllocError>
    requires { second ≤ last_moment }
    ensures { IfOk result (λ s. string_bytes s ≡ moment_text second) }
{
    let Ok(instant) = Timestamp::from_second(second as i64) else {
        unreachable!();
    };
    let clock = Offset::UTC.to_datetime(instant);
    format!(in alloc; "{clock}Z")
}
