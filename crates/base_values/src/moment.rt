//! Moments.

ghost use Rattle.std.specs.Prelude.{◌≡◌, ◌≤◌, ◌+◌, ◌<◌, ◌↔◌, IsTrue, min};
ghost use Rattle.base_values.specs.Moments.{last_moment};

use std::marker::Model;

/// The last moment, 9998-12-31T23:59:59Z, in seconds since 1970.
pub const LAST_MOMENT: u64 = 253_370_764_799;

/// Whole seconds since 1970-01-01T00:00:00Z, up to the end of the year 9998.
#[derive(Clone, Copy, PartialEq, Eq, PartialOrd, Ord)]
pub struct Moment {
    seconds: u64,
}

impl Model for Moment {
    ghost use Rattle.std.specs.Prelude.{ℕ, ◌≤◌};
    ghost use Rattle.base_values.specs.Moments.{last_moment};

    ghost Value = { ℕ };

    ghost view = { λ m. m.seconds };

    ghost invariant = { λ m. m.seconds ≤ last_moment };

    ghost inverse = { λ n. record { seconds = n } };
}

impl Moment {
    /// That many seconds since 1970, which have to be at most 253,370,764,799.
    pub fn new(seconds: u64) -> Self
        requires { seconds ≤ last_moment }
        ensures { result ≡ seconds }
    {
        Moment { seconds }
    }

    /// Seconds since 1970.
    pub fn get(self) -> u64
        ensures value { result ≡ self }
        ensures in_range { self ≤ last_moment }
    {
        self.seconds
    }

    /// The sum, or the last moment where the sum is beyond it.
    pub fn later(self, seconds: u64) -> Moment
        ensures { result ≡ min (self + seconds) last_moment }
    {
        let left = LAST_MOMENT - self.seconds;
        if seconds < left {
            Moment {
                seconds: self.seconds + seconds,
            }
        } else {
            Moment {
                seconds: LAST_MOMENT,
            }
        }
    }

    /// Whether it comes first.
    pub fn is_before(self, other: Moment) -> bool
        ensures { IsTrue result ↔ (self < other) }
    {
        self.seconds < other.seconds
    }
}
