//! Shares of an amount.

ghost use Rattle.std.specs.Prelude.{◌≡◌, ◌≤◌};
ghost use Rattle.base_values.specs.Percent.{whole, percent_of, left_of};

use crate::cents::Cents;
use std::marker::Model;

/// A hundred percent.
const WHOLE: u64 = 10_000;

/// A share, in hundredths of a percent, 0 to 10,000.
#[derive(Clone, Copy, PartialEq, Eq)]
pub struct Percent {
    hundredths: u64,
}

impl Model for Percent {
    ghost use Rattle.std.specs.Prelude.{ℕ, ◌≤◌};
    ghost use Rattle.base_values.specs.Percent.{whole};

    ghost Value = { ℕ };

    ghost view = { λ p. p.hundredths };

    ghost invariant = { λ p. p.hundredths ≤ whole };

    ghost inverse = { λ n. record { hundredths = n } };
}

impl Percent {
    /// That many hundredths of a percent; none where they are above 10,000.
    pub fn new(hundredths: u64) -> Option<Self>
        ensures { result ≡ percent_of hundredths }
    {
        if hundredths <= WHOLE {
            Some(Percent { hundredths })
        } else {
            None
        }
    }

    /// How many hundredths of a percent.
    pub fn get(self) -> u64
        ensures value { result ≡ self }
        ensures in_range { self ≤ whole }
    {
        self.hundredths
    }

    /// What is left of an amount after this share is taken off, to the cent; half a cent is rounded up.
    pub fn left_of(self, amount: Cents) -> Cents
        ensures { result ≡ left_of self amount }
    {
        let kept = WHOLE - self.get();
        Cents::new((amount.get() * kept + WHOLE / 2) / WHOLE)
    }
}
