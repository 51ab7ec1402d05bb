//! Counts within their limits.

ghost use Rattle.std.specs.Prelude.{◌≡◌, ◌≤◌};
ghost use Rattle.base_values.specs.Counts.{IsUses, IsSize, IsPriority};

use std::marker::Model;

/// How often a voucher may be used at most.
pub const MOST_USES: u64 = 1_000_000;

/// How many places a quota may have at most.
pub const MOST_PLACES: u64 = 1_000_000;

/// The highest priority; the lowest is as far below 0.
pub const MOST_PRIORITY: i32 = 1_000_000;

/// How often a voucher may be used: 1 to 1,000,000 times.
#[derive(Clone, Copy, PartialEq, Eq, PartialOrd, Ord)]
pub struct Uses {
    count: u32,
}

impl Model for Uses {
    ghost use Rattle.std.specs.Prelude.{ℕ};
    ghost use Rattle.base_values.specs.Counts.{IsUses};

    ghost Value = { ℕ };

    ghost view = { λ u. u.count };

    ghost invariant = { λ u. IsUses u.count };

    ghost inverse = { λ n. record { count = n } };
}

impl Uses {
    /// That many uses, which have to be 1 to 1,000,000.
    pub fn new(count: u32) -> Self
        requires { IsUses count }
        ensures { result ≡ count }
    {
        Uses { count }
    }

    /// How many times.
    pub fn get(self) -> u32
        ensures value { result ≡ self }
        ensures in_range { IsUses self }
    {
        self.count
    }
}

/// How many places a quota has: 0 to 1,000,000.
#[derive(Clone, Copy, PartialEq, Eq, PartialOrd, Ord)]
pub struct Size {
    places: u32,
}

impl Model for Size {
    ghost use Rattle.std.specs.Prelude.{ℕ};
    ghost use Rattle.base_values.specs.Counts.{IsSize};

    ghost Value = { ℕ };

    ghost view = { λ s. s.places };

    ghost invariant = { λ s. IsSize s.places };

    ghost inverse = { λ n. record { places = n } };
}

impl Size {
    /// That many places, which have to be at most 1,000,000.
    pub fn new(places: u32) -> Self
        requires { IsSize places }
        ensures { result ≡ places }
    {
        Size { places }
    }

    /// How many places.
    pub fn get(self) -> u32
        ensures value { result ≡ self }
        ensures in_range { IsSize self }
    {
        self.places
    }
}

/// How early an entry of the waiting list is served, higher first: -1,000,000 to 1,000,000.
#[derive(Clone, Copy, PartialEq, Eq, PartialOrd, Ord)]
pub struct Priority {
    rank: i32,
}

impl Model for Priority {
    ghost use Rattle.std.specs.Prelude.{ℤ};
    ghost use Rattle.base_values.specs.Counts.{IsPriority};

    ghost Value = { ℤ };

    ghost view = { λ p. p.rank };

    ghost invariant = { λ p. IsPriority p.rank };

    ghost inverse = { λ n. record { rank = n } };
}

impl Priority {
    /// That priority, which has to be -1,000,000 to 1,000,000.
    pub fn new(rank: i32) -> Self
        requires { IsPriority rank }
        ensures { result ≡ rank }
    {
        Priority { rank }
    }

    /// The priority as a number.
    pub fn get(self) -> i32
        ensures value { result ≡ self }
        ensures in_range { IsPriority self }
    {
        self.rank
    }
}
