//! The rules that the rows of a file keep, as damage is told.

ghost use Rattle.std.specs.Prelude.{◌≡◌};
ghost use Rattle.model_damage.specs.Numbers.{number};

/// What the rows of a file can break, in the order in which it is told.
#[derive(Clone, Copy, PartialEq, Eq)]
pub enum Rule {
    /// There is one row of the shop; its slugs, its moment and its next ids are in range.
    Shop,
    /// Each text and each value is within its limits, ids count from 1, and no table has more rows than it may.
    Limits,
    /// In each table ids rise, and each is below the next id.
    Ids,
    /// What a row names stands and fits it, and codes and secrets are as the shop makes them.
    Names,
    /// Each order has 1 to 500 positions, numbered from 1.
    Positions,
    /// No voucher is named more often than it may be used.
    Headroom,
    /// The counters are what is counted afresh.
    Counters,
    /// No more of a voucher is spent than its budget.
    Budgets,
}

impl Rule {
    /// The number by which it is told, 1 to 8.
    pub fn number(self) -> u8
        ensures { result ≡ number self }
    {
        match self {
            Rule::Shop => 1,
            Rule::Limits => 2,
            Rule::Ids => 3,
            Rule::Names => 4,
            Rule::Positions => 5,
            Rule::Headroom => 6,
            Rule::Counters => 7,
            Rule::Budgets => 8,
        }
    }
}
