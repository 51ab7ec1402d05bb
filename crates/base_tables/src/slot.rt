//! The places of a table from which rows go without those behind them moving.

ghost use Rattle.std.specs.Prelude.{◌≡◌, Bool};
ghost use Rattle.std.specs.Option.{option_copied};
ghost use Rattle.base_tables.specs.Slots.{slot_key, row_in, is_full};

use crate::Row;

/// A place of a table: a row, or the id of one that is gone.
#[derive(Drop)]
pub enum Slot<T> {
    Full(T),
    Gone(u64),
}

impl<T> Slot<T> {
    /// The row that stands there.
    pub fn row(&self) -> Option<&T>
        ensures { option_copied result ≡ row_in self.now }
    {
        match self {
            Slot::Full(row) => Some(row),
            Slot::Gone(_) => None,
        }
    }

    /// Whether a row stands there.
    pub fn is_full(&self) -> bool
        ensures { result ≡ is_full self.now }
    {
        self.row().is_some()
    }
}

impl<T: Row> Row for Slot<T> {
    ghost key = { slot_key T.key };

    fn id(&self) -> u64 {
        match self {
            Slot::Full(row) => row.id(),
            Slot::Gone(id) => *id,
        }
    }
}
