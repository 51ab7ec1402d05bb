//! Walks over rows that a key has found.

ghost use Rattle.std.specs.Prelude.{◌≡◌, ◌<◌, ◌+◌, ℕ, length, slice_index_or};
ghost use Rattle.std.specs.Option.{option_copied};
ghost use Rattle.base_tables.specs.Tables.{row_at};

use crate::indexed::Indexed;
use crate::keyed::Keyed;
use crate::ordered::OrderedRows;
use base_index::Found;
use base_values::Steps;
use std::marker::{Model, PhantomData};
use std::sync::ledger::Ledger;

/// Rows of some ids, shown one at a time: each that is looked at is a step of the walk's ledger, so that no count of
/// another ledger can be handed in for it. Contracts see all rows of the table, and these ids.
#[derive(Drop)]
pub struct Walk<'a, T: Keyed + Drop, R: OrderedRows<T>, L: Ledger> {
    rows: &'a Indexed<T, R>,
    ids: Found<'a>,
    ledger: PhantomData<L>,
}

impl<'a, T: Keyed + Drop, R: OrderedRows<T>, L: Ledger> Model for Walk<'a, T, R, L> {
    ghost use Rattle.book_indexes.specs.Indexes.{Walked};

    ghost Value = { Walked T };

    ghost view = { λ w. record { rows = w.rows.now.rows; ids = w.ids } };
}

impl<'a, T: Keyed + Drop, R: OrderedRows<T>, L: Ledger> Walk<'a, T, R, L> {
    /// A walk over the rows of these ids.
    pub fn over(rows: &'a Indexed<T, R>, ids: Found<'a>) -> Self
        ensures rows { result.rows ≡ rows.now.rows }
        ensures ids { result.ids ≡ ids.entry }
    {
        Walk {
            rows,
            ids,
            ledger: PhantomData,
        }
    }

    /// How many rows it shows.
    pub fn len(&self) -> usize
        ensures { result ≡ length self.now.ids }
    {
        self.ids.len()
    }

    /// The row at a place. It takes a step.
    pub fn at(&self, place: usize, steps: &mut Steps<L>) -> Option<&'a T>
        requires { place < length self.now.ids }
        ensures row { (d : ℕ) → option_copied result
            ≡ row_at T.key (slice_index_or self.now.ids place d) self.now.rows }
        ensures cost { steps.new ≡ steps.old + 1 }
    {
        steps.tick();
        let rows = self.rows;
        rows.get(self.ids.at(place))
    }
}
