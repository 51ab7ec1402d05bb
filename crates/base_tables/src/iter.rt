//! The rows of a table, one after another.

ghost use Rattle.std.specs.Prelude.{◌≡◌, length};
ghost use Rattle.std.specs.Iterator.{YieldsFirstRef, item_count};
ghost use Rattle.base_tables.specs.Slots.{rows_in};

use crate::slot::Slot;
use std::marker::Model;

/// The rows that stand in the places of a table, in order of id. Contracts see the list of those that are left.
#[derive(Drop)]
pub struct Iter<'a, T> {
    slots: &'a [Slot<T>],
}

impl<'a, T> Model for Iter<'a, T> {
    ghost use Rattle.std.specs.Prelude.{List};
    ghost use Rattle.base_tables.specs.Slots.{rows_in};

    ghost Value = { List T };

    ghost view = { λ it. rows_in it.slots.now };
}

impl<'a, T> Iter<'a, T> {
    /// The rows that stand in these places.
    pub fn over(slots: &'a [Slot<T>]) -> Self
        ensures { result ≡ rows_in slots.entry.now }
    {
        Iter { slots }
    }
}

impl<'a, T> Iterator for Iter<'a, T> {
    type Item = &'a T;

    ghost next_gives = { YieldsFirstRef (λ rest. rest) };

    ghost remaining = { item_count (λ rest. rest) };

    fn next(&mut self) -> Option<&'a T> {
        while let Some((slot, others)) = self.slots.split_first() {
            self.slots = others;
            if let Some(row) = slot.row() {
                return Some(row);
            }
        }
        None
    }
}
