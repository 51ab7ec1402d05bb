//! What an index has found.

ghost use Rattle.std.specs.Prelude.{◌≡◌, ◌<◌, ◌≤◌, ◌==◌, ◌-◌, ℕ, length, map, take, drop, slice_index_or, IfOk};
ghost use Rattle.base_tables.specs.Tables.{most_listed};
ghost use Rattle.base_index.specs.Entries.{id_of};

use crate::blocks::Blocks;
use crate::entries::id_of;
use std::alloc::{AllocError, Global};
use std::marker::Model;

/// Ids that an index lends, which contracts see as a list.
#[derive(Drop)]
pub struct Found<'a> {
    entries: &'a Blocks,
    first: usize,
    end: usize,
}

impl<'a> Model for Found<'a> {
    ghost use Rattle.std.specs.Prelude.{List, ℕ, ◌-◌, ◌≤◌, length, map, take, drop};
    ghost use Rattle.base_tables.specs.Tables.{most_listed};
    ghost use Rattle.base_index.specs.Entries.{id_of};

    ghost Value = { List ℕ };

    ghost view = { λ f. map id_of (take (f.end - f.first) (drop f.first f.entries.now.rows)) };

    ghost invariant = { λ f. (f.first ≤ f.end) × (f.end ≤ length f.entries.now.rows)
        × (f.end ≤ most_listed) };
}

impl<'a> Found<'a> {
    /// The ids of the entries from a place on and before another.
    pub(crate) fn of(entries: &'a Blocks, first: usize, end: usize) -> Self
        requires { (first ≤ end) × (end ≤ length entries.now.rows) }
        ensures all { result ≡ map id_of (take (end - first) (drop first entries.now.rows)) }
        ensures few { length result ≤ most_listed }
    {
        entries.recall_invariant();
        Found {
            entries,
            first,
            end,
        }
    }

    /// How many there are.
    pub fn len(&self) -> usize
        ensures { result ≡ length self.now }
    {
        self.end - self.first
    }

    /// Whether there is none.
    pub fn is_empty(&self) -> bool
        ensures { result ≡ (length self.now == 0) }
    {
        self.len() == 0
    }

    /// The id at a place.
    pub fn at(&self, place: usize) -> u64
        requires { place < length self.now }
        ensures { (d : ℕ) → slice_index_or self.now place d ≡ result }
    {
        id_of(self.entries.at(self.first + place))
    }

    /// All of them.
    pub fn to_vec(&self, alloc: Global) -> Result<Vec<u64>, AllocError>
        ensures { IfOk result (λ ids. ids.items ≡ self.now) }
    {
        let mut ids = Vec::with_capacity(alloc, self.len())?;
        for place in 0..self.len() {
            ids.push(self.at(place))?;
        }
        Ok(ids)
    }
}
