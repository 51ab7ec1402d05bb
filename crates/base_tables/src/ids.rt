//! Lists of ids.

ghost use Rattle.std.specs.Prelude.{◌≡◌, IfOk};
ghost use Rattle.base_tables.specs.Rising.{rising};
ghost use Rattle.base_tables.specs.Tables.{has};

use crate::rows::{Row, place_of};
use std::alloc::{AllocError, Global};
use std::marker::Model;

/// Sorts ids in rising order, each once.
pub fn sorted(ids: Vec<u64>) -> Vec<u64>
    ensures { result.items ≡ rising ids.items }
{
    let mut ids = ids;
    ids.sort_unstable();
    ids.dedup();
    ids
}

/// Ids in rising order, each once, which contracts see as a list.
#[derive(Drop)]
pub struct Ids {
    ids: Vec<u64>,
}

impl Model for Ids {
    ghost use Rattle.std.specs.Prelude.{List, ℕ};
    ghost use Rattle.base_tables.specs.Tables.{AreInOrder};

    ghost Value = { List ℕ };

    ghost view = { λ t. t.ids.items };

    ghost invariant = { λ t. AreInOrder (λ n. n) t.ids.items };
}

impl Ids {
    /// A set of these ids, in rising order, each once.
    pub fn sorted(ids: Vec<u64>) -> Self
        ensures { result ≡ rising ids.items }
    {
        Ids { ids: sorted(ids) }
    }

    /// The ids in rising order, each once.
    pub fn rising(alloc: Global, given: &[u64]) -> Result<Self, AllocError>
        ensures { IfOk result (λ ids. ids ≡ rising given.now) }
    {
        Ok(Ids::sorted(given.to_vec(alloc)?))
    }

    /// A copy.
    pub fn copy(&self, alloc: Global) -> Result<Self, AllocError>
        ensures { IfOk result (λ ids. ids ≡ self.now) }
    {
        Ok(Ids {
            ids: self.ids.to_vec(alloc)?,
        })
    }

    /// The ids in order.
    pub fn as_slice(&self) -> &[u64]
        ensures { result.now ≡ self.now }
    {
        self.ids.as_slice()
    }

    /// Whether the id is among them.
    pub fn has(&self, id: u64) -> bool
        ensures { result ≡ has id self.now }
    {
        place_of(&self.ids, id).is_ok()
    }
}

impl Row for u64 {
    ghost key = { λ n. n };

    fn id(&self) -> u64 {
        *self
    }
}
