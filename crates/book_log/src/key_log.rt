//! A log of keys, with the places of each key.

ghost use Rattle.std.specs.Prelude.{◌≡◌, ◌<◌, ◌-◌, ◌++◌, [], ◌∷◌, ℕ, length, take, OnOk, OnErr, slice_index_or};
ghost use Rattle.std.specs.Option.{IfSome};
ghost use Rattle.book_log.specs.Keys.{key_place};

use crate::touched::{Touched, note};
use std::alloc::{AllocError, Global};
use std::marker::Model;

/// Keys in order. Contracts see the list.
///
/// For each key it keeps its last place, and for each place the one before it that has the same key, so that going back
/// needs no memory.
#[derive(Drop)]
pub struct KeyLog {
    keys: Vec<u64>,
    last: Touched,
    before: Vec<Option<usize>>,
}

impl Model for KeyLog {
    ghost use Rattle.std.specs.Prelude.{List, ℕ};
    ghost use Rattle.book_log.specs.Keys.{IsKeyIndex};

    ghost Value = { List ℕ };

    ghost view = { λ l. l.keys.items };

    ghost invariant = { λ l. IsKeyIndex l.keys.items l.last l.before.items };
}

impl KeyLog {
    /// No keys.
    #[tactic(auto, using(crate::proofs::KeyIndexes::keys_none))]
    pub fn new(alloc: Global) -> Self
        ensures { result ≡ [] }
    {
        KeyLog {
            keys: Vec::new(alloc),
            last: Touched::new(alloc),
            before: Vec::new(alloc),
        }
    }

    /// The last place of a key.
    pub fn last(&self, key: u64) -> Option<usize>
        ensures { result ≡ key_place key self.now }
    {
        self.last.last(key)
    }

    /// The last place before this one that has its key.
    pub fn before(&self, place: usize) -> Option<usize>
        requires { place < length self.now }
        ensures { (d : ℕ)
            → result ≡ key_place (slice_index_or self.now place d) (take place self.now) }
    {
        self.before[place]
    }

    /// Adds a key.
    pub fn push(&mut self, key: u64) -> Result<(), AllocError>
        ensures ok { OnOk result (self.new ≡ self.old ++ key ∷ []) }
        ensures err { OnErr result (self.new ≡ self.old) }
    {
        let place = self.keys.len();
        self.keys.reserve(1)?;
        note(&mut self.last, &mut self.before, key, place)?;
        Ok(self.keys.push(key)?)
    }

    /// Only the first keys.
    pub fn truncate(&mut self, count: usize)
        ensures { self.new ≡ take count self.old }
    {
        'back: while count < self.len() {
            self.undo();
        }
    }

    // How many keys there are.
    fn len(&self) -> usize
        ensures { result ≡ length self.now }
    {
        self.keys.len()
    }

    // All but the last key.
    #[tactic(auto, using(crate::proofs::KeyIndexes::is_kept))]
    fn undo(&mut self)
        requires { 0 < length self.old }
        ensures { self.new ≡ take (length self.old - 1) self.old }
    {
        let last = self.keys.len() - 1;
        let key = self.keys[last];
        self.last.go_back(key, self.before[last]);
        self.before.truncate(last);
        self.keys.truncate(last);
    }
}
