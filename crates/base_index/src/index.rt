//! Indexes: which ids have a key.

ghost use Rattle.std.specs.Prelude.{◌≡◌, ◌≤◌, ◌<◌, ◌+◌, ◌++◌, ℕ, [], length, take, drop, OnOk, OnErr};
ghost use Rattle.base_tables.specs.Tables.{with_row, without_row, AreInOrder, most_listed};
ghost use Rattle.base_index.specs.Entries.{IsStart, entry, ids_of, ids_between, with_entries, without_id};

use crate::blocks::Blocks;
use crate::entries::{entry, id_of};
use crate::found::Found;
use std::alloc::{AllocError, Global};
use std::marker::Model;

/// Keys and ids, in order of key and then of id. Contracts see the entries as numbers, and how many more can be added
/// without taking memory.
#[derive(Drop)]
pub struct Index {
    entries: Blocks,
}

impl Model for Index {
    ghost use Rattle.std.specs.Prelude.{ℕ};
    ghost use Rattle.base_tables.specs.Tables.{Table, AreInOrder};

    ghost Value = { Table ℕ };

    ghost view = { λ x. x.entries };

    ghost invariant = { λ x. AreInOrder (λ n. n) x.entries.rows };
}

impl Index {
    /// No entries.
    pub fn new(alloc: Global) -> Self
        ensures { result.rows ≡ [] }
    {
        Index {
            entries: Blocks::new(alloc),
        }
    }

    /// The entries rise.
    pub fn recall_invariant(&self)
        ensures { AreInOrder (λ n. n) self.now.rows }
    {
        let _ = &self.entries;
    }

    /// Takes memory, so that this many entries can be added. It is refused where there would be places for more than
    /// 2^32, or where there is no memory.
    pub fn reserve(&mut self, count: usize) -> Result<(), AllocError>
        ensures ok { OnOk result (count ≤ self.new.room) }
        ensures rows { self.new.rows ≡ self.old.rows }
        ensures err { OnErr result (self.new.room ≡ self.old.room) }
    {
        self.entries.reserve(count)
    }

    /// How many entries can be added without taking memory.
    pub fn room(&self) -> usize
        ensures { result ≡ self.now.room }
    {
        self.entries.room()
    }

    /// The ids of a key, rising.
    pub fn of_key(&self, key: u64) -> Found<'_>
        ensures all { result ≡ ids_of key self.now.rows }
        ensures few { length result ≤ most_listed }
    {
        let low = start_of(&self.entries, entry(key, 0));
        let high = start_after(&self.entries, key);
        Found::of(&self.entries, low, high)
    }

    /// The ids of the keys that are `from` or greater, and less than `to`: by key, and rising for each of them.
    pub fn between(&self, from: u64, to: u64) -> Found<'_>
        requires { from ≤ to }
        ensures all { result ≡ ids_between from to self.now.rows }
        ensures few { length result ≤ most_listed }
    {
        let first = start_of(&self.entries, entry(from, 0));
        let end = start_of(&self.entries, entry(to, 0));
        Found::of(&self.entries, first, end)
    }
}

impl Index {
    /// Adds the entry of a key and an id.
    pub fn add(&mut self, key: u64, id: u64)
        requires { 1 ≤ self.old.room }
        ensures rows { self.new.rows ≡ with_row (λ n. n) (entry key id) self.old.rows }
        ensures room { self.old.room ≤ self.new.room + 1 }
    {
        self.put(entry(key, id));
    }

    // Adds an entry.
    fn put(&mut self, entry: u128)
        requires { 1 ≤ self.old.room }
        ensures rows { self.new.rows ≡ with_row (λ n. n) entry self.old.rows }
        ensures room { self.old.room ≤ self.new.room + 1 }
    {
        match self.entries.place_of(entry) {
            Ok(at) => self.entries.set(at, entry),
            Err(at) => self.entries.insert(at, entry),
        }
    }

    /// Removes the entry of a key and an id.
    pub fn remove(&mut self, key: u64, id: u64)
        ensures rows { self.new.rows ≡ without_row (λ n. n) (entry key id) self.old.rows }
        ensures room { self.old.room ≤ self.new.room }
    {
        self.delete(entry(key, id));
    }

    // Removes an entry.
    fn delete(&mut self, entry: u128)
        ensures rows { self.new.rows ≡ without_row (λ n. n) entry self.old.rows }
        ensures room { self.old.room ≤ self.new.room }
    {
        if let Ok(at) = self.entries.place_of(entry) {
            self.entries.remove(at);
        }
    }

    /// Adds the entries of an id with all of these keys.
    pub fn add_all(&mut self, keys: &[u64], id: u64)
        requires { length keys.now ≤ self.old.room }
        ensures rows { self.new.rows ≡ with_entries keys.now id self.old.rows }
        ensures room { self.old.room ≤ self.new.room + length keys.now }
    {
        for key in keys {
            self.add(*key, id);
        }
    }

    /// Removes all entries of an id.
    pub fn remove_all(&mut self, id: u64)
        ensures rows { self.new.rows ≡ without_id id self.old.rows }
        ensures room { self.old.room ≤ self.new.room }
    {
        let kept = move_up(&mut self.entries, id);
        shorten(&mut self.entries, kept);
    }
}

// Where the entries from this one on begin.
fn start_of(entries: &Blocks, entry: u128) -> usize
    requires { AreInOrder (λ n. n) entries.now.rows }
    ensures { IsStart entries.now.rows entry result }
{
    match entries.place_of(entry) {
        Ok(at) => at,
        Err(at) => at,
    }
}

// Where the entries of greater keys begin.
fn start_after(entries: &Blocks, key: u64) -> usize
    requires { AreInOrder (λ n. n) entries.now.rows }
    ensures { IsStart entries.now.rows (entry (key + 1) 0) result }
{
    match entries.place_of(entry(key, u64::MAX)) {
        Ok(at) => at + 1,
        Err(at) => at,
    }
}

// Moves all entries but those of an id to the front, in their order. Returns how many those are.
fn move_up(entries: &mut Blocks, id: u64) -> usize
    ensures rows { take result entries.new.rows ≡ without_id id entries.old.rows }
    ensures within { result ≤ length entries.new.rows }
    ensures room { entries.new.room ≡ entries.old.room }
{
    let mut kept = 0;
    for at in 0..entries.len() {
        kept = move_one(entries, kept, at, id);
    }
    kept
}

// Moves the entry at a place behind so many that are kept, unless it is of an id. Returns how many are kept then.
fn move_one(entries: &mut Blocks, kept: usize, at: usize, id: u64) -> usize
    requires { (kept ≤ at) × (at < length entries.old.rows) × (at < most_listed) }
    ensures rows { take result entries.new.rows ++ without_id id (drop (at + 1) entries.new.rows)
        ≡ take kept entries.old.rows ++ without_id id (drop at entries.old.rows) }
    ensures within { result ≤ at + 1 }
    ensures count { length entries.new.rows ≡ length entries.old.rows }
    ensures room { entries.new.room ≡ entries.old.room }
{
    let entry = entries.at(at);
    if id_of(entry) == id {
        return kept;
    }
    entries.set(kept, entry);
    kept + 1
}

// Removes all entries behind so many.
fn shorten(entries: &mut Blocks, kept: usize)
    requires { kept ≤ length entries.old.rows }
    ensures rows { entries.new.rows ≡ take kept entries.old.rows }
    ensures room { entries.old.room ≤ entries.new.room }
{
    'back: while entries.len() > kept {
        let last = entries.len() - 1;
        entries.remove(last);
    }
}
