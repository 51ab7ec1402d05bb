//! One block of a sorted list.

ghost use Rattle.std.specs.Prelude.{◌≡◌, ◌≤◌, ◌<◌, ◌+◌, ℕ, [], ◌++◌, length, take, drop, slice_index_or, slice_set, IfOk, IfErr};
ghost use Rattle.std.specs.List.{insert, remove};
ghost use Rattle.std.specs.Vec.{vec_capacity};
ghost use Rattle.base_tables.specs.Tables.{AreInOrder, IsPlace, IsGap};

use std::alloc::{AllocError, Global};
use std::marker::Model;

/// How many entries a block has places for.
pub const SIZE: usize = 512;

/// Half of them: as many are left in a block that was full and is split.
pub const HALF: usize = SIZE / 2;

/// Some entries, at most as many as there are places. Contracts see the list.
#[derive(Drop)]
pub struct Block {
    entries: Vec<u128>,
}

impl Model for Block {
    ghost use Rattle.std.specs.Prelude.{List, ℕ, ◌≤◌, length};
    ghost use Rattle.std.specs.Vec.{vec_capacity};

    ghost Value = { List ℕ };

    ghost view = { λ b. b.entries.items };

    ghost invariant = { λ b. (length b.entries.items ≤ 512) × (512 ≤ vec_capacity b.entries) };
}

impl Block {
    /// No entries.
    pub fn new(alloc: Global) -> Result<Self, AllocError>
        ensures { IfOk result (λ b. b ≡ []) }
    {
        let entries = Vec::with_capacity(alloc, SIZE)?;
        Ok(Block { entries })
    }

    /// How many there are.
    pub fn len(&self) -> usize
        ensures count { result ≡ length self.now }
        ensures few { result ≤ 512 }
    {
        self.entries.len()
    }

    /// The entry at a place.
    pub fn at(&self, place: usize) -> u128
        requires { place < length self.now }
        ensures { (d : ℕ) → slice_index_or self.now place d ≡ result }
    {
        self.entries[place]
    }

    /// Where an entry is, or where it would go.
    pub fn place_of(&self, entry: u128) -> Result<usize, usize>
        requires { AreInOrder (λ n. n) self.now }
        ensures found { IfOk result (IsPlace (λ n. n) self.now entry) }
        ensures absent { IfErr result (IsGap (λ n. n) self.now entry) }
    {
        self.entries.binary_search(&entry)
    }

    /// Puts an entry instead of the one at a place.
    pub fn set(&mut self, place: usize, entry: u128)
        requires { place < length self.old }
        ensures { self.new ≡ slice_set self.old place entry }
    {
        self.entries[place] = entry;
    }

    /// Inserts an entry.
    pub fn insert(&mut self, place: usize, entry: u128)
        requires within { place ≤ length self.old }
        requires fits { length self.old < 512 }
        ensures { self.new ≡ insert self.old place entry }
    {
        insert_reserved(&mut self.entries, place, entry);
    }

    /// Removes the entry at a place.
    pub fn remove(&mut self, place: usize)
        requires { place < length self.old }
        ensures { self.new ≡ remove self.old place }
    {
        let _ = self.entries.remove(place);
    }

    /// Removes all entries.
    pub fn clear(&mut self)
        ensures { self.new ≡ [] }
    {
        self.entries.clear();
    }

    /// Moves the upper half of a full block into another, in the place of what is there.
    pub fn split_into(&mut self, upper: &mut Block)
        requires { length self.old ≡ 512 }
        ensures kept { self.new ≡ take 256 self.old }
        ensures moved { upper.new ≡ drop 256 self.old }
    {
        upper.fill(&self.entries[HALF..]);
        self.entries.truncate(HALF);
    }

    // Puts these entries in the place of those that are there.
    fn fill(&mut self, entries: &[u128])
        requires { length entries.now ≤ 512 }
        ensures { self.new ≡ entries.now }
    {
        self.entries.clear();
        extend_reserved(&mut self.entries, entries);
    }
}

// Inserts into room that is there.
fn insert_reserved(entries: &mut Vec<u128>, place: usize, entry: u128)
    requires within { place ≤ length entries.old.items }
    requires room { length entries.old.items < vec_capacity entries.old }
    ensures items { entries.new.items ≡ insert entries.old.items place entry }
    ensures capacity { vec_capacity entries.old ≤ vec_capacity entries.new }
{
    let _ = entries.insert(place, entry);
}

// Adds entries at the end, into room that is there.
fn extend_reserved(entries: &mut Vec<u128>, more: &[u128])
    requires { length entries.old.items + length more.now ≤ vec_capacity entries.old }
    ensures items { entries.new.items ≡ entries.old.items ++ more.now }
    ensures capacity { vec_capacity entries.old ≤ vec_capacity entries.new }
{
    let _ = entries.extend_from_slice(more);
}
