//! Entries in blocks, so that one which comes or goes in the middle moves few others.

ghost use Rattle.std.specs.Prelude.{◌≡◌, ◌≤◌, ◌<◌, ◌+◌, ◌-◌, ◌*◌, ◌↔◌, ℕ, [], length, slice_index_or, slice_set, IsTrue, OnOk, OnErr, IfOk, IfErr};
ghost use Rattle.std.specs.List.{insert, remove};
ghost use Rattle.base_tables.specs.Tables.{AreInOrder, IsPlace, IsGap, most_listed};

use crate::block::{HALF, SIZE};
use crate::chain::{Chain, Spot};
use base_tables::MOST_LISTED;
use std::alloc::{AllocError, Global};
use std::marker::Model;

/// How many blocks there can be: they have places for as many entries as a table takes rows.
const MOST: usize = MOST_LISTED / SIZE;

/// Entries by place. Contracts see them as a list, and how many more can be added without taking memory.
///
/// They stand in blocks in order, and none but the first is empty. One that is full is split into two halves when an
/// entry comes, for which a spare block is ready: so an entry that comes or goes moves a part of one block. A block
/// that becomes empty is spare again.
#[derive(Drop)]
pub struct Blocks {
    chain: Chain,
    last: usize,
    room: usize,
}

impl Model for Blocks {
    ghost use Rattle.std.specs.Prelude.{ℕ};
    ghost use Rattle.std.specs.List.{concat};
    ghost use Rattle.base_tables.specs.Tables.{Table};
    ghost use Rattle.base_index.specs.Blocks.{AreBlocks};

    ghost Value = { Table ℕ };

    ghost view = { λ b. record { rows = concat b.chain; room = b.room } };

    ghost invariant = { λ b. AreBlocks b.chain b.last b.room };
}

impl Blocks {
    /// No entries.
    pub fn new(alloc: Global) -> Self
        ensures { result.rows ≡ [] }
    {
        Blocks {
            chain: Chain::new(alloc),
            last: 0,
            room: 0,
        }
    }

    /// There are no places for more than 2^32.
    pub fn recall_invariant(&self)
        ensures { length self.now.rows + self.now.room ≤ most_listed }
    {
        let _ = &self.room;
    }

    /// How many there are.
    pub fn len(&self) -> usize
        ensures count { result ≡ length self.now.rows }
        ensures few { result + self.now.room ≤ most_listed }
    {
        self.chain.len()
    }

    /// How many can be added without taking memory.
    pub fn room(&self) -> usize
        ensures { result ≡ self.now.room }
    {
        self.room
    }

    /// Takes memory, so that this many can be added. It is refused where there would be places for more than 2^32,
    /// or where there is no memory.
    pub fn reserve(&mut self, count: usize) -> Result<(), AllocError>
        ensures ok { OnOk result (count ≤ self.new.room) }
        ensures rows { self.new.rows ≡ self.old.rows }
        ensures err { OnErr result (self.new.room ≡ self.old.room) }
    {
        if count <= self.room {
            return Ok(());
        }
        self.add_blocks((count - self.room - 1) / HALF + 1)
    }

    // Takes memory for so many spare blocks, and for the first block where there is none.
    fn add_blocks(&mut self, spare: usize) -> Result<(), AllocError>
        requires { spare ≤ 72057594037927936 }
        ensures ok { OnOk result (self.new.room ≡ self.old.room + 256 * spare) }
        ensures rows { self.new.rows ≡ self.old.rows }
        ensures err { OnErr result (self.new.room ≡ self.old.room) }
    {
        let blocks = self.chain.count();
        let count = spare + 1_usize.saturating_sub(blocks);
        if count > MOST - blocks {
            return Err(AllocError);
        }
        self.chain.grow(count)?;
        self.room += spare * HALF;
        Ok(())
    }

    /// The entry at a place.
    pub fn at(&self, place: usize) -> u128
        requires { place < length self.now.rows }
        ensures { (d : ℕ) → slice_index_or self.now.rows place d ≡ result }
    {
        let spot = self.chain.spot_of(self.last, place);
        self.chain.at(spot)
    }

    /// Where an entry is, or where it would go.
    pub fn place_of(&self, entry: u128) -> Result<usize, usize>
        requires { AreInOrder (λ n. n) self.now.rows }
        ensures found { IfOk result (IsPlace (λ n. n) self.now.rows entry) }
        ensures absent { IfErr result (IsGap (λ n. n) self.now.rows entry) }
        ensures few { IfOk result (λ at. at < most_listed) }
    {
        if self.chain.count() == 0 {
            return Err(0);
        }
        let block = self.chain.block_for(self.last, entry);
        self.chain.place_in(block, entry)
    }

    /// Puts an entry instead of the one at a place.
    pub fn set(&mut self, place: usize, entry: u128)
        requires { place < length self.old.rows }
        ensures rows { self.new.rows ≡ slice_set self.old.rows place entry }
        ensures room { self.new.room ≡ self.old.room }
    {
        let spot = self.chain.spot_of(self.last, place);
        self.chain.set(spot, entry);
    }

    /// Inserts an entry at a place, into room that is there.
    pub fn insert(&mut self, place: usize, entry: u128)
        requires within { place ≤ length self.old.rows }
        requires room { 1 ≤ self.old.room }
        ensures rows { self.new.rows ≡ insert self.old.rows place entry }
        ensures room { self.old.room ≤ self.new.room + 1 }
    {
        let spot = self.chain.spot_of(self.last, place);
        let filled = self.chain.filled(spot.block);
        if filled == SIZE {
            self.chain.split(spot.block);
            self.last += 1;
            self.chain.insert(half_of(spot), entry);
            self.room -= 1;
            return;
        }
        self.chain.insert(spot, entry);
        self.room -= over(filled + 1) - over(filled);
    }

    /// Removes the entry at a place.
    pub fn remove(&mut self, place: usize)
        requires { place < length self.old.rows }
        ensures rows { self.new.rows ≡ remove self.old.rows place }
        ensures room { self.old.room ≤ self.new.room }
    {
        let spot = self.chain.spot_of(self.last, place);
        let filled = self.chain.filled(spot.block);
        if is_emptied(spot, filled) {
            self.chain.drop_block(spot.block);
            self.last -= 1;
            self.room += HALF;
            return;
        }
        self.chain.remove(spot);
        self.room += over(filled) - over(filled - 1);
    }
}

// By how many entries a block is more than half full.
fn over(filled: usize) -> usize
    ensures { result ≡ filled - 256 }
{
    filled.saturating_sub(HALF)
}

// Whether a block behind the first is empty once the entry at a spot is gone.
fn is_emptied(spot: Spot, filled: usize) -> bool
    ensures { IsTrue result ↔ ((0 < spot.block) × (filled ≡ 1)) }
{
    spot.block > 0 && filled == 1
}

// Where a spot is, once its block is split into two halves.
fn half_of(spot: Spot) -> Spot
    requires { spot.block < most_listed }
    ensures lower { spot.offset ≤ 256
        → (result.block ≡ spot.block) × (result.offset ≡ spot.offset) }
    ensures upper { 256 < spot.offset
        → (result.block ≡ spot.block + 1) × (result.offset + 256 ≡ spot.offset) }
{
    if spot.offset <= HALF {
        return spot;
    }
    Spot {
        block: spot.block + 1,
        offset: spot.offset - HALF,
    }
}
