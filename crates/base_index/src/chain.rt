//! Blocks in order, and how many entries stand before each of them.

ghost use Rattle.std.specs.Prelude.{◌≡◌, ◌≤◌, ◌<◌, ◌+◌, ◌-◌, ◌*◌, ℕ, List, [], ◌∷◌, ◌++◌, length, map, take, drop, replicate, slice_index, slice_index_or, slice_set, OnOk, OnErr, IfOk, IfErr};
ghost use Rattle.std.specs.List.{insert, remove, concat};
ghost use Rattle.std.specs.Vec.{vec_capacity};
ghost use Rattle.base_tables.specs.Tables.{AreInOrder, IsPlace, IsGap, most_listed};
ghost use Rattle.base_index.specs.Blocks.{nth_block, start_of, split_at};

use crate::block::{Block, HALF, SIZE};
use std::alloc::{AllocError, Global};
use std::marker::Model;

/// A place in a block.
#[derive(Clone, Copy)]
pub struct Spot {
    /// Which block.
    pub block: usize,
    /// Behind how many of its entries.
    pub offset: usize,
}

/// Blocks in order. Contracts see them as lists.
#[derive(Drop)]
pub struct Chain {
    blocks: Vec<Block>,
    starts: Vec<usize>,
    len: usize,
}

impl Model for Chain {
    ghost use Rattle.std.specs.Prelude.{List, ℕ};
    ghost use Rattle.base_index.specs.Blocks.{IsChain};

    ghost Value = { List (List ℕ) };

    ghost view = { λ c. c.blocks.items };

    ghost invariant = { λ c. IsChain c.blocks.items c.starts.items c.len };
}

impl Chain {
    /// No blocks.
    pub fn new(alloc: Global) -> Self
        ensures { result ≡ [] }
    {
        Chain {
            blocks: Vec::new(alloc),
            starts: Vec::new(alloc),
            len: 0,
        }
    }

    /// How many entries there are in all.
    pub fn len(&self) -> usize
        ensures { result ≡ length (concat self.now) }
    {
        self.len
    }

    /// How many blocks there are.
    pub fn count(&self) -> usize
        ensures { result ≡ length self.now }
    {
        self.blocks.len()
    }

    /// How many entries a block has.
    pub fn filled(&self, block: usize) -> usize
        requires { block < length self.now }
        ensures count { result ≡ length (nth_block self.now block) }
        ensures few { result ≤ 512 }
    {
        let block = &self.blocks[block];
        block.len()
    }

    /// Where a place of all entries is, among the blocks up to the last that has some.
    pub fn spot_of(&self, last: usize, place: usize) -> Spot
        requires within { last < length self.now }
        requires place { place ≤ start_of (last + 1) self.now }
        ensures block { result.block ≤ last }
        ensures place { start_of result.block self.now + result.offset ≡ place }
        ensures within { result.offset ≤ length (nth_block self.now result.block) }
        ensures at_entry { place < start_of (last + 1) self.now
            → result.offset < length (nth_block self.now result.block) }
    {
        let block = block_at(&self.starts, last, place);
        Spot {
            block,
            offset: place - self.starts[block],
        }
    }

    /// The block in which an entry would be, among the blocks up to the last that has some.
    pub fn block_for(&self, last: usize, entry: u128) -> usize
        requires within { last < length self.now }
        requires filled { (b : ℕ) → 0 < b → b ≤ last → 0 < length (nth_block self.now b) }
        ensures within { result ≤ last }
        ensures from { 0 < result → slice_index (nth_block self.now result) 0 ≤ entry }
        ensures before { result < last → entry < slice_index (nth_block self.now (result + 1)) 0 }
    {
        block_for(&self.blocks, last, entry)
    }

    /// Where an entry of a block is among all, or where it would go.
    pub fn place_in(&self, block: usize, entry: u128) -> Result<usize, usize>
        requires within { block < length self.now }
        requires in_order { AreInOrder (λ n. n) (nth_block self.now block) }
        ensures found { IfOk result (λ place. (start_of block self.now ≤ place)
            × IsPlace (λ n. n) (nth_block self.now block) entry
            (place - start_of block self.now)) }
        ensures absent { IfErr result (λ place. (start_of block self.now ≤ place)
            × IsGap (λ n. n) (nth_block self.now block) entry
            (place - start_of block self.now)) }
    {
        let start = self.starts[block];
        let block = &self.blocks[block];
        match block.place_of(entry) {
            Ok(at) => Ok(start + at),
            Err(at) => Err(start + at),
        }
    }

    /// The entry at a spot.
    pub fn at(&self, spot: Spot) -> u128
        requires block { spot.block < length self.now }
        requires within { spot.offset < length (nth_block self.now spot.block) }
        ensures { (d : ℕ) → slice_index_or (nth_block self.now spot.block) spot.offset d ≡ result }
    {
        let block = &self.blocks[spot.block];
        block.at(spot.offset)
    }

    /// Puts an entry instead of the one at a spot.
    pub fn set(&mut self, spot: Spot, entry: u128)
        requires block { spot.block < length self.old }
        requires within { spot.offset < length (nth_block self.old spot.block) }
        ensures { self.new ≡ slice_set self.old spot.block
            (slice_set (nth_block self.old spot.block) spot.offset entry) }
    {
        let block = &mut self.blocks[spot.block];
        block.set(spot.offset, entry);
    }

    /// Inserts an entry at a spot, in a block that isn't full.
    pub fn insert(&mut self, spot: Spot, entry: u128)
        requires block { spot.block < length self.old }
        requires within { spot.offset ≤ length (nth_block self.old spot.block) }
        requires fits { length (nth_block self.old spot.block) < 512 }
        requires few { length (concat self.old) < most_listed }
        ensures { self.new ≡ slice_set self.old spot.block
            (insert (nth_block self.old spot.block) spot.offset entry) }
    {
        let block = &mut self.blocks[spot.block];
        block.insert(spot.offset, entry);
        raise(&mut self.starts, spot.block + 1);
        self.len += 1;
    }

    /// Removes the entry at a spot.
    pub fn remove(&mut self, spot: Spot)
        requires block { spot.block < length self.old }
        requires within { spot.offset < length (nth_block self.old spot.block) }
        ensures { self.new ≡ slice_set self.old spot.block
            (remove (nth_block self.old spot.block) spot.offset) }
    {
        let block = &mut self.blocks[spot.block];
        block.remove(spot.offset);
        lower(&mut self.starts, spot.block + 1);
        self.len -= 1;
    }

    /// Moves the upper half of a full block into the last block, which is empty, and puts that behind it.
    pub fn split(&mut self, block: usize)
        requires within { block + 1 < length self.old }
        requires full { length (nth_block self.old block) ≡ 512 }
        requires spare { nth_block self.old (length self.old - 1) ≡ [] }
        ensures { self.new ≡ split_at block (take (length self.old - 1) self.old) }
    {
        let mut upper = self.blocks.take_last();
        let _ = self.starts.take_last();
        let lower = &mut self.blocks[block];
        lower.split_into(&mut upper);
        put_back(&mut self.blocks, block + 1, upper);
        let start = self.starts[block] + HALF;
        put_start(&mut self.starts, block + 1, start);
    }

    /// Removes the one entry of a block, and puts the block behind all others.
    pub fn drop_block(&mut self, block: usize)
        requires within { block < length self.old }
        requires single { length (nth_block self.old block) ≡ 1 }
        ensures { self.new ≡ remove self.old block ++ [] ∷ [] }
    {
        let mut emptied = self.blocks.remove(block);
        emptied.clear();
        self.blocks.push_reserved(emptied);
        lower(&mut self.starts, block + 1);
        let _ = self.starts.remove(block);
        self.len -= 1;
        self.starts.push_reserved(self.len);
    }

    /// Takes memory for so many more blocks, which are put behind the others.
    pub fn grow(&mut self, count: usize) -> Result<(), AllocError>
        ensures ok { OnOk result (self.new ≡ self.old ++ replicate count []) }
        ensures err { OnErr result (self.new ≡ self.old) }
    {
        let mut more = empty_blocks(*self.blocks.allocator(), count)?;
        self.starts.reserve(count)?;
        self.blocks.append(&mut more)?;
        add_starts(&mut self.starts, count, self.len);
        Ok(())
    }
}

// The block of a place: the last one, up to this one, that starts there or before.
fn block_at(starts: &[usize], last: usize, place: usize) -> usize
    requires { last < length starts.now }
    ensures within { result ≤ last }
    ensures from { 0 < result → slice_index starts.now result ≤ place }
    ensures before { result < last → place < slice_index starts.now (result + 1) }
{
    let mut low = 0;
    let mut high = last;
    'halve: while low < high {
        let middle = high - (high - low) / 2;
        if starts[middle] <= place {
            low = middle;
        } else {
            high = middle - 1;
        }
    }
    low
}

// The block of an entry: the last one, up to this one, whose first entry is this one or less. It is the first, where
// there is none.
fn block_for(blocks: &[Block], last: usize, entry: u128) -> usize
    requires within { last < length blocks.now }
    requires filled { (b : ℕ) → 0 < b → b ≤ last → 0 < length (nth_block blocks.now b) }
    ensures within { result ≤ last }
    ensures from { 0 < result → slice_index (nth_block blocks.now result) 0 ≤ entry }
    ensures before { result < last → entry < slice_index (nth_block blocks.now (result + 1)) 0 }
{
    let mut low = 0;
    let mut high = last;
    'halve: while low < high {
        let middle = high - (high - low) / 2;
        if first_of(blocks, middle) <= entry {
            low = middle;
        } else {
            high = middle - 1;
        }
    }
    low
}

// The first entry of a block.
fn first_of(blocks: &[Block], block: usize) -> u128
    requires within { block < length blocks.now }
    requires filled { 0 < length (nth_block blocks.now block) }
    ensures { result ≡ slice_index (nth_block blocks.now block) 0 }
{
    let block = &blocks[block];
    block.at(0)
}

// An entry more stands before each block from this one on.
fn raise(starts: &mut Vec<usize>, from: usize)
    requires within { from ≤ length starts.old.items }
    requires few { (k : ℕ) → slice_index starts.old.items k ≤ most_listed }
    ensures { starts.new.items
        ≡ take from starts.old.items ++ map (λ s. s + 1) (drop from starts.old.items) }
{
    for at in from..starts.len() {
        starts[at] += 1;
    }
}

// An entry fewer stands before each block from this one on.
fn lower(starts: &mut Vec<usize>, from: usize)
    requires { from ≤ length starts.old.items }
    ensures { starts.new.items
        ≡ take from starts.old.items ++ map (λ s. s - 1) (drop from starts.old.items) }
{
    for at in from..starts.len() {
        starts[at] = starts[at].saturating_sub(1);
    }
}

// As many blocks as that, with no entries.
fn empty_blocks(alloc: Global, count: usize) -> Result<Vec<Block>, AllocError>
    ensures { IfOk result (λ v. v.items ≡ replicate count []) }
{
    let mut blocks = Vec::new(alloc);
    for _ in 0..count {
        blocks.push(Block::new(alloc)?)?;
    }
    Ok(blocks)
}

// Inserts a block into room that is there.
fn put_back(blocks: &mut Vec<Block>, place: usize, block: Block)
    requires within { place ≤ length blocks.old.items }
    requires room { length blocks.old.items < vec_capacity blocks.old }
    ensures { blocks.new.items ≡ insert blocks.old.items place block }
{
    let _ = blocks.insert(place, block);
}

// Inserts a start into room that is there.
fn put_start(starts: &mut Vec<usize>, place: usize, start: usize)
    requires within { place ≤ length starts.old.items }
    requires room { length starts.old.items < vec_capacity starts.old }
    ensures { starts.new.items ≡ insert starts.old.items place start }
{
    let _ = starts.insert(place, start);
}

// Adds the starts of so many blocks, into room that is there.
fn add_starts(starts: &mut Vec<usize>, count: usize, start: usize)
    requires { length starts.old.items + count ≤ vec_capacity starts.old }
    ensures { starts.new.items ≡ starts.old.items ++ replicate count start }
{
    let _ = starts.resize(starts.len() + count, start);
}
