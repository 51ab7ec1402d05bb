//! Tables of rows in order of id, of which many come and go.

ghost use Rattle.std.specs.Prelude.{◌≡◌, ◌≤◌, ◌<◌, ◌+◌, ◌-◌, ◌*◌, [], length, map, IfOk, OnOk, OnErr, vec_capacity};
ghost use Rattle.std.specs.Option.{option_copied};
ghost use Rattle.base_tables.specs.Tables.{Table, row_at, with_row, without_row, AreInOrder, AreKept, most_listed};
ghost use Rattle.base_tables.specs.Slots.{slot_key, rows_in, count_if};

use crate::iter::Iter;
use crate::slot::Slot;
use crate::{MOST_LISTED, Row, place_of};
use std::alloc::{AllocError, Global};
use std::marker::Model;

// A table has at most so many places more than it has rows twice.
const SPARE: usize = 64;

/// Rows in order of id. One that goes leaves its place behind, and no other row moves; once more places are left than rows
/// stand, all of them go in one pass, so that over many rows that go each costs a few steps. Contracts see the list of rows, and the
/// number of rows that can be put without taking memory.
#[derive(Drop)]
pub struct Sparse<T: Row> {
    slots: Vec<Slot<T>>,
    len: usize,
}

impl<T: Row> Model for Sparse<T> {
    ghost use Rattle.std.specs.Prelude.{◌≡◌, ◌+◌, ◌-◌, ◌*◌, ◌≤◌, length, vec_capacity, min};
    ghost use Rattle.base_tables.specs.Tables.{Table, AreInOrder, most_listed};
    ghost use Rattle.base_tables.specs.Slots.{slot_key, rows_in};

    ghost Value = { Table T };

    ghost view = { λ t. record {
      rows = rows_in t.slots.items;
      room = min (vec_capacity t.slots) most_listed - length t.slots.items;
    } };

    ghost invariant = { λ t. AreInOrder (slot_key T.key) t.slots.items
        × (length t.slots.items ≤ most_listed) × (t.len ≡ length (rows_in t.slots.items))
        × (length t.slots.items ≤ 2 * t.len + 64) };
}

impl<T: Row> Sparse<T> {
    /// No rows.
    pub fn new(alloc: Global) -> Self
        ensures { result.rows ≡ [] }
    {
        Sparse {
            slots: Vec::new(alloc),
            len: 0,
        }
    }

    /// Ids rise, and there are no more rows than 2^32.
    pub fn recall_invariant(&self)
        ensures { AreKept T.key most_listed self.now.rows }
    {
        let _ = &self.slots;
    }

    /// How many rows there are.
    pub fn len(&self) -> usize
        ensures { result ≡ length self.now.rows }
    {
        self.len
    }

    /// The rows in order of id.
    pub fn iter(&self) -> Iter<'_, T>
        ensures all { result ≡ self.now.rows }
        ensures few { length self.now.rows ≤ most_listed }
    {
        Iter::over(&self.slots)
    }

    /// The row of an id.
    pub fn get(&self, id: u64) -> Option<&T>
        ensures { option_copied result ≡ row_at T.key id self.now.rows }
    {
        match place_of(&self.slots, id) {
            Ok(at) => self.slots[at].row(),
            Err(_) => None,
        }
    }

    /// The ids of the rows, rising.
    pub fn ids(&self, alloc: Global) -> Result<Vec<u64>, AllocError>
        ensures { IfOk result (λ ids. ids.items ≡ map T.key self.now.rows) }
    {
        ids_of(alloc, &self.slots)
    }

    /// Takes memory, so that this many rows can be put. It is refused where there would be more than 2^32 places with
    /// them, or where there is no memory.
    pub fn reserve(&mut self, count: usize) -> Result<(), AllocError>
        ensures ok { OnOk result (count ≤ self.new.room) }
        ensures rows { self.new.rows ≡ self.old.rows }
        ensures err { OnErr result (self.new.room ≡ self.old.room) }
    {
        if count > MOST_LISTED - self.slots.len() {
            return Err(AllocError);
        }
        self.slots.reserve(count)
    }

    /// How many rows can be put without taking memory.
    pub fn room(&self) -> usize
        ensures { result ≡ self.now.room }
    {
        self.slots.capacity().min(MOST_LISTED) - self.slots.len()
    }

    // How many rows have the id: one or none.
    fn count_of(&self, id: u64) -> usize
        ensures { result ≡ count_if (row_at T.key id self.now.rows) }
    {
        match self.get(id) {
            None => 0,
            Some(_) => 1,
        }
    }
}

impl<T: Row + Drop> Sparse<T> {
    /// Puts a row in the place of its id, instead of the row that stood there.
    /// There has to be room for one row, also where it replaces one.
    pub fn put(&mut self, row: T)
        requires { 1 ≤ self.old.room }
        ensures rows { self.new.rows ≡ with_row T.key row self.old.rows }
        ensures room { self.old.room ≤ self.new.room + 1 }
    {
        let stood = self.count_of(row.id());
        put_slot(&mut self.slots, row);
        self.len = self.len + 1 - stood;
    }

    /// Removes the row of the id, if there is one.
    pub fn delete(&mut self, id: u64)
        ensures rows { self.new.rows ≡ without_row T.key id self.old.rows }
        ensures room { self.old.room ≤ self.new.room }
    {
        let left = self.len - self.count_of(id);
        leave_slot(&mut self.slots, id);
        close_gaps(&mut self.slots, left);
        self.len = left;
    }
}

// Puts a row in the place of its id. There has to be room for it.
fn put_slot<T: Row + Drop>(slots: &mut Vec<Slot<T>>, row: T)
    requires order { AreInOrder (slot_key T.key) slots.old.items }
    requires room { length slots.old.items < vec_capacity slots.old }
    ensures rows { rows_in slots.new.items ≡ with_row T.key row (rows_in slots.old.items) }
    ensures order { AreInOrder (slot_key T.key) slots.new.items }
    ensures count { length slots.new.items
        + count_if (row_at T.key (T.key row) (rows_in slots.old.items))
        ≤ length slots.old.items + 1 }
    ensures capacity { vec_capacity slots.old ≤ vec_capacity slots.new }
{
    match place_of(slots, row.id()) {
        Ok(at) => slots[at] = Slot::Full(row),
        Err(at) => {
            let _ = slots.insert(at, Slot::Full(row));
        }
    }
}

// Lets the row of an id go, if there is one. Its place stays.
fn leave_slot<T: Row + Drop>(slots: &mut Vec<Slot<T>>, id: u64)
    requires order { AreInOrder (slot_key T.key) slots.old.items }
    ensures rows { rows_in slots.new.items ≡ without_row T.key id (rows_in slots.old.items) }
    ensures order { AreInOrder (slot_key T.key) slots.new.items }
    ensures count { length slots.new.items ≡ length slots.old.items }
    ensures capacity { vec_capacity slots.new ≡ vec_capacity slots.old }
{
    if let Ok(at) = place_of(slots, id) {
        slots[at] = Slot::Gone(id);
    }
}

// Lets the places go where no row stands, once they are more than those where one does.
fn close_gaps<T: Row + Drop>(slots: &mut Vec<Slot<T>>, rows: usize)
    requires order { AreInOrder (slot_key T.key) slots.old.items }
    requires count { rows ≡ length (rows_in slots.old.items) }
    requires few { rows ≤ most_listed }
    ensures rows { rows_in slots.new.items ≡ rows_in slots.old.items }
    ensures order { AreInOrder (slot_key T.key) slots.new.items }
    ensures count { length slots.new.items ≤ length slots.old.items }
    ensures bound { length slots.new.items ≤ 2 * rows + 64 }
    ensures capacity { vec_capacity slots.old ≤ vec_capacity slots.new }
{
    if 2 * rows + SPARE < slots.len() {
        slots.retain(|slot| slot.is_full());
    }
}

// The ids of the rows that stand.
fn ids_of<T: Row>(alloc: Global, slots: &[Slot<T>]) -> Result<Vec<u64>, AllocError>
    ensures { IfOk result (λ ids. ids.items ≡ map T.key (rows_in slots.now)) }
{
    let mut ids = Vec::new(alloc);
    for slot in slots {
        if let Some(row) = slot.row() {
            ids.push(row.id())?;
        }
    }
    Ok(ids)
}
