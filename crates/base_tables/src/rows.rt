//! Tables of rows in order of id.

ghost use Rattle.std.specs.Prelude.{◌≡◌, ◌≤◌, ◌<◌, ◌+◌, ℕ, [], true, length, IfOk, IfErr, OnOk, OnErr, vec_capacity};
ghost use Rattle.std.specs.List.{insert};
ghost use Rattle.std.specs.Option.{option_copied, IfSome};
ghost use Rattle.base_tables.specs.Tables.{Table, row_at, with_row, without_row, AreInOrder, AreKept, IsPlace, IsGap, most_listed};

use std::alloc::{AllocError, Global};
use std::marker::Model;

/// The most rows that a table takes.
pub const MOST_LISTED: usize = 4_294_967_296;

/// A row with an id.
pub trait Row {
    ghost key: { Self → ℕ };

    fn id(&self) -> u64
        ensures { result ≡ key self.now };
}

/// Rows in order of id. Contracts see the list, and the number of rows that can be put without taking memory.
#[derive(Drop)]
pub struct Rows<T: Row> {
    rows: Vec<T>,
}

impl<T: Row> Model for Rows<T> {
    ghost use Rattle.std.specs.Prelude.{◌-◌, ◌≤◌, length, vec_capacity, min};
    ghost use Rattle.base_tables.specs.Tables.{Table, AreInOrder, most_listed};

    ghost Value = { Table T };

    ghost view = { λ t. record {
      rows = t.rows.items;
      room = min (vec_capacity t.rows) most_listed - length t.rows.items;
    } };

    ghost invariant = { λ t. AreInOrder T.key t.rows.items × (length t.rows.items ≤ most_listed) };
}

impl<T: Row> Rows<T> {
    /// No rows.
    pub fn new(alloc: Global) -> Self
        ensures { result.rows ≡ [] }
    {
        Rows {
            rows: Vec::new(alloc),
        }
    }

    /// Ids rise, and there are no more rows than 2^32.
    pub fn recall_invariant(&self)
        ensures { AreKept T.key most_listed self.now.rows }
    {
        let _ = &self.rows;
    }

    /// The rows in order of id.
    pub fn into_vec(self) -> Vec<T>
        ensures { result.items ≡ self.rows }
    {
        let Rows { rows } = self;
        rows
    }

    /// The rows in order of id.
    pub fn as_slice(&self) -> &[T]
        ensures all { result.now ≡ self.now.rows }
        ensures few { length self.now.rows ≤ most_listed }
    {
        self.rows.as_slice()
    }

    /// The row of an id.
    pub fn get(&self, id: u64) -> Option<&T>
        ensures { option_copied result ≡ row_at T.key id self.now.rows }
    {
        match place_of(&self.rows, id) {
            Ok(at) => Some(&self.rows[at]),
            Err(_) => None,
        }
    }

    /// Takes memory, so that this many rows can be put. It is refused where there would be more than 2^32 rows with
    /// them, or where there is no memory.
    pub fn reserve(&mut self, count: usize) -> Result<(), AllocError>
        ensures ok { OnOk result (count ≤ self.new.room) }
        ensures rows { self.new.rows ≡ self.old.rows }
        ensures err { OnErr result (self.new.room ≡ self.old.room) }
    {
        if count > MOST_LISTED - self.rows.len() {
            return Err(AllocError);
        }
        self.rows.reserve(count)
    }

    /// How many rows can be put without taking memory.
    pub fn room(&self) -> usize
        ensures { result ≡ self.now.room }
    {
        self.rows.capacity().min(MOST_LISTED) - self.rows.len()
    }
}

impl<T: Row + Drop> Rows<T> {
    /// Puts a row in the place of its id, instead of the row that stood there.
    /// There has to be room for one row, also where it replaces one.
    pub fn put(&mut self, row: T)
        requires { 1 ≤ self.old.room }
        ensures rows { self.new.rows ≡ with_row T.key row self.old.rows }
        ensures room { self.old.room ≤ self.new.room + 1 }
    {
        let id = row.id();
        match place_of(&self.rows, id) {
            Ok(at) => {
                self.rows[at] = row;
            }
            Err(at) => {
                insert_reserved(&mut self.rows, at, row);
            }
        }
    }

    /// Removes the row of the id, if there is one.
    pub fn delete(&mut self, id: u64)
        ensures rows { self.new.rows ≡ without_row T.key id self.old.rows }
        ensures room { self.old.room ≤ self.new.room }
    {
        if let Ok(at) = place_of(&self.rows, id) {
            let _ = self.rows.remove(at);
        }
    }
}

/// Where the row of an id is in rows in order of id, or where it would go. Where as many rows stand before it as ids, or it goes
/// behind all of them, nothing is searched.
pub fn place_of<T: Row>(rows: &[T], id: u64) -> Result<usize, usize>
    requires { AreInOrder T.key rows.now }
    ensures found { IfOk result (IsPlace T.key rows.now id) }
    ensures absent { IfErr result (IsGap T.key rows.now id) }
{
    if let Some(at) = reckoned(rows, id) {
        return Ok(at);
    }
    if is_behind(rows, id) {
        return Err(rows.len());
    }
    searched(rows, id)
}

// The place of an id, where as many rows stand before it as ids from that of the first row on.
fn reckoned<T: Row>(rows: &[T], id: u64) -> Option<usize>
    ensures { IfSome result (IsPlace T.key rows.now id) }
{
    let first = rows.first()?.id();
    let at = id.checked_sub(first)? as usize;
    if rows.get(at)?.id() == id {
        Some(at)
    } else {
        None
    }
}

// Whether an id goes behind all rows.
fn is_behind<T: Row>(rows: &[T], id: u64) -> bool
    requires { AreInOrder T.key rows.now }
    ensures { result ≡ true → IsGap T.key rows.now id (length rows.now) }
{
    match rows.last() {
        None => true,
        Some(last) => last.id() < id,
    }
}

// Where the row of an id is, or would be, by halving.
fn searched<T: Row>(rows: &[T], id: u64) -> Result<usize, usize>
    requires { AreInOrder T.key rows.now }
    ensures found { IfOk result (IsPlace T.key rows.now id) }
    ensures absent { IfErr result (IsGap T.key rows.now id) }
{
    rows.binary_search_by_key(&id, |row| row.id())
}

// Inserts into room that is there.
fn insert_reserved<T: Drop>(rows: &mut Vec<T>, at: usize, row: T)
    requires place { at ≤ length rows.old.items }
    requires room { length rows.old.items < vec_capacity rows.old }
    ensures items { rows.new.items ≡ insert rows.old.items at row }
    ensures capacity { vec_capacity rows.old ≤ vec_capacity rows.new }
{
    let _ = rows.insert(at, row);
}
