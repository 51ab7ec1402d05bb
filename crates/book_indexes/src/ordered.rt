//! What keeps the rows of a table in order of id.

ghost use Rattle.std.specs.Prelude.{◌≡◌, ◌≤◌, ◌+◌, [], OnOk};
ghost use Rattle.std.specs.Option.{option_copied};
ghost use Rattle.base_tables.specs.Tables.{Table, row_at, with_row, without_row, AreKept, most_listed};

use base_tables::{Row, Rows, Sparse};
use std::alloc::{AllocError, Global};

/// Keeps rows in order of id.
pub trait OrderedRows<T: Row + Drop> {
    /// The rows, and how many more can be put without taking memory.
    ghost table: { Self → Table T };

    /// No rows.
    fn new(alloc: Global) -> Self
        ensures { (table result).rows ≡ [] };

    /// Ids rise, and there are no more rows than 2^32.
    fn recall_invariant(&self)
        ensures { AreKept T.key most_listed (table self.now).rows };

    /// The row of an id.
    fn get(&self, id: u64) -> Option<&T>
        ensures { option_copied result ≡ row_at T.key id (table self.now).rows };

    /// Takes memory, so that this many rows can be put.
    fn reserve(&mut self, count: usize) -> Result<(), AllocError>
        ensures ok { OnOk result (count ≤ (table self.new).room) }
        ensures rows { (table self.new).rows ≡ (table self.old).rows };

    /// How many rows can be put without taking memory.
    fn room(&self) -> usize
        ensures { result ≡ (table self.now).room };

    /// Puts a row in the place of its id, instead of the row that stood there.
    /// There has to be room for one row, also where it replaces one.
    fn put(&mut self, row: T)
        requires { 1 ≤ (table self.old).room }
        ensures rows { (table self.new).rows ≡ with_row T.key row (table self.old).rows }
        ensures room { (table self.old).room ≤ (table self.new).room + 1 };

    /// Removes the row of the id, if there is one.
    fn delete(&mut self, id: u64)
        ensures rows { (table self.new).rows ≡ without_row T.key id (table self.old).rows }
        ensures room { (table self.old).room ≤ (table self.new).room };
}

/// Rows side by side: a row that goes moves all behind it.
impl<T: Row + Drop> OrderedRows<T> for Rows<T> {
    ghost table = { λ t. t };

    fn new(alloc: Global) -> Self {
        Rows::new(alloc)
    }

    fn recall_invariant(&self) {
        self.recall_invariant();
    }

    fn get(&self, id: u64) -> Option<&T> {
        self.get(id)
    }

    fn reserve(&mut self, count: usize) -> Result<(), AllocError> {
        self.reserve(count)
    }

    fn room(&self) -> usize {
        self.room()
    }

    fn put(&mut self, row: T) {
        self.put(row);
    }

    fn delete(&mut self, id: u64) {
        self.delete(id);
    }
}

/// With places that rows leave behind: a row that goes moves no other.
impl<T: Row + Drop> OrderedRows<T> for Sparse<T> {
    ghost table = { λ t. t };

    fn new(alloc: Global) -> Self {
        Sparse::new(alloc)
    }

    fn recall_invariant(&self) {
        self.recall_invariant();
    }

    fn get(&self, id: u64) -> Option<&T> {
        self.get(id)
    }

    fn reserve(&mut self, count: usize) -> Result<(), AllocError> {
        self.reserve(count)
    }

    fn room(&self) -> usize {
        self.room()
    }

    fn put(&mut self, row: T) {
        self.put(row);
    }

    fn delete(&mut self, id: u64) {
        self.delete(id);
    }
}
