//! Tables of rows that are found by keys, too.

ghost use Rattle.std.specs.Prelude.{◌≡◌, ◌≤◌, ◌+◌, [], length, OnOk};
ghost use Rattle.std.specs.Option.{option_copied};
ghost use Rattle.base_tables.specs.Rising.{rising};
ghost use Rattle.base_tables.specs.Tables.{row_at, with_row, without_row, AreInOrder, AreKept, most_listed};
ghost use Rattle.book_indexes.specs.Keys.{keys_if, has_end, has_name, has_text, has_group};
ghost use Rattle.book_indexes.specs.Indexes.{AreIndexed, Finds, ids_passing, with_entry, without_entry};

use crate::keyed::Keyed;
use crate::keys::Keys;
use crate::ordered::OrderedRows;
use base_index::{Found, Index};
use base_tables::Rows;
use std::alloc::{AllocError, Global};
use std::marker::{Model, PhantomData};

/// Rows in order of id, and which of them have a key. Contracts see the list, and the number of rows that can be put
/// without taking memory.
#[derive(Drop)]
pub struct Indexed<T: Keyed + Drop, R: OrderedRows<T> = Rows<T>> {
    rows: R,
    row: PhantomData<T>,
    by_until: Index,
    by_named: Index,
    by_text: Index,
    by_group: Index,
}

impl<T: Keyed + Drop, R: OrderedRows<T>> Model for Indexed<T, R> {
    ghost use Rattle.std.specs.Prelude.{min};
    ghost use Rattle.base_tables.specs.Tables.{Table};
    ghost use Rattle.book_indexes.specs.Indexes.{AreIndexed};

    ghost Value = { Table T };

    ghost view = { λ t. record {
      rows = (R.table t.rows).rows;
      room = min (R.table t.rows).room
          (min (min t.by_until.room t.by_named.room) (min t.by_text.room t.by_group.room));
    } };

    ghost invariant = { λ t. AreIndexed T.key T.keys
        (R.table t.rows).rows t.by_until.rows t.by_named.rows t.by_text.rows t.by_group.rows };
}

impl<T: Keyed + Drop, R: OrderedRows<T>> Indexed<T, R> {
    /// No rows.
    pub fn new(alloc: Global) -> Self
        ensures { result.rows ≡ [] }
    {
        Indexed {
            rows: R::new(alloc),
            row: PhantomData,
            by_until: Index::new(alloc),
            by_named: Index::new(alloc),
            by_text: Index::new(alloc),
            by_group: Index::new(alloc),
        }
    }

    /// Ids rise, and there are no more rows than 2^32.
    pub fn recall_invariant(&self)
        ensures { AreKept T.key most_listed self.now.rows }
    {
        self.rows.recall_invariant();
    }

    /// What keeps the rows.
    pub fn rows(&self) -> &R
        ensures { (R.table result.now).rows ≡ self.now.rows }
    {
        &self.rows
    }

    /// The row of an id.
    pub fn get(&self, id: u64) -> Option<&T>
        ensures { option_copied result ≡ row_at T.key id self.now.rows }
    {
        self.rows.get(id)
    }

    /// The ids of the rows that end at `from` or later, and before `to`: by end, and rising for each.
    pub fn ending(&self, from: u64, to: u64) -> Found<'_>
        requires { from ≤ to }
        ensures finds { Finds T.key (has_end T.keys from to) self.now.rows result }
        ensures sorted { rising result ≡ ids_passing T.key (has_end T.keys from to) self.now.rows }
        ensures few { length result ≤ most_listed }
    {
        self.rows.recall_invariant();
        self.by_until.recall_invariant();
        self.by_until.between(from, to)
    }

    /// The ids of the rows that name this one, rising.
    pub fn naming(&self, named: u64) -> Found<'_>
        ensures finds { Finds T.key (has_name T.keys named) self.now.rows result }
        ensures all { result ≡ ids_passing T.key (has_name T.keys named) self.now.rows }
        ensures few { length result ≤ most_listed }
    {
        self.rows.recall_invariant();
        self.by_named.recall_invariant();
        self.by_named.of_key(named)
    }

    /// The ids of the rows whose text has this digest, rising.
    pub fn with_text(&self, digest: u64) -> Found<'_>
        ensures finds { Finds T.key (has_text T.keys digest) self.now.rows result }
        ensures all { result ≡ ids_passing T.key (has_text T.keys digest) self.now.rows }
        ensures few { length result ≤ most_listed }
    {
        self.rows.recall_invariant();
        self.by_text.recall_invariant();
        self.by_text.of_key(digest)
    }

    /// The ids of the rows that belong to this, rising.
    pub fn in_group(&self, group: u64) -> Found<'_>
        ensures finds { Finds T.key (has_group T.keys group) self.now.rows result }
        ensures all { result ≡ ids_passing T.key (has_group T.keys group) self.now.rows }
        ensures few { length result ≤ most_listed }
    {
        self.rows.recall_invariant();
        self.by_group.recall_invariant();
        self.by_group.of_key(group)
    }

    /// Takes memory, so that this many rows can be put. It is refused where there would be more than 2^32 rows with
    /// them, or where there is no memory.
    pub fn reserve(&mut self, count: usize) -> Result<(), AllocError>
        ensures ok { OnOk result (count ≤ self.new.room) }
        ensures rows { self.new.rows ≡ self.old.rows }
    {
        self.rows.reserve(count)?;
        self.by_until.reserve(count)?;
        self.by_named.reserve(count)?;
        self.by_text.reserve(count)?;
        self.by_group.reserve(count)
    }

    /// How many rows can be put without taking memory.
    pub fn room(&self) -> usize
        ensures { result ≡ self.now.room }
    {
        let times = self.by_until.room().min(self.by_named.room());
        let others = self.by_text.room().min(self.by_group.room());
        self.rows.room().min(times.min(others))
    }

    // The keys of the row of an id.
    fn keys_of(&self, id: u64) -> Keys
        ensures { result ≡ keys_if T.keys (row_at T.key id self.now.rows) }
    {
        match self.rows.get(id) {
            None => Keys::none(),
            Some(row) => row.keys(),
        }
    }
}

impl<T: Keyed + Drop, R: OrderedRows<T>> Indexed<T, R> {
    /// Puts a row in the place of its id, instead of the row that stood there.
    /// There has to be room for one row, also where it replaces one.
    pub fn put(&mut self, row: T)
        requires { 1 ≤ self.old.room }
        ensures rows { self.new.rows ≡ with_row T.key row self.old.rows }
        ensures room { self.old.room ≤ self.new.room + 1 }
    {
        let id = row.id();
        let new = row.keys();
        let old = self.keys_of(id);
        self.rows.recall_invariant();
        replace(&mut self.by_until, id, old.until, new.until);
        replace(&mut self.by_named, id, old.named, new.named);
        replace(&mut self.by_text, id, old.text, new.text);
        replace(&mut self.by_group, id, old.group, new.group);
        self.rows.put(row);
    }

    /// Removes the row of the id, if there is one.
    pub fn delete(&mut self, id: u64)
        ensures rows { self.new.rows ≡ without_row T.key id self.old.rows }
        ensures room { self.old.room ≤ self.new.room }
    {
        let old = self.keys_of(id);
        self.rows.recall_invariant();
        remove(&mut self.by_until, id, old.until);
        remove(&mut self.by_named, id, old.named);
        remove(&mut self.by_text, id, old.text);
        remove(&mut self.by_group, id, old.group);
        self.rows.delete(id);
    }
}

// Puts the entry of an id and its new key in the place of the one of its old key.
fn replace(index: &mut Index, id: u64, old: Option<u64>, new: Option<u64>)
    requires { 1 ≤ index.old.room }
    ensures rows { index.new.rows ≡ with_entry id new (without_entry id old index.old.rows) }
    ensures sorted { AreInOrder (λ n. n) index.old.rows }
    ensures room { index.old.room ≤ index.new.room + 1 }
{
    remove(index, id, old);
    if let Some(key) = new {
        index.add(key, id);
    }
}

// Removes the entry of an id and its key.
fn remove(index: &mut Index, id: u64, key: Option<u64>)
    ensures rows { index.new.rows ≡ without_entry id key index.old.rows }
    ensures sorted { AreInOrder (λ n. n) index.old.rows }
    ensures room { index.old.room ≤ index.new.room }
{
    index.recall_invariant();
    if let Some(key) = key {
        index.remove(key, id);
    }
}
