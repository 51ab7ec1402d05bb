//! A log of changes, with an index of the rows that it touches.

ghost use Rattle.std.specs.Prelude.{◌≡◌, ◌≤◌, ◌<◌, ◌-◌, ◌++◌, [], ◌∷◌, length, take, OnOk, OnErr, slice_index_or};
ghost use Rattle.std.specs.Option.{IfSome};
ghost use Rattle.model_rows.specs.declared.changes.Change.{Change};
ghost use Rattle.book_log.specs.Places.{number, table_of, id_of, touches, touches_table, last_place, place_before};

use crate::touched::{Touched, note};
use model_rows::Change;
use std::alloc::{AllocError, Global};
use std::marker::Model;

/// The tables whose rows changes put or drop.
#[derive(Clone, Copy, PartialEq, Eq)]
pub enum Table {
    Items,
    Variations,
    Quotas,
    Vouchers,
    Carts,
    Orders,
    Positions,
    Waiting,
    CheckinLists,
    Checkins,
}

impl Table {
    // Its place among the ten tables of an index.
    fn number(self) -> usize
        ensures value { result ≡ number self }
        ensures within { result < 10 }
    {
        match self {
            Table::Items => 0,
            Table::Variations => 1,
            Table::Quotas => 2,
            Table::Vouchers => 3,
            Table::Carts => 4,
            Table::Orders => 5,
            Table::Positions => 6,
            Table::Waiting => 7,
            Table::CheckinLists => 8,
            Table::Checkins => 9,
        }
    }
}

/// Changes in order. Contracts see the list.
///
/// For each row of each table it keeps the last place that touches it, so that a look-up is a search by halving;
/// and for each place the place before it that touches the same row, so that going back needs no memory. For each table
/// it counts the changes of it, so that a caller need not look where nothing changed.
#[derive(Drop)]
pub struct ChangeLog {
    changes: Vec<Change>,
    tables: [Touched; 10],
    before: Vec<Option<usize>>,
    counts: [usize; 10],
}

impl Model for ChangeLog {
    ghost use Rattle.std.specs.Prelude.{List};
    ghost use Rattle.model_rows.specs.declared.changes.Change.{Change};
    ghost use Rattle.book_log.specs.Places.{IsIndex};

    ghost Value = { List Change };

    ghost view = { λ l. l.changes.items };

    ghost invariant = { λ l. IsIndex l.changes.items l.tables l.before.items l.counts };
}

impl ChangeLog {
    /// No changes.
    #[tactic(auto, using(crate::proofs::Indexes::index_none))]
    pub fn new(alloc: Global) -> Self
        ensures { result ≡ [] }
    {
        ChangeLog {
            changes: Vec::new(alloc),
            tables: [
                Touched::new(alloc),
                Touched::new(alloc),
                Touched::new(alloc),
                Touched::new(alloc),
                Touched::new(alloc),
                Touched::new(alloc),
                Touched::new(alloc),
                Touched::new(alloc),
                Touched::new(alloc),
                Touched::new(alloc),
            ],
            before: Vec::new(alloc),
            counts: [0; 10],
        }
    }

    /// How many changes there are.
    pub fn len(&self) -> usize
        ensures { result ≡ length self.now }
    {
        self.changes.len()
    }

    /// The change at a place.
    pub fn get(&self, place: usize) -> &Change
        requires { place < length self.now }
        ensures { result.now ≡ slice_index_or self.now place result.now }
    {
        &self.changes[place]
    }

    /// The changes in order.
    pub fn as_slice(&self) -> &[Change]
        ensures { result.now ≡ self.now }
    {
        self.changes.as_slice()
    }

    /// The changes in order.
    pub fn into_vec(self) -> Vec<Change>
        ensures { result.items ≡ self }
    {
        let ChangeLog {
            changes,
            tables: _,
            before: _,
            counts: _,
        } = self;
        changes
    }

    /// Whether some change touches a row of the table.
    pub fn touches(&self, table: Table) -> bool
        ensures { result ≡ touches_table (number table) self.now }
    {
        0 < self.counts[table.number()]
    }

    /// The last place that touches the row of a table.
    pub fn last(&self, table: Table, id: u64) -> Option<usize>
        ensures value { result ≡ last_place (touches (number table) id) self.now }
        ensures within { IfSome result (λ place. place < length self.now) }
    {
        self.tables[table.number()].last(id)
    }

    /// The last of the first so many places that touches the row of a table.
    pub fn last_before(&self, count: usize, table: Table, id: u64) -> Option<usize>
        requires { count ≤ length self.now }
        ensures value { result ≡ last_place (touches (number table) id) (take count self.now) }
        ensures within { IfSome result (λ place. place < count) }
    {
        let mut found = self.last(table, id);
        'earlier: while let Some(place) = found {
            if place < count {
                return found;
            }
            found = self.before(place);
        }
        None
    }

    /// The place before this one that touches the same row.
    pub fn before(&self, place: usize) -> Option<usize>
        requires { place < length self.now }
        ensures { (d : Change)
            → result ≡ place_before place (slice_index_or self.now place d) self.now }
    {
        self.before[place]
    }

    /// Adds a change.
    pub fn push(&mut self, change: Change) -> Result<(), AllocError>
        ensures ok { OnOk result (self.new ≡ self.old ++ change ∷ []) }
        ensures err { OnErr result (self.new ≡ self.old) }
    {
        let place = self.changes.len();
        let table = table_of(&change).number();
        let id = id_of(&change);
        self.changes.push(change)?;
        if note(&mut self.tables[table], &mut self.before, id, place).is_err() {
            self.changes.truncate(place);
            return Err(AllocError);
        }
        self.counts[table] += 1;
        Ok(())
    }

    /// Only the first changes.
    pub fn truncate(&mut self, count: usize)
        ensures { self.new ≡ take count self.old }
    {
        'back: while count < self.len() {
            self.undo();
        }
    }

    // All but the last change.
    #[tactic(auto, using(crate::proofs::Indexes::is_touched))]
    fn undo(&mut self)
        requires { 0 < length self.old }
        ensures { self.new ≡ take (length self.old - 1) self.old }
    {
        let last = self.changes.len() - 1;
        let change = &self.changes[last];
        let table = table_of(change).number();
        let id = id_of(change);
        self.tables[table].go_back(id, self.before[last]);
        self.counts[table] -= 1;
        self.before.truncate(last);
        self.changes.truncate(last);
    }
}

// The table whose row a change puts or drops.
fn table_of(change: &Change) -> Table
    ensures { number result ≡ table_of change.now }
{
    match change {
        Change::PutItem(_) => Table::Items,
        Change::PutVariation(_) => Table::Variations,
        Change::PutQuota(_) => Table::Quotas,
        Change::PutVoucher(_) | Change::DropVoucher(_) => Table::Vouchers,
        Change::PutCart(_) | Change::DropCart(_) => Table::Carts,
        Change::PutOrder(_) => Table::Orders,
        Change::PutPosition(_) => Table::Positions,
        Change::PutWaiting(_) | Change::DropWaiting(_) => Table::Waiting,
        Change::PutCheckinList(_) => Table::CheckinLists,
        Change::PutCheckin(_) => Table::Checkins,
    }
}

// The id of that row.
fn id_of(change: &Change) -> u64
    ensures { result ≡ id_of change.now }
{
    match change {
        Change::PutItem(row) => row.id,
        Change::PutVariation(row) => row.id,
        Change::PutQuota(row) => row.id,
        Change::PutVoucher(row) => row.id,
        Change::PutCart(row) => row.id,
        Change::PutOrder(row) => row.id,
        Change::PutPosition(row) => row.id,
        Change::PutWaiting(row) => row.id,
        Change::DropVoucher(id) | Change::DropCart(id) | Change::DropWaiting(id) => *id,
        Change::PutCheckinList(row) => row.id,
        Change::PutCheckin(row) => row.id,
    }
}
