//! Who came in by a check-in list, item by item.

ghost use Rattle.std.specs.Prelude.{◌≡◌, ◌≤◌, IfOk, OnOk, filter, length, map};
ghost use Rattle.base_tables.specs.Tables.{AreInOrder};
ghost use Rattle.model_catalogue.specs.Limits.{most_rows};
ghost use Rattle.model_invariant.specs.Sound.{IsSound};
ghost use Rattle.decide_door.specs.Belongs.{is_for};
ghost use Rattle.decide_door.specs.Status.{has_entered, is_inside};
ghost use Rattle.office_reports.specs.Counted.{all_entries};
ghost use Rattle.office_reports.specs.Counted.{AllAtMost, AreAtMost, position_counted, counted_all, counted_next, item_unvisited, with_ticket};

use base_tables::{Row, place_of};
use book_usage::Book;
use decide_door::belongs;
use decide_door::listing::is_for;
use decide_door::passages::{has_entry, last_of};
use model_catalogue::Item;
use model_rows::passages::is_entry_if;
use model_rows::{CheckinList, OrderPos};
use std::alloc::{AllocError, Global};

/// Of the positions that belong to a check-in list: how many there are, have entered, and are inside.
#[derive(Clone, Copy, PartialEq, Eq)]
pub(crate) struct Entries {
    pub positions: u64,
    pub entered: u64,
    pub inside: u64,
}

/// The entries of an item.
#[derive(Clone, Copy, PartialEq, Eq)]
pub(crate) struct ItemEntries {
    pub item: u64,
    pub entries: Entries,
}

impl Row for ItemEntries {
    ghost key = { λ s. s.item };

    fn id(&self) -> u64 {
        self.item
    }
}

/// Who came in of each item that the list is for, by id. It goes once over the positions, and looks each one's check-ins up. `Err` where
/// there is no memory for a row for each item, or for the check-ins of a position.
pub(crate) fn all_entries<B: Book>(
    book: &B,
    alloc: Global,
    list: &CheckinList,
) -> Result<Vec<ItemEntries>, AllocError>
    requires { IsSound (B.state book.now) }
    ensures { IfOk result (λ rows. rows.items ≡ all_entries list.now (B.state book.now).lists) }
{
    book.recall_invariant();
    let mut rows = all_unvisited(book.catalogue().items(), alloc, list)?;
    count_all(&mut rows, book, alloc, list)?;
    Ok(rows)
}

// The items that the list is for, before any position.
fn all_unvisited(
    items: &[Item],
    alloc: Global,
    list: &CheckinList,
) -> Result<Vec<ItemEntries>, AllocError>
    ensures { IfOk result (λ rows. rows.items
        ≡ map item_unvisited (filter (λ i. is_for list.now i.id) items.now)) }
{
    items
        .iter()
        .filter(|i| is_for(list, i.id))
        .map(item_unvisited)
        .collect(alloc)
}

// An item, before any position.
fn item_unvisited(item: &Item) -> ItemEntries
    ensures { result ≡ item_unvisited item.now }
{
    ItemEntries {
        item: item.id,
        entries: Entries {
            positions: 0,
            entered: 0,
            inside: 0,
        },
    }
}

// Counts each position at its item.
fn count_all<B: Book>(
    rows: &mut Vec<ItemEntries>,
    book: &B,
    alloc: Global,
    list: &CheckinList,
) -> Result<(), AllocError>
    requires order { AreInOrder (λ s. s.item) rows.old.items }
    requires few { AllAtMost 0 rows.old.items }
    requires rows { length (B.state book.now).lists.positions ≤ most_rows }
    ensures { OnOk result (let lists = (B.state book.now).lists in
        rows.new.items ≡ map (counted_all list.now lists lists.positions) rows.old.items) }
{
    for position in book.positions() {
        count_position(rows, book, alloc, list, position)?;
    }
    Ok(())
}

// Counts a position at its item, where it belongs to the list.
fn count_position<B: Book>(
    rows: &mut Vec<ItemEntries>,
    book: &B,
    alloc: Global,
    list: &CheckinList,
    position: &OrderPos,
) -> Result<(), AllocError>
    requires order { AreInOrder (λ s. s.item) rows.old.items }
    requires few { AllAtMost most_rows rows.old.items }
    ensures { OnOk result (rows.new.items
        ≡ map (counted_next list.now (B.state book.now).lists position.now) rows.old.items) }
{
    if belongs(book, list, position) {
        let (entered, inside) = came(book, alloc, list, position)?;
        count(rows, position.product.item, entered, inside);
    }
    Ok(())
}

// Whether a position has entered, and whether it is inside.
fn came<B: Book>(
    book: &B,
    alloc: Global,
    list: &CheckinList,
    position: &OrderPos,
) -> Result<(bool, bool), AllocError>
    ensures entered { IfOk result (λ c. c.0
        ≡ has_entered list.now.id (B.state book.now).lists.checkins position.now) }
    ensures inside { IfOk result (λ c. c.1
        ≡ is_inside list.now.id (B.state book.now).lists.checkins position.now) }
{
    let checkins = book.checkins_of(alloc, list.id, position.id)?;
    let checkins = checkins.as_slice();
    Ok((
        has_entry(checkins, list.id, position.id),
        is_entry_if(last_of(checkins, list.id, position.id)),
    ))
}

// Counts a position of an item, where that is among these.
fn count(rows: &mut Vec<ItemEntries>, item: u64, entered: bool, inside: bool)
    requires order { AreInOrder (λ s. s.item) rows.old.items }
    requires few { AllAtMost most_rows rows.old.items }
    ensures { rows.new.items ≡ map (position_counted item entered inside) rows.old.items }
{
    if let Ok(at) = place_of(rows, item) {
        let row = rows[at];
        rows[at] = ItemEntries {
            item: row.item,
            entries: with_ticket(row.entries, entered, inside),
        };
    }
}

// With one more position.
fn with_ticket(entries: Entries, entered: bool, inside: bool) -> Entries
    requires { AreAtMost most_rows entries }
    ensures { result ≡ with_ticket entered inside entries }
{
    Entries {
        positions: entries.positions + 1,
        entered: entries.entered + u64::from(entered),
        inside: entries.inside + u64::from(inside),
    }
}
