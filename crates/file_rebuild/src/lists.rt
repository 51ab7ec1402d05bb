//! Check-in lists with their items.

ghost use Rattle.std.specs.Prelude.{◌≡◌, ◌↔◌, IfOk, IfErr, OnOk, IsTrue, IsPermutation, map};
ghost use Rattle.base_tables.specs.Tables.{AreInOrder};
ghost use Rattle.file_meaning.specs.Links.{all_links};
ghost use Rattle.file_rebuild.specs.Arranged.{beside, list_having, list_link, list_of};
ghost use Rattle.file_rebuild.specs.declared.error.ArrangeError.TheVariants.{Order};

use crate::error::ArrangeError;
use crate::members::members_in;
use base_tables::{Ids, rises};
use file_rows::{DoorRows, ListRow};
use model_rows::{Checkin, CheckinList};
use std::alloc::{AllocError, Global};

/// What the doors have, and whether each link of a check-in list tells one of its items.
#[derive(Drop)]
pub(crate) struct DoorParts {
    pub(crate) lists: Vec<CheckinList>,
    pub(crate) checkins: Vec<Checkin>,
    pub(crate) whole: bool,
}

// The ids of the rows.
fn ids_of(alloc: Global, rows: &[ListRow]) -> Result<Vec<u64>, AllocError>
    ensures { IfOk result (λ ids. ids.items ≡ map (λ r. r.id) rows.now) }
{
    rows.iter().map(|row| row.id).collect(alloc)
}

// A check-in list of its row and its items.
fn list_with(parts: (ListRow, Ids)) -> CheckinList
    ensures { result ≡ list_having parts.0 parts.1 }
{
    let (row, limit_products) = parts;
    CheckinList {
        id: row.id,
        name: row.name,
        all_products: row.all_products,
        limit_products,
        include_pending: row.include_pending,
        allow_multiple_entries: row.allow_multiple_entries,
        allow_entry_after_exit: row.allow_entry_after_exit,
    }
}

// Each row with its items.
fn joined(
    alloc: Global,
    rows: Vec<ListRow>,
    items: Vec<Ids>,
) -> Result<Vec<CheckinList>, AllocError>
    ensures { IfOk result (λ all. all.items ≡ beside list_having rows.items items.items) }
{
    rows.into_iter()
        .zip(items.into_iter())
        .map(list_with)
        .collect(alloc)
}

/// What the doors have, with the items that links tell of check-in lists. Refusals: 6, and 63 where the lists' ids don't rise.
pub(crate) fn doors_in(alloc: Global, rows: DoorRows) -> Result<DoorParts, ArrangeError>
    ensures checkins { IfOk result (λ d. d.checkins ≡ rows.checkins) }
    ensures lists { IfOk result (λ d. d.lists.items
        ≡ map (list_of (map list_link rows.list_items.items)) rows.checkin_lists.items) }
    ensures order { OnOk result (AreInOrder (λ r. r.id) rows.checkin_lists.items) }
    ensures refused { IfErr result (λ e. e ≡ Order →
        ¬ AreInOrder (λ r. r.id) rows.checkin_lists.items) }
    ensures whole { IfOk result (λ d. IsTrue d.whole
        ↔ IsPermutation (map list_link rows.list_items.items)
        (all_links (λ l. l.id) (λ l. l.limit_products) d.lists.items)) }
{
    let ids = ids_of(alloc, rows.checkin_lists.as_slice())?;
    if !rises(ids.as_slice()) {
        return Err(ArrangeError::Order);
    }
    let items = members_in(alloc, ids.as_slice(), rows.list_items.as_slice())?;
    let whole = items.whole;
    let lists = joined(alloc, rows.checkin_lists, items.each)?;
    Ok(DoorParts {
        lists,
        checkins: rows.checkins,
        whole,
    })
}
