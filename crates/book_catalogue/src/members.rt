//! Which quotas list an item or a variation: indexes that are kept beside the quotas.

ghost use Rattle.std.specs.Prelude.{◌≡◌, ◌≤◌, ◌+◌, ℕ, length};
ghost use Rattle.std.specs.Bool.{Decides};
ghost use Rattle.std.specs.Option.{option_copied};
ghost use Rattle.base_index.specs.Entries.{has_entry};
ghost use Rattle.book_catalogue.specs.Members.{AreListedItems, AreListedVariations, AreRelisted, has_if};
ghost use Rattle.book_catalogue.specs.Puts.{quotas_with_put};

use base_index::Index;
use base_tables::{Ids, Rows};
use model_catalogue::Quota;

/// Makes an index of quotas by their items tell of one that will be put.
pub fn list_items(index: &mut Index, quotas: &Rows<Quota>, row: &Quota)
    requires room { length row.now.items ≤ index.old.room }
    requires members { AreListedItems quotas.now.rows index.old.rows }
    ensures members { AreListedItems (quotas_with_put row.now quotas.now.rows) index.new.rows }
    ensures room { index.old.room ≤ index.new.room + length row.now.items }
{
    match quotas.get(row.id) {
        None => relist(index, row.id, None, &row.items),
        Some(old) => relist(index, row.id, Some(&old.items), &row.items),
    }
}

/// Makes an index of quotas by their variations tell of one that will be put.
pub fn list_variations(index: &mut Index, quotas: &Rows<Quota>, row: &Quota)
    requires room { length row.now.variations ≤ index.old.room }
    requires members { AreListedVariations quotas.now.rows index.old.rows }
    ensures members { AreListedVariations (quotas_with_put row.now quotas.now.rows) index.new.rows }
    ensures room { index.old.room ≤ index.new.room + length row.now.variations }
{
    match quotas.get(row.id) {
        None => relist(index, row.id, None, &row.variations),
        Some(old) => relist(index, row.id, Some(&old.variations), &row.variations),
    }
}

// Lists a quota's members in the place of those that it had. Where they are the same, nothing changes.
fn relist(index: &mut Index, quota: u64, old: Option<&Ids>, new: &Ids)
    requires room { length new.now ≤ index.old.room }
    requires old { (id : ℕ) → has_entry id quota index.old.rows ≡ has_if id (option_copied old) }
    ensures rows { AreRelisted quota new.now index.old.rows index.new.rows }
    ensures room { index.old.room ≤ index.new.room + length new.now }
{
    match old {
        None => index.add_all(new.as_slice(), quota),
        Some(old) => {
            if !same(old.as_slice(), new.as_slice()) {
                index.remove_all(quota);
                index.add_all(new.as_slice(), quota);
            }
        }
    }
}

// Whether these are the same ids.
fn same(a: &[u64], b: &[u64]) -> bool
    ensures { Decides result (a.now ≡ b.now) }
{
    a == b
}
