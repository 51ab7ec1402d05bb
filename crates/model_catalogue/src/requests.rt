//! What requests to the catalogue say.

ghost use Rattle.std.specs.Prelude.{◌≡◌, ◌≤◌, ◌+◌, length, IfOk};
ghost use Rattle.model_catalogue.specs.ItemAdded.{item_row, variation_rows};
ghost use Rattle.model_catalogue.specs.ItemChanged.{patched_item};
ghost use Rattle.model_catalogue.specs.VariationAdded.{variation_row};
ghost use Rattle.model_catalogue.specs.QuotaAdded.{quota_row};
ghost use Rattle.model_catalogue.specs.Resized.{patched_quota};
ghost use Rattle.model_catalogue.specs.FitRequests.{IsFitVariation, IsFitItem, IsFitItemPatch, IsFitQuota, IsFitQuotaPatch};
ghost use Rattle.model_catalogue.specs.Limits.{last_id};

use crate::rows::{Item, Quota, Variation};
use base_tables::Ids;
use base_values::{Cents, Known, List, Size, Text};
use std::alloc::{AllocError, Global};

/// A new variation of an item. Where it has no price, the item's price holds.
#[derive(Drop)]
pub struct NewVariation {
    pub name: Text,
    pub default_price: Option<Cents>,
    pub active: bool,
}

/// A new item. With variations it is sold by them alone, for good; without any it is sold by itself.
#[derive(Drop)]
pub struct NewItem {
    pub name: Text,
    pub default_price: Cents,
    pub active: bool,
    pub variations: List<NewVariation>,
}

/// What is to change of an item. What isn't given stays.
#[derive(Drop)]
pub struct ItemPatch {
    pub name: Option<Text>,
    pub default_price: Option<Cents>,
    pub active: Option<bool>,
}

/// What is to change of a quota: its size, where one is given; a size that is none is unlimited.
#[derive(Clone, Copy, PartialEq, Eq)]
pub struct QuotaPatch {
    pub size: Option<Option<Size>>,
}

/// A new quota, with the ids as they are given. Without a size it is unlimited. Where it releases places, those of
/// tickets that went out can be sold again; that never changes.
#[derive(Drop)]
pub struct NewQuota {
    pub name: Text,
    pub release_after_exit: bool,
    pub size: Option<Size>,
    pub items: List<u64>,
    pub variations: List<u64>,
}

impl NewItem {
    /// The row that it makes.
    pub fn row(&self, alloc: Global, id: u64) -> Result<Item, AllocError>
        ensures { IfOk result (λ row. row ≡ item_row self.now id) }
    {
        Ok(Item {
            id,
            name: self.name.copy(alloc)?,
            default_price: self.default_price,
            active: self.active,
            varied: !self.variations.as_slice().is_empty(),
        })
    }
}

impl NewVariation {
    /// The row that it makes of this item.
    pub fn row(&self, alloc: Global, item: u64, id: u64) -> Result<Variation, AllocError>
        ensures { IfOk result (λ row. row ≡ variation_row self.now item id) }
    {
        Ok(Variation {
            id,
            item,
            name: self.name.copy(alloc)?,
            default_price: self.default_price,
            active: self.active,
        })
    }
}

/// The rows of an item's variations, whose ids count on from `first`. The last of them must be at most
/// 9,007,199,254,740,991.
pub fn variation_rows(
    alloc: Global,
    variations: &[NewVariation],
    item: u64,
    first: u64,
) -> Result<List<Variation>, AllocError>
    requires { first + length variations.now ≤ last_id + 1 }
    ensures { IfOk result (λ rows. rows ≡ variation_rows variations.now item first) }
{
    let mut rows = Vec::with_capacity(alloc, variations.len())?;
    let mut id = first;
    for new in variations {
        rows.push(new.row(alloc, item, id)?)?;
        id += 1;
    }
    Ok(List::new(rows))
}

impl NewQuota {
    /// The row that it makes.
    pub fn row(&self, alloc: Global, id: u64) -> Result<Quota, AllocError>
        ensures { IfOk result (λ row. row ≡ quota_row self.now id) }
    {
        Ok(Quota {
            id,
            name: self.name.copy(alloc)?,
            release_after_exit: self.release_after_exit,
            size: self.size,
            items: Ids::rising(alloc, self.items.as_slice())?,
            variations: Ids::rising(alloc, self.variations.as_slice())?,
        })
    }
}

impl ItemPatch {
    /// An item as it is afterwards.
    pub fn row(&self, alloc: Global, row: &Item) -> Result<Item, AllocError>
        ensures { IfOk result (λ changed. changed ≡ patched_item self.now row.now) }
    {
        let name = match &self.name {
            None => row.name.copy(alloc)?,
            Some(name) => name.copy(alloc)?,
        };
        Ok(Item {
            id: row.id,
            name,
            default_price: self.default_price.unwrap_or(row.default_price),
            active: self.active.unwrap_or(row.active),
            varied: row.varied,
        })
    }
}

impl QuotaPatch {
    /// A quota as it is afterwards.
    pub fn row(self, alloc: Global, row: &Quota) -> Result<Quota, AllocError>
        ensures { IfOk result (λ changed. changed ≡ patched_quota self row.now) }
    {
        let mut changed = row.copy(alloc)?;
        changed.size = self.size.unwrap_or(row.size);
        Ok(changed)
    }
}

impl Known for NewVariation {
    ghost promise = { IsFitVariation };

    fn recall_invariant(&self) {
        self.name.recall_invariant();
        self.default_price.recall_invariant();
    }
}

impl Known for NewItem {
    ghost promise = { IsFitItem };

    fn recall_invariant(&self) {
        self.name.recall_invariant();
        self.default_price.recall_invariant();
        self.variations.recall_invariant();
    }
}

impl Known for ItemPatch {
    ghost promise = { IsFitItemPatch };

    fn recall_invariant(&self) {
        self.name.recall_invariant();
        self.default_price.recall_invariant();
    }
}

impl Known for NewQuota {
    ghost promise = { IsFitQuota };

    fn recall_invariant(&self) {
        self.name.recall_invariant();
        self.size.recall_invariant();
    }
}

impl Known for QuotaPatch {
    ghost promise = { IsFitQuotaPatch };

    fn recall_invariant(&self) {
        self.size.recall_invariant();
    }
}
