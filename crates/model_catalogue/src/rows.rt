//! The rows of the catalogue.

ghost use Rattle.std.specs.Prelude.{◌≡◌, IfOk};
ghost use Rattle.model_catalogue.specs.Member.{is_in};
ghost use Rattle.model_catalogue.specs.Kept.{quota_weight};

use base_tables::{Ids, Row};
use base_values::{Cents, List, Size, Text};
use std::alloc::{AllocError, Global};

/// What is sold: by itself, or, where it is varied, by its variations alone.
#[derive(Drop)]
pub struct Item {
    pub id: u64,
    pub name: Text,
    pub default_price: Cents,
    pub active: bool,
    pub varied: bool,
}

impl Row for Item {
    ghost key = { λ r. r.id };

    fn id(&self) -> u64 {
        self.id
    }
}

impl Item {
    /// A copy.
    pub fn copy(&self, alloc: Global) -> Result<Self, AllocError>
        ensures { IfOk result (λ row. row ≡ self.now) }
    {
        Ok(Item {
            id: self.id,
            name: self.name.copy(alloc)?,
            default_price: self.default_price,
            active: self.active,
            varied: self.varied,
        })
    }
}

/// A variation: a kind of an item. Where it has no price, the item's price holds.
#[derive(Drop)]
pub struct Variation {
    pub id: u64,
    pub item: u64,
    pub name: Text,
    pub default_price: Option<Cents>,
    pub active: bool,
}

impl Row for Variation {
    ghost key = { λ r. r.id };

    fn id(&self) -> u64 {
        self.id
    }
}

impl Variation {
    /// A copy.
    pub fn copy(&self, alloc: Global) -> Result<Self, AllocError>
        ensures { IfOk result (λ row. row ≡ self.now) }
    {
        Ok(Variation {
            id: self.id,
            item: self.item,
            name: self.name.copy(alloc)?,
            default_price: self.default_price,
            active: self.active,
        })
    }
}

/// An item with its variations, by id.
#[derive(Drop)]
pub struct ItemRows {
    pub item: Item,
    pub variations: List<Variation>,
}

/// A variation, and its base price: its own price, or else its item's.
#[derive(Drop)]
pub struct PricedVariation {
    pub row: Variation,
    pub price: Cents,
}

/// A quota: places that some products share. Where it has no size, it is unlimited. Where it releases them, a ticket that went out sets its
/// place free.
#[derive(Drop)]
pub struct Quota {
    pub id: u64,
    pub name: Text,
    pub release_after_exit: bool,
    pub size: Option<Size>,
    pub items: Ids,
    pub variations: Ids,
}

impl Row for Quota {
    ghost key = { λ r. r.id };

    fn id(&self) -> u64 {
        self.id
    }
}

impl Quota {
    /// A copy.
    pub fn copy(&self, alloc: Global) -> Result<Self, AllocError>
        ensures { IfOk result (λ row. row ≡ self.now) }
    {
        Ok(Quota {
            id: self.id,
            name: self.name.copy(alloc)?,
            release_after_exit: self.release_after_exit,
            size: self.size,
            items: self.items.copy(alloc)?,
            variations: self.variations.copy(alloc)?,
        })
    }

    /// How much room it takes in a catalogue: for its row, and for each of its members.
    pub fn weight(&self) -> usize
        ensures { result ≡ quota_weight self.now }
    {
        1 + (self.items.as_slice().len() + self.variations.as_slice().len())
    }

    /// Whether it has the product: by its variation, or, without one, by its item.
    pub fn has(&self, product: Product) -> bool
        ensures { result ≡ is_in self.now product }
    {
        match product.variation {
            None => self.items.has(product.item),
            Some(variation) => self.variations.has(variation),
        }
    }
}

/// An item, or an item with one of its variations.
#[derive(Clone, Copy, PartialEq, Eq)]
pub struct Product {
    pub item: u64,
    pub variation: Option<u64>,
}
