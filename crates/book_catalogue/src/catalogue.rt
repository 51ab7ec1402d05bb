//! The tables of the catalogue.

ghost use Rattle.std.specs.Prelude.{◌≡◌, ◌≢◌, ◌≤◌, ◌+◌, Ok, Err, IfOk, IfErr, OnOk, []};
ghost use Rattle.std.specs.Option.{option_copied};
ghost use Rattle.base_tables.specs.Tables.{AreKept, most_listed, with_row};
ghost use Rattle.model_catalogue.specs.CatalogueLists.{item_at, variation_at, quota_at, product_of, base_price, is_active, is_sold, variations_of, with_variations};
ghost use Rattle.model_catalogue.specs.Kept.{quotas_of};
ghost use Rattle.model_catalogue.specs.Kept.{quota_weight};
ghost use Rattle.book_catalogue.specs.Puts.{quotas_with_put};

use crate::members::{list_items, list_variations};
use base_index::{Found, Index};
use base_tables::{Ids, Rows};
use base_values::{Cents, List};
use model_catalogue::{CatalogueRefusal, Item, ItemRows, Product, Quota, Variation};
use std::alloc::{AllocError, Global};
use std::marker::Model;

/// All that is for sale. Contracts see the lists of rows, and how many rows each of them, and how many members each
/// index of quotas can be given without taking memory.
#[derive(Drop)]
pub struct Catalogue {
    items: Rows<Item>,
    variations: Rows<Variation>,
    quotas: Rows<Quota>,
    by_item: Index,
    by_variation: Index,
}

impl Model for Catalogue {
    ghost use Rattle.std.specs.Prelude.{min};
    ghost use Rattle.model_catalogue.specs.Kept.{CatalogueTables};
    ghost use Rattle.book_catalogue.specs.Members.{AreListedItems, AreListedVariations};

    ghost Value = { CatalogueTables };

    ghost view = { λ c. record {
      lists = record {
        items = c.items.rows;
        variations = c.variations.rows;
        quotas = c.quotas.rows;
      };
      room = min (min (min c.items.room c.variations.room) c.quotas.room)
          (min c.by_item.room c.by_variation.room);
    } };

    // The indexes have exactly the items and the variations of the quotas.
    ghost invariant = { λ c. AreListedItems c.quotas.rows c.by_item.rows
        × AreListedVariations c.quotas.rows c.by_variation.rows };
}

impl Catalogue {
    /// Nothing for sale.
    pub fn new(alloc: Global) -> Self
        ensures items { result.lists.items ≡ [] }
        ensures variations { result.lists.variations ≡ [] }
        ensures quotas { result.lists.quotas ≡ [] }
    {
        Catalogue {
            items: Rows::new(alloc),
            variations: Rows::new(alloc),
            quotas: Rows::new(alloc),
            by_item: Index::new(alloc),
            by_variation: Index::new(alloc),
        }
    }

    /// The item of an id.
    pub fn item(&self, id: u64) -> Option<&Item>
        ensures { option_copied result ≡ item_at id self.now.lists }
    {
        self.items.get(id)
    }

    /// The variation of an id.
    pub fn variation(&self, id: u64) -> Option<&Variation>
        ensures { option_copied result ≡ variation_at id self.now.lists }
    {
        self.variations.get(id)
    }

    /// The ids of quotas rise, and there are no more of them than 2^32.
    pub fn recall_invariant(&self)
        ensures { AreKept (λ r. r.id) most_listed self.now.lists.quotas }
    {
        self.quotas.recall_invariant();
    }

    /// The quota of an id.
    pub fn quota(&self, id: u64) -> Option<&Quota>
        ensures { option_copied result ≡ quota_at id self.now.lists }
    {
        self.quotas.get(id)
    }

    /// The items in order of id.
    pub fn items(&self) -> &[Item]
        ensures { result.now ≡ self.now.lists.items }
    {
        self.items.as_slice()
    }

    /// The variations in order of id.
    pub fn variations(&self) -> &[Variation]
        ensures { result.now ≡ self.now.lists.variations }
    {
        self.variations.as_slice()
    }

    /// The quotas in order of id.
    pub fn quotas(&self) -> &[Quota]
        ensures { result.now ≡ self.now.lists.quotas }
    {
        self.quotas.as_slice()
    }

    /// The product that these ids name.
    /// Refusals: 10 `NoItem`, 11 `NoVariation` where the variation is unknown or of another item,
    /// 12 `NeedsVariation` where the item is sold by variations and none is named.
    pub fn product(&self, item: u64, variation: Option<u64>) -> Result<Product, CatalogueRefusal>
        ensures { result ≡ product_of item variation self.now.lists }
    {
        let Some(row) = self.item(item) else {
            return Err(CatalogueRefusal::NoItem);
        };
        match variation {
            None if row.varied => Err(CatalogueRefusal::NeedsVariation),
            None => Ok(Product { item, variation }),
            Some(id) => match self.variation(id) {
                Some(variation) if variation.item == item => Ok(Product {
                    item,
                    variation: Some(id),
                }),
                _ => Err(CatalogueRefusal::NoVariation),
            },
        }
    }

    /// The ids of the quotas that a product is in.
    pub fn quotas_of(&self, alloc: Global, product: Product) -> Result<Vec<u64>, AllocError>
        ensures { IfOk result (λ ids. ids.items ≡ quotas_of product self.now.lists) }
    {
        self.quotas_with(product).to_vec(alloc)
    }

    /// The ids of the quotas that a product is in, lent.
    pub fn quotas_with(&self, product: Product) -> Found<'_>
        ensures { result ≡ quotas_of product self.now.lists }
    {
        self.quotas.recall_invariant();
        self.by_item.recall_invariant();
        self.by_variation.recall_invariant();
        match product.variation {
            None => self.by_item.of_key(product.item),
            Some(variation) => self.by_variation.of_key(variation),
        }
    }

    /// Whether a product is in a quota.
    pub fn is_sold(&self, product: Product) -> bool
        ensures { result ≡ is_sold product self.now.lists }
    {
        !self.quotas_with(product).is_empty()
    }

    /// Whether a product's item is active, and its variation, where it has one.
    pub fn is_active(&self, product: Product) -> bool
        ensures { result ≡ is_active product self.now.lists }
    {
        let Some(item) = self.item(product.item) else {
            return false;
        };
        match product.variation {
            None => item.active,
            Some(id) => item.active && self.variation(id).is_some_and(|variation| variation.active),
        }
    }

    /// The price of a product before any voucher: its variation's where it has one, else its item's.
    pub fn base_price(&self, product: Product) -> Option<Cents>
        ensures { result ≡ base_price product self.now.lists }
    {
        let item = self.item(product.item)?;
        match product.variation {
            None => Some(item.default_price),
            Some(id) => {
                let variation = self.variation(id)?;
                Some(variation.default_price.unwrap_or(item.default_price))
            }
        }
    }
}

impl Catalogue {
    /// Copies of an item's variations, by id.
    pub fn variations_of(&self, alloc: Global, item: u64) -> Result<List<Variation>, AllocError>
        ensures { IfOk result (λ rows. rows ≡ variations_of item self.now.lists) }
    {
        let mut rows = Vec::new(alloc);
        for row in self.variations() {
            if row.item == item {
                rows.push(row.copy(alloc)?)?;
            }
        }
        Ok(List::new(rows))
    }

    /// A copy of an item, with its variations.
    pub fn with_variations(&self, alloc: Global, item: &Item) -> Result<ItemRows, AllocError>
        ensures { IfOk result (λ rows. rows ≡ with_variations self.now.lists item.now) }
    {
        Ok(ItemRows {
            item: item.copy(alloc)?,
            variations: self.variations_of(alloc, item.id)?,
        })
    }
}

impl Catalogue {
    /// Takes memory, so that this many rows can be put into each table, and this many members of quotas into each
    /// index. It is refused where one would have more than 2^32 with them, or where there is no memory.
    pub fn reserve(&mut self, count: usize) -> Result<(), AllocError>
        ensures ok { OnOk result (count ≤ self.new.room) }
        ensures same { self.new.lists ≡ self.old.lists }
    {
        self.items.reserve(count)?;
        self.variations.reserve(count)?;
        self.quotas.reserve(count)?;
        self.by_item.reserve(count)?;
        self.by_variation.reserve(count)
    }

    /// How many rows, and how many members of quotas can be put without taking memory.
    pub fn room(&self) -> usize
        ensures { result ≡ self.now.room }
    {
        self.items
            .room()
            .min(self.variations.room())
            .min(self.quotas.room())
            .min(self.by_item.room().min(self.by_variation.room()))
    }

    /// Puts an item in the place of its id.
    /// There has to be room for a row in each table, also where it replaces one.
    pub fn put_item(&mut self, row: Item)
        requires { 1 ≤ self.old.room }
        ensures lists { self.new.lists
            ≡ record self.old.lists { items = with_row (λ r. r.id) row self.old.lists.items } }
        ensures room { self.old.room ≤ self.new.room + 1 }
    {
        self.items.put(row);
    }

    /// Puts a variation in the place of its id.
    /// There has to be room for a row in each table, also where it replaces one.
    pub fn put_variation(&mut self, row: Variation)
        requires { 1 ≤ self.old.room }
        ensures lists { self.new.lists ≡ record
            self.old.lists { variations = with_row (λ r. r.id) row self.old.lists.variations } }
        ensures room { self.old.room ≤ self.new.room + 1 }
    {
        self.variations.put(row);
    }

    /// Puts a quota in the place of its id.
    /// There has to be room for its row and its members, also where it replaces one.
    pub fn put_quota(&mut self, row: Quota)
        requires { quota_weight row ≤ self.old.room }
        ensures lists { self.new.lists
            ≡ record self.old.lists { quotas = quotas_with_put row self.old.lists.quotas } }
        ensures room { self.old.room ≤ self.new.room + quota_weight row }
    {
        list_items(&mut self.by_item, &self.quotas, &row);
        list_variations(&mut self.by_variation, &self.quotas, &row);
        self.quotas.put(row);
    }
}
