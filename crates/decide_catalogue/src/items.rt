//! New items and variations, and changed items.

ghost use Rattle.model_catalogue.specs.ItemAdded.{item_added};
ghost use Rattle.model_catalogue.specs.ItemChanged.{item_changed};
ghost use Rattle.model_catalogue.specs.VariationAdded.{variation_added};
ghost use Rattle.decide_catalogue.specs.GoesBy.{GoesBy};

use book_catalogue::Catalogue;
use model_catalogue::requests::variation_rows;
use model_catalogue::{
    CatalogueRefusal, Item, ItemPatch, ItemRows, NewItem, NewVariation, PricedVariation, takes_row,
    takes_rows,
};
use std::alloc::Global;

/// The row of a new item with this id, and those of its variations, whose ids count on from `first`.
/// It is for the caller to put them. Refusals: 16 `Full` where 1,000,000 items stand or the id is above
/// 9,007,199,254,740,991, and where that would come to be so of the variations.
#[tactic(auto, unfolding(model_catalogue::specs::ItemAdded::item_added))]
pub fn add_item(
    catalogue: &Catalogue,
    alloc: Global,
    new: &NewItem,
    id: u64,
    first: u64,
) -> Result<ItemRows, CatalogueRefusal>
    ensures { GoesBy (item_added new.now id first catalogue.now.lists) result }
{
    let count = new.variations.as_slice().len();
    if !(takes_row(id, catalogue.items()) && takes_rows(count, first, catalogue.variations())) {
        return Err(CatalogueRefusal::Full);
    }
    Ok(ItemRows {
        item: new.row(alloc, id)?,
        variations: variation_rows(alloc, new.variations.as_slice(), id, first)?,
    })
}

/// An item as it is after a change. It is for the caller to put it.
/// Refusals: 10 `NoItem`.
pub fn change_item(
    catalogue: &Catalogue,
    alloc: Global,
    id: u64,
    patch: &ItemPatch,
) -> Result<Item, CatalogueRefusal>
    ensures { GoesBy (item_changed id patch.now catalogue.now.lists) result }
{
    match catalogue.item(id) {
        None => Err(CatalogueRefusal::NoItem),
        Some(row) => Ok(patch.row(alloc, row)?),
    }
}

/// The row of a new variation of an item, with this id, and its price. It is for the caller to put it.
/// Refusals: 10 `NoItem`; 17 `Plain` where the item was made without variations; 16 `Full` where
/// 1,000,000 variations stand or the id is above 9,007,199,254,740,991.
#[tactic(auto, unfolding(model_catalogue::specs::VariationAdded::variation_added))]
pub fn add_variation(
    catalogue: &Catalogue,
    alloc: Global,
    item: u64,
    new: &NewVariation,
    id: u64,
) -> Result<PricedVariation, CatalogueRefusal>
    ensures { GoesBy (variation_added item new.now id catalogue.now.lists) result }
{
    let Some(row) = catalogue.item(item) else {
        return Err(CatalogueRefusal::NoItem);
    };
    if !row.varied {
        return Err(CatalogueRefusal::Plain);
    }
    if !takes_row(id, catalogue.variations()) {
        return Err(CatalogueRefusal::Full);
    }
    Ok(PricedVariation {
        row: new.row(alloc, row.id, id)?,
        price: new.default_price.unwrap_or(row.default_price),
    })
}
