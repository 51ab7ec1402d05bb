//! What a quota lists: do its items and variations stand, and do they fit together?

ghost use Rattle.std.specs.Prelude.{◌≡◌, IfOk};
ghost use Rattle.std.specs.List.{list_all};
ghost use Rattle.model_catalogue.specs.CatalogueLists.{item_at, variation_at};
ghost use Rattle.model_catalogue.specs.QuotaAdded.{items_stand, variations_stand, variations_fit, items_fit, is_of_one, item_of, items_of, is_offered};

use base_tables::Ids;
use book_catalogue::Catalogue;
use model_catalogue::Quota;
use std::alloc::{AllocError, Global};

/// Whether each item that the quota lists stands.
#[tactic(auto, unfolding(model_catalogue::specs::QuotaAdded::items_stand))]
pub fn items_stand(catalogue: &Catalogue, quota: &Quota) -> bool
    ensures { result ≡ items_stand quota.now catalogue.now.lists }
{
    quota
        .items
        .as_slice()
        .iter()
        .all(|id| catalogue.item(*id).is_some())
}

/// Whether each variation that the quota lists stands.
#[tactic(auto, unfolding(model_catalogue::specs::QuotaAdded::variations_stand))]
pub fn variations_stand(catalogue: &Catalogue, quota: &Quota) -> bool
    ensures { result ≡ variations_stand quota.now catalogue.now.lists }
{
    quota
        .variations
        .as_slice()
        .iter()
        .all(|id| catalogue.variation(*id).is_some())
}

/// Whether each listed variation's item is listed too.
#[tactic(auto, unfolding(model_catalogue::specs::QuotaAdded::variations_fit))]
pub fn variations_fit(catalogue: &Catalogue, quota: &Quota) -> bool
    ensures { result ≡ variations_fit quota.now catalogue.now.lists }
{
    quota
        .variations
        .as_slice()
        .iter()
        .all(|id| is_of_one(catalogue, *id, quota))
}

/// Whether each listed item is sold by itself, or one of its variations is listed.
#[tactic(auto, unfolding(model_catalogue::specs::QuotaAdded::items_fit))]
pub fn items_fit(catalogue: &Catalogue, alloc: Global, quota: &Quota) -> Result<bool, AllocError>
    ensures { IfOk result (λ fit. fit ≡ items_fit quota.now catalogue.now.lists) }
{
    let items = items_of(catalogue, alloc, quota.variations.as_slice())?;
    let offered = Ids::sorted(items);
    Ok(are_offered(catalogue, quota.items.as_slice(), &offered))
}

// The items that these variations are of.
fn items_of(
    catalogue: &Catalogue,
    alloc: Global,
    variations: &[u64],
) -> Result<Vec<u64>, AllocError>
    ensures { IfOk result (λ items. items.items ≡ items_of variations.now catalogue.now.lists) }
{
    variations
        .iter()
        .filter_map(|id| item_of(catalogue, *id))
        .collect(alloc)
}

// The item that a variation is of.
fn item_of(catalogue: &Catalogue, variation: u64) -> Option<u64>
    ensures { result ≡ item_of (variation_at variation catalogue.now.lists) }
{
    catalogue.variation(variation).map(|row| row.item)
}

// Whether a variation's item is in the quota.
fn is_of_one(catalogue: &Catalogue, variation: u64, quota: &Quota) -> bool
    ensures { result ≡ is_of_one quota.now.items (variation_at variation catalogue.now.lists) }
{
    match catalogue.variation(variation) {
        None => false,
        Some(row) => quota.items.has(row.item),
    }
}

// Whether each of these items is sold by itself, or is among those of which a variation is listed.
fn are_offered(catalogue: &Catalogue, items: &[u64], offered: &Ids) -> bool
    ensures { result ≡
        list_all (λ id. is_offered offered.now (item_at id catalogue.now.lists)) items.now }
{
    items.iter().all(|id| is_offered(catalogue, *id, offered))
}

// Whether an item is sold by itself, or is among those of which a variation is listed.
fn is_offered(catalogue: &Catalogue, item: u64, offered: &Ids) -> bool
    ensures { result ≡ is_offered offered.now (item_at item catalogue.now.lists) }
{
    match catalogue.item(item) {
        None => false,
        Some(row) => !row.varied || offered.has(row.id),
    }
}
