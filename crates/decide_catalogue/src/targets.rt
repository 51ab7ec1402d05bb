//! What a voucher names: does it stand, and is it one thing?

ghost use Rattle.std.specs.Prelude.{◌≡◌};
ghost use Rattle.model_invariant.specs.Targets.{item_stands, is_of_item, variation_stands, quota_stands, has_one_target};

use book_catalogue::Catalogue;
use model_catalogue::Variation;
use model_rows::Voucher;

/// Whether the item that is named stands.
pub fn item_stands(catalogue: &Catalogue, item: Option<u64>) -> bool
    ensures { result ≡ item_stands catalogue.now.lists item }
{
    match item {
        None => true,
        Some(id) => catalogue.item(id).is_some(),
    }
}

// Whether a variation is of the item, if one is named.
fn is_of_item(item: Option<u64>, variation: &Variation) -> bool
    ensures { result ≡ is_of_item item variation.now }
{
    match item {
        None => true,
        Some(item) => variation.item == item,
    }
}

/// Whether the variation that is named stands, and is of the item that is named.
pub fn variation_stands(catalogue: &Catalogue, item: Option<u64>, variation: Option<u64>) -> bool
    ensures { result ≡ variation_stands catalogue.now.lists item variation }
{
    let Some(id) = variation else {
        return true;
    };
    match catalogue.variation(id) {
        None => false,
        Some(row) => is_of_item(item, row),
    }
}

/// Whether the quota that is named stands.
pub fn quota_stands(catalogue: &Catalogue, quota: Option<u64>) -> bool
    ensures { result ≡ quota_stands catalogue.now.lists quota }
{
    match quota {
        None => true,
        Some(id) => catalogue.quota(id).is_some(),
    }
}

/// Whether a voucher doesn't name an item and a quota both, nor a variation without its item.
pub fn has_one_target(row: &Voucher) -> bool
    ensures { result ≡ has_one_target row.now }
{
    !(row.item.is_some() && row.quota.is_some()) && (row.item.is_some() || row.variation.is_none())
}
