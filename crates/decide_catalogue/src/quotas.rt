//! New quotas, and resized ones.

ghost use Rattle.model_catalogue.specs.QuotaAdded.{quota_added, quota_test};
ghost use Rattle.model_catalogue.specs.Resized.{quota_resized};
ghost use Rattle.decide_catalogue.specs.GoesBy.{GoesBy};

use crate::members::{items_fit, items_stand, variations_fit, variations_stand};
use book_catalogue::Catalogue;
use model_catalogue::{CatalogueRefusal, NewQuota, Quota, QuotaPatch, takes_row};
use std::alloc::Global;

/// A quota as it is with another size. It is for the caller to put it.
/// Refusals: 13 `NoQuota`.
pub fn resize(
    catalogue: &Catalogue,
    alloc: Global,
    id: u64,
    patch: QuotaPatch,
) -> Result<Quota, CatalogueRefusal>
    ensures { GoesBy (quota_resized id patch catalogue.now.lists) result }
{
    match catalogue.quota(id) {
        None => Err(CatalogueRefusal::NoQuota),
        Some(row) => Ok(patch.row(alloc, row)?),
    }
}

/// The row of a new quota with this id. It is for the caller to put it.
/// Refusals: 10 `NoItem`, 11 `NoVariation` where one is unknown; 14 `BadMember` where a variation's item
/// isn't listed, or none of the variations of an item that is sold by them; 16 `Full` where
/// 1,000,000 quotas stand or the id is above 9,007,199,254,740,991.
#[tactic(auto, unfolding(model_catalogue::specs::QuotaAdded::quota_added))]
pub fn add_quota(
    catalogue: &Catalogue,
    alloc: Global,
    new: &NewQuota,
    id: u64,
) -> Result<Quota, CatalogueRefusal>
    ensures { GoesBy (quota_added new.now id catalogue.now.lists) result }
{
    let quota = new.row(alloc, id)?;
    test_quota(catalogue, alloc, &quota)?;
    Ok(quota)
}

// Whether a quota may be added.
#[tactic(auto, unfolding(model_catalogue::specs::QuotaAdded::quota_test))]
fn test_quota(catalogue: &Catalogue, alloc: Global, quota: &Quota) -> Result<(), CatalogueRefusal>
    ensures { GoesBy (quota_test quota.now catalogue.now.lists) result }
{
    if !items_stand(catalogue, quota) {
        return Err(CatalogueRefusal::NoItem);
    }
    if !variations_stand(catalogue, quota) {
        return Err(CatalogueRefusal::NoVariation);
    }
    if !variations_fit(catalogue, quota) {
        return Err(CatalogueRefusal::BadMember);
    }
    if !items_fit(catalogue, alloc, quota)? {
        return Err(CatalogueRefusal::BadMember);
    }
    if !takes_row(quota.id, catalogue.quotas()) {
        return Err(CatalogueRefusal::Full);
    }
    Ok(())
}
