//! The tests of what quotas list.

ghost use Rattle.model_invariant.specs.Members.{HasMembers, AllHaveMembers};
ghost use Rattle.model_damage.specs.Tests.{TellsWhether};

use base_tables::are_rising;
use book_usage::{Book, Catalogue};
use decide_catalogue::members::{items_fit, items_stand, variations_fit, variations_stand};
use model_catalogue::Quota;
use std::alloc::{AllocError, Global};

// Whether the items and the variations of a quota rise, stand and fit together.
fn has_members(alloc: Global, catalogue: &Catalogue, quota: &Quota) -> Result<bool, AllocError>
    ensures { TellsWhether result (HasMembers catalogue.now.lists quota.now) }
{
    let fit = items_fit(catalogue, alloc, quota)?;
    Ok(
        are_rising(&quota.items)
            && are_rising(&quota.variations)
            && items_stand(catalogue, quota)
            && variations_stand(catalogue, quota)
            && variations_fit(catalogue, quota)
            && fit,
    )
}

/// Whether the items and the variations of each quota rise, stand and fit together: a variation's item is listed, and of
/// an item that is sold by variations one is listed.
pub fn all_have_members<B: Book>(alloc: Global, book: &B) -> Result<bool, AllocError>
    ensures { TellsWhether result (AllHaveMembers (B.state book.now).lists.catalogue) }
{
    let catalogue = book.catalogue();
    let quotas = catalogue.quotas();
    for quota in quotas {
        if !has_members(alloc, catalogue, quota)? {
            return Ok(false);
        }
    }
    Ok(true)
}
