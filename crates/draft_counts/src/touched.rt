//! The quotas that a product is in, or that a voucher may block places of.

ghost use Rattle.std.specs.Prelude.{ℕ, OnOk};
ghost use Rattle.std.specs.Option.{option_copied};
ghost use Rattle.model_catalogue.specs.Member.{is_in};
ghost use Rattle.model_rows.specs.Conditions.{hits};
ghost use Rattle.model_rows.specs.Usage.{blocks_if};
ghost use Rattle.draft_counts.specs.Touched.{NoOther, Keeps};

use book_usage::Catalogue;
use model_catalogue::Product;
use model_rows::Voucher;
use std::alloc::{AllocError, Global};

/// Adds the ids of the quotas that a product is in.
pub fn touch_product(
    alloc: Global,
    catalogue: &Catalogue,
    product: Product,
    ids: &mut Vec<u64>,
) -> Result<(), AllocError>
    ensures more { OnOk result (NoOther ids.new.items catalogue.now.lists (λ q. is_in q product)) }
    ensures keeps { OnOk result (Keeps ids.old.items ids.new.items) }
{
    let found = catalogue.quotas_of(alloc, product)?;
    ids.extend_from_slice(&found)?;
    Ok(())
}

/// Adds the ids of the quotas of which a voucher may block places: the one that it names, or those that have its product.
pub fn touch_voucher(
    alloc: Global,
    catalogue: &Catalogue,
    voucher: Option<&Voucher>,
    ids: &mut Vec<u64>,
) -> Result<(), AllocError>
    ensures more { OnOk result ((at : ℕ) → NoOther ids.new.items catalogue.now.lists
        (λ q. blocks_if at q (option_copied voucher.entry))) }
    ensures keeps { OnOk result (Keeps ids.old.items ids.new.items) }
{
    match voucher {
        None => Ok(()),
        Some(voucher) => touch_target(alloc, catalogue, voucher, ids),
    }
}

// Adds the ids of the quotas that a voucher hits.
fn touch_target(
    alloc: Global,
    catalogue: &Catalogue,
    voucher: &Voucher,
    ids: &mut Vec<u64>,
) -> Result<(), AllocError>
    ensures more { OnOk result
        (NoOther ids.new.items catalogue.now.lists (λ q. hits q voucher.now)) }
    ensures keeps { OnOk result (Keeps ids.old.items ids.new.items) }
{
    match voucher.quota {
        Some(id) => Ok(ids.push(id)?),
        None => match voucher.item {
            None => Ok(()),
            Some(item) => {
                let product = Product {
                    item,
                    variation: voucher.variation,
                };
                touch_product(alloc, catalogue, product, ids)
            }
        },
    }
}
