//! The tests of a voucher's row.

ghost use Rattle.std.specs.Prelude.{◌≡◌};
ghost use Rattle.std.specs.Option.{option_copied};
ghost use Rattle.draft_changes.specs.DraftState.{now};
ghost use Rattle.decide_vouchers.specs.Checks.{value_fits, item_named_can_block, can_block, names_test, row_test};

use crate::codes::{has_anothers_code, is_reserved_if};
use base_values::{Cents, PriceMode, Text};
use book_usage::{Book, Catalogue};
use decide_catalogue::targets::{has_one_target, item_stands, quota_stands, variation_stands};
use draft_changes::Draft;
use model_catalogue::CatalogueRefusal;
use model_commands::VoucherRefusal;
use model_rows::Voucher;

// Whether no more than 100.00 percent are taken off.
fn value_fits(mode: PriceMode, value: Option<Cents>) -> bool
    ensures { result ≡ value_fits mode value }
{
    match (mode, value) {
        (PriceMode::Percent, Some(value)) => value.get() <= 10_000,
        _ => true,
    }
}

// Whether it names an item without variations, or one of an item's variations.
fn item_named_can_block(catalogue: &Catalogue, item: Option<u64>, variation: Option<u64>) -> bool
    ensures { result ≡ item_named_can_block catalogue.now.lists item variation }
{
    let Some(id) = item else {
        return false;
    };
    match catalogue.item(id) {
        None => false,
        Some(row) => variation.is_some() || !row.varied,
    }
}

// Whether what it names can be blocked.
fn can_block(catalogue: &Catalogue, row: &Voucher) -> bool
    ensures { result ≡ can_block catalogue.now.lists row.now }
{
    row.quota.is_some() || item_named_can_block(catalogue, row.item, row.variation)
}

// Whether what the voucher names stands and fits together.
// Refusals: 10 `NoItem`, 11 `NoVariation`, 13 `NoQuota`; 21 `BadTarget`; 22 `CannotBlock`.
#[tactic(auto, unfolding(crate::specs::Checks::names_test))]
fn test_names(catalogue: &Catalogue, row: &Voucher) -> Result<(), VoucherRefusal>
    ensures { result ≡ names_test row.now catalogue.now.lists }
{
    if !item_stands(catalogue, row.item) {
        return Err(VoucherRefusal::Catalogue(CatalogueRefusal::NoItem));
    }
    if !variation_stands(catalogue, row.item, row.variation) {
        return Err(VoucherRefusal::Catalogue(CatalogueRefusal::NoVariation));
    }
    if !quota_stands(catalogue, row.quota) {
        return Err(VoucherRefusal::Catalogue(CatalogueRefusal::NoQuota));
    }
    if !has_one_target(row) {
        return Err(VoucherRefusal::BadTarget);
    }
    if row.block_quota && !can_block(catalogue, row) {
        return Err(VoucherRefusal::CannotBlock);
    }
    Ok(())
}

/// Whether a voucher's row may be, before its uses and quotas are looked at.
/// `given` is the code that is given anew. Refusals, in this order: 2 `TooLarge`; 33 `ReservedCode`;
/// 20 `CodeTaken`; 10 `NoItem`, 11 `NoVariation`, 13 `NoQuota`; 21 `BadTarget`; 22 `CannotBlock`.
#[tactic(auto, unfolding(crate::specs::Checks::row_test))]
pub fn test_row<B: Book>(
    draft: &Draft<'_, B>,
    given: Option<&Text>,
    row: &Voucher,
) -> Result<(), VoucherRefusal>
    ensures { result ≡ row_test (option_copied given.entry) row.now (now draft.now).lists }
{
    if !value_fits(row.price_mode, row.value) {
        return Err(VoucherRefusal::TooLarge);
    }
    if is_reserved_if(given) {
        return Err(VoucherRefusal::ReservedCode);
    }
    if has_anothers_code(draft, row) {
        return Err(VoucherRefusal::CodeTaken);
    }
    test_names(draft.rows().catalogue(), row)
}
