//! The tests of what vouchers name.

ghost use Rattle.std.specs.Prelude.{◌≡◌, ◌↔◌, IsTrue};
ghost use Rattle.model_invariant.specs.Targets.{HasTarget, AllHaveTargets};
ghost use Rattle.model_invariant.specs.Varied.{is_plain, is_whole, AllWhole};

use book_usage::{Book, Catalogue};
use decide_catalogue::targets::{has_one_target, item_stands, quota_stands, variation_stands};
use model_rows::Voucher;

// Whether what it names stands, and is one thing.
fn has_target(catalogue: &Catalogue, row: &Voucher) -> bool
    ensures { IsTrue result ↔ HasTarget catalogue.now.lists row.now }
{
    item_stands(catalogue, row.item)
        && variation_stands(catalogue, row.item, row.variation)
        && quota_stands(catalogue, row.quota)
        && has_one_target(row)
}

/// Whether what each voucher names stands, and is one thing: a quota, an item, or an item and a variation of it.
pub fn all_have_targets<B: Book>(book: &B) -> bool
    ensures { IsTrue result ↔ AllHaveTargets (B.state book.now).lists }
{
    let catalogue = book.catalogue();
    let vouchers = book.vouchers();
    for row in vouchers {
        if !has_target(catalogue, row) {
            return false;
        }
    }
    true
}

// Whether the item that is named stands, and isn't sold by variation.
fn is_plain(catalogue: &Catalogue, item: Option<u64>) -> bool
    ensures { result ≡ is_plain catalogue.now.lists.items item }
{
    let Some(id) = item else {
        return false;
    };
    match catalogue.item(id) {
        None => false,
        Some(item) => !item.varied,
    }
}

// Whether a voucher that blocks names a quota, or a variation, or an item that isn't sold by variation.
fn is_whole(catalogue: &Catalogue, row: &Voucher) -> bool
    ensures { result ≡ is_whole catalogue.now.lists.items row.now }
{
    !row.block_quota
        || row.quota.is_some()
        || row.variation.is_some()
        || is_plain(catalogue, row.item)
}

/// Whether each voucher that blocks names a quota, or a variation, or an item that isn't sold by variation.
pub fn all_whole<B: Book>(book: &B) -> bool
    ensures { IsTrue result ↔ AllWhole (B.state book.now).lists }
{
    let catalogue = book.catalogue();
    book.vouchers().iter().all(|row| is_whole(catalogue, row))
}
