//! The usages of those quotas alone that a change touches.

ghost use Rattle.std.specs.Prelude.{◌≡◌, ◌==◌, length, vec_capacity};
ghost use Rattle.base_tables.specs.Tables.{AreInOrder, has};
ghost use Rattle.model_catalogue.specs.Member.{is_in};
ghost use Rattle.model_rows.specs.Conditions.{hits, hits_by, hits_by_product};
ghost use Rattle.book_counts_over_time.specs.Beside.{Stays};
ghost use Rattle.book_counts_over_time.specs.UsageUpdates.{AreShifted, only};

use crate::shift::UsageUpdate;
use base_index::Found;
use base_tables::place_of;
use book_usage::Catalogue;
use model_catalogue::{Product, Quota};
use model_rows::{Usage, Voucher};

// Shifts the usage of the quota of an id, if it stands.
fn shift_one<S: UsageUpdate>(quotas: &[Quota], usages: &mut Vec<Usage>, id: u64, shift: &S)
    requires order { AreInOrder (λ q. q.id) quotas.now }
    requires same { length usages.old.items ≡ length quotas.now }
    requires ready { S.ready shift.now }
    ensures items { AreShifted (only (λ q. q.id == id) (S.shift shift.now))
        quotas.now usages.old usages.new }
    ensures room { vec_capacity usages.new ≡ vec_capacity usages.old }
    ensures same { length usages.new.items ≡ length usages.old.items }
{
    if let Ok(at) = place_of(quotas, id) {
        usages[at] = shift.shifted(&quotas[at], usages[at]);
    }
}

// Shifts the usages of the quotas of these ids.
fn shift_each<S: UsageUpdate>(quotas: &[Quota], usages: &mut Vec<Usage>, ids: &Found<'_>, shift: &S)
    requires order { AreInOrder (λ q. q.id) quotas.now }
    requires rising { AreInOrder (λ n. n) ids.now }
    requires same { length usages.old.items ≡ length quotas.now }
    requires ready { S.ready shift.now }
    ensures items { AreShifted (only (λ q. has q.id ids.now) (S.shift shift.now))
        quotas.now usages.old usages.new }
    ensures stays { Stays usages.old usages.new }
{
    for place in 0..ids.len() {
        shift_one(quotas, usages, ids.at(place), shift);
    }
}

/// Shifts the usages of the quotas that a product is in.
pub fn shift_product<S: UsageUpdate>(
    catalogue: &Catalogue,
    usages: &mut Vec<Usage>,
    product: Product,
    shift: &S,
)
    requires same { length usages.old.items ≡ length catalogue.now.lists.quotas }
    requires ready { S.ready shift.now }
    ensures items { AreShifted (only (λ q. is_in q product) (S.shift shift.now))
        catalogue.now.lists.quotas usages.old usages.new }
    ensures stays { Stays usages.old usages.new }
{
    catalogue.recall_invariant();
    let ids = catalogue.quotas_with(product);
    shift_each(catalogue.quotas(), usages, &ids, shift);
}

/// Shifts the usages of the quotas that a voucher hits: the one that it names, or else those that have its product.
pub fn shift_hit<S: UsageUpdate>(
    catalogue: &Catalogue,
    usages: &mut Vec<Usage>,
    voucher: &Voucher,
    shift: &S,
)
    requires same { length usages.old.items ≡ length catalogue.now.lists.quotas }
    requires ready { S.ready shift.now }
    ensures items { AreShifted (only (λ q. hits q voucher.now) (S.shift shift.now))
        catalogue.now.lists.quotas usages.old usages.new }
    ensures stays { Stays usages.old usages.new }
{
    match voucher.quota {
        Some(id) => {
            catalogue.recall_invariant();
            shift_one(catalogue.quotas(), usages, id, shift);
        }
        None => shift_target(catalogue, usages, voucher.item, voucher.variation, shift),
    }
}

// Shifts the usages of the quotas that a voucher's item and variation are in, where it has an item.
fn shift_target<S: UsageUpdate>(
    catalogue: &Catalogue,
    usages: &mut Vec<Usage>,
    item: Option<u64>,
    variation: Option<u64>,
    shift: &S,
)
    requires same { length usages.old.items ≡ length catalogue.now.lists.quotas }
    requires ready { S.ready shift.now }
    ensures items { AreShifted (only (λ q. hits_by_product q item variation) (S.shift shift.now))
        catalogue.now.lists.quotas usages.old usages.new }
    ensures stays { Stays usages.old usages.new }
{
    match item {
        None => {}
        Some(item) => shift_product(catalogue, usages, Product { item, variation }, shift),
    }
}
