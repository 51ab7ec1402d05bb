//! The places of quotas that are left but for those who wait.

ghost use Rattle.std.specs.Prelude.{◌≡◌, Some, None, IfOk, OnOk, length, ◌&&◌};
ghost use Rattle.model_catalogue.specs.CatalogueLists.{quota_at};
ghost use Rattle.model_catalogue.specs.Member.{is_in};
ghost use Rattle.draft_changes.specs.DraftState.{now};
ghost use Rattle.decide_waiting.specs.Places.{used_unwaited, is_full, first_closed, is_open};
ghost use Rattle.decide_waiting.specs.Steps.{is_full_at, places_left, has_none_left, first_without_place, one_less, after_one, all_after_one, all_places_left};

use book_usage::Book;
use draft_changes::Draft;
use model_catalogue::{Product, Quota};
use std::alloc::{AllocError, Global};

// What is used of a quota that stands, without the entries that wait.
fn used_unwaited<B: Book>(draft: &Draft<'_, B>, quota: &Quota) -> u128
    requires waiting { (now draft.now).lists.waiting ≡ draft.now.log.base.waiting }
    requires stands { quota_at quota.now.id (now draft.now).lists.catalogue ≡ Some quota.now }
    ensures { result ≡ used_unwaited (now draft.now) quota.now }
{
    let waits = u128::from(draft.waiting_for(quota));
    draft.used(quota).saturating_sub(waits)
}

// Whether no place is left of a quota that stands but for those who wait.
fn is_full<B: Book>(draft: &Draft<'_, B>, quota: &Quota) -> bool
    requires waiting { (now draft.now).lists.waiting ≡ draft.now.log.base.waiting }
    requires stands { quota_at quota.now.id (now draft.now).lists.catalogue ≡ Some quota.now }
    ensures { result ≡ is_full (now draft.now) quota.now }
{
    match quota.size {
        None => false,
        Some(size) => u128::from(size.get()) <= used_unwaited(draft, quota),
    }
}

// Whether the quota of an id is full.
fn is_full_at<B: Book>(draft: &Draft<'_, B>, id: u64) -> bool
    requires waiting { (now draft.now).lists.waiting ≡ draft.now.log.base.waiting }
    ensures { result ≡ is_full_at (now draft.now) id }
{
    match draft.rows().catalogue().quota(id) {
        None => false,
        Some(quota) => is_full(draft, quota),
    }
}

/// The least quota of the product that has no place left but for those who wait, in a draft that has changed no
/// waiting entry.
pub fn first_closed<B: Book>(draft: &Draft<'_, B>, product: Product) -> Option<u64>
    requires waiting { (now draft.now).lists.waiting ≡ draft.now.log.base.waiting }
    ensures { result ≡ first_closed (now draft.now) product }
{
    let catalogue = draft.rows().catalogue();
    catalogue.recall_invariant();
    let quotas = catalogue.quotas_with(product);
    for place in 0..quotas.len() {
        let id = quotas.at(place);
        if is_full_at(draft, id) {
            return Some(id);
        }
    }
    None
}

/// Whether the product can be had without waiting: it is in a quota, and each of its quotas has a place left but for
/// those who wait. In a draft that has changed no waiting entry.
pub fn is_open<B: Book>(draft: &Draft<'_, B>, product: Product) -> bool
    requires waiting { (now draft.now).lists.waiting ≡ draft.now.log.base.waiting }
    ensures { result ≡ is_open (now draft.now) product }
{
    draft.rows().catalogue().is_sold(product) && first_closed(draft, product).is_none()
}

// How many places a quota that stands has left but for those who wait; none where it has no size.
fn left_of<B: Book>(draft: &Draft<'_, B>, quota: &Quota) -> Option<u128>
    requires waiting { (now draft.now).lists.waiting ≡ draft.now.log.base.waiting }
    requires stands { quota_at quota.now.id (now draft.now).lists.catalogue ≡ Some quota.now }
    ensures { result ≡ places_left (now draft.now) quota.now }
{
    match quota.size {
        None => None,
        Some(size) => Some(u128::from(size.get()).saturating_sub(used_unwaited(draft, quota))),
    }
}

/// How many places each quota has left but for those who wait, in their order, in a draft that has changed no
/// waiting entry.
pub fn places_left<B: Book>(
    draft: &Draft<'_, B>,
    alloc: Global,
) -> Result<Vec<Option<u128>>, AllocError>
    requires waiting { (now draft.now).lists.waiting ≡ draft.now.log.base.waiting }
    ensures { IfOk result (λ left. left.items ≡ all_places_left (now draft.now)) }
{
    let catalogue = draft.rows().catalogue();
    catalogue.recall_invariant();
    let quotas = catalogue.quotas();
    let mut left = Vec::new(alloc);
    for quota in quotas {
        left.push(left_of(draft, quota))?;
    }
    Ok(left)
}

// Whether there is no place left.
fn has_none_left(left: Option<u128>) -> bool
    ensures { result ≡ has_none_left left }
{
    matches!(left, Some(0))
}

// Whether it is a quota of the product, and has no place left.
fn is_without_place(quota: &Quota, left: Option<u128>, product: Product) -> bool
    ensures { result ≡ (is_in quota.now product && has_none_left left) }
{
    quota.has(product) && has_none_left(left)
}

/// The least quota of the product that has no place left, by the places that are left of each.
pub fn first_without_place(quotas: &[Quota], left: &[Option<u128>], product: Product) -> Option<u64>
    requires { length left.now ≡ length quotas.now }
    ensures { result ≡ first_without_place product left.now quotas.now }
{
    for i in 0..quotas.len() {
        let quota = &quotas[i];
        if is_without_place(quota, left[i], product) {
            return Some(quota.id);
        }
    }
    None
}

// What is left, with a place less.
fn one_less(left: Option<u128>) -> Option<u128>
    ensures { result ≡ one_less left }
{
    left.map(|places| places.saturating_sub(1))
}

// What is left of a quota where one place is taken for the product.
fn after_one(quota: &Quota, left: Option<u128>, product: Product) -> Option<u128>
    ensures { result ≡ after_one product quota.now left }
{
    if quota.has(product) {
        one_less(left)
    } else {
        left
    }
}

/// The places that are left of each quota where one is taken for the product.
pub fn all_after_one(
    alloc: Global,
    quotas: &[Quota],
    left: &[Option<u128>],
    product: Product,
) -> Result<Vec<Option<u128>>, AllocError>
    requires { length left.now ≡ length quotas.now }
    ensures { IfOk result (λ rest. rest.items ≡ all_after_one product left.now quotas.now) }
{
    let mut rest = Vec::new(alloc);
    for i in 0..quotas.len() {
        rest.push(after_one(&quotas[i], left[i], product))?;
    }
    Ok(rest)
}
