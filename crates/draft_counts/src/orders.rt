//! What an order that counts otherwise than the one before it brings to each count of the quotas, and what it takes.

ghost use Rattle.std.specs.Prelude.{◌≡◌, ℕ, IfOk, OnOk, OnErr, count_by, Some};
ghost use Rattle.std.specs.Option.{option_copied};
ghost use Rattle.model_catalogue.specs.declared.rows.Quota.{Quota};
ghost use Rattle.model_catalogue.specs.Member.{is_in};
ghost use Rattle.model_rows.specs.declared.changes.Change.TheVariants.{PutOrder};
ghost use Rattle.model_rows.specs.Usage.{is_covered_by, blocks_if};
ghost use Rattle.draft_overlay.specs.Logs.{rows_of};
ghost use Rattle.draft_counts.specs.Tallied.{CountsChange};
ghost use Rattle.draft_counts.specs.Touched.{NoOther, NoneElse, Keeps};
ghost use Rattle.draft_counts.specs.CountDelta.{count_here, count_covered, count_released, is_free_in, order_counts, keeps_status, AreTurned};

use crate::checkins::is_free_in;
use crate::count_base::CountBase;
use crate::share::{Share, Shares, count_each};
use crate::shift::{Spot, voucher_of};
use crate::touched::{touch_product, touch_voucher};
use base_values::Moment;
use book_tally::{Amount, Tally};
use book_usage::rules::{blocks, is_in_force, is_paid, is_pending};
use book_usage::{Book, Catalogue, LookUps};
use draft_overlay::{Overlay, Purchase, count_if};
use model_catalogue::Quota;
use model_rows::{Change, Order, Usage};
use std::alloc::{AllocError, Global};

// The places of an order that takes the place of another one, or of none.
#[derive(Drop)]
struct OrderTurn<'o> {
    at: Moment,
    come: &'o Order,
    gone: Option<&'o Order>,
    spots: Vec<Spot<'o>>,
}

impl<'o> Share for OrderTurn<'o> {
    ghost come = { λ t q. order_counts (Some t.come.now) (option_copied t.gone)
        (count_here q t.spots.items) (count_covered t.at q t.spots.items)
        (count_released q t.spots.items) };

    ghost gone = { λ t q. order_counts (option_copied t.gone) (Some t.come.now)
        (count_here q t.spots.items) (count_covered t.at q t.spots.items)
        (count_released q t.spots.items) };

    fn shares(&self, quota: &Quota) -> Shares {
        let here = count_here(quota, &self.spots);
        let covered = count_covered(self.at, quota, &self.spots);
        let released = count_released(quota, &self.spots);
        Shares {
            come: order_counts(Some(self.come), self.gone, here, covered, released),
            gone: order_counts(self.gone, Some(self.come), here, covered, released),
        }
    }

    fn touch(
        &self,
        alloc: Global,
        catalogue: &Catalogue,
        ids: &mut Vec<u64>,
    ) -> Result<(), AllocError> {
        touch_spots(alloc, catalogue, &self.spots, ids)?;
        Ok(())
    }
}

// The usage of some places of an order, by its status, and of some that are released, where it is paid; and of those that vouchers block
// again, where the other order was in force and this one isn't.
fn order_counts(
    order: Option<&Order>,
    other: Option<&Order>,
    here: u64,
    covered: u64,
    released: u64,
) -> Usage
    ensures { result ≡ order_counts (option_copied order.entry) (option_copied other.entry)
        here covered released }
{
    Usage {
        paid: count_if(is_paid(order), here),
        pending: count_if(is_pending(order), here),
        blocked: count_if(is_in_force(other) && !is_in_force(order), covered),
        exited: count_if(is_paid(order), released),
        ..Usage::none()
    }
}

// Adds the ids of the quotas that these places are for, and of which their vouchers may block places.
fn touch_spots(
    alloc: Global,
    catalogue: &Catalogue,
    spots: &[Spot<'_>],
    ids: &mut Vec<u64>,
) -> Result<(), AllocError>
    ensures here { OnOk result
        (NoneElse 0 ids.new.items catalogue.now.lists (λ q. count_here q spots.now)) }
    ensures covered { OnOk result ((at : ℕ)
        → NoneElse 0 ids.new.items catalogue.now.lists (λ q. count_covered at q spots.now)) }
{
    for spot in spots {
        touch_both(alloc, catalogue, spot, ids)?;
    }
    Ok(())
}

// Adds the ids of the quotas that a place is for, and of which its voucher may block places.
fn touch_both(
    alloc: Global,
    catalogue: &Catalogue,
    spot: &Spot<'_>,
    ids: &mut Vec<u64>,
) -> Result<(), AllocError>
    ensures here { OnOk result
        (NoOther ids.new.items catalogue.now.lists (λ q. is_in q spot.now.product)) }
    ensures covered { OnOk result ((at : ℕ) → NoOther ids.new.items catalogue.now.lists
        (λ q. blocks_if at q (option_copied spot.now.voucher))) }
    ensures keeps { OnOk result (Keeps ids.old.items ids.new.items) }
{
    touch_product(alloc, catalogue, spot.product, ids)?;
    touch_voucher(alloc, catalogue, spot.voucher, ids)?;
    Ok(())
}

// How many of the places are for products of the quota.
fn count_here(quota: &Quota, spots: &[Spot<'_>]) -> u64
    ensures { result ≡ count_here quota.now spots.now }
{
    spots.iter().filter(|s| quota.has(s.product)).count() as u64
}

// How many of them have vouchers that block places of the quota.
fn count_covered(at: Moment, quota: &Quota, spots: &[Spot<'_>]) -> u64
    ensures { result ≡ count_covered at quota.now spots.now }
{
    spots
        .iter()
        .filter(|s| blocks(at, quota, s.voucher))
        .count() as u64
}

// How many of them are for products of the quota, and released there.
fn count_released(quota: &Quota, spots: &[Spot<'_>]) -> u64
    ensures { result ≡ count_released quota.now spots.now }
{
    spots
        .iter()
        .filter(|s| is_free_in(quota, s.product, s.out))
        .count() as u64
}

// The place of a purchase, with its voucher.
fn spot_of<'o, B: Book>(overlay: &'o Overlay<'_, B>, purchase: &Purchase) -> Spot<'o>
    ensures product { result.product ≡ purchase.now.product }
    ensures out { result.out ≡ purchase.now.out }
    ensures covered { (q : Quota) → (at : ℕ) → blocks_if at q (option_copied result.voucher)
        ≡ is_covered_by (rows_of overlay.now) at q purchase.now.voucher }
{
    Spot {
        product: purchase.product,
        voucher: voucher_of(overlay, purchase.voucher),
        out: purchase.out,
    }
}

// The places of these purchases, with their vouchers.
fn spots_of<'o, B: Book>(
    overlay: &'o Overlay<'_, B>,
    alloc: Global,
    purchases: &[Purchase],
) -> Result<Vec<Spot<'o>>, AllocError>
    ensures here { IfOk result (λ spots. (q : Quota) → count_here q spots.items
        ≡ count_by (λ t. is_in q t.product) purchases.now) }
    ensures covered { IfOk result (λ spots. (q : Quota) → (at : ℕ)
        → count_covered at q spots.items
        ≡ count_by (λ t. is_covered_by (rows_of overlay.now) at q t.voucher) purchases.now) }
    ensures released { IfOk result (λ spots. (q : Quota) → count_released q spots.items
        ≡ count_by (λ t. is_free_in q t.product t.out) purchases.now) }
{
    let mut spots = Vec::new(alloc);
    for purchase in purchases {
        spots.push(spot_of(overlay, purchase))?;
    }
    Ok(spots)
}

/// Counts the positions of an order that stands in the place of its id, where it counts otherwise than the one before it.
pub fn with_order<B: Book>(
    count_base: &CountBase<'_, '_, B>,
    counts: &mut Tally<Usage>,
    row: &Order,
    purchases: &[Purchase],
) -> Result<(), AllocError>
    requires turned { AreTurned (PutOrder row.now)
        (rows_of count_base.now.overlay.now) purchases.now }
    ensures more { OnOk result (CountsChange (PutOrder row.now) count_base.now.overlay.now
        count_base.now.at count_base.now.catalogue.now counts.old counts.new) }
    ensures err { OnErr result (counts.new ≡ counts.old) }
{
    let gone = count_base.overlay.order(row.id);
    if keeps_status(row, gone) {
        return Ok(());
    }
    if purchases.is_empty() {
        return Ok(());
    }
    let spots = spots_of(count_base.overlay, count_base.alloc, purchases)?;
    count_each(
        counts,
        count_base.alloc,
        count_base.catalogue,
        &OrderTurn {
            at: count_base.at,
            come: row,
            gone,
            spots,
        },
    )
}

// Whether an order stands there that counts the same.
fn keeps_status(row: &Order, gone: Option<&Order>) -> bool
    ensures { result ≡ keeps_status row.now (option_copied gone.entry) }
{
    match gone {
        None => false,
        Some(old) => {
            row.status.is_paid() == old.status.is_paid()
                && row.status.is_pending() == old.status.is_pending()
        }
    }
}

/// The purchases of an order that a change puts so that it counts otherwise.
pub fn turned_purchases<B: Book>(
    overlay: &Overlay<'_, B>,
    alloc: Global,
    change: &Change,
) -> Result<Vec<Purchase>, AllocError>
    ensures { IfOk result (λ list. AreTurned change.now (rows_of overlay.now) list.items) }
{
    match change {
        Change::PutOrder(row) => order_purchases(overlay, alloc, row),
        _ => Ok(Vec::new(alloc)),
    }
}

// The purchases of an order, where it counts otherwise than the one before it.
fn order_purchases<B: Book>(
    overlay: &Overlay<'_, B>,
    alloc: Global,
    row: &Order,
) -> Result<Vec<Purchase>, AllocError>
    ensures { IfOk result (λ list. AreTurned (PutOrder row.now) (rows_of overlay.now) list.items) }
{
    if keeps_status(row, overlay.order(row.id)) {
        return Ok(Vec::new(alloc));
    }
    overlay.purchases_of(alloc, row.id)
}
