//! What a change of one row brings to each count of the quotas, and what it takes.

ghost use Rattle.std.specs.Prelude.{◌≡◌, ◌-◌, ◌&&◌, ℕ, IfOk, OnOk, OnErr, length, count_by, false, true, Some};
ghost use Rattle.std.specs.Option.{option_copied};
ghost use Rattle.base_tables.specs.Tables.{sum_at};
ghost use Rattle.model_catalogue.specs.declared.rows.Quota.{Quota};
ghost use Rattle.model_catalogue.specs.Member.{is_in};
ghost use Rattle.model_rows.specs.declared.changes.Change.TheVariants.{PutPosition};
ghost use Rattle.model_rows.specs.Change.{after_change};
ghost use Rattle.model_rows.specs.Asked.{held_in};
ghost use Rattle.model_rows.specs.Lists.{order_at};
ghost use Rattle.model_rows.specs.Usage.{redeemed, is_covered_by, blocks_if};
ghost use Rattle.draft_overlay.specs.Logs.{rows_of, IsSale};
ghost use Rattle.book_usage.specs.Shares.{cart_share, waiting_share};
ghost use Rattle.book_tally.specs.Amounts.{nothing};
ghost use Rattle.draft_counts.specs.Counts.{IsMore};
ghost use Rattle.draft_counts.specs.Tallied.{CountsChange};
ghost use Rattle.draft_counts.specs.Touched.{NoOther, NoneElse, Keeps};
ghost use Rattle.draft_counts.specs.CountDelta.{once, spot_share, spot_counts, usage_of_places, cart_come, cart_gone, waiting_come, waiting_gone, sold_as, left_of, voucher_counts, voucher_come, voucher_gone, AreTurned};

use crate::checkins::with_checkin;
use crate::count_base::CountBase;
use crate::orders::with_order;
use crate::share::{Share, Shares, count_each};
use crate::touched::{touch_product, touch_voucher};
use base_values::Moment;
use book_tally::{Amount, Tally};
use book_usage::rules::{self, blocks, is_in_force, is_paid, is_pending};
use book_usage::{Book, Catalogue, Exits, LookUps};
use draft_overlay::{Overlay, Purchase, count_if};
use model_catalogue::{Product, Quota};
use model_rows::{CartPos, Change, Order, OrderPos, Usage, Voucher, Waiting};
use std::alloc::{AllocError, Global};

/// Adds what a change brings to the quotas and takes from them to the counts. Where there is no memory for it, they are as
/// they were.
#[tactic(auto, unfolding(book_usage::specs::Shares::cart_share, book_usage::specs::Shares::waiting_share))]
pub fn count_change<B: Book>(
    count_base: &CountBase<'_, '_, B>,
    counts: &mut Tally<Usage>,
    change: &Change,
    purchases: &[Purchase],
) -> Result<(), AllocError>
    requires sale { IsSale change.now (rows_of count_base.now.overlay.now) }
    requires turned { AreTurned change.now (rows_of count_base.now.overlay.now) purchases.now }
    ensures more { OnOk result (CountsChange change.now count_base.now.overlay.now count_base.now.at
        count_base.now.catalogue.now counts.old counts.new) }
    ensures err { OnErr result (counts.new ≡ counts.old) }
{
    match change {
        Change::PutVoucher(row) => with_voucher(count_base, counts, row.id, Some(row)),
        Change::DropVoucher(id) => with_voucher(count_base, counts, *id, None),
        Change::PutCart(row) => with_cart(count_base, counts, row.id, Some(row)),
        Change::DropCart(id) => with_cart(count_base, counts, *id, None),
        Change::PutWaiting(row) => with_waiting(count_base, counts, row.id, Some(row)),
        Change::DropWaiting(id) => with_waiting(count_base, counts, *id, None),
        Change::PutOrder(row) => with_order(count_base, counts, row, purchases),
        Change::PutPosition(row) => with_position(count_base, counts, row),
        Change::PutCheckin(row) => with_checkin(count_base, counts, row),
        _ => Ok(()),
    }
}

/// A place for a product, which counts in its quotas but where the voucher blocks places. Its ticket may have gone out.
#[derive(Drop)]
pub struct Spot<'s> {
    pub product: Product,
    pub voucher: Option<&'s Voucher>,
    pub out: bool,
}

impl<'s> Spot<'s> {
    // Whether it counts in the quota.
    fn counts(&self, at: Moment, quota: &Quota) -> u64
        ensures { result
            ≡ spot_share at quota.now self.now.product (option_copied self.now.voucher) }
    {
        u64::from(quota.has(self.product) && !blocks(at, quota, self.voucher))
    }
}

// A place that comes, and one that goes: in carts, or for which an entry waits.
#[derive(Drop)]
struct Spots<'s> {
    at: Moment,
    waits: bool,
    come: Option<Spot<'s>>,
    gone: Option<Spot<'s>>,
}

impl<'s> Share for Spots<'s> {
    ghost come = { λ s q. usage_of_places s.waits (spot_counts s.at q s.come) };

    ghost gone = { λ s q. usage_of_places s.waits (spot_counts s.at q s.gone) };

    fn shares(&self, quota: &Quota) -> Shares {
        Shares {
            come: usage_of_places(self.waits, spot_counts(self.at, quota, &self.come)),
            gone: usage_of_places(self.waits, spot_counts(self.at, quota, &self.gone)),
        }
    }

    fn touch(
        &self,
        alloc: Global,
        catalogue: &Catalogue,
        ids: &mut Vec<u64>,
    ) -> Result<(), AllocError> {
        touch_spot(alloc, catalogue, &self.come, ids)?;
        touch_spot(alloc, catalogue, &self.gone, ids)?;
        Ok(())
    }
}

// The usage of some places in carts, or for which entries wait.
fn usage_of_places(waits: bool, count: u64) -> Usage
    ensures { result ≡ usage_of_places waits count }
{
    if waits {
        Usage {
            waiting: count,
            ..Usage::none()
        }
    } else {
        Usage {
            carts: count,
            ..Usage::none()
        }
    }
}

// Adds the ids of the quotas that a place may count in, if there is one.
fn touch_spot(
    alloc: Global,
    catalogue: &Catalogue,
    spot: &Option<Spot<'_>>,
    ids: &mut Vec<u64>,
) -> Result<(), AllocError>
    ensures more { OnOk result ((at : ℕ)
        → NoneElse 0 ids.new.items catalogue.now.lists (λ q. spot_counts at q spot.now)) }
    ensures keeps { OnOk result (Keeps ids.old.items ids.new.items) }
{
    match spot {
        None => Ok(()),
        Some(spot) => touch_product(alloc, catalogue, spot.product, ids),
    }
}

// How much a place counts in the quota, if there is one.
fn spot_counts(at: Moment, quota: &Quota, spot: &Option<Spot<'_>>) -> u64
    ensures { result ≡ spot_counts at quota.now spot.now }
{
    match spot {
        None => 0,
        Some(spot) => spot.counts(at, quota),
    }
}

/// The voucher that a row names, if it stands.
pub fn voucher_of<'o, B: Book>(
    overlay: &'o Overlay<'_, B>,
    voucher: Option<u64>,
) -> Option<&'o Voucher>
    ensures { (q : Quota) → (at : ℕ)
        → blocks_if at q (option_copied result) ≡ is_covered_by (rows_of overlay.now) at q voucher }
{
    match voucher {
        None => None,
        Some(id) => overlay.voucher(id),
    }
}

// The place that a cart position takes, while it lives.
#[tactic(auto, unfolding(book_usage::specs::Shares::cart_share))]
fn cart_spot<'o, B: Book>(
    overlay: &'o Overlay<'_, B>,
    at: Moment,
    cart: Option<&CartPos>,
) -> Option<Spot<'o>>
    ensures { (q : Quota) → spot_counts at q result
        ≡ cart_share (rows_of overlay.now) at q (option_copied cart.entry) }
{
    match cart {
        None => None,
        Some(cart) => {
            if cart.is_live(at) {
                Some(Spot {
                    product: cart.product,
                    voucher: voucher_of(overlay, cart.voucher),
                    out: false,
                })
            } else {
                None
            }
        }
    }
}

// Counts a cart position, or none, in the place of the id.
fn with_cart<B: Book>(
    count_base: &CountBase<'_, '_, B>,
    counts: &mut Tally<Usage>,
    id: u64,
    come: Option<&CartPos>,
) -> Result<(), AllocError>
    ensures more { OnOk result (IsMore (cart_come
        (rows_of count_base.now.overlay.now) count_base.now.at (option_copied come.entry))
        (cart_gone (rows_of count_base.now.overlay.now) count_base.now.at id)
        count_base.now.catalogue.now.lists.quotas counts.old counts.new) }
    ensures err { OnErr result (counts.new ≡ counts.old) }
{
    let come = cart_spot(count_base.overlay, count_base.at, come);
    let gone = cart_spot(
        count_base.overlay,
        count_base.at,
        count_base.overlay.cart(id),
    );
    let waits = false;
    count_each(
        counts,
        count_base.alloc,
        count_base.catalogue,
        &Spots {
            at: count_base.at,
            waits,
            come,
            gone,
        },
    )
}

// The place for which a waiting entry waits, where it has no voucher.
#[tactic(auto, unfolding(book_usage::specs::Shares::waiting_share))]
fn waiting_spot<'s>(at: Moment, entry: Option<&Waiting>) -> Option<Spot<'s>>
    ensures { (q : Quota) → spot_counts at q result ≡ waiting_share q (option_copied entry.entry) }
{
    match entry {
        None => None,
        Some(entry) => match entry.voucher {
            Some(_) => None,
            None => Some(Spot {
                product: entry.product,
                voucher: None,
                out: false,
            }),
        },
    }
}

// Counts a waiting entry, or none, in the place of the id.
fn with_waiting<B: Book>(
    count_base: &CountBase<'_, '_, B>,
    counts: &mut Tally<Usage>,
    id: u64,
    come: Option<&Waiting>,
) -> Result<(), AllocError>
    ensures more { OnOk result (IsMore
        (waiting_come (option_copied come.entry))
        (waiting_gone (rows_of count_base.now.overlay.now) id)
        count_base.now.catalogue.now.lists.quotas counts.old counts.new) }
    ensures err { OnErr result (counts.new ≡ counts.old) }
{
    let come = waiting_spot(count_base.at, come);
    let gone = waiting_spot(count_base.at, count_base.overlay.entry(id));
    let waits = true;
    count_each(
        counts,
        count_base.alloc,
        count_base.catalogue,
        &Spots {
            at: count_base.at,
            waits,
            come,
            gone,
        },
    )
}

// A place that is sold, as paid or as pending, whose ticket may have gone out; and the one that its voucher may have blocked.
#[derive(Drop)]
struct Sale<'s> {
    at: Moment,
    paid: bool,
    pending: bool,
    out: bool,
    product: Product,
    voucher: Option<&'s Voucher>,
}

impl<'s> Share for Sale<'s> {
    ghost come = { λ s q. sold_as s.paid s.pending (is_in q s.product)
        (q.release_after_exit && s.out) };

    ghost gone = { λ s q. record
        nothing { blocked = once (blocks_if s.at q (option_copied s.voucher)) } };

    fn shares(&self, quota: &Quota) -> Shares {
        let here = quota.has(self.product);
        Shares {
            come: sold_as(
                self.paid,
                self.pending,
                here,
                quota.release_after_exit && self.out,
            ),
            gone: Usage {
                blocked: u64::from(blocks(self.at, quota, self.voucher)),
                ..Usage::none()
            },
        }
    }

    fn touch(
        &self,
        alloc: Global,
        catalogue: &Catalogue,
        ids: &mut Vec<u64>,
    ) -> Result<(), AllocError> {
        touch_product(alloc, catalogue, self.product, ids)?;
        touch_voucher(alloc, catalogue, self.voucher, ids)?;
        Ok(())
    }
}

// A place that is sold counts once, and once more as released, where it is paid.
fn sold_as(paid: bool, pending: bool, here: bool, released: bool) -> Usage
    ensures { result ≡ sold_as paid pending here released }
{
    Usage {
        paid: u64::from(paid && here),
        pending: u64::from(pending && here),
        exited: u64::from(paid && (here && released)),
        ..Usage::none()
    }
}

// Counts a new order position, where its order is in force.
fn with_position<B: Book>(
    count_base: &CountBase<'_, '_, B>,
    counts: &mut Tally<Usage>,
    row: &OrderPos,
) -> Result<(), AllocError>
    ensures more { OnOk result (CountsChange (PutPosition row.now) count_base.now.overlay.now
        count_base.now.at count_base.now.catalogue.now counts.old counts.new) }
    ensures err { OnErr result (counts.new ≡ counts.old) }
{
    let order = count_base.overlay.order(row.order);
    if !is_in_force(order) {
        return Ok(());
    }
    let voucher = voucher_of(count_base.overlay, row.voucher);
    count_each(
        counts,
        count_base.alloc,
        count_base.catalogue,
        &Sale {
            at: count_base.at,
            paid: is_paid(order),
            pending: is_pending(order),
            out: count_base.overlay.is_out(row.id),
            product: row.product,
            voucher,
        },
    )
}

// A voucher that comes in the place of an id, and one that goes.
#[derive(Drop)]
struct VoucherTurn<'o, 'a, B: Book> {
    overlay: &'o Overlay<'a, B>,
    at: Moment,
    id: u64,
    redeemed: u64,
    come: Option<&'o Voucher>,
    gone: Option<&'o Voucher>,
}

impl<'o, 'a, B: Book> Share for VoucherTurn<'o, 'a, B> {
    ghost come = { λ t q. voucher_counts (blocks_if t.at q (option_copied t.come))
        (blocks_if t.at q (option_copied t.gone)) (left_of t.redeemed (option_copied t.come))
        (held_in t.at q t.id (rows_of t.overlay.now)) };

    ghost gone = { λ t q. voucher_counts (blocks_if t.at q (option_copied t.gone))
        (blocks_if t.at q (option_copied t.come)) (left_of t.redeemed (option_copied t.gone))
        (held_in t.at q t.id (rows_of t.overlay.now)) };

    fn shares(&self, quota: &Quota) -> Shares {
        let comes = blocks(self.at, quota, self.come);
        let goes = blocks(self.at, quota, self.gone);
        let held = if comes == goes {
            0
        } else {
            self.overlay.held_in(self.id, quota, self.at)
        };
        Shares {
            come: voucher_counts(comes, goes, left_of(self.redeemed, self.come), held),
            gone: voucher_counts(goes, comes, left_of(self.redeemed, self.gone), held),
        }
    }

    fn touch(
        &self,
        alloc: Global,
        catalogue: &Catalogue,
        ids: &mut Vec<u64>,
    ) -> Result<(), AllocError> {
        touch_voucher(alloc, catalogue, self.come, ids)?;
        touch_voucher(alloc, catalogue, self.gone, ids)?;
        Ok(())
    }
}

// What counts with a voucher where another one goes: what it has left, where it blocks places,
// and else the cart positions that the other one covered.
fn voucher_counts(blocks: bool, other: bool, left: u64, held: u64) -> Usage
    ensures { result ≡ voucher_counts blocks other left held }
{
    Usage {
        blocked: count_if(blocks, left),
        carts: count_if(other && !blocks, held),
        ..Usage::none()
    }
}

// How many of its uses a voucher has left.
fn left_of(redeemed: u64, voucher: Option<&Voucher>) -> u64
    ensures { result ≡ left_of redeemed (option_copied voucher.entry) }
{
    match voucher {
        None => 0,
        Some(voucher) => rules::left_of(voucher, redeemed),
    }
}

// Whether the voucher may block places of a quota now.
fn may_block(at: Moment, voucher: Option<&Voucher>) -> bool
    ensures { result ≡ false → (q : Quota) → blocks_if at q (option_copied voucher.entry) ≡ false }
{
    match voucher {
        None => false,
        Some(voucher) => voucher.block_quota && voucher.is_live(at),
    }
}

// Counts a voucher, or none, in the place of the id.
fn with_voucher<B: Book>(
    count_base: &CountBase<'_, '_, B>,
    counts: &mut Tally<Usage>,
    id: u64,
    come: Option<&Voucher>,
) -> Result<(), AllocError>
    ensures more { OnOk result (IsMore (voucher_come
        (rows_of count_base.now.overlay.now) count_base.now.at id (option_copied come.entry))
        (voucher_gone (rows_of count_base.now.overlay.now) count_base.now.at id
        (option_copied come.entry)) count_base.now.catalogue.now.lists.quotas counts.old
        counts.new) }
    ensures err { OnErr result (counts.new ≡ counts.old) }
{
    let gone = count_base.overlay.voucher(id);
    if !may_block(count_base.at, come) && !may_block(count_base.at, gone) {
        return Ok(());
    }
    let redeemed = count_base.overlay.redeemed(id);
    count_each(
        counts,
        count_base.alloc,
        count_base.catalogue,
        &VoucherTurn {
            overlay: count_base.overlay,
            at: count_base.at,
            id,
            redeemed,
            come,
            gone,
        },
    )
}
