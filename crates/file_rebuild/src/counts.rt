//! What uses each quota, and what is used of each voucher.

ghost use Rattle.std.specs.Prelude.{◌≡◌, ◌↔◌, map, IfOk, IfErr, OnOk, IsTrue};
ghost use Rattle.base_tables.specs.Tables.{AreInOrder};
ghost use Rattle.file_meaning.specs.Rows.{usage_in};
ghost use Rattle.model_damage.specs.Tests.{TellsWhether};
ghost use Rattle.file_rebuild.specs.Arranged.{beside, count_in, spending, usages_beside, uses_beside, AreExitsPaired, AreSpentsPaired, AreCountsPaired, CountsRise};
ghost use Rattle.file_rebuild.specs.declared.error.ArrangeError.TheVariants.{Order};

use crate::error::ArrangeError;
use crate::members::both;
use base_tables::rises;
use file_rows::{CountRow, ExitRow, OtherRows, SpentRow, VoucherRow};
use model_rows::{QuotaCount, Usage, VoucherCount};
use std::alloc::{AllocError, Global};

// The usage that a count and its exits tell.
fn usage_with(parts: (CountRow, ExitRow)) -> QuotaCount
    ensures { result ≡ usage_in parts.0 parts.1.exited }
{
    let (row, exits) = parts;
    QuotaCount {
        quota: row.quota,
        usage: Usage {
            paid: row.paid,
            pending: row.pending,
            blocked: row.blocked,
            carts: row.carts,
            waiting: row.waiting,
            exited: exits.exited,
        },
    }
}

// What uses each quota, in the order of the rows: each count with the exits in the same place.
fn used_in(
    alloc: Global,
    counts: Vec<CountRow>,
    exits: Vec<ExitRow>,
) -> Result<Vec<QuotaCount>, AllocError>
    ensures { IfOk result (λ all. all.items ≡ usages_beside counts.items exits.items) }
{
    counts
        .into_iter()
        .zip(exits.into_iter())
        .map(usage_with)
        .collect(alloc)
}

// The quotas of counts.
fn quotas_counted(alloc: Global, counts: &[CountRow]) -> Result<Vec<u64>, AllocError>
    ensures { IfOk result (λ ids. ids.items ≡ map (λ c. c.quota) counts.now) }
{
    counts.iter().map(|count| count.quota).collect(alloc)
}

// The quotas of exits.
fn quotas_out(alloc: Global, exits: &[ExitRow]) -> Result<Vec<u64>, AllocError>
    ensures { IfOk result (λ ids. ids.items ≡ map (λ c. c.quota) exits.now) }
{
    exits.iter().map(|exit| exit.quota).collect(alloc)
}

// Whether the quotas of counts rise.
fn counts_rise(alloc: Global, counts: &[CountRow]) -> Result<bool, AllocError>
    ensures { TellsWhether result (AreInOrder (λ c. c.quota) counts.now) }
{
    let ids = quotas_counted(alloc, counts)?;
    Ok(rises(ids.as_slice()))
}

// Whether the quotas of exits rise.
fn exits_rise(alloc: Global, exits: &[ExitRow]) -> Result<bool, AllocError>
    ensures { TellsWhether result (AreInOrder (λ c. c.quota) exits.now) }
{
    let ids = quotas_out(alloc, exits)?;
    Ok(rises(ids.as_slice()))
}

// Whether two lists of ids are the same.
fn are_same(a: &[u64], b: &[u64]) -> bool
    ensures { IsTrue result ↔ (a.now ≡ b.now) }
{
    a == b
}

// Whether each count has its exits, and there are no others.
fn exits_paired(alloc: Global, counts: &[CountRow], exits: &[ExitRow]) -> Result<bool, AllocError>
    ensures { TellsWhether result (AreExitsPaired counts.now exits.now) }
{
    let counted = quotas_counted(alloc, counts)?;
    let out = quotas_out(alloc, exits)?;
    Ok(are_same(counted.as_slice(), out.as_slice()))
}

// How often each voucher is redeemed, in the order of the rows; of what is spent nothing is told yet.
fn uses_in(alloc: Global, vouchers: &[VoucherRow]) -> Result<Vec<VoucherCount>, AllocError>
    ensures { IfOk result (λ all. all.items ≡ map (λ r. count_in r 0) vouchers.now) }
{
    vouchers
        .iter()
        .map(|row| VoucherCount {
            voucher: row.voucher.id,
            redeemed: row.redeemed,
            spent: 0,
        })
        .collect(alloc)
}

// The count, where so much is spent.
fn count_with(parts: (VoucherCount, SpentRow)) -> VoucherCount
    ensures { result ≡ spending parts.0 parts.1 }
{
    let (uses, spent) = parts;
    VoucherCount {
        voucher: uses.voucher,
        redeemed: uses.redeemed,
        spent: spent.spent,
    }
}

// Each count with what is spent in the same place.
fn with_spents(
    alloc: Global,
    uses: Vec<VoucherCount>,
    spents: Vec<SpentRow>,
) -> Result<Vec<VoucherCount>, AllocError>
    ensures { IfOk result (λ all. all.items ≡ beside spending uses.items spents.items) }
{
    uses.into_iter()
        .zip(spents.into_iter())
        .map(count_with)
        .collect(alloc)
}

// The counts of vouchers, in the order of the rows: each with what is spent in the same place.
fn redeemed_in(
    alloc: Global,
    vouchers: &[VoucherRow],
    spents: Vec<SpentRow>,
) -> Result<Vec<VoucherCount>, AllocError>
    ensures { IfOk result (λ all. all.items ≡ uses_beside vouchers.now spents.items) }
{
    let uses = uses_in(alloc, vouchers)?;
    with_spents(alloc, uses, spents)
}

// The ids of the vouchers.
fn vouchers_counted(alloc: Global, vouchers: &[VoucherRow]) -> Result<Vec<u64>, AllocError>
    ensures { IfOk result (λ ids. ids.items ≡ map (λ r. r.voucher.id) vouchers.now) }
{
    vouchers.iter().map(|row| row.voucher.id).collect(alloc)
}

// The vouchers of which it is told what is spent.
fn vouchers_spent(alloc: Global, spents: &[SpentRow]) -> Result<Vec<u64>, AllocError>
    ensures { IfOk result (λ ids. ids.items ≡ map (λ r. r.voucher_id) spents.now) }
{
    spents.iter().map(|row| row.voucher_id).collect(alloc)
}

// Whether of each voucher it is told what is spent, and of no other.
fn spents_paired(
    alloc: Global,
    vouchers: &[VoucherRow],
    spents: &[SpentRow],
) -> Result<bool, AllocError>
    ensures { TellsWhether result (AreSpentsPaired vouchers.now spents.now) }
{
    let ids = vouchers_counted(alloc, vouchers)?;
    let spent = vouchers_spent(alloc, spents)?;
    Ok(are_same(ids.as_slice(), spent.as_slice()))
}

/// The counters that stand beside the rows. They are paired where each count has its exits and each voucher what is spent of it, and there
/// are no others.
#[derive(Drop)]
pub(crate) struct CountParts {
    pub(crate) used: Vec<QuotaCount>,
    pub(crate) redeemed: Vec<VoucherCount>,
    pub(crate) paired: bool,
}

// Whether the ids of all counters rise.
fn all_rise(alloc: Global, rows: &OtherRows) -> Result<bool, AllocError>
    ensures { TellsWhether result (CountsRise rows.now) }
{
    let counts = counts_rise(alloc, rows.counts.as_slice())?;
    let exits = exits_rise(alloc, rows.exits.as_slice())?;
    let spents = rises(rows.spents.as_slice());
    Ok(both(both(counts, exits), spents))
}

// Whether each count has its exits and each voucher what is spent of it, and there are no others.
fn all_paired(alloc: Global, vouchers: &[VoucherRow], rows: &OtherRows) -> Result<bool, AllocError>
    ensures { TellsWhether result (AreCountsPaired vouchers.now rows.now) }
{
    let exits = exits_paired(alloc, rows.counts.as_slice(), rows.exits.as_slice())?;
    let spents = spents_paired(alloc, vouchers, rows.spents.as_slice())?;
    Ok(both(exits, spents))
}

/// The counters that stand beside the rows, in the order of the rows. Refusals: 6, and 63 where their ids don't rise.
pub(crate) fn counts_in(
    alloc: Global,
    vouchers: &[VoucherRow],
    rows: OtherRows,
) -> Result<CountParts, ArrangeError>
    ensures used { IfOk result (λ c. c.used.items
        ≡ usages_beside rows.counts.items rows.exits.items) }
    ensures redeemed { IfOk result (λ c. c.redeemed.items
        ≡ uses_beside vouchers.now rows.spents.items) }
    ensures order { OnOk result (CountsRise rows) }
    ensures refused { IfErr result (λ e. e ≡ Order → ¬ CountsRise rows) }
    ensures paired { IfOk result (λ c. IsTrue c.paired ↔ AreCountsPaired vouchers.now rows) }
{
    if !all_rise(alloc, &rows)? {
        return Err(ArrangeError::Order);
    }
    let paired = all_paired(alloc, vouchers, &rows)?;
    let redeemed = redeemed_in(alloc, vouchers, rows.spents)?;
    let used = used_in(alloc, rows.counts, rows.exits)?;
    Ok(CountParts {
        used,
        redeemed,
        paired,
    })
}
