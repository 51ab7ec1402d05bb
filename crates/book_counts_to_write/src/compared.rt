//! Which counts differ from one book to another.

ghost use Rattle.std.specs.Prelude.{◌≡◌, [], ◌∷◌, IfOk, flat_map, is_none, if◌then◌else◌};
ghost use Rattle.model_rows.specs.Lists.{voucher_at};
ghost use Rattle.model_rows.specs.CountRows.{counts_after};
ghost use Rattle.book_counts_to_write.specs.Told.{Adds, from_to, quota_told, voucher_told, gone_told};

use crate::exits::exits_that_differ;
use crate::recounts::recount;
use crate::told::{add_unless, fitting, has_count, has_voucher};
use book_usage::Book;
use model_catalogue::Quota;
use model_rows::{CountRows, QuotaCount, Voucher, VoucherCount};
use std::alloc::{AllocError, Global};

/// The counts that are to be written where one book comes after another, whatever lies between them: those of the quotas and
/// vouchers that are new or whose counts differ, which of these differ in how many tickets are out, and the ids of the
/// vouchers that are gone.
/// It is refused where there is no memory, and where a count doesn't fit in 64 bits.
/// Each quota of the later book is counted over all its rows, and each voucher of both is looked up. So it is for changes
/// that no draft has counted, which are made in a second book first.
pub fn counts_between<A: Book, C: Book>(
    alloc: Global,
    before: &A,
    after: &C,
) -> Result<CountRows, AllocError>
    ensures { IfOk result (λ rows. rows ≡ counts_after (A.state before.now) (C.state after.now)) }
{
    let quotas = quotas(alloc, before, after)?;
    let exits = exits_that_differ(before, alloc, quotas.as_slice())?;
    let vouchers = vouchers(alloc, before, after)?;
    let gone = gone(alloc, before, after)?;
    Ok(CountRows::new(quotas, exits, vouchers, gone))
}

// The counts of the quotas that differ.
fn quotas<A: Book, C: Book>(
    alloc: Global,
    before: &A,
    after: &C,
) -> Result<Vec<QuotaCount>, AllocError>
    ensures { IfOk result (λ rows. rows.items
        ≡ flat_map (quota_told (from_to (A.state before.now) (C.state after.now)))
        (C.state after.now).lists.catalogue.quotas) }
{
    let mut rows = Vec::new(alloc);
    for quota in after.catalogue().quotas() {
        add_quota(before, after, quota, &mut rows)?;
    }
    Ok(rows)
}

// Adds the count of a quota, if it differs.
fn add_quota<A: Book, C: Book>(
    before: &A,
    after: &C,
    quota: &Quota,
    rows: &mut Vec<QuotaCount>,
) -> Result<(), AllocError>
    ensures { Adds result rows.old rows.new
        (quota_told (from_to (A.state before.now) (C.state after.now)) quota.now) }
{
    let count = QuotaCount {
        quota: quota.id,
        usage: recount(after, quota, after.moment()),
    };
    add_unless(has_count(before, count), count, rows)
}

// The counts of the vouchers that differ.
fn vouchers<A: Book, C: Book>(
    alloc: Global,
    before: &A,
    after: &C,
) -> Result<Vec<VoucherCount>, AllocError>
    ensures { IfOk result (λ rows. rows.items
        ≡ flat_map (voucher_told (from_to (A.state before.now) (C.state after.now)))
        (C.state after.now).lists.vouchers) }
{
    let mut rows = Vec::new(alloc);
    for voucher in after.vouchers() {
        add_voucher(before, after, voucher, &mut rows)?;
    }
    Ok(rows)
}

// Adds the count of a voucher, if it differs. It is refused where what is spent doesn't fit in 64 bits.
fn add_voucher<A: Book, C: Book>(
    before: &A,
    after: &C,
    voucher: &Voucher,
    rows: &mut Vec<VoucherCount>,
) -> Result<(), AllocError>
    ensures { Adds result rows.old rows.new
        (voucher_told (from_to (A.state before.now) (C.state after.now)) voucher.now) }
{
    let count = VoucherCount {
        voucher: voucher.id,
        redeemed: after.redeemed(voucher.id),
        spent: fitting(after.spent(voucher.id))?,
    };
    add_unless(has_voucher(before, count), count, rows)
}

// The ids of the vouchers that are gone.
fn gone<A: Book, C: Book>(alloc: Global, before: &A, after: &C) -> Result<Vec<u64>, AllocError>
    ensures { IfOk result (λ ids. ids.items
        ≡ flat_map (gone_told (from_to (A.state before.now) (C.state after.now)))
        (A.state before.now).lists.vouchers) }
{
    let mut ids = Vec::new(alloc);
    for voucher in before.vouchers() {
        add_gone(after, voucher.id, &mut ids)?;
    }
    Ok(ids)
}

// Adds the id of a voucher, if it doesn't stand.
fn add_gone<C: Book>(after: &C, id: u64, ids: &mut Vec<u64>) -> Result<(), AllocError>
    ensures { Adds result ids.old ids.new
        (if is_none (voucher_at id (C.state after.now).lists) then id ∷ [] else []) }
{
    if after.voucher(id).is_none() {
        Ok(ids.push(id)?)
    } else {
        Ok(())
    }
}
