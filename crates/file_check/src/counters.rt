//! The test of the counters.

ghost use Rattle.std.specs.Prelude.{◌≡◌, ◌↔◌, ◌<◌, IsTrue, Some};
ghost use Rattle.std.specs.Bool.{Decides};
ghost use Rattle.model_catalogue.specs.CatalogueLists.{quota_at};
ghost use Rattle.model_rows.specs.CountRows.{quota_count, voucher_count, quota_counts, voucher_counts};
ghost use Rattle.file_check.specs.Counted.{AreCounted};

use book_usage::{Book, usage_of};
use model_catalogue::Quota;
use model_rows::{QuotaCount, Voucher, VoucherCount};

// The count of a quota of the book.
fn quota_count<B: Book>(book: &B, quota: &Quota) -> QuotaCount
    requires stands { quota_at quota.now.id (B.state book.now).lists.catalogue ≡ Some quota.now }
    ensures { result ≡ quota_count (B.state book.now) quota.now }
{
    QuotaCount {
        quota: quota.id,
        usage: usage_of(book, quota, book.moment()),
    }
}

// Whether this is the count of a quota of the book.
fn is_quota_count<B: Book>(book: &B, quota: &Quota, count: QuotaCount) -> bool
    requires stands { quota_at quota.now.id (B.state book.now).lists.catalogue ≡ Some quota.now }
    ensures { Decides result (count ≡ quota_count (B.state book.now) quota.now) }
{
    count == quota_count(book, quota)
}

// Whether this is the count of a voucher of the book.
fn is_voucher_count<B: Book>(book: &B, voucher: &Voucher, count: VoucherCount) -> bool
    ensures { Decides result (count ≡ voucher_count (B.state book.now) voucher.now) }
{
    count.voucher == voucher.id
        && count.redeemed == book.redeemed(voucher.id)
        && u128::from(count.spent) == book.spent(voucher.id)
}

// Whether the counts of quotas are those of the book's, in their order.
fn are_used<B: Book>(book: &B, used: &[QuotaCount]) -> bool
    ensures { IsTrue result ↔ (used.now ≡ quota_counts (B.state book.now)) }
{
    let catalogue = book.catalogue();
    catalogue.recall_invariant();
    let quotas = catalogue.quotas();
    let count = quotas.len();
    if used.len() != count {
        return false;
    }
    for at in 0..count {
        if !is_quota_count(book, &quotas[at], used[at]) {
            return false;
        }
    }
    true
}

// Whether the counts of vouchers are those of the book's, in their order.
fn are_redeemed<B: Book>(book: &B, redeemed: &[VoucherCount]) -> bool
    ensures { IsTrue result ↔ (redeemed.now ≡ voucher_counts (B.state book.now)) }
{
    let vouchers = book.vouchers();
    let count = vouchers.len();
    if redeemed.len() != count {
        return false;
    }
    for at in 0..count {
        if !is_voucher_count(book, &vouchers[at], redeemed[at]) {
            return false;
        }
    }
    true
}

/// Whether counters are what a book counts afresh at its moment: of each quota its usage, of each voucher how often it is
/// redeemed and what is spent of it, by id.
pub fn keeps_counters<B: Book>(book: &B, used: &[QuotaCount], redeemed: &[VoucherCount]) -> bool
    ensures { IsTrue result ↔ AreCounted (B.state book.now) used.now redeemed.now }
{
    are_used(book, used) && are_redeemed(book, redeemed)
}
