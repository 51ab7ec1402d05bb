//! Counts that are shifted, and whether a book has them.

ghost use Rattle.std.specs.Prelude.{◌≡◌, ◌≤◌, ◌+◌, ◌-◌, ◌==◌, ◌&&◌, IfOk, Some};
ghost use Rattle.std.specs.Option.{option_copied};
ghost use Rattle.model_rows.specs.CountRows.{same_usage};
ghost use Rattle.model_rows.specs.Usage.{redeemed, spent};
ghost use Rattle.book_counts_to_write.specs.Told.{Adds, has_count, has_exits, has_voucher, told_unless};
ghost use Rattle.book_counts_to_write.specs.Walked.{usage_shifted, same_as};

use book_tally::QuotaDelta;
use book_usage::{Book, usage_of};
use model_rows::{QuotaCount, Usage, VoucherCount};
use std::alloc::AllocError;

/// A count that gains something and loses something. It is refused where it doesn't fit in 64 bits.
pub fn moved(count: u64, come: u64, gone: u64) -> Result<u64, AllocError>
    ensures { IfOk result (λ n. n ≡ (count + come) - gone) }
{
    let more = add(count, come)?;
    match more.checked_sub(gone) {
        None => Err(AllocError),
        Some(left) => Ok(left),
    }
}

// The sum. It is refused where it doesn't fit in 64 bits.
fn add(a: u64, b: u64) -> Result<u64, AllocError>
    ensures { IfOk result (λ n. n ≡ a + b) }
{
    match a.checked_add(b) {
        None => Err(AllocError),
        Some(sum) => Ok(sum),
    }
}

/// What is spent of a voucher, where some more is spent and some isn't any more, in cents. It is refused where it doesn't fit
/// in 64 bits.
pub fn moved_cents(spent: u128, come: u64, gone: u64) -> Result<u64, AllocError>
    requires few { spent ≤ 42949672955705032704 }
    ensures { IfOk result (λ n. n ≡ (spent + come) - gone) }
{
    fitting((spent + u128::from(come)).saturating_sub(u128::from(gone)))
}

/// An amount as a number of 64 bits. It is refused where it doesn't fit.
pub fn fitting(amount: u128) -> Result<u64, AllocError>
    ensures { IfOk result (λ n. n ≡ amount) }
{
    match u64::try_from(amount) {
        Err(_) => Err(AllocError),
        Ok(fits) => Ok(fits),
    }
}

/// A usage, with what came by a shift and without what went, if there is one.
pub fn usage_shifted(usage: Usage, shift: Option<&QuotaDelta>) -> Result<Usage, AllocError>
    ensures { IfOk result (λ new. new ≡ usage_shifted usage (option_copied shift.entry)) }
{
    match shift {
        None => Ok(usage),
        Some(shift) => shifted_by(usage, shift),
    }
}

fn shifted_by(usage: Usage, shift: &QuotaDelta) -> Result<Usage, AllocError>
    ensures { IfOk result (λ new. new ≡ usage_shifted usage (Some shift.now)) }
{
    let come = &shift.come;
    let gone = &shift.gone;
    Ok(Usage {
        paid: moved(usage.paid, come.paid, gone.paid)?,
        pending: moved(usage.pending, come.pending, gone.pending)?,
        blocked: moved(usage.blocked, come.blocked, gone.blocked)?,
        carts: moved(usage.carts, come.carts, gone.carts)?,
        waiting: moved(usage.waiting, come.waiting, gone.waiting)?,
        exited: moved(usage.exited, come.exited, gone.exited)?,
    })
}

/// Whether it is a usage that was known.
pub fn same_as(usage: Usage, known: Option<Usage>) -> bool
    ensures { result ≡ same_as usage known }
{
    match known {
        None => false,
        Some(known) => same_usage(usage, known),
    }
}

// Whether all counts are the same.
fn same_usage(a: Usage, b: Usage) -> bool
    ensures { result ≡ same_usage a b }
{
    a.paid == b.paid
        && a.pending == b.pending
        && a.blocked == b.blocked
        && a.carts == b.carts
        && a.waiting == b.waiting
        && a.exited == b.exited
}

/// Whether the book has this very count of a quota.
pub fn has_count<B: Book>(book: &B, count: QuotaCount) -> bool
    ensures { result ≡ has_count (B.state book.now) count }
{
    let catalogue = book.catalogue();
    catalogue.recall_invariant();
    match catalogue.quota(count.quota) {
        None => false,
        Some(quota) => {
            let usage = usage_of(book, quota, book.moment());
            same_usage(count.usage, usage)
        }
    }
}

/// Whether the book has a quota of this id, of which as many tickets are out.
pub fn has_exits<B: Book>(book: &B, count: &QuotaCount) -> bool
    ensures { result ≡ has_exits (B.state book.now) count.now }
{
    let catalogue = book.catalogue();
    catalogue.recall_invariant();
    match catalogue.quota(count.quota) {
        None => false,
        Some(quota) => count.usage.exited == usage_of(book, quota, book.moment()).exited,
    }
}

/// Whether the book has this very count of a voucher.
pub fn has_voucher<B: Book>(book: &B, count: VoucherCount) -> bool
    ensures { result ≡ has_voucher (B.state book.now) count }
{
    book.recall_invariant();
    match book.voucher(count.voucher) {
        None => false,
        Some(_) => has_numbers(book, count),
    }
}

// Whether a voucher is redeemed as often in the book, and as much is spent of it.
fn has_numbers<B: Book>(book: &B, count: VoucherCount) -> bool
    ensures { result ≡ (count.redeemed == redeemed count.voucher (B.state book.now).lists
        && count.spent == spent count.voucher (B.state book.now).lists) }
{
    count.redeemed == book.redeemed(count.voucher)
        && u128::from(count.spent) == book.spent(count.voucher)
}

/// Adds a row, unless it is known.
pub fn add_unless<T: Copy>(known: bool, row: T, rows: &mut Vec<T>) -> Result<(), AllocError>
    ensures { Adds result rows.old rows.new (told_unless known row) }
{
    if known { Ok(()) } else { Ok(rows.push(row)?) }
}
