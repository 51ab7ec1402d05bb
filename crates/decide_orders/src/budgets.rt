//! What is left of vouchers' budgets.

ghost use Rattle.std.specs.Prelude.{◌≡◌, ◌≤◌, [], ◌∷◌};
ghost use Rattle.draft_changes.specs.DraftState.{now};
ghost use Rattle.model_rows.specs.Budgets.{covers, is_within, are_within, named_discounts, left_after};

use base_values::Cents;
use book_usage::{Book, LookUps};
use draft_changes::Draft;
use model_rows::{OrderPos, Voucher};

/// What is left of the voucher's budget, in cents, after these rows of an order that isn't put yet; none where it has no
/// budget. The draft's own orders are counted, and where more is spent than the budget nothing is left.
pub fn left_after<B: Book>(
    draft: &Draft<'_, B>,
    before: &[OrderPos],
    voucher: &Voucher,
) -> Option<Cents>
    ensures { result ≡ left_after (now draft.now).lists before.now voucher.now }
{
    let budget = voucher.budget?;
    let gone = draft.spent(voucher.id) + named_discounts(before, voucher.id);
    let left = u128::from(budget.get()).saturating_sub(gone);
    Some(Cents::new(left as u64))
}

// What these rows take of the voucher's budget, in cents.
fn named_discounts(rows: &[OrderPos], voucher: u64) -> u128
    ensures value { result ≡ named_discounts voucher rows.now }
    ensures few { result ≤ 184467440737095516160000000000 }
{
    let mut cents = 0;
    for row in rows {
        cents += named_discount(row, voucher);
    }
    cents
}

// What a row takes of the voucher's budget, in cents.
fn named_discount(row: &OrderPos, voucher: u64) -> u128
    ensures value { result ≡ named_discounts voucher (row.now ∷ []) }
    ensures few { result ≤ 9999999999 }
{
    if row.voucher == Some(voucher) {
        u128::from(row.discount.get())
    } else {
        0
    }
}

/// Whether no more is spent than its budget of any voucher that these rows name.
pub fn are_within<B: Book>(draft: &Draft<'_, B>, rows: &[OrderPos]) -> bool
    ensures { result ≡ are_within (now draft.now).lists rows.now }
{
    rows.iter().all(|row| is_within(draft, row.voucher))
}

// Whether no more is spent of the voucher, if there is one, than its budget.
fn is_within<B: Book>(draft: &Draft<'_, B>, voucher: Option<u64>) -> bool
    ensures { result ≡ is_within (now draft.now).lists voucher }
{
    let Some(id) = voucher else {
        return true;
    };
    match draft.rows().voucher(id) {
        None => true,
        Some(voucher) => covers(voucher.budget, draft.spent(voucher.id)),
    }
}

// Whether an amount of cents is within the budget, if there is one.
fn covers(budget: Option<Cents>, amount: u128) -> bool
    ensures { result ≡ covers budget amount }
{
    match budget {
        None => true,
        Some(budget) => amount <= u128::from(budget.get()),
    }
}
