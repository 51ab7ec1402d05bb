//! The test of budgets.

ghost use Rattle.std.specs.Prelude.{◌↔◌, IsTrue};
ghost use Rattle.std.specs.List.{AllByRecursion};
ghost use Rattle.model_rows.specs.Budgets.{AllWithinBudget};
ghost use Rattle.file_check.specs.Spent.{StaysWithin};

use book_usage::Book;
use model_rows::Voucher;

// Whether no more of the voucher is spent than its budget, if it has one.
#[tactic(auto, unfolding(crate::specs::Spent::StaysWithin))]
fn stays_within<B: Book>(book: &B, row: &Voucher) -> bool
    ensures { IsTrue result ↔ StaysWithin (B.state book.now).lists row.now }
{
    match row.budget {
        Some(budget) => book.spent(row.id) <= u128::from(budget.get()),
        None => true,
    }
}

// Whether it is so of each voucher.
fn all_stay_within<B: Book>(book: &B) -> bool
    ensures { let lists = (B.state book.now).lists in
        IsTrue result ↔ AllByRecursion (StaysWithin lists) lists.vouchers }
{
    let vouchers = book.vouchers();
    for row in vouchers {
        if !stays_within(book, row) {
            return false;
        }
    }
    true
}

/// Whether of no voucher is more spent, in pending and paid orders, than its budget in cents.
#[tactic(auto, unfolding(crate::specs::Spent::StaysWithin))]
pub fn keeps_budgets<B: Book>(book: &B) -> bool
    ensures { IsTrue result ↔ AllWithinBudget (B.state book.now).lists }
{
    all_stay_within(book)
}
