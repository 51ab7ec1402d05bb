//! Whether a voucher's row may stand.

ghost use Rattle.std.specs.Prelude.{◌≡◌, [], ◌∷◌, None, Ok, OnOk, OnErr, if◌then◌else◌};
ghost use Rattle.base_values.specs.Deciding.{refuse_some};
ghost use Rattle.model_commands.specs.declared.vouchers.VoucherRefusal.TheVariants.{Memory, SoldOut};
ghost use Rattle.draft_changes.specs.Decides.{first_over_since, Logs, RefusesBy};
ghost use Rattle.draft_changes.specs.DraftState.{now, Extends, IsMarkOf};
ghost use Rattle.model_rows.specs.Budgets.{covers};
ghost use Rattle.model_rows.specs.Change.{change_applied};
ghost use Rattle.model_rows.specs.declared.changes.Change.TheVariants.{PutVoucher};
ghost use Rattle.decide_vouchers.specs.Placed.{has_uses, place_test};

use base_values::Cents;
use book_usage::Book;
use draft_changes::{Draft, Mark};
use model_commands::VoucherRefusal;
use model_rows::Voucher;
use std::alloc::Global;

// Whether its uses in orders in force and in live carts are no more than it may have.
fn has_uses<B: Book>(draft: &Draft<'_, B>, row: &Voucher) -> bool
    ensures { result ≡ has_uses row.now (now draft.now) }
{
    draft.uses(row.id) <= u128::from(row.max_usages.get())
}

// Whether so many cents are within the budget, if there is one.
fn covers(budget: Option<Cents>, amount: u128) -> bool
    ensures { result ≡ covers budget amount }
{
    match budget {
        None => true,
        Some(budget) => amount <= u128::from(budget.get()),
    }
}

/// Puts the row, if it has the uses that are taken, the cents that it took off in orders in force are within its budget,
/// and no quota is then over.
/// Refusals, in this order: 25 `NoHeadroom`; 34 `OverBudget`; 28 `SoldOut` with the least quota of which it takes too
/// much, unless it ignores quotas.
#[tactic(auto, unfolding(crate::specs::Placed::place_test))]
pub fn place<B: Book>(
    draft: &mut Draft<'_, B>,
    alloc: Global,
    row: Voucher,
    taken_off: u128,
) -> Result<(), VoucherRefusal>
    ensures passed { OnOk result (place_test taken_off row (now draft.old) ≡ Ok tt) }
    ensures put { OnOk result (now draft.new ≡ change_applied (PutVoucher row) (now draft.old)) }
    ensures refused { RefusesBy Memory (place_test taken_off row (now draft.old)) result }
    ensures changes { OnOk result (Logs (PutVoucher row ∷ []) draft.old draft.new) }
    ensures extends { Extends draft.old draft.new }
    ensures same { OnErr result (draft.new ≡ draft.old) }
{
    if !has_uses(draft, &row) {
        return Err(VoucherRefusal::NoHeadroom);
    }
    if !covers(row.budget, taken_off) {
        return Err(VoucherRefusal::OverBudget);
    }
    let ignores = row.allow_ignore_quota;
    let mark = draft.mark();
    draft.put_voucher(alloc, row)?;
    let tested = test_quotas(draft, &mark, ignores);
    draft.end_attempt(mark, tested)
}

// No quota may be over since the mark, unless the row ignores quotas.
fn test_quotas<B: Book>(
    draft: &Draft<'_, B>,
    mark: &Mark,
    ignores: bool,
) -> Result<(), VoucherRefusal>
    requires { IsMarkOf draft.now mark.now }
    ensures { result ≡
        refuse_some SoldOut (if ignores then None else first_over_since mark.now [] draft.now) }
{
    if ignores {
        return Ok(());
    }
    match draft.first_over(mark, &[]) {
        None => Ok(()),
        Some(quota) => Err(VoucherRefusal::SoldOut(quota)),
    }
}
