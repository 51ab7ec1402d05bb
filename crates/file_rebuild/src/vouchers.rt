//! Vouchers with their budgets.

ghost use Rattle.std.specs.Prelude.{◌≡◌, ◌↔◌, map, IfOk, IfErr, OnOk, IsTrue};
ghost use Rattle.file_meaning.specs.Rows.{voucher_of};
ghost use Rattle.file_rebuild.specs.Arranged.{beside, vouchers_arranged, AreBudgetsOf, VouchersRise};
ghost use Rattle.file_rebuild.specs.declared.error.ArrangeError.TheVariants.{Order};

use crate::error::ArrangeError;
use crate::members::both;
use crate::values::values_in;
use base_tables::rises;
use base_values::Cents;
use file_rows::{BudgetRow, VoucherHead, VoucherRow};
use model_rows::Voucher;
use std::alloc::{AllocError, Global};

/// Vouchers, and whether each budget is that of one of them.
#[derive(Drop)]
pub(crate) struct VoucherParts {
    pub(crate) vouchers: Vec<Voucher>,
    pub(crate) whole: bool,
}

// The ids of the rows.
fn ids_of(alloc: Global, rows: &[VoucherRow]) -> Result<Vec<u64>, AllocError>
    ensures { IfOk result (λ ids. ids.items ≡ map (λ r. r.voucher.id) rows.now) }
{
    rows.iter().map(|row| row.voucher.id).collect(alloc)
}

// A voucher of its row and its budget.
fn voucher_from(parts: (VoucherRow, Option<Cents>)) -> Voucher
    ensures { result ≡ voucher_of parts.1 parts.0.voucher }
{
    let (row, budget) = parts;
    let VoucherHead {
        id,
        code,
        max_usages,
        valid_until,
        block_quota,
        allow_ignore_quota,
        price_mode,
        value,
        item,
        variation,
        quota,
        tag,
        comment,
    } = row.voucher;
    Voucher {
        id,
        code,
        max_usages,
        valid_until,
        block_quota,
        allow_ignore_quota,
        price_mode,
        value,
        item,
        variation,
        quota,
        tag,
        comment,
        budget,
    }
}

// Each row with its budget.
fn joined(
    alloc: Global,
    rows: Vec<VoucherRow>,
    budgets: Vec<Option<Cents>>,
) -> Result<Vec<Voucher>, AllocError>
    ensures { IfOk result (λ all. all.items
        ≡ beside (λ r budget. voucher_of budget r.voucher) rows.items budgets.items) }
{
    rows.into_iter()
        .zip(budgets.into_iter())
        .map(voucher_from)
        .collect(alloc)
}

/// The vouchers, in the order of the rows, with the budgets that stand under their ids. Refusals: 6, and 63 where the ids of either don't rise.
pub(crate) fn vouchers_in(
    alloc: Global,
    rows: Vec<VoucherRow>,
    budgets: &[BudgetRow],
) -> Result<VoucherParts, ArrangeError>
    ensures vouchers { IfOk result (λ p. p.vouchers.items
        ≡ vouchers_arranged rows.items budgets.now) }
    ensures order { OnOk result (VouchersRise rows.items budgets.now) }
    ensures refused { IfErr result (λ e. e ≡ Order → ¬ VouchersRise rows.items budgets.now) }
    ensures whole { IfOk result (λ p. IsTrue p.whole ↔ AreBudgetsOf budgets.now p.vouchers.items) }
{
    let ids = ids_of(alloc, rows.as_slice())?;
    if !both(rises(ids.as_slice()), rises(budgets)) {
        return Err(ArrangeError::Order);
    }
    let values = values_in(alloc, ids.as_slice(), budgets)?;
    let whole = values.whole;
    let vouchers = joined(alloc, rows, values.each)?;
    Ok(VoucherParts { vouchers, whole })
}
