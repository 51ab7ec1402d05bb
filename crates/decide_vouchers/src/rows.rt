//! The rows that requests make of vouchers.

ghost use Rattle.std.specs.Prelude.{◌≡◌, IfOk, unwrap_or};
ghost use Rattle.decide_vouchers.specs.Rows.{voucher_row, patched_voucher};

use crate::codes::code_of;
use base_values::{Draw, Text};
use model_commands::{NewVoucher, VoucherPatch};
use model_rows::Voucher;
use std::alloc::{AllocError, Global};

/// The row of the new voucher with this id. A code that isn't given is made of the draw and the id.
pub(crate) fn new_row(
    alloc: Global,
    new: &NewVoucher,
    draw: Draw,
    id: u64,
) -> Result<Voucher, AllocError>
    ensures { IfOk result (λ row. row ≡ voucher_row new.now draw id) }
{
    Ok(Voucher {
        id,
        code: code_of(alloc, &new.code, draw, id)?,
        max_usages: new.max_usages,
        valid_until: new.valid_until,
        block_quota: new.block_quota,
        allow_ignore_quota: new.allow_ignore_quota,
        price_mode: new.price_mode,
        value: new.value,
        item: new.item,
        variation: new.variation,
        quota: new.quota,
        tag: new.tag.copy(alloc)?,
        comment: new.comment.copy(alloc)?,
        budget: new.budget,
    })
}

/// The row of the voucher as it is after the change.
pub(crate) fn patched_row(
    alloc: Global,
    patch: &VoucherPatch,
    old: &Voucher,
) -> Result<Voucher, AllocError>
    ensures { IfOk result (λ row. row ≡ patched_voucher patch.now old.now) }
{
    Ok(Voucher {
        id: old.id,
        code: text_or(alloc, &patch.code, &old.code)?,
        max_usages: patch.max_usages.unwrap_or(old.max_usages),
        valid_until: patch.valid_until.unwrap_or(old.valid_until),
        block_quota: patch.block_quota.unwrap_or(old.block_quota),
        allow_ignore_quota: patch.allow_ignore_quota.unwrap_or(old.allow_ignore_quota),
        price_mode: patch.price_mode.unwrap_or(old.price_mode),
        value: patch.value.unwrap_or(old.value),
        item: patch.item.unwrap_or(old.item),
        variation: patch.variation.unwrap_or(old.variation),
        quota: patch.quota.unwrap_or(old.quota),
        tag: text_or(alloc, &patch.tag, &old.tag)?,
        comment: text_or(alloc, &patch.comment, &old.comment)?,
        budget: patch.budget.unwrap_or(old.budget),
    })
}

// A copy of the text that is given, or else of the old one.
fn text_or(alloc: Global, given: &Option<Text>, old: &Text) -> Result<Text, AllocError>
    ensures { IfOk result (λ text. text ≡ unwrap_or given.now old.now) }
{
    match given {
        Some(given) => given.copy(alloc),
        None => old.copy(alloc),
    }
}
