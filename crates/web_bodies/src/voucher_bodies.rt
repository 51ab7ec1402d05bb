//! The bodies of vouchers, field by field. Only the first fault is answered.

ghost use Rattle.std.specs.Prelude.{◌≡◌};
ghost use Rattle.web_fields.specs.Reading.{Reads};
ghost use Rattle.web_bodies.specs.VoucherBodies.{max_usages, voucher_of, new_max_usages, voucher_patch_of};
ghost use Rattle.serde_json.specs.View.{view};

use crate::copies::copied;
use base_values::{MOST_USES, PriceMode, Text, Uses};
use model_commands::{NewVoucher, VoucherPatch};
use model_faults::Field;
use serde_json::Value;
use std::alloc::Global;
use web_fields::{
    BodyFault, ReadError, optional_id, optional_moment, optional_money, optional_text,
    patched_id_or_null, patched_loose_text, patched_moment_or_null, patched_money_or_null,
    patched_price_mode, patched_text, patched_truth, patched_whole, price_mode_or, text_or_empty,
    truth_or, whole_or,
};

/// How often a voucher may be used.
fn max_usages(body: &Value) -> Result<Uses, BodyFault>
    ensures { result ≡ max_usages (view body.now) }
{
    let usages = whole_or(Field::MaxUsages, 1, 1, MOST_USES, body)?;
    Ok(Uses::new(usages as u32))
}

/// A new voucher.
#[tactic(auto, unfolding(crate::specs::VoucherBodies::voucher_of))]
pub fn voucher_of(alloc: Global, body: &Value) -> Result<NewVoucher, ReadError>
    ensures { Reads result (voucher_of (view body.now)) }
{
    let code = optional_text(Field::Code, body)?;
    let max_usages = max_usages(body)?;
    let valid_until = optional_moment(Field::ValidUntil, body)?;
    let block_quota = truth_or(Field::BlockQuota, false, body)?;
    let allow_ignore_quota = truth_or(Field::AllowIgnoreQuota, false, body)?;
    let price_mode = price_mode_or(Field::PriceMode, PriceMode::None, body)?;
    let value = optional_money(Field::Value, body)?;
    let item = optional_id(Field::Item, body)?;
    let variation = optional_id(Field::Variation, body)?;
    let quota = optional_id(Field::Quota, body)?;
    let tag = text_or_empty(Field::Tag, body)?;
    let comment = text_or_empty(Field::Comment, body)?;
    let budget = optional_money(Field::Budget, body)?;
    Ok(NewVoucher {
        code: copied(alloc, code)?,
        max_usages,
        valid_until,
        block_quota,
        allow_ignore_quota,
        price_mode,
        value,
        item,
        variation,
        quota,
        tag: Text::copy_of(alloc, tag)?,
        comment: Text::copy_of(alloc, comment)?,
        budget,
    })
}

/// The new number of uses, where it is given.
fn new_max_usages(body: &Value) -> Result<Option<Uses>, BodyFault>
    ensures { result ≡ new_max_usages (view body.now) }
{
    match patched_whole(Field::MaxUsages, 1, MOST_USES, body)? {
        None => Ok(None),
        Some(usages) => Ok(Some(Uses::new(usages as u32))),
    }
}

/// A change of a voucher.
#[tactic(auto, unfolding(crate::specs::VoucherBodies::voucher_patch_of))]
pub fn voucher_patch_of(alloc: Global, body: &Value) -> Result<VoucherPatch, ReadError>
    ensures { Reads result (voucher_patch_of (view body.now)) }
{
    let code = patched_text(Field::Code, body)?;
    let max_usages = new_max_usages(body)?;
    let valid_until = patched_moment_or_null(Field::ValidUntil, body)?;
    let block_quota = patched_truth(Field::BlockQuota, body)?;
    let allow_ignore_quota = patched_truth(Field::AllowIgnoreQuota, body)?;
    let price_mode = patched_price_mode(Field::PriceMode, body)?;
    let value = patched_money_or_null(Field::Value, body)?;
    let item = patched_id_or_null(Field::Item, body)?;
    let variation = patched_id_or_null(Field::Variation, body)?;
    let quota = patched_id_or_null(Field::Quota, body)?;
    let tag = patched_loose_text(Field::Tag, body)?;
    let comment = patched_loose_text(Field::Comment, body)?;
    let budget = patched_money_or_null(Field::Budget, body)?;
    Ok(VoucherPatch {
        code: copied(alloc, code)?,
        max_usages,
        valid_until,
        block_quota,
        allow_ignore_quota,
        price_mode,
        value,
        item,
        variation,
        quota,
        tag: copied(alloc, tag)?,
        comment: copied(alloc, comment)?,
        budget,
    })
}
