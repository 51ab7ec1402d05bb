//! A voucher as JSON. It has more members than one proof takes at once, so they are added part by part.

ghost use Rattle.std.specs.Prelude.{◌≡◌};
ghost use Rattle.web_json.specs.Rows.{mode_word, voucher_body};
ghost use Rattle.web_json.specs.VoucherParts.{with_target, with_texts, with_flags, with_limits, with_price};
ghost use Rattle.web_json.specs.Made.{MakesJson, MakesMembers};

use crate::members::{with, with_moment_or_null, with_money_or_null, with_text};
use crate::values::count_or_null;
use base_values::PriceMode;
use model_rows::Voucher;
use serde_json::{Map, Value};
use std::alloc::{AllocError, Global};

/// The word of a voucher's price mode.
fn mode_word(mode: PriceMode) -> &'static str
    ensures { result.now ≡ mode_word mode }
{
    match mode {
        PriceMode::None => "none",
        PriceMode::Set => "set",
        PriceMode::Subtract => "subtract",
        PriceMode::Percent => "percent",
    }
}

/// The members with those of what a voucher is for.
fn with_target(
    alloc: Global,
    members: Map<String, Value>,
    voucher: &Voucher,
) -> Result<Map<String, Value>, AllocError>
    ensures { MakesMembers result members (with_target voucher.now) }
{
    let members = with(alloc, members, "item", count_or_null(voucher.item))?;
    let members = with(alloc, members, "quota", count_or_null(voucher.quota))?;
    with(
        alloc,
        members,
        "variation",
        count_or_null(voucher.variation),
    )
}

/// The members with those of a voucher's texts.
fn with_texts(
    alloc: Global,
    members: Map<String, Value>,
    voucher: &Voucher,
) -> Result<Map<String, Value>, AllocError>
    ensures { MakesMembers result members (with_texts voucher.now) }
{
    let members = with_text(alloc, members, "code", voucher.code.as_str())?;
    let members = with_text(alloc, members, "comment", voucher.comment.as_str())?;
    with_text(alloc, members, "tag", voucher.tag.as_str())
}

/// The members with those of what a voucher does with quotas.
fn with_flags(
    alloc: Global,
    members: Map<String, Value>,
    voucher: &Voucher,
) -> Result<Map<String, Value>, AllocError>
    ensures { MakesMembers result members (with_flags voucher.now) }
{
    let ignores = Value::Bool(voucher.allow_ignore_quota);
    let members = with(alloc, members, "allow_ignore_quota", ignores)?;
    with(
        alloc,
        members,
        "block_quota",
        Value::Bool(voucher.block_quota),
    )
}

/// The members with those of a voucher's limits.
fn with_limits(
    alloc: Global,
    members: Map<String, Value>,
    voucher: &Voucher,
) -> Result<Map<String, Value>, AllocError>
    ensures { MakesMembers result members (with_limits voucher.now) }
{
    let members = with(
        alloc,
        members,
        "max_usages",
        Value::from(voucher.max_usages.get()),
    )?;
    let members = with_moment_or_null(alloc, members, "valid_until", voucher.valid_until)?;
    with_money_or_null(alloc, members, "budget", voucher.budget)
}

/// The members with those of how a voucher changes a price.
fn with_price(
    alloc: Global,
    members: Map<String, Value>,
    voucher: &Voucher,
) -> Result<Map<String, Value>, AllocError>
    ensures { MakesMembers result members (with_price voucher.now) }
{
    let members = with_text(alloc, members, "price_mode", mode_word(voucher.price_mode))?;
    with_money_or_null(alloc, members, "value", voucher.value)
}

/// A voucher, and the number of its uses in orders.
pub(crate) fn voucher_value(
    alloc: Global,
    voucher: &Voucher,
    redeemed: u64,
) -> Result<Value, AllocError>
    ensures { MakesJson result (voucher_body voucher.now redeemed) }
{
    let members = with(alloc, Map::new(alloc), "id", Value::from(voucher.id))?;
    let members = with(alloc, members, "redeemed", Value::from(redeemed))?;
    let members = with_texts(alloc, members, voucher)?;
    let members = with_flags(alloc, members, voucher)?;
    let members = with_limits(alloc, members, voucher)?;
    let members = with_price(alloc, members, voucher)?;
    Ok(Value::Object(with_target(alloc, members, voucher)?))
}
