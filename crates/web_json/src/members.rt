//! The members of an object, added one by one. Each call takes those that stand, so that where memory is refused nothing
//! else is left to be dropped: a proof looks at each way out of a function.

ghost use Rattle.serde_json.specs.Data.{put, string};
ghost use Rattle.serde_json.specs.View.{view};
ghost use Rattle.web_json.specs.Values.{money, money_or_null, moment, moment_or_null, text_or_null};
ghost use Rattle.web_json.specs.Made.{MakesMembers};

use crate::values::{moment, moment_or_null, money, money_or_null, text_or_null};
use base_values::{Cents, Moment, Text};
use serde_json::{Map, Value};
use std::alloc::{AllocError, Global};

/// The members with one more, in its place.
pub(crate) fn with(
    alloc: Global,
    members: Map<String, Value>,
    key: &str,
    value: Value,
) -> Result<Map<String, Value>, AllocError>
    ensures { MakesMembers result members (put key.now (view value)) }
{
    let mut members = members;
    serde_json::put(&mut members, alloc, key, value)?;
    Ok(members)
}

/// The members with a text.
pub(crate) fn with_text(
    alloc: Global,
    members: Map<String, Value>,
    key: &str,
    chars: &str,
) -> Result<Map<String, Value>, AllocError>
    ensures { MakesMembers result members (put key.now (string chars.now)) }
{
    let value = Value::try_from_str(alloc, chars)?;
    with(alloc, members, key, value)
}

/// The members with a text, or null.
pub(crate) fn with_text_or_null(
    alloc: Global,
    members: Map<String, Value>,
    key: &str,
    text: &Option<Text>,
) -> Result<Map<String, Value>, AllocError>
    ensures { MakesMembers result members (put key.now (text_or_null text.now)) }
{
    let value = text_or_null(alloc, text)?;
    with(alloc, members, key, value)
}

/// The members with an amount.
pub(crate) fn with_money(
    alloc: Global,
    members: Map<String, Value>,
    key: &str,
    amount: Cents,
) -> Result<Map<String, Value>, AllocError>
    ensures { MakesMembers result members (put key.now (money amount)) }
{
    let value = money(alloc, amount)?;
    with(alloc, members, key, value)
}

/// The members with an amount, or null.
pub(crate) fn with_money_or_null(
    alloc: Global,
    members: Map<String, Value>,
    key: &str,
    amount: Option<Cents>,
) -> Result<Map<String, Value>, AllocError>
    ensures { MakesMembers result members (put key.now (money_or_null amount)) }
{
    let value = money_or_null(alloc, amount)?;
    with(alloc, members, key, value)
}

/// The members with a moment.
pub(crate) fn with_moment(
    alloc: Global,
    members: Map<String, Value>,
    key: &str,
    at: Moment,
) -> Result<Map<String, Value>, AllocError>
    ensures { MakesMembers result members (put key.now (moment at)) }
{
    let value = moment(alloc, at)?;
    with(alloc, members, key, value)
}

/// The members with a moment, or null.
pub(crate) fn with_moment_or_null(
    alloc: Global,
    members: Map<String, Value>,
    key: &str,
    at: Option<Moment>,
) -> Result<Map<String, Value>, AllocError>
    ensures { MakesMembers result members (put key.now (moment_or_null at)) }
{
    let value = moment_or_null(alloc, at)?;
    with(alloc, members, key, value)
}
