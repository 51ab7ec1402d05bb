//! Numbers, amounts, moments and lists as JSON.

ghost use Rattle.std.specs.Prelude.{◌≡◌};
ghost use Rattle.serde_json.specs.View.{view};
ghost use Rattle.web_json.specs.Values.{count, count_or_null, money, money_or_null, moment, moment_or_null, text_or_null};
ghost use Rattle.web_json.specs.Made.{MakesJson};

use crate::pieces::{WriteRow, append_value};
use base_dates::moment_text;
use base_values::{Cents, Moment, Size, Text, cents_text};
use serde_json::Value;
use std::alloc::{AllocError, Global};

/// A number, or null.
pub(crate) fn count_or_null(number: Option<u64>) -> Value
    ensures { view result ≡ count_or_null number }
{
    match number {
        None => Value::Null,
        Some(number) => Value::from(number),
    }
}

/// How many places, or null where there is no limit.
pub(crate) fn size_or_null(size: Option<Size>) -> Value
    ensures { view result ≡ count_or_null size }
{
    match size {
        None => Value::Null,
        Some(size) => Value::from(size.get()),
    }
}

/// An amount as a text, `"23.00"`.
pub(crate) fn money(alloc: Global, amount: Cents) -> Result<Value, AllocError>
    ensures { MakesJson result (money amount) }
{
    Ok(Value::String(cents_text(alloc, amount)?))
}

/// An amount, or null.
pub(crate) fn money_or_null(alloc: Global, amount: Option<Cents>) -> Result<Value, AllocError>
    ensures { MakesJson result (money_or_null amount) }
{
    match amount {
        None => Ok(Value::Null),
        Some(amount) => money(alloc, amount),
    }
}

/// A moment as a text, `"2026-05-01T10:00:00Z"`.
pub(crate) fn moment(alloc: Global, at: Moment) -> Result<Value, AllocError>
    ensures { MakesJson result (moment at) }
{
    Ok(Value::String(moment_text(alloc, at)?))
}

/// A moment, or null.
pub(crate) fn moment_or_null(alloc: Global, at: Option<Moment>) -> Result<Value, AllocError>
    ensures { MakesJson result (moment_or_null at) }
{
    match at {
        None => Ok(Value::Null),
        Some(at) => moment(alloc, at),
    }
}

/// A text, or null.
pub(crate) fn text_or_null(alloc: Global, text: &Option<Text>) -> Result<Value, AllocError>
    ensures { MakesJson result (text_or_null text.now) }
{
    match text {
        None => Ok(Value::Null),
        Some(text) => Value::try_from_str(alloc, text.as_str()),
    }
}

/// Writes a list of numbers.
pub(crate) struct CountWriter;

impl WriteRow<u64> for CountWriter {
    ghost body = { λ _ number. count number };

    fn append(&self, alloc: Global, out: &mut Vec<u8>, row: &u64) -> Result<(), AllocError> {
        append_value(alloc, out, &Value::from(*row))
    }
}
