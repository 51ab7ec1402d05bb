//! Fields of a change, which may be absent: what isn't given is none. Where null is a value,
//! the outer option tells whether the field is given.

ghost use Rattle.std.specs.Prelude.{◌≡◌, ◌≤◌, ◌≤ℤ◌, IfOk, IfSome, option_map};
ghost use Rattle.base_values.specs.Texts.{IsText};
ghost use Rattle.web_fields.specs.Reading.{Shows, text_of};
ghost use Rattle.web_fields.specs.Patched.{patched_truth, patched_whole, patched_signed, patched_text, patched_loose_text, patched_name, patched_money, patched_price_mode, patched_whole_or_null, patched_id_or_null, patched_money_or_null, patched_moment_or_null};
ghost use Rattle.serde_json.specs.View.{view};

use crate::error::BodyFault;
use crate::kinds::{
    id, loose_text, moment, money, name, price_mode, signed_number, text, truth, whole,
};
use crate::modes::{maybe, present};
use base_values::{Cents, Moment, PriceMode};
use model_faults::Field;
use serde_json::Value;

/// A truth value.
pub fn patched_truth(field: Field, body: &Value) -> Result<Option<bool>, BodyFault>
    ensures { result ≡ patched_truth field (view body.now) }
{
    match present(field, body)? {
        None => Ok(None),
        Some(value) => Ok(Some(truth(field, value)?)),
    }
}

/// A whole number between two bounds.
pub fn patched_whole(
    field: Field,
    low: u64,
    high: u64,
    body: &Value,
) -> Result<Option<u64>, BodyFault>
    ensures value { result ≡ patched_whole field low high (view body.now) }
    ensures from { IfOk result (λ given. IfSome given (λ n. low ≤ n)) }
    ensures within { IfOk result (λ given. IfSome given (λ n. n ≤ high)) }
{
    match present(field, body)? {
        None => Ok(None),
        Some(value) => Ok(Some(whole(field, low, high, value)?)),
    }
}

/// A whole number between two bounds, which may have a sign.
pub fn patched_signed(
    field: Field,
    low: i32,
    high: i32,
    body: &Value,
) -> Result<Option<i32>, BodyFault>
    ensures value { result ≡ patched_signed field low high (view body.now) }
    ensures above { IfOk result (λ given. IfSome given (λ n. low ≤ℤ n)) }
    ensures below { IfOk result (λ given. IfSome given (λ n. n ≤ℤ high)) }
{
    match present(field, body)? {
        None => Ok(None),
        Some(value) => Ok(Some(signed_number(field, low, high, value)?)),
    }
}

/// A text that is not blank, of at most 254 bytes and with no control byte.
pub fn patched_text<'v>(field: Field, body: &'v Value) -> Result<Option<&'v str>, BodyFault>
    ensures value { Shows (option_map text_of) result (patched_text field (view body.now)) }
    ensures text { IfOk result (λ given. IfSome given (λ s. IsText s.now)) }
{
    match present(field, body)? {
        None => Ok(None),
        Some(value) => Ok(Some(text(field, value)?)),
    }
}

/// A text of at most 254 bytes and with no control byte, which may be empty.
pub fn patched_loose_text<'v>(field: Field, body: &'v Value) -> Result<Option<&'v str>, BodyFault>
    ensures value { Shows (option_map text_of) result (patched_loose_text field (view body.now)) }
    ensures text { IfOk result (λ given. IfSome given (λ s. IsText s.now)) }
{
    match present(field, body)? {
        None => Ok(None),
        Some(value) => Ok(Some(loose_text(field, value)?)),
    }
}

/// A name: a text, or an object of languages.
pub fn patched_name<'v>(field: Field, body: &'v Value) -> Result<Option<&'v str>, BodyFault>
    ensures value { Shows (option_map text_of) result (patched_name field (view body.now)) }
    ensures text { IfOk result (λ given. IfSome given (λ s. IsText s.now)) }
{
    match present(field, body)? {
        None => Ok(None),
        Some(value) => Ok(Some(name(field, value)?)),
    }
}

/// An amount of money.
pub fn patched_money(field: Field, body: &Value) -> Result<Option<Cents>, BodyFault>
    ensures { result ≡ patched_money field (view body.now) }
{
    match present(field, body)? {
        None => Ok(None),
        Some(value) => Ok(Some(money(field, value)?)),
    }
}

/// A price mode.
pub fn patched_price_mode(field: Field, body: &Value) -> Result<Option<PriceMode>, BodyFault>
    ensures { result ≡ patched_price_mode field (view body.now) }
{
    match present(field, body)? {
        None => Ok(None),
        Some(value) => Ok(Some(price_mode(field, value)?)),
    }
}

/// A whole number between two bounds, or null.
pub fn patched_whole_or_null(
    field: Field,
    low: u64,
    high: u64,
    body: &Value,
) -> Result<Option<Option<u64>>, BodyFault>
    ensures value { result ≡ patched_whole_or_null field low high (view body.now) }
    ensures within { IfOk result (λ given. IfSome given (λ value. IfSome value (λ n. n ≤ high))) }
{
    match maybe(field, body) {
        None => Ok(None),
        Some(None) => Ok(Some(None)),
        Some(Some(value)) => Ok(Some(Some(whole(field, low, high, value)?))),
    }
}

/// An id, or null.
pub fn patched_id_or_null(field: Field, body: &Value) -> Result<Option<Option<u64>>, BodyFault>
    ensures { result ≡ patched_id_or_null field (view body.now) }
{
    match maybe(field, body) {
        None => Ok(None),
        Some(None) => Ok(Some(None)),
        Some(Some(value)) => Ok(Some(Some(id(field, value)?))),
    }
}

/// An amount of money, or null.
pub fn patched_money_or_null(field: Field, body: &Value) -> Result<Option<Option<Cents>>, BodyFault>
    ensures { result ≡ patched_money_or_null field (view body.now) }
{
    match maybe(field, body) {
        None => Ok(None),
        Some(None) => Ok(Some(None)),
        Some(Some(value)) => Ok(Some(Some(money(field, value)?))),
    }
}

/// A moment, or null.
pub fn patched_moment_or_null(
    field: Field,
    body: &Value,
) -> Result<Option<Option<Moment>>, BodyFault>
    ensures { result ≡ patched_moment_or_null field (view body.now) }
{
    match maybe(field, body) {
        None => Ok(None),
        Some(None) => Ok(Some(None)),
        Some(Some(value)) => Ok(Some(Some(moment(field, value)?))),
    }
}
