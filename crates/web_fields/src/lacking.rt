//! Fields that may be absent, by their kinds.

ghost use Rattle.std.specs.Prelude.{◌≡◌, ◌≤◌, ◌≤ℤ◌, IfOk, IfSome, option_map};
ghost use Rattle.base_values.specs.Texts.{IsText};
ghost use Rattle.web_fields.specs.Reading.{Reads, Shows, text_of};
ghost use Rattle.web_fields.specs.Lacking.{truth_or, whole_or, signed_or, text_or_empty, price_mode_or, optional_id, optional_text, optional_loose_text, optional_money, optional_moment, ids_or_none, texts_or_none};
ghost use Rattle.serde_json.specs.View.{view};

use crate::error::{BodyFault, ReadError};
use crate::kinds::{id, loose_text, moment, money, price_mode, signed_number, text, truth, whole};
use crate::lists::{ids, texts};
use crate::modes::{optional, present};
use base_values::{Cents, List, Moment, PriceMode, Text};
use model_faults::Field;
use serde_json::Value;
use std::alloc::Global;

/// A truth value that may be absent.
pub fn truth_or(field: Field, default: bool, body: &Value) -> Result<bool, BodyFault>
    ensures { result ≡ truth_or field default (view body.now) }
{
    match present(field, body)? {
        None => Ok(default),
        Some(value) => truth(field, value),
    }
}

/// A whole number between two bounds that may be absent.
pub fn whole_or(
    field: Field,
    default: u64,
    low: u64,
    high: u64,
    body: &Value,
) -> Result<u64, BodyFault>
    ensures value { result ≡ whole_or field default low high (view body.now) }
    ensures from { low ≤ default → IfOk result (λ n. low ≤ n) }
    ensures within { default ≤ high → IfOk result (λ n. n ≤ high) }
{
    match present(field, body)? {
        None => Ok(default),
        Some(value) => whole(field, low, high, value),
    }
}

/// A whole number between two bounds, which may have a sign, that may be absent.
pub fn signed_or(
    field: Field,
    default: i32,
    low: i32,
    high: i32,
    body: &Value,
) -> Result<i32, BodyFault>
    ensures value { result ≡ signed_or field default low high (view body.now) }
    ensures above { low ≤ℤ default → IfOk result (λ n. low ≤ℤ n) }
    ensures below { default ≤ℤ high → IfOk result (λ n. n ≤ℤ high) }
{
    match present(field, body)? {
        None => Ok(default),
        Some(value) => signed_number(field, low, high, value),
    }
}

/// A text of at most 254 bytes and with no control byte that may be empty, and may be absent: then it is empty.
#[tactic(auto, unfolding(base_values::specs::Texts::is_text))]
pub fn text_or_empty<'v>(field: Field, body: &'v Value) -> Result<&'v str, BodyFault>
    ensures value { Shows text_of result (text_or_empty field (view body.now)) }
    ensures text { IfOk result (λ s. IsText s.now) }
{
    match present(field, body)? {
        None => Ok(""),
        Some(value) => loose_text(field, value),
    }
}

/// A price mode that may be absent.
pub fn price_mode_or(field: Field, default: PriceMode, body: &Value) -> Result<PriceMode, BodyFault>
    ensures { result ≡ price_mode_or field default (view body.now) }
{
    match present(field, body)? {
        None => Ok(default),
        Some(value) => price_mode(field, value),
    }
}

/// An id that may be absent or null.
pub fn optional_id(field: Field, body: &Value) -> Result<Option<u64>, BodyFault>
    ensures { result ≡ optional_id field (view body.now) }
{
    match optional(field, body) {
        None => Ok(None),
        Some(value) => Ok(Some(id(field, value)?)),
    }
}

/// A text that is not blank, of at most 254 bytes and with no control byte, that may be absent or null.
pub fn optional_text<'v>(field: Field, body: &'v Value) -> Result<Option<&'v str>, BodyFault>
    ensures value { Shows (option_map text_of) result (optional_text field (view body.now)) }
    ensures text { IfOk result (λ given. IfSome given (λ s. IsText s.now)) }
{
    match optional(field, body) {
        None => Ok(None),
        Some(value) => Ok(Some(text(field, value)?)),
    }
}

/// A text of at most 254 bytes and with no control byte that may be absent or null, and may be empty.
pub fn optional_loose_text<'v>(field: Field, body: &'v Value) -> Result<Option<&'v str>, BodyFault>
    ensures value { Shows (option_map text_of) result (optional_loose_text field (view body.now)) }
    ensures text { IfOk result (λ given. IfSome given (λ s. IsText s.now)) }
{
    match optional(field, body) {
        None => Ok(None),
        Some(value) => Ok(Some(loose_text(field, value)?)),
    }
}

/// An amount of money that may be absent or null.
pub fn optional_money(field: Field, body: &Value) -> Result<Option<Cents>, BodyFault>
    ensures { result ≡ optional_money field (view body.now) }
{
    match optional(field, body) {
        None => Ok(None),
        Some(value) => Ok(Some(money(field, value)?)),
    }
}

/// A moment that may be absent or null.
pub fn optional_moment(field: Field, body: &Value) -> Result<Option<Moment>, BodyFault>
    ensures { result ≡ optional_moment field (view body.now) }
{
    match optional(field, body) {
        None => Ok(None),
        Some(value) => Ok(Some(moment(field, value)?)),
    }
}

/// A list of ids that may be absent. `Memory` where there is none for them.
pub fn ids_or_none(alloc: Global, field: Field, body: &Value) -> Result<List<u64>, ReadError>
    ensures { Reads result (ids_or_none field (view body.now)) }
{
    match present(field, body)? {
        None => Ok(List::new(Vec::new(alloc))),
        Some(value) => ids(alloc, field, value),
    }
}

/// A list of texts that may be absent: then it is empty. None of the texts is empty, each has at most 254 bytes and no
/// control byte. All faults are the list's. `Memory` where there is none for the copies.
pub fn texts_or_none(alloc: Global, field: Field, body: &Value) -> Result<List<Text>, ReadError>
    ensures { Reads result (texts_or_none field (view body.now)) }
{
    match present(field, body)? {
        None => Ok(List::new(Vec::new(alloc))),
        Some(value) => texts(alloc, field, value),
    }
}
