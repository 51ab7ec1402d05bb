//! What a field's value is: a truth value, a number, a text, an amount of money, a moment,
//! a word of a choice.

ghost use Rattle.std.specs.Prelude.{◌≡◌, ◌≤◌, ◌≤ℤ◌, IfOk, option_map};
ghost use Rattle.base_values.specs.Money.{money_of};
ghost use Rattle.web_fields.specs.Reading.{Shows, text_of, view_of};
ghost use Rattle.base_values.specs.Texts.{same_text, IsText};
ghost use Rattle.web_fields.specs.Kinds.{truth, whole, signed_number, id, fit, loose_text, text, first_member, first_name, name, money_read, units_from, count_in, money, moment_read, moment, end_in, end, mode_named, price_mode};
ghost use Rattle.serde_json.specs.View.{view, members_view};

use crate::error::{BodyFault, fault};
use base_dates::{read_day, read_moment};
use base_values::{Cents, Moment, PriceMode, ValueRefusal, is_text, read_cents};
use model_faults::{Field, Problem};
use serde_json::{Map, Number, Value};

/// A truth value.
pub fn truth(field: Field, value: &Value) -> Result<bool, BodyFault>
    ensures { result ≡ truth field (view value.now) }
{
    match value.as_bool() {
        None => fault(field, Problem::Invalid),
        Some(b) => Ok(b),
    }
}

/// A whole number between two bounds.
pub fn whole(field: Field, low: u64, high: u64, value: &Value) -> Result<u64, BodyFault>
    ensures value { result ≡ whole field low high (view value.now) }
    ensures from { IfOk result (λ n. low ≤ n) }
    ensures within { IfOk result (λ n. n ≤ high) }
{
    match value.as_u64() {
        Some(n) => {
            if low <= n && n <= high {
                Ok(n)
            } else {
                fault(field, Problem::OutOfRange)
            }
        }
        None => {
            if value.as_i64().is_some() {
                fault(field, Problem::OutOfRange)
            } else {
                fault(field, Problem::Invalid)
            }
        }
    }
}

/// A whole number between two bounds, which may have a sign.
pub fn signed_number(field: Field, low: i32, high: i32, value: &Value) -> Result<i32, BodyFault>
    ensures value { result ≡ signed_number field low high (view value.now) }
    ensures above { IfOk result (λ n. low ≤ℤ n) }
    ensures below { IfOk result (λ n. n ≤ℤ high) }
{
    match value.as_number().and_then(Number::as_i128) {
        Some(n) => {
            if i128::from(low) <= n && n <= i128::from(high) {
                Ok(n as i32)
            } else {
                fault(field, Problem::OutOfRange)
            }
        }
        None => fault(field, Problem::Invalid),
    }
}

/// An id: 1 to 9,007,199,254,740,991.
pub fn id(field: Field, value: &Value) -> Result<u64, BodyFault>
    ensures { result ≡ id field (view value.now) }
{
    whole(field, 1, 9_007_199_254_740_991, value)
}

/// The text, where it has at most 254 bytes and no control byte.
fn fit(field: Field, text: &str) -> Result<&str, BodyFault>
    ensures value { Shows text_of result (fit field text.now) }
    ensures text { IfOk result (λ s. IsText s.now) }
{
    if is_text(text) {
        Ok(text)
    } else {
        fault(field, Problem::NotAllowed)
    }
}

/// A text of at most 254 bytes and with no control byte, which may be empty.
pub fn loose_text<'v>(field: Field, value: &'v Value) -> Result<&'v str, BodyFault>
    ensures value { Shows text_of result (loose_text field (view value.now)) }
    ensures text { IfOk result (λ s. IsText s.now) }
{
    match value.as_str() {
        None => fault(field, Problem::Invalid),
        Some(text) => fit(field, text),
    }
}

/// A text that is not blank, of at most 254 bytes and with no control byte.
pub fn text<'v>(field: Field, value: &'v Value) -> Result<&'v str, BodyFault>
    ensures value { Shows text_of result (text field (view value.now)) }
    ensures text { IfOk result (λ s. IsText s.now) }
{
    let Some(text) = value.as_str() else {
        return fault(field, Problem::Invalid);
    };
    if text.is_empty() {
        return fault(field, Problem::Blank);
    }
    fit(field, text)
}

/// The value of the first member, by the order of the names' bytes.
fn first_member<'v>(languages: &'v Map<String, Value>) -> Option<&'v Value>
    ensures { option_map view_of result ≡ first_member (members_view languages.now.entries) }
{
    match languages.first_key_value() {
        None => None,
        Some((_, value)) => Some(value),
    }
}

/// The name in the first of its languages.
fn first_name<'v>(field: Field, languages: &'v Map<String, Value>) -> Result<&'v str, BodyFault>
    ensures value { Shows text_of result
        (first_name field (first_member (members_view languages.now.entries))) }
    ensures text { IfOk result (λ s. IsText s.now) }
{
    match first_member(languages) {
        None => fault(field, Problem::Blank),
        Some(value) => text(field, value),
    }
}

/// A name: a text, or an object of languages, of which the first by byte order counts.
pub fn name<'v>(field: Field, value: &'v Value) -> Result<&'v str, BodyFault>
    ensures value { Shows text_of result (name field (view value.now)) }
    ensures text { IfOk result (λ s. IsText s.now) }
{
    match value.as_object() {
        None => text(field, value),
        Some(languages) => first_name(field, languages),
    }
}

/// An amount of money from its text.
fn money_read(field: Field, text: &str) -> Result<Cents, BodyFault>
    ensures { result ≡ money_read field (money_of text.now) }
{
    match read_cents(text) {
        Ok(cents) => Ok(cents),
        Err(ValueRefusal::TooLarge) => fault(field, Problem::OutOfRange),
        Err(_) => fault(field, Problem::Invalid),
    }
}

/// An amount of money from a whole number of units.
fn units(field: Field, value: &Value) -> Result<Cents, BodyFault>
    ensures { result ≡ units_from field (count_in (view value.now)) }
{
    match value.as_u64() {
        None => fault(field, Problem::Invalid),
        Some(n) => {
            if n <= 99_999_999 {
                Ok(Cents::new(n * 100))
            } else {
                fault(field, Problem::OutOfRange)
            }
        }
    }
}

/// An amount of money: its text, or a whole number of units up to 99,999,999.
pub fn money(field: Field, value: &Value) -> Result<Cents, BodyFault>
    ensures { result ≡ money field (view value.now) }
{
    match value.as_str() {
        Some(text) => money_read(field, text),
        None => units(field, value),
    }
}

/// The moment that was read from a text.
fn moment_read(field: Field, read: Result<Moment, ValueRefusal>) -> Result<Moment, BodyFault>
    ensures { result ≡ moment_read field read }
{
    match read {
        Ok(moment) => Ok(moment),
        Err(ValueRefusal::OutOfRange) => fault(field, Problem::OutOfRange),
        Err(_) => fault(field, Problem::Invalid),
    }
}

/// A moment: the text of an instant, rounded down to the second.
pub fn moment(field: Field, value: &Value) -> Result<Moment, BodyFault>
    ensures { result ≡ moment field (view value.now) }
{
    match value.as_str() {
        None => fault(field, Problem::Invalid),
        Some(text) => moment_read(field, read_moment(text)),
    }
}

/// The moment that a text writes, or the last second in UTC of the day that it writes in ten bytes.
fn end_in(text: &str) -> Result<Moment, ValueRefusal>
    ensures { result ≡ end_in text.now }
{
    if text.len() == 10 {
        read_day(text)
    } else {
        read_moment(text)
    }
}

/// A moment at which something ends: the text of an instant, rounded down to the second, or a text of exactly
/// ten bytes that is a day, as `2026-05-01`, and stands for its last second in UTC.
pub fn end(field: Field, value: &Value) -> Result<Moment, BodyFault>
    ensures { result ≡ end field (view value.now) }
{
    match value.as_str() {
        None => fault(field, Problem::Invalid),
        Some(text) => moment_read(field, end_in(text)),
    }
}

/// Whether two texts are the same.
fn is(text: &str, word: &str) -> bool
    ensures { result ≡ same_text text.now word.now }
{
    text == word
}

/// The price mode that a word names.
fn mode_named(word: &str) -> Option<PriceMode>
    ensures { result ≡ mode_named word.now }
{
    if is(word, "none") {
        Some(PriceMode::None)
    } else if is(word, "set") {
        Some(PriceMode::Set)
    } else if is(word, "subtract") {
        Some(PriceMode::Subtract)
    } else if is(word, "percent") {
        Some(PriceMode::Percent)
    } else {
        None
    }
}

/// A price mode: `none`, `set`, `subtract` or `percent`.
pub fn price_mode(field: Field, value: &Value) -> Result<PriceMode, BodyFault>
    ensures { result ≡ price_mode field (view value.now) }
{
    match value.as_str().and_then(mode_named) {
        None => fault(field, Problem::Invalid),
        Some(mode) => Ok(mode),
    }
}
