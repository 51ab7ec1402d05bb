//! The values that the columns of a voucher file write.

ghost use Rattle.std.specs.Prelude.{◌≡◌, true};
ghost use Rattle.csv.specs.Records.{fields_of};
ghost use Rattle.base_values.specs.Texts.{IsText, same_text};
ghost use Rattle.app_csv.specs.Columns.{column, fits_mode, flag_in, id_in, is_code, is_column, is_named, mode_in, moment_in, uses_in, value_in};

use base_dates::read_moment;
use base_values::{Cents, MOST_USES, Moment, PriceMode, Uses, is_text, number_of, read_cents};
use csv::ByteRecord;
use model_catalogue::LAST_ID;
use std::str;

/// The text of the column at a place, from 0; an empty one where there is none, or it isn't UTF-8.
pub(crate) fn column(row: &ByteRecord, at: usize) -> &str
    ensures { result.now ≡ column (fields_of row.now) at }
{
    let Some(field) = row.get(at) else {
        return "";
    };
    match str::from_utf8(field) {
        Ok(text) => text,
        Err(_) => "",
    }
}

/// Whether there is a column at a place, from 0, and it is UTF-8.
pub(crate) fn is_column(row: &ByteRecord, at: usize) -> bool
    ensures { result ≡ is_column (fields_of row.now) at }
{
    let Some(field) = row.get(at) else {
        return false;
    };
    match str::from_utf8(field) {
        Ok(_) => true,
        Err(_) => false,
    }
}

/// Whether the column at a place, from 0, has this name.
pub(crate) fn is_named(row: &ByteRecord, at: usize, name: &str) -> bool
    ensures { result ≡ is_named (fields_of row.now) at name.now }
{
    is(column(row, at), name)
}

// Whether two texts are the same.
fn is(text: &str, word: &str) -> bool
    ensures { result ≡ same_text text.now word.now }
{
    text == word
}

/// Whether a text is a code: not empty, at most 254 bytes, none of them a control byte.
pub(crate) fn is_code(text: &str) -> bool
    ensures value { result ≡ is_code text.now }
    ensures text { result ≡ true → IsText text.now }
{
    !text.is_empty() && is_text(text)
}

/// 1 to 1,000,000 uses.
pub(crate) fn uses_in(text: &str) -> Option<Uses>
    ensures { result ≡ uses_in text.now }
{
    match number_of(text.as_bytes()) {
        Some(n) if n >= 1 && n <= MOST_USES => Some(Uses::new(n as u32)),
        _ => None,
    }
}

/// A moment, or none where the column is empty.
pub(crate) fn moment_in(text: &str) -> Option<Option<Moment>>
    ensures { result ≡ moment_in text.now }
{
    if text.is_empty() {
        return Some(None);
    }
    match read_moment(text) {
        Ok(moment) => Some(Some(moment)),
        Err(_) => None,
    }
}

/// `true` or `false`.
pub(crate) fn flag_in(text: &str) -> Option<bool>
    ensures { result ≡ flag_in text.now }
{
    if is(text, "true") {
        Some(true)
    } else if is(text, "false") {
        Some(false)
    } else {
        None
    }
}

/// `none`, `set`, `subtract` or `percent`.
pub(crate) fn mode_in(text: &str) -> Option<PriceMode>
    ensures { result ≡ mode_in text.now }
{
    if is(text, "none") {
        Some(PriceMode::None)
    } else if is(text, "set") {
        Some(PriceMode::Set)
    } else if is(text, "subtract") {
        Some(PriceMode::Subtract)
    } else if is(text, "percent") {
        Some(PriceMode::Percent)
    } else {
        None
    }
}

// Whether no more than 100.00 percent are taken off.
fn fits_mode(mode: PriceMode, value: Cents) -> bool
    ensures { result ≡ fits_mode mode value }
{
    match mode {
        PriceMode::Percent => value.get() <= 10_000,
        _ => true,
    }
}

/// An amount as a text of money, in cents or in hundredths of a percent, or none where the column is empty.
pub(crate) fn value_in(mode: PriceMode, text: &str) -> Option<Option<Cents>>
    ensures { result ≡ value_in mode text.now }
{
    if text.is_empty() {
        return Some(None);
    }
    match read_cents(text) {
        Ok(value) if fits_mode(mode, value) => Some(Some(value)),
        _ => None,
    }
}

/// An id, 1 to 9,007,199,254,740,991, or none where the column is empty.
pub(crate) fn id_in(text: &str) -> Option<Option<u64>>
    ensures { result ≡ id_in text.now }
{
    if text.is_empty() {
        return Some(None);
    }
    match number_of(text.as_bytes()) {
        Some(id) if id >= 1 && id <= LAST_ID => Some(Some(id)),
        _ => None,
    }
}
