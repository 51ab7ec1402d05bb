//! Lists in a body.

ghost use Rattle.std.specs.Prelude.{◌≡◌, Result, IfOk};
ghost use Rattle.base_values.specs.Texts.{IsText};
ghost use Rattle.web_fields.specs.declared.error.BodyFault.{BodyFault};
ghost use Rattle.serde_json.specs.Data.{Data};
ghost use Rattle.web_fields.specs.Reading.{Gives, Reads, Shows, items_of_slice, text_of, view_of};
ghost use Rattle.web_fields.specs.Lists.{list, entry_id, entry_object, all_of, at_most, ids, entry_text, texts};
ghost use Rattle.serde_json.specs.View.{view, items_view};

use crate::error::{BodyFault, ReadError, fault};
use crate::kinds::{id, text};
use crate::modes::not_null;
use base_values::{List, Text};
use model_faults::{Field, Problem};
use serde_json::Value;
use std::alloc::Global;

/// The entries of a list.
pub fn list<'v>(field: Field, value: &'v Value) -> Result<&'v [Value], BodyFault>
    ensures { Shows items_of_slice result (list field (view value.now)) }
{
    match value.as_array() {
        None => fault(field, Problem::Invalid),
        Some(list) => Ok(list.as_slice()),
    }
}

/// An entry that is an id.
fn entry_id(field: Field, entry: &Value) -> Result<u64, BodyFault>
    ensures { result ≡ entry_id field (view entry.now) }
{
    id(field, not_null(field, entry)?)
}

/// An entry that is an object.
pub fn entry_object<'v>(field: Field, entry: &'v Value) -> Result<&'v Value, BodyFault>
    ensures { Shows view_of result (entry_object field (view entry.now)) }
{
    let value = not_null(field, entry)?;
    match value.as_object() {
        None => fault(field, Problem::Invalid),
        Some(_) => Ok(value),
    }
}

/// How the entries of a list are read.
pub trait Reading<T: Drop> {
    /// What an entry says, or its fault.
    ghost reading: { Self → Data → Result T BodyFault };

    /// What this entry says, or its fault. `Memory` where there is none for it.
    fn read(&self, alloc: Global, entry: &Value) -> Result<T, ReadError>
        ensures { Reads result (reading self.now (view entry.now)) };
}

/// What the first entries of a list say, at most this many of them, or the first fault of any entry: those behind them
/// are read too, and not kept. `Memory` where there is none for them.
pub fn first_entries<T: Drop, R: Reading<T>>(
    alloc: Global,
    reading: &R,
    most: usize,
    list: &[Value],
) -> Result<Vec<T>, ReadError>
    ensures { Gives (λ kept. kept.items) result
        (at_most most (all_of (R.reading reading.now) (items_view list.now))) }
{
    let mut found = Vec::new(alloc);
    for entry in list {
        let said = reading.read(alloc, entry)?;
        if found.len() < most && found.push(said).is_err() {
            return Err(ReadError::Memory);
        }
    }
    Ok(found)
}

/// What the entries of a list say, or the first fault. `Memory` where there is none for them.
pub fn entries<T: Drop, R: Reading<T>>(
    alloc: Global,
    reading: &R,
    list: &[Value],
) -> Result<Vec<T>, ReadError>
    ensures { Gives (λ all. all.items) result
        (all_of (R.reading reading.now) (items_view list.now)) }
{
    first_entries(alloc, reading, list.len(), list)
}

// Entries that are ids.
#[derive(Drop)]
struct AreIds {
    field: Field,
}

impl Reading<u64> for AreIds {
    ghost reading = { λ r d. entry_id r.field d };

    fn read(&self, _alloc: Global, entry: &Value) -> Result<u64, ReadError> {
        Ok(entry_id(self.field, entry)?)
    }
}

/// A list of ids as the body gives them. `Memory` where there is none for them.
pub fn ids(alloc: Global, field: Field, value: &Value) -> Result<List<u64>, ReadError>
    ensures { Reads result (ids field (view value.now)) }
{
    let found = entries(alloc, &AreIds { field }, list(field, value)?)?;
    Ok(List::new(found))
}

/// An entry that is a text, which isn't empty.
fn entry_text<'v>(field: Field, entry: &'v Value) -> Result<&'v str, BodyFault>
    ensures value { Shows text_of result (entry_text field (view entry.now)) }
    ensures text { IfOk result (λ s. IsText s.now) }
{
    text(field, not_null(field, entry)?)
}

// Entries that are texts, of which copies are made.
#[derive(Drop)]
struct AreTexts {
    field: Field,
}

impl Reading<Text> for AreTexts {
    ghost reading = { λ r d. entry_text r.field d };

    fn read(&self, alloc: Global, entry: &Value) -> Result<Text, ReadError> {
        Ok(Text::copy_of(alloc, entry_text(self.field, entry)?)?)
    }
}

/// A list of texts, none of them empty, each of at most 254 bytes and with no control byte. All faults are the list's.
/// `Memory` where there is none for the copies.
pub fn texts(alloc: Global, field: Field, value: &Value) -> Result<List<Text>, ReadError>
    ensures { Reads result (texts field (view value.now)) }
{
    let found = entries(alloc, &AreTexts { field }, list(field, value)?)?;
    Ok(List::new(found))
}
