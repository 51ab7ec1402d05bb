//! Whether a field has to be there, and whether it may be null.

ghost use Rattle.std.specs.Prelude.{◌≡◌, option_map};
ghost use Rattle.web_fields.specs.Reading.{Shows, view_of};
ghost use Rattle.web_fields.specs.Modes.{not_null, required_value, nullable, optional, present, unless_null, maybe};
ghost use Rattle.serde_json.specs.View.{view};

use crate::error::{BodyFault, fault};
use model_faults::{Field, Problem};
use serde_json::Value;

/// A value that may not be null.
pub(crate) fn not_null<'v>(field: Field, value: &'v Value) -> Result<&'v Value, BodyFault>
    ensures { Shows view_of result (not_null field (view value.now)) }
{
    if value.is_null() {
        fault(field, Problem::Null)
    } else {
        Ok(value)
    }
}

/// The value of a field that has to be there, and may not be null.
pub fn required_value<'v>(field: Field, body: &'v Value) -> Result<&'v Value, BodyFault>
    ensures { Shows view_of result (required_value field (view body.now)) }
{
    match body.get(field.name()) {
        None => fault(field, Problem::Required),
        Some(value) => not_null(field, value),
    }
}

/// The value, or none where it is null.
fn unless_null(value: &Value) -> Option<&Value>
    ensures { option_map view_of result ≡ unless_null (view value.now) }
{
    if value.is_null() { None } else { Some(value) }
}

/// The value of a field that has to be there, and may be null.
pub fn nullable<'v>(field: Field, body: &'v Value) -> Result<Option<&'v Value>, BodyFault>
    ensures { Shows (option_map view_of) result (nullable field (view body.now)) }
{
    match body.get(field.name()) {
        None => fault(field, Problem::Required),
        Some(value) => Ok(unless_null(value)),
    }
}

/// The value of a field that may be absent or null.
pub fn optional<'v>(field: Field, body: &'v Value) -> Option<&'v Value>
    ensures { option_map view_of result ≡ optional field (view body.now) }
{
    match body.get(field.name()) {
        None => None,
        Some(value) => unless_null(value),
    }
}

/// The value of a field that may be absent, and may not be null.
pub fn present<'v>(field: Field, body: &'v Value) -> Result<Option<&'v Value>, BodyFault>
    ensures { Shows (option_map view_of) result (present field (view body.now)) }
{
    match body.get(field.name()) {
        None => Ok(None),
        Some(value) => Ok(Some(not_null(field, value)?)),
    }
}

/// The value of a field that may be absent, and may be null: the outer option tells whether it is there.
pub fn maybe<'v>(field: Field, body: &'v Value) -> Option<Option<&'v Value>>
    ensures { option_map (option_map view_of) result ≡ maybe field (view body.now) }
{
    match body.get(field.name()) {
        None => None,
        Some(value) => Some(unless_null(value)),
    }
}
