//! The bodies of check-in lists and of scans, field by field. Only the first fault is answered.

ghost use Rattle.std.specs.Prelude.{◌≡◌};
ghost use Rattle.web_fields.specs.Reading.{Reads};
ghost use Rattle.web_bodies.specs.DoorBodies.{checkin_list_of, kind_named, kind, kind_of, scan_of};
ghost use Rattle.serde_json.specs.View.{view};

use crate::choices::is;
use crate::copies::copied;
use base_values::Text;
use model_commands::{NewCheckinList, Scan};
use model_faults::{Fault, Field, Problem};
use model_rows::CheckinKind;
use serde_json::Value;
use std::alloc::Global;
use web_fields::{
    BodyFault, ReadError, ids_or_none, name, optional_moment, optional_text, present,
    required_value, truth_or,
};

/// A new check-in list.
#[tactic(auto, unfolding(crate::specs::DoorBodies::checkin_list_of))]
pub fn checkin_list_of(alloc: Global, body: &Value) -> Result<NewCheckinList, ReadError>
    ensures { Reads result (checkin_list_of (view body.now)) }
{
    let name = name(Field::Name, required_value(Field::Name, body)?)?;
    let all_products = truth_or(Field::AllProducts, false, body)?;
    let limit_products = ids_or_none(alloc, Field::LimitProducts, body)?;
    let include_pending = truth_or(Field::IncludePending, false, body)?;
    let allow_multiple_entries = truth_or(Field::AllowMultipleEntries, false, body)?;
    let allow_entry_after_exit = truth_or(Field::AllowEntryAfterExit, false, body)?;
    Ok(NewCheckinList {
        name: Text::copy_of(alloc, name)?,
        all_products,
        limit_products,
        include_pending,
        allow_multiple_entries,
        allow_entry_after_exit,
    })
}

/// The kind of check-in that a word names.
fn kind_named(word: &str) -> Option<CheckinKind>
    ensures { result ≡ kind_named word.now }
{
    if is(word, "entry") {
        Some(CheckinKind::Entry)
    } else if is(word, "exit") {
        Some(CheckinKind::Exit)
    } else {
        None
    }
}

/// A kind of check-in: `entry` or `exit`.
fn kind(value: &Value) -> Result<CheckinKind, BodyFault>
    ensures { result ≡ kind (view value.now) }
{
    match value.as_str().and_then(kind_named) {
        None => Err(BodyFault::Field(Fault {
            field: Field::Type,
            problem: Problem::Invalid,
        })),
        Some(kind) => Ok(kind),
    }
}

/// What a scan is for: an entry, where it isn't said.
fn kind_of(body: &Value) -> Result<CheckinKind, BodyFault>
    ensures { result ≡ kind_of (view body.now) }
{
    match present(Field::Type, body)? {
        None => Ok(CheckinKind::Entry),
        Some(value) => kind(value),
    }
}

/// A scan.
#[tactic(auto, unfolding(crate::specs::DoorBodies::scan_of))]
pub fn scan_of(alloc: Global, body: &Value) -> Result<Scan, ReadError>
    ensures { Reads result (scan_of (view body.now)) }
{
    let kind = kind_of(body)?;
    let nonce = optional_text(Field::Nonce, body)?;
    let datetime = optional_moment(Field::Datetime, body)?;
    let force = truth_or(Field::Force, false, body)?;
    let ignore_unpaid = truth_or(Field::IgnoreUnpaid, false, body)?;
    Ok(Scan {
        kind,
        nonce: copied(alloc, nonce)?,
        datetime,
        force,
        ignore_unpaid,
    })
}
