//! The bodies of entries of the waiting list, field by field. Only the first fault is answered.

ghost use Rattle.std.specs.Prelude.{◌≡◌};
ghost use Rattle.web_fields.specs.Reading.{Reads};
ghost use Rattle.web_bodies.specs.WaitingBodies.{priority, waiting_of, new_priority, waiting_patch_of};
ghost use Rattle.serde_json.specs.View.{view};

use base_values::{MOST_PRIORITY, Priority, Text};
use model_commands::{NewWaiting, WaitingPatch};
use model_faults::Field;
use serde_json::Value;
use std::alloc::Global;
use web_fields::{
    BodyFault, ReadError, id, optional_id, patched_signed, required_value, signed_or, text,
};

/// The priority of a new entry.
#[tactic(auto, using(crate::proofs::Priorities::is_priority))]
fn priority(body: &Value) -> Result<Priority, BodyFault>
    ensures { result ≡ priority (view body.now) }
{
    let rank = signed_or(Field::Priority, 0, -MOST_PRIORITY, MOST_PRIORITY, body)?;
    Ok(Priority::new(rank))
}

/// A new entry.
#[tactic(auto, unfolding(crate::specs::WaitingBodies::waiting_of))]
pub fn waiting_of(alloc: Global, body: &Value) -> Result<NewWaiting, ReadError>
    ensures { Reads result (waiting_of (view body.now)) }
{
    let email = text(Field::Email, required_value(Field::Email, body)?)?;
    let item = id(Field::Item, required_value(Field::Item, body)?)?;
    let variation = optional_id(Field::Variation, body)?;
    let priority = priority(body)?;
    Ok(NewWaiting {
        email: Text::copy_of(alloc, email)?,
        item,
        variation,
        priority,
    })
}

/// The new priority, where it is given.
#[tactic(auto, using(crate::proofs::Priorities::is_priority))]
fn new_priority(body: &Value) -> Result<Option<Priority>, BodyFault>
    ensures { result ≡ new_priority (view body.now) }
{
    match patched_signed(Field::Priority, -MOST_PRIORITY, MOST_PRIORITY, body)? {
        None => Ok(None),
        Some(rank) => Ok(Some(Priority::new(rank))),
    }
}

/// A change of an entry. Its priority alone is read.
pub fn waiting_patch_of(body: &Value) -> Result<WaitingPatch, BodyFault>
    ensures { result ≡ waiting_patch_of (view body.now) }
{
    let priority = new_priority(body)?;
    Ok(WaitingPatch { priority })
}
