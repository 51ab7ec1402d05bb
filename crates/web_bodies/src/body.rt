//! The body of a write.

ghost use Rattle.std.specs.Prelude.{◌≡◌};
ghost use Rattle.serde_json.specs.View.{view};
ghost use Rattle.web_fields.specs.Reading.{Gives, Reads};
ghost use Rattle.web_bodies.specs.Body.{body_text, json_of, object_of, shape_of, read_command, read_move, read_scan};

use crate::door_bodies::scan_of;
use crate::form::{Form, MoveName};
use crate::requests::{command_of, move_of};
use model_commands::{Command, Move, Scan};
use serde_json::Value;
use std::alloc::Global;
use web_fields::{BodyFault, ReadError};

/// The text of a body: `{}` for an empty one.
fn body_text(body: &[u8]) -> &[u8]
    ensures { result.now ≡ body_text body.now }
{
    if body.is_empty() { b"{}" } else { body }
}

/// The JSON value of a text.
fn json_of(alloc: Global, text: &[u8]) -> Result<Value, ReadError>
    ensures { Gives view result (json_of text.now) }
{
    match Value::from_slice(alloc, text) {
        Ok(value) => Ok(value),
        Err(error) => {
            if error.is_memory() {
                Err(ReadError::Memory)
            } else {
                Err(ReadError::Body(BodyFault::NotJson))
            }
        }
    }
}

/// Whether a value is an object.
fn check_object(value: &Value) -> Result<(), BodyFault>
    ensures { result ≡ object_of (view value.now) }
{
    if value.is_object() {
        Ok(())
    } else {
        Err(BodyFault::InvalidData)
    }
}

/// Whether a value is of the kind that a body of that form has. That the body of a bulk call is a list is tested where
/// its entries are read.
fn check_shape(form: Form, value: &Value) -> Result<(), BodyFault>
    ensures { result ≡ shape_of form (view value.now) }
{
    match form {
        Form::Carts => Ok(()),
        _ => check_object(value),
    }
}

/// The command that a body of that form says.
#[tactic(auto, unfolding(crate::specs::Body::read_command))]
pub fn read_command(alloc: Global, form: Form, body: &[u8]) -> Result<Command, ReadError>
    ensures { Reads result (read_command form body.now) }
{
    let value = json_of(alloc, body_text(body))?;
    check_shape(form, &value)?;
    command_of(alloc, form, &value)
}

/// What a body says of a move with that name.
#[tactic(auto, unfolding(crate::specs::Body::read_move))]
pub fn read_move(alloc: Global, name: MoveName, body: &[u8]) -> Result<Move, ReadError>
    ensures { Reads result (read_move name body.now) }
{
    let value = json_of(alloc, body_text(body))?;
    check_object(&value)?;
    Ok(move_of(name, &value)?)
}

/// What a body says of a scan.
#[tactic(auto, unfolding(crate::specs::Body::read_scan))]
pub fn read_scan(alloc: Global, body: &[u8]) -> Result<Scan, ReadError>
    ensures { Reads result (read_scan body.now) }
{
    let scan = json_of(alloc, body_text(body))?;
    check_object(&scan)?;
    scan_of(alloc, &scan)
}
