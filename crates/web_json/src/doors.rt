//! Check-in lists, the positions that belong to one, and what a door answers, as JSON.

ghost use Rattle.std.specs.Prelude.{◌≡◌};
ghost use Rattle.serde_json.specs.Data.{object, no_members};
ghost use Rattle.web_json.specs.DoorRows.{checkin_list_members, list_name, checkin_list_body, kind_word, checkin_body, ticket_body, admitted_body, door_status_body};
ghost use Rattle.web_json.specs.Made.{AppendsJson, MakesJson};

use crate::members::{with, with_moment, with_text, with_text_or_null};
use crate::orders::position_value;
use crate::pieces::{
    WriteRow, append_key_and_list, append_list_member, append_members, append_opened, append_text,
    append_value,
};
use crate::values::CountWriter;
use model_commands::DoorStatus;
use model_rows::{Checkin, CheckinKind, CheckinList, OrderPos};
use serde_json::{Map, Value, json};
use std::alloc::{AllocError, Global};

/// What stands of a check-in list before the ids of its items.
fn list_value(alloc: Global, list: &CheckinList) -> Result<Value, AllocError>
    ensures { MakesJson result (object (checkin_list_members list.now no_members)) }
{
    let again = Value::Bool(list.allow_entry_after_exit);
    let many = Value::Bool(list.allow_multiple_entries);
    let members = Map::new(alloc);
    let members = with(
        alloc,
        members,
        "all_products",
        Value::Bool(list.all_products),
    )?;
    let members = with(alloc, members, "allow_entry_after_exit", again)?;
    let members = with(alloc, members, "allow_multiple_entries", many)?;
    let members = with(alloc, members, "id", Value::from(list.id))?;
    let members = with(
        alloc,
        members,
        "include_pending",
        Value::Bool(list.include_pending),
    )?;
    Ok(Value::Object(members))
}

/// The name of a check-in list.
fn name_value(alloc: Global, list: &CheckinList) -> Result<Value, AllocError>
    ensures { MakesJson result (object (list_name list.now)) }
{
    json!(in alloc; {"name": list.name.as_str()})
}

/// Appends a check-in list.
pub(crate) fn append_checkin_list(
    alloc: Global,
    out: &mut Vec<u8>,
    list: &CheckinList,
) -> Result<(), AllocError>
    ensures { AppendsJson result out.old out.new (checkin_list_body list.now) }
{
    let value = list_value(alloc, list)?;
    let name = name_value(alloc, list)?;
    let items = list.limit_products.as_slice();
    append_opened(alloc, out, &value)?;
    append_list_member(alloc, out, "limit_products", &CountWriter, items)?;
    append_members(alloc, out, &name)?;
    append_text(out, "}")
}

/// The word of a check-in's kind.
fn kind_word(kind: CheckinKind) -> &'static str
    ensures { result.now ≡ kind_word kind }
{
    match kind {
        CheckinKind::Entry => "entry",
        CheckinKind::Exit => "exit",
    }
}

/// A check-in.
fn checkin_value(alloc: Global, checkin: &Checkin) -> Result<Value, AllocError>
    ensures { MakesJson result (checkin_body checkin.now) }
{
    let members = with_moment(alloc, Map::new(alloc), "datetime", checkin.datetime)?;
    let members = with(alloc, members, "id", Value::from(checkin.id))?;
    let members = with_text_or_null(alloc, members, "nonce", &checkin.nonce)?;
    let members = with_text(alloc, members, "type", kind_word(checkin.kind))?;
    Ok(Value::Object(members))
}

/// Writes the check-ins of a position.
struct CheckinWriter;

impl WriteRow<Checkin> for CheckinWriter {
    ghost body = { λ _ checkin. checkin_body checkin };

    fn append(&self, alloc: Global, out: &mut Vec<u8>, row: &Checkin) -> Result<(), AllocError> {
        let value = checkin_value(alloc, row)?;
        append_value(alloc, out, &value)
    }
}

/// Appends a position with its check-ins of a list.
pub(crate) fn append_ticket(
    alloc: Global,
    out: &mut Vec<u8>,
    position: &OrderPos,
    checkins: &[Checkin],
) -> Result<(), AllocError>
    ensures { AppendsJson result out.old out.new (ticket_body position.now checkins.now) }
{
    let value = position_value(alloc, position)?;
    append_text(out, "{")?;
    append_key_and_list(alloc, out, "checkins", &CheckinWriter, checkins)?;
    append_members(alloc, out, &value)?;
    append_text(out, "}")
}

/// A position that was let in or out.
pub fn admitted_value(alloc: Global, position: &OrderPos) -> Result<Value, AllocError>
    ensures { MakesJson result (admitted_body position.now) }
{
    let position = position_value(alloc, position)?;
    json!(in alloc; {"position": position, "status": "ok"})
}

/// The numbers of a check-in list.
pub fn door_status_value(alloc: Global, door: DoorStatus) -> Result<Value, AllocError>
    ensures { MakesJson result (door_status_body door) }
{
    json!(in alloc; {
        "checkin_count": door.entered,
        "inside_count": door.inside,
        "position_count": door.positions,
    })
}
