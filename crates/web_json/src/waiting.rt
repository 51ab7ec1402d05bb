//! Entries of the waiting list, and what periodic work did, as JSON.

ghost use Rattle.web_json.specs.WaitingRows.{waiting_body, periodic_body};
ghost use Rattle.web_json.specs.Made.{AppendsJson, MakesJson};

use crate::members::{with, with_moment, with_text};
use crate::pieces::append_value;
use crate::values::count_or_null;
use model_commands::PeriodicCounts;
use model_rows::Waiting;
use serde_json::{Map, Value, json};
use std::alloc::{AllocError, Global};

/// An entry.
fn waiting_value(alloc: Global, entry: &Waiting) -> Result<Value, AllocError>
    ensures { MakesJson result (waiting_body entry.now) }
{
    let variation = count_or_null(entry.product.variation);
    let members = with_moment(alloc, Map::new(alloc), "created", entry.created)?;
    let members = with_text(alloc, members, "email", entry.email.as_str())?;
    let members = with(alloc, members, "id", Value::from(entry.id))?;
    let members = with(alloc, members, "item", Value::from(entry.product.item))?;
    let members = with(
        alloc,
        members,
        "priority",
        Value::from(entry.priority.get()),
    )?;
    let members = with(alloc, members, "variation", variation)?;
    let members = with(alloc, members, "voucher", count_or_null(entry.voucher))?;
    Ok(Value::Object(members))
}

/// Appends an entry.
pub(crate) fn append_waiting(
    alloc: Global,
    out: &mut Vec<u8>,
    entry: &Waiting,
) -> Result<(), AllocError>
    ensures { AppendsJson result out.old out.new (waiting_body entry.now) }
{
    let value = waiting_value(alloc, entry)?;
    append_value(alloc, out, &value)
}

/// What periodic work did.
pub fn periodic_value(alloc: Global, counts: PeriodicCounts) -> Result<Value, AllocError>
    ensures { MakesJson result (periodic_body counts) }
{
    json!(in alloc; {
        "deleted": counts.deleted,
        "expired": counts.expired,
        "sent": counts.sent,
    })
}
