//! Orders and their positions as JSON.

ghost use Rattle.std.specs.Prelude.{◌≡◌};
ghost use Rattle.serde_json.specs.Data.{object, no_members, put, string};
ghost use Rattle.base_values.specs.Codes.{order_code};
ghost use Rattle.web_json.specs.OrderRows.{order_total, position_body, order_members, last_members, order_body};
ghost use Rattle.web_json.specs.Made.{AppendsJson, MakesJson, MakesMembers};

use crate::members::{with, with_moment, with_money, with_text, with_text_or_null};
use crate::pieces::{
    WriteRow, append_list_member, append_members, append_opened, append_text, append_value,
};
use crate::values::count_or_null;
use base_values::{Text, total_text};
use model_rows::{Order, OrderPos, code_of};
use serde_json::{Map, Value, json};
use std::alloc::{AllocError, Global};

/// The members with the code of an order.
fn with_code(
    alloc: Global,
    members: Map<String, Value>,
    key: &str,
    number: u64,
) -> Result<Map<String, Value>, AllocError>
    ensures { MakesMembers result members (put key.now (string (order_code number))) }
{
    let code = code_of(alloc, number)?;
    with_text(alloc, members, key, code.as_str())
}

/// A position.
pub(crate) fn position_value(alloc: Global, position: &OrderPos) -> Result<Value, AllocError>
    ensures { MakesJson result (position_body position.now) }
{
    let variation = count_or_null(position.product.variation);
    let members = Map::new(alloc);
    let members = with(alloc, members, "id", Value::from(position.id))?;
    let members = with(alloc, members, "item", Value::from(position.product.item))?;
    let members = with_code(alloc, members, "order", position.order)?;
    let members = with(
        alloc,
        members,
        "positionid",
        Value::from(position.positionid),
    )?;
    let members = with_money(alloc, members, "price", position.price)?;
    let members = with_text(alloc, members, "secret", position.secret.as_str())?;
    let members = with(alloc, members, "variation", variation)?;
    let members = with(alloc, members, "voucher", count_or_null(position.voucher))?;
    Ok(Value::Object(members))
}

/// Writes the positions of an order.
struct PositionWriter;

impl WriteRow<OrderPos> for PositionWriter {
    ghost body = { λ _ position. position_body position };

    fn append(&self, alloc: Global, out: &mut Vec<u8>, row: &OrderPos) -> Result<(), AllocError> {
        let value = position_value(alloc, row)?;
        append_value(alloc, out, &value)
    }
}

/// What the positions cost together, in cents.
fn total(positions: &[OrderPos]) -> u128
    ensures { result ≡ order_total positions.now }
{
    let mut cents = 0;
    for position in positions {
        cents += u128::from(position.price.get());
    }
    cents
}

/// What stands of an order before its positions.
fn order_value(alloc: Global, order: &Order) -> Result<Value, AllocError>
    ensures { MakesJson result (object (order_members order.now no_members)) }
{
    let members = with_code(alloc, Map::new(alloc), "code", order.id)?;
    let members = with_moment(alloc, members, "datetime", order.made_at)?;
    let members = with_text_or_null(alloc, members, "email", &order.email)?;
    let members = with_moment(alloc, members, "expires", order.expires)?;
    Ok(Value::Object(members))
}

/// What stands of an order behind its positions.
fn last_value(alloc: Global, order: &Order, positions: &[OrderPos]) -> Result<Value, AllocError>
    ensures { MakesJson result (object (last_members order.now positions.now)) }
{
    let total = total_text(alloc, total(positions))?;
    json!(in alloc; {"status": order.status.letter(), "total": total.as_str()})
}

/// Appends an order with its positions.
pub(crate) fn append_order(
    alloc: Global,
    out: &mut Vec<u8>,
    order: &Order,
    positions: &[OrderPos],
) -> Result<(), AllocError>
    ensures { AppendsJson result out.old out.new (order_body order.now positions.now) }
{
    let value = order_value(alloc, order)?;
    let last = last_value(alloc, order, positions)?;
    append_opened(alloc, out, &value)?;
    append_list_member(alloc, out, "positions", &PositionWriter, positions)?;
    append_members(alloc, out, &last)?;
    append_text(out, "}")
}
