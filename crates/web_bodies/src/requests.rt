//! The bodies of commands, field by field. Only the first fault is answered.

ghost use Rattle.std.specs.Prelude.{◌≡◌};
ghost use Rattle.web_fields.specs.Reading.{Reads, Shows, items_of_slice};
ghost use Rattle.web_bodies.specs.Requests.{list_of, carts_of, move_of, command_of};
ghost use Rattle.serde_json.specs.View.{view};

use crate::cart_bodies::cart_of;
use crate::catalogue_bodies::{item_of, item_patch_of, quota_of, quota_patch_of, variation_of};
use crate::door_bodies::checkin_list_of;
use crate::form::{Form, MoveName};
use crate::order_bodies::{end_of, entries_of, order_of};
use crate::voucher_bodies::{voucher_of, voucher_patch_of};
use crate::waiting_bodies::{waiting_of, waiting_patch_of};
use base_values::List;
use model_commands::{Command, Entry, Move};
use serde_json::Value;
use std::alloc::Global;
use web_fields::{BodyFault, ReadError};

/// The entries of a body that is a list.
fn list_of(body: &Value) -> Result<&[Value], BodyFault>
    ensures { Shows items_of_slice result (list_of (view body.now)) }
{
    match body.as_array() {
        None => Err(BodyFault::InvalidData),
        Some(list) => Ok(list.as_slice()),
    }
}

/// The entries of a bulk call.
fn carts_of(alloc: Global, body: &Value) -> Result<List<Entry>, ReadError>
    ensures { Reads result (carts_of (view body.now)) }
{
    entries_of(alloc, list_of(body)?)
}

/// The move with that name. Only `extend` reads a field.
pub fn move_of(name: MoveName, body: &Value) -> Result<Move, BodyFault>
    ensures { result ≡ move_of name (view body.now) }
{
    match name {
        MoveName::MarkPaid => Ok(Move::MarkPaid),
        MoveName::MarkPending => Ok(Move::MarkPending),
        MoveName::MarkExpired => Ok(Move::MarkExpired),
        MoveName::MarkCanceled => Ok(Move::MarkCanceled),
        MoveName::Extend => Ok(Move::Extend(end_of(body)?)),
    }
}

/// The command that a body's fields say.
pub fn command_of(alloc: Global, form: Form, body: &Value) -> Result<Command, ReadError>
    ensures { Reads result (command_of form (view body.now)) }
{
    match form {
        Form::Item => Ok(Command::AddItem(item_of(alloc, body)?)),
        Form::ItemPatch(id) => Ok(Command::ChangeItem(id, item_patch_of(alloc, body)?)),
        Form::Variation(item) => Ok(Command::AddVariation(item, variation_of(alloc, body)?)),
        Form::Quota => Ok(Command::AddQuota(quota_of(alloc, body)?)),
        Form::QuotaPatch(id) => Ok(Command::ResizeQuota(id, quota_patch_of(body)?)),
        Form::Voucher => Ok(Command::AddVoucher(voucher_of(alloc, body)?)),
        Form::VoucherPatch(id) => Ok(Command::ChangeVoucher(id, voucher_patch_of(alloc, body)?)),
        Form::DropVoucher(id) => Ok(Command::DropVoucher(id)),
        Form::Cart => Ok(Command::AddCart(cart_of(alloc, body)?)),
        Form::Carts => Ok(Command::AddCarts(carts_of(alloc, body)?)),
        Form::DropCart(id) => Ok(Command::DropCart(id)),
        Form::Order => Ok(Command::AddOrder(order_of(alloc, body)?)),
        Form::Move(number, name) => Ok(Command::MoveOrder(number, move_of(name, body)?)),
        Form::Waiting => Ok(Command::AddWaiting(waiting_of(alloc, body)?)),
        Form::WaitingPatch(id) => Ok(Command::ChangeWaiting(id, waiting_patch_of(body)?)),
        Form::DropWaiting(id) => Ok(Command::DropWaiting(id)),
        Form::SendVoucher(id) => Ok(Command::SendVoucher(id)),
        Form::Periodic => Ok(Command::Periodic),
        Form::CheckinList => Ok(Command::AddCheckinList(checkin_list_of(alloc, body)?)),
    }
}
