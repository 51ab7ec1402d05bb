//! What a method asks for at a target.

ghost use Rattle.std.specs.Prelude.{◌≡◌};
ghost use Rattle.web_api.specs.Endpoints.{new_form, change_form, drop_form, write_of, read_order, move_order, endpoint_of, methods_of};

use crate::path::Target;
use crate::verb::Verb;
use base_values::Methods;
use model_commands::{Query, Resource};
use web_bodies::{Form, MoveName};

/// What a method asks for at a target.
#[derive(Clone, Copy, PartialEq, Eq)]
pub enum Endpoint {
    /// A page of a list, whose number stands in the target's query; the body isn't looked at.
    Page(Resource),
    /// Any other query; neither the target's query nor the body is looked at.
    Read(Query),
    /// A command, whose body has that form.
    Write(Form),
    /// An order that there isn't: its path has no order's code. Neither the target's query nor the body is looked at.
    ReadMissing,
    /// A move of an order that there isn't: its path has no order's code. The body is read first.
    MoveMissing(MoveName),
    /// A scan at the check-in list with this id; the path has the ticket, and the body the rest.
    Redeem(u64),
}

/// The form of a new row, if a request makes rows of that kind by themselves.
fn new_form(resource: Resource) -> Option<Form>
    ensures { result ≡ new_form resource }
{
    match resource {
        Resource::Items => Some(Form::Item),
        Resource::Quotas => Some(Form::Quota),
        Resource::Vouchers => Some(Form::Voucher),
        Resource::Carts => Some(Form::Cart),
        Resource::Orders => Some(Form::Order),
        Resource::WaitingEntries => Some(Form::Waiting),
        Resource::CheckinLists => Some(Form::CheckinList),
        Resource::Tickets(_) => None,
    }
}

/// The form of a change, if rows of that kind can be changed.
fn change_form(resource: Resource, id: u64) -> Option<Form>
    ensures { result ≡ change_form resource id }
{
    match resource {
        Resource::Items => Some(Form::ItemPatch(id)),
        Resource::Quotas => Some(Form::QuotaPatch(id)),
        Resource::Vouchers => Some(Form::VoucherPatch(id)),
        Resource::WaitingEntries => Some(Form::WaitingPatch(id)),
        Resource::Carts | Resource::Orders | Resource::CheckinLists | Resource::Tickets(_) => None,
    }
}

/// The form of a deletion, if rows of that kind can be deleted.
fn drop_form(resource: Resource, id: u64) -> Option<Form>
    ensures { result ≡ drop_form resource id }
{
    match resource {
        Resource::Vouchers => Some(Form::DropVoucher(id)),
        Resource::Carts => Some(Form::DropCart(id)),
        Resource::WaitingEntries => Some(Form::DropWaiting(id)),
        _ => None,
    }
}

/// The command of a form, if there is one.
fn write_of(form: Option<Form>) -> Option<Endpoint>
    ensures { result ≡ write_of form }
{
    form.map(Endpoint::Write)
}

/// The reading of the order with this number.
fn read_order(number: Option<u64>) -> Endpoint
    ensures { result ≡ read_order number }
{
    match number {
        None => Endpoint::ReadMissing,
        Some(number) => Endpoint::Read(Query::One(Resource::Orders, number)),
    }
}

/// A move of the order with this number.
fn move_order(number: Option<u64>, name: MoveName) -> Endpoint
    ensures { result ≡ move_order number name }
{
    match number {
        None => Endpoint::MoveMissing(name),
        Some(number) => Endpoint::Write(Form::Move(number, name)),
    }
}

/// What a method asks for at a target, if the target has it.
pub fn endpoint_of(target: Target, verb: Verb) -> Option<Endpoint>
    ensures { result ≡ endpoint_of target verb }
{
    match (target, verb) {
        (Target::All(resource), Verb::Get) => Some(Endpoint::Page(resource)),
        (Target::All(resource), Verb::Post) => write_of(new_form(resource)),
        (Target::One(resource, id), Verb::Get) => Some(Endpoint::Read(Query::One(resource, id))),
        (Target::One(resource, id), Verb::Patch) => write_of(change_form(resource, id)),
        (Target::One(resource, id), Verb::Delete) => write_of(drop_form(resource, id)),
        (Target::Variations(item), Verb::Post) => Some(Endpoint::Write(Form::Variation(item))),
        (Target::Availability(quota), Verb::Get) => {
            Some(Endpoint::Read(Query::Availability(quota)))
        }
        (Target::Bulk, Verb::Post) => Some(Endpoint::Write(Form::Carts)),
        (Target::Order(number), Verb::Get) => Some(read_order(number)),
        (Target::Moved(number, name), Verb::Post) => Some(move_order(number, name)),
        (Target::Sending(id), Verb::Post) => Some(Endpoint::Write(Form::SendVoucher(id))),
        (Target::Periodic, Verb::Post) => Some(Endpoint::Write(Form::Periodic)),
        (Target::Status(list), Verb::Get) => Some(Endpoint::Read(Query::Status(list))),
        (Target::Redeem(list), Verb::Post) => Some(Endpoint::Redeem(list)),
        _ => None,
    }
}

/// The methods that a target has.
pub fn methods_of(target: Target) -> Methods
    ensures { result ≡ methods_of target }
{
    Methods {
        get: endpoint_of(target, Verb::Get).is_some(),
        post: endpoint_of(target, Verb::Post).is_some(),
        patch: endpoint_of(target, Verb::Patch).is_some(),
        delete: endpoint_of(target, Verb::Delete).is_some(),
    }
}
